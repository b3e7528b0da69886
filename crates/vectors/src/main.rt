// The checked values that a program runs, and every refusal, through the public calls. Each line of the input is a case, and each
// with a title is told with what was expected and what came.
#![tactic(auto)]

mod areas;
mod calls;
mod listening;
mod naming;
mod session;
mod settings;
mod text;

use session::Session;
use std::io;
use text::{Numbers, Tail};

const ROOM: usize = 65536;

fn told(rt: &HostRuntime, title: &[u8], expected: u64, got: u64) -> io::Result<()> {
    rt.write_all(title)?;
    println!(rt; ": expected {expected}, got {got}")
}

// By its title; a line that has none only prepares, and is told, whole, where something else came.
fn reported(rt: &HostRuntime, line: &[u8], t: Tail<'_>, got: u64) -> io::Result<()> {
    if !t.title.is_empty() {
        return told(rt, t.title, t.expected, got);
    }
    if got != t.expected {
        return told(rt, line, t.expected, got);
    }
    Ok(())
}

fn case_of(rt: &HostRuntime, line: &[u8], d: Session) -> io::Result<Session> {
    let mut numbers = Numbers::none();
    let h = text::head_of(line);
    let t = text::tail_of(h, &mut numbers);
    let after = session::carried_out(d, h, numbers.items());
    reported(rt, line, t, after.got)?;
    Ok(after)
}

fn run(rt: &HostRuntime, text: &[u8]) -> io::Result<()> {
    let mut d = session::bare();
    for line in text.split(|b| text::ends_line(*b)) {
        if !text::is_remark(line) {
            d = case_of(rt, line, d)?;
        }
    }
    Ok(())
}

fn main(rt: HostRuntime) -> io::Result<()> {
    let mut text = [0u8; ROOM];
    program_io::read_full(&mut rt.stdin(), &mut text);
    run(&rt, &text)?;
    areas::write_line_cases(&rt)
}
