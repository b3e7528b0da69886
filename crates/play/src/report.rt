// What is told, a line to a message: on standard error, and the result where it is asked for.
// Where standard error takes nothing there is no other place to tell it.
use base_answer::Answer;
use std::io;
use std::io::{Cursor, IsTerminal, Write};

// Cycles in a second.
const CYCLES: u32 = 100;

// Room for the system's words of a fault.
const WORDS: usize = 256;

fn say(rt: &HostRuntime, text: &[u8]) {
    let _ = Print::write_all(&rt.stderr(), text);
}

pub fn usage(rt: &HostRuntime) {
    say(
        rt,
        b"play: usage: play ORCHESTRA SCORE OUT [CEILING [SECONDS]]\n",
    );
    say(
        rt,
        b"  The bytes of an orchestra and of a score (text where its name ends in .sasl or .txt) into a new WAV file; - is standard output.\n",
    );
    say(
        rt,
        b"  CEILING is from 1 to 32,767; a piece plays to its end line, or until nothing is left of it, or for SECONDS.\n",
    );
    say(
        rt,
        b"  bin/play takes more, and tells what is wrong in words.\n",
    );
}

fn about(rt: &HostRuntime, path: &[u8]) {
    say(rt, b"play: ");
    say(rt, path);
}

// The system's words, without the number that stands behind them.
fn words_of(text: &str) -> &str {
    text.split_once(" (os error ")
        .map_or(text, |(words, _)| words)
}

fn told(rt: &HostRuntime, text: &[u8]) {
    match std::str::from_utf8(text) {
        Ok(all) => {
            let words = words_of(all);
            let _ = eprintln!(rt; ": {words}");
        }
        Err(_) => say(rt, b"\n"),
    }
}

// What the system says of a fault.
pub fn fault(rt: &HostRuntime, path: &[u8], e: &io::Error) {
    about(rt, path);
    let mut buffer = [0u8; WORDS];
    let mut words = Cursor::new(&mut buffer[..]);
    let _ = write!(words, "{e}");
    let n = words.position();
    if n <= WORDS as u64 {
        told(rt, &buffer[..n as usize]);
    }
}

fn numbered(rt: &HostRuntime, a: Answer) {
    let number = base_answer::number(a);
    let _ = eprintln!(rt; ": refusal {number}");
}

// A fresh start refuses 3 only of the ceiling.
pub fn refused_start(rt: &HostRuntime, path: &[u8], a: Answer) {
    if base_answer::number(a) == 3 {
        about(rt, b"CEILING");
    } else {
        about(rt, path);
    }
    numbered(rt, a);
}

// Lines are counted from 0, as the panel counts them.
pub fn refused_score(rt: &HostRuntime, path: &[u8], line: usize, a: Answer) {
    about(rt, path);
    let _ = eprint!(rt; ": line {line}");
    numbered(rt, a);
}

// A score that is longer than there is room for.
pub fn room(rt: &HostRuntime, path: &[u8], bytes: usize, lines: usize) {
    about(rt, path);
    let _ = eprintln!(rt;
        ": there is room for {lines} lines in fewer than {bytes} bytes; bin/play takes more"
    );
}

// Where a reader has closed the pipe there is nothing to tell.
pub fn unwritten(rt: &HostRuntime, e: &io::Error) {
    if e.kind() != io::ErrorKind::BrokenPipe {
        fault(rt, b"the sound cannot be written", e);
    }
}

// On a terminal, one line that is written over.
pub fn progress(rt: &HostRuntime, cycles: u32) {
    if cycles % CYCLES == 0 && rt.stderr().is_terminal() {
        let seconds = cycles / CYCLES;
        let _ = eprint!(rt; "\rplay: {seconds} s");
    }
}

pub fn progress_over(rt: &HostRuntime) {
    if rt.stderr().is_terminal() {
        say(rt, b"\r                \r");
    }
}

pub fn stopped(rt: &HostRuntime) {
    say(rt, b"play: stopped before the piece has ended\n");
}

fn missed(to: &impl Print, notes: u64, first: u32) -> io::Result<()> {
    print!(to; "{notes} notes missed")?;
    if 0 < notes {
        print!(to; ", the first in cycle {first}")?;
    }
    Ok(())
}

// What was played.
pub fn played(
    to: &impl Print,
    out: &[u8],
    cycles: u32,
    notes: u64,
    first: u32,
    sum: u32,
) -> io::Result<()> {
    print!(to; "play: ")?;
    Print::write_all(to, out)?;
    print!(to; ": {cycles} cycles, ")?;
    missed(to, notes, first)?;
    println!(to; ", checksum {sum:08x}")
}
