// The score on standard input, read over and over: as text where an argument is given, else as bits. With two arguments it is a
// symbol table, which is unpacked and asked for its last name. bench/run.sh times it.
#![tactic(auto)]

mod naming;

use std::io;

const ROOM: usize = 1048576;

const TIMES: u32 = 30;

fn room() -> [u8; ROOM] {
    [0; ROOM]
}

fn answered(bytes: &[u8], text: bool) -> u8 {
    if text {
        let t = text_reader::read_text(bytes);
        let a = t.answer;
        return base_answer::number(a);
    }
    let b = score_reader::read_score(bytes);
    let a = b.answer;
    base_answer::number(a)
}

// The answer of the last reading.
fn repeated(bytes: &[u8], text: bool) -> u8 {
    let mut number: u8 = 0;
    for _ in 0..TIMES {
        number = answered(bytes, text);
    }
    number
}

// The length of the last name.
fn repeated_names(bytes: &[u8]) -> u8 {
    let mut buffer = room();
    let mut number: u8 = 0;
    for _ in 0..TIMES {
        number = naming::unpacked(bytes, &mut buffer);
    }
    number
}

fn last_answer(rt: &HostRuntime, bytes: &[u8], text: bool) -> u8 {
    if program_io::has_argument(rt, 2) {
        return repeated_names(bytes);
    }
    repeated(bytes, text)
}

fn told(rt: &HostRuntime, bytes: &[u8], text: bool) -> io::Result<()> {
    let n = bytes.len();
    let number = last_answer(rt, bytes, text);
    println!(rt; "{n} bytes, 30 times, answer {number}")
}

fn with_room(rt: &HostRuntime, bytes: &[u8; ROOM], n: usize) -> io::Result<()> {
    told(rt, &bytes[..n.min(ROOM)], program_io::has_argument(rt, 1))
}

fn taken_in(rt: &HostRuntime, buffer: &mut [u8; ROOM]) -> usize {
    program_io::read_full(&mut rt.stdin(), buffer)
}

fn main(rt: HostRuntime) -> io::Result<()> {
    let mut buffer = room();
    let n = taken_in(&rt, &mut buffer);
    with_room(&rt, &buffer, n)
}
