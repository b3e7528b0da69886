// Scores and units decoded on their own and written, and a line by value.
use base_answer::Answer;
use score_line::{Event, Label, Line, When};
use std::io;

const NO_ROOM: u64 = 255;

fn number(a: Answer) -> u64 {
    base_answer::number(a) as u64
}

// Into an area of so many words.
fn into_words<F: FnOnce(&mut [u32]) -> Answer>(words: usize, call: F) -> u64
    requires { F.IsAlwaysCallable call }
{
    let mut area = [0u32; 512];
    if words <= 512 {
        number(call(&mut area[..words]))
    } else {
        NO_ROOM
    }
}

pub fn decode(bytes: &[u8], words: usize) -> u64 {
    into_words(words, |area| {
        let r = score_decoder::decode_score(bytes, area);
        r.answer
    })
}

pub fn decode_unit(bytes: &[u8], words: usize) -> u64 {
    into_words(words, |area| {
        let r = score_decoder::decode_unit(bytes, area);
        r.answer
    })
}

pub fn decode_text(bytes: &[u8], words: usize) -> u64 {
    into_words(words, |area| {
        let r = text_decoder::decode_text(bytes, area);
        r.answer
    })
}

// One line, into an area of so many bytes.
fn into_bytes<F: FnOnce(&mut [u8]) -> Answer>(bytes: usize, call: F) -> u64
    requires { F.IsAlwaysCallable call }
{
    let mut out = [0u8; 512];
    if bytes <= 512 {
        number(call(&mut out[..bytes]))
    } else {
        NO_ROOM
    }
}

pub fn write(slot: &[u32], bytes: usize) -> u64 {
    into_bytes(bytes, |out| {
        let r = score_writer::write_score(slot, 1, out);
        r.answer
    })
}

pub fn write_unit(slot: &[u32], bytes: usize) -> u64 {
    into_bytes(bytes, |out| {
        let r = score_writer::write_slot(slot, out);
        r.answer
    })
}

pub fn write_text(slot: &[u32], bytes: usize) -> u64 {
    into_bytes(bytes, |out| {
        let r = text_writer::write_text(slot, 1, out);
        r.answer
    })
}

// An end line with a time, for a host that holds lines by value.
fn end_at(time: f32) -> Line {
    Line {
        when: When::Timed {
            use_if_late: false,
            time: time,
        },
        priority: false,
        event: Event::End,
        count: 0,
        values: [0.0f32; 8],
    }
}

fn nine_values() -> Line {
    Line {
        when: When::Untimed,
        priority: false,
        event: Event::Instr {
            label: Label::Unlabelled,
            instrument: 0,
            duration: 0.0,
        },
        count: 9,
        values: [0.0f32; 8],
    }
}

fn written(line: Line, out: &mut [u8]) -> u64 {
    let r = score_writer::write_unit(line, out);
    let a = r.answer;
    number(a)
}

// Lines that no reading gives are written from values only.
pub fn write_line_cases(rt: &HostRuntime) -> io::Result<()> {
    let mut whole = [0u8; 64];
    crate::told(
        rt,
        b"write a line as a unit, end at beat 1",
        0,
        written(end_at(1.0), &mut whole),
    )?;
    crate::told(
        rt,
        b"write a line as a unit, -0 as a time",
        3,
        written(end_at(-0.0), &mut whole),
    )?;
    crate::told(
        rt,
        b"write a line as a unit, 9 values",
        5,
        written(nine_values(), &mut whole),
    )?;
    let mut four = [0u8; 4];
    crate::told(
        rt,
        b"write a line as a unit, 4 bytes",
        8,
        written(end_at(1.0), &mut four),
    )
}
