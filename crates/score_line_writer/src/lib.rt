// A score line written as bits and as keypad numbers, from one list of its fields.
#![tactic(auto)]

ghost use Rattle.std.specs.Prelude.{◌≡◌, [], ◌∷◌, map, ◌*◌, ◌≤◌, min as lesser, length, take};
ghost use Rattle.std.specs.Float.{binary32};
ghost use Rattle.std.specs.Float.Ieee.{to_bits};
ghost use Rattle.base_bitstream.specs.Bits.{bits_of, digit};
ghost use Rattle.base_formats.specs.Format.{of};
ghost use Rattle.score_line_writer.specs.inside.Fields.{float, when_before, label_before, event_before, value_fields};
ghost use Rattle.score_line_writer.specs.Writing.{line_fields, line_bits, line_fault, line_slot, bits_fit, LineWritten};
ghost use Rattle.score_line_writer.specs.inside.Packed.{packed, Room, Joined, fields_in, Writable, Wrote};
ghost use Rattle.score_line.specs.Reading.{keypad_line};

use base_answer::Answer;
use score_line::{Event, Label, Line, MOST_VALUES, SLOT, When};

// The last position at which a field may begin.
const FARTHEST: usize = 0x4000_0000_0000_0000;

// The fields of a line in order, their widths and their numbers: how many they are, and their bits in all.
#[derive(Clone, Copy)]
pub struct Fields {
    pub count: usize,
    pub bits: usize,
    pub widths: [usize; SLOT],
    pub values: [u32; SLOT],
}

fn digit_of(b: bool) -> u32
    ensures { result ≡ digit b }
{
    if b { 1 } else { 0 }
}

fn count_of(n: usize) -> u32
    ensures { result ≡ lesser n 255 }
{
    if n < 255 { n as u32 } else { 255 }
}

fn no_fields() -> Fields
    ensures { result ≡ packed [] }
{
    Fields {
        count: 0,
        bits: 0,
        widths: [0usize; SLOT],
        values: [0u32; SLOT],
    }
}

// One field more.
fn with_field(f: Fields, width: usize, value: u32) -> Fields
    requires { (Room f 1) × (width ≤ 32) }
    ensures { Joined f (of width value ∷ []) 1 result }
{
    let n = f.count;
    let mut widths = f.widths;
    let mut values = f.values;
    widths[n] = width;
    values[n] = value;
    Fields {
        count: n + 1,
        bits: f.bits + width,
        widths: widths,
        values: values,
    }
}

fn with_when(f: Fields, when: When) -> Fields
    requires { Room f 3 }
    ensures { Joined f (when_before when []) 3 result }
{
    match when {
        When::Timed { use_if_late, time } => {
            let a = with_field(f, 1, 1);
            let b = with_field(a, 1, digit_of(use_if_late));
            with_field(b, 32, base_numbers::float_bits(time))
        }
        When::Untimed => with_field(f, 1, 0),
    }
}

fn with_label(f: Fields, label: Label) -> Fields
    requires { Room f 2 }
    ensures { Joined f (label_before label []) 2 result }
{
    match label {
        Label::Labelled(n) => {
            let a = with_field(f, 1, 1);
            with_field(a, 16, n as u32)
        }
        Label::Unlabelled => with_field(f, 1, 0),
    }
}

fn with_event(f: Fields, event: Event) -> Fields
    requires { Room f 5 }
    ensures { Joined f (event_before event []) 5 result }
{
    match event {
        Event::Instr {
            label,
            instrument,
            duration,
        } => {
            let a = with_field(f, 3, score_line::INSTR);
            let b = with_label(a, label);
            let c = with_field(b, 16, instrument as u32);
            with_field(c, 32, base_numbers::float_bits(duration))
        }
        Event::Control {
            label,
            variable,
            value,
        } => {
            let a = with_field(f, 3, score_line::CONTROL);
            let b = with_field(a, 1, 1);
            let c = with_field(b, 16, label as u32);
            let d = with_field(c, 16, variable as u32);
            with_field(d, 32, base_numbers::float_bits(value))
        }
        Event::End => with_field(f, 3, score_line::END),
        Event::Tempo(tempo) => {
            let a = with_field(f, 3, score_line::TEMPO);
            with_field(a, 32, base_numbers::float_bits(tempo))
        }
    }
}

// The first `count` values behind what is there.
fn with_floats(f: Fields, count: usize, values: [f32; MOST_VALUES]) -> Fields
    requires { Room f 8 }
    ensures { Joined f (map float (take count values)) 8 result }
{
    let n = count.min(MOST_VALUES);
    let mut r = f;
    for i in 0..n {
        r = with_field(r, 32, base_numbers::float_bits(values[i]));
    }
    r
}

// The values of an instr line, after their number.
fn with_values(f: Fields, event: Event, count: usize, values: [f32; MOST_VALUES]) -> Fields
    requires { Room f 9 }
    ensures { Joined f (value_fields event count values) 9 result }
{
    match event {
        Event::Instr {
            label: _,
            instrument: _,
            duration: _,
        } => {
            let a = with_field(f, 8, count_of(count));
            with_floats(a, count, values)
        }
        Event::Control {
            label: _,
            variable: _,
            value: _,
        } => f,
        Event::End => f,
        Event::Tempo(_) => f,
    }
}

// The fields of any line.
pub fn line_fields(line: Line) -> Fields
    ensures { result ≡ packed (line_fields line) }
{
    let when = line.when;
    let event = line.event;
    let values = line.values;
    let a = with_when(no_fields(), when);
    let b = with_field(a, 1, digit_of(line.priority));
    let c = with_event(b, event);
    with_values(c, event, line.count, values)
}

// How many bits a line is written in.
pub fn bit_length(line: Line) -> usize
    ensures { result ≡ length (line_bits line) }
{
    let f = line_fields(line);
    f.bits
}

// A line's keypad numbers, then zeros.
pub fn line_slot(line: Line) -> [u32; SLOT]
    ensures { result ≡ line_slot line }
{
    let f = line_fields(line);
    f.values
}

fn first_answer(words: &[u32], n: usize) -> Answer
    requires { n ≤ length words.now }
    ensures { result ≡ (keypad_line (take n words.now)).answer }
{
    let read = score_line_reader::keypad_line(&words[0..n]);
    read.answer
}

// The fault that reading would meet in a line: 3, 5 or none.
pub fn line_fault(line: Line) -> Answer
    ensures { result ≡ line_fault line }
{
    let f = line_fields(line);
    let n = f.count;
    let values = f.values;
    first_answer(&values, n)
}

// Whether that many bytes have n bits at a position.
fn has_bits(bytes: usize, at: usize, n: usize) -> bool
    ensures { result ≡ bits_fit (8 * bytes) at n }
{
    if at > FARTHEST {
        return false;
    }
    if n > FARTHEST {
        return false;
    }
    if at + n > FARTHEST {
        return false;
    }
    (at + n + 7) / 8 <= bytes
}

// Writes n fields at a position, and answers the position past them.
fn write_fields(
    out: &mut [u8],
    at: usize,
    n: usize,
    widths: [usize; SLOT],
    values: [u32; SLOT],
) -> usize
    requires { Writable (8 * length out.old) at n widths values }
    ensures { Wrote (bits_of out.old) at (fields_in n widths values) (bits_of out.new) result }
{
    let mut p = at;
    for i in 0..n {
        let w = widths[i];
        base_bitstream::write(out, p, w, values[i]);
        p += w;
    }
    p
}

// Writes a line's bits at a position, and answers the position past them. Where they have no room
// nothing is written, and the position itself is answered.
pub fn write_line(out: &mut [u8], at: usize, line: Line) -> usize
    ensures { LineWritten (bits_of out.old) at line (bits_of out.new) result }
{
    let f = line_fields(line);
    if has_bits(out.len(), at, f.bits) {
        let widths = f.widths;
        let values = f.values;
        return write_fields(out, at, f.count, widths, values);
    }
    at
}
