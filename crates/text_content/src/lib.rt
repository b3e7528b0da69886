// What a line of text says, judged by the stick's rules: its keypad numbers, read by the one reader of lines.
#![tactic(auto)]

ghost use Rattle.std.specs.Prelude.{◌≡◌, min as lesser, take};
ghost use Rattle.std.proofs.Math.Option.{none, some};
ghost use Rattle.score_line.specs.LineFormat.{label_parts};
ghost use Rattle.score_line.specs.Reading.{line_in_words};
ghost use Rattle.text_format.specs.Content.{flag};
ghost use Rattle.text_format.specs.Content as content;
ghost use Rattle.text_content.specs.Judged.{judged_at, with_value, instr_numbers, instr_words};

use score_line::{CONTROL, END, INSTR, Label, LineRead, MOST_VALUES, TEMPO};

// The first 8 of some values, by their bits, and how many values there are; 9 stands for every number above 8.
#[derive(Clone, Copy)]
pub struct ValueBits {
    pub count: usize,
    pub bits: [u32; 8],
}

// One value more.
pub fn with_value(k: ValueBits, x: f32) -> ValueBits
    ensures { result ≡ with_value k x }
{
    let n = k.count;
    let mut bits = k.bits;
    if n < MOST_VALUES {
        bits[n] = base_numbers::float_bits(x);
        return ValueBits { count: n + 1, bits };
    }
    ValueBits {
        count: MOST_VALUES + 1,
        bits,
    }
}

fn flag_of(b: bool) -> u32
    ensures { result ≡ flag b }
{
    if b { 1 } else { 0 }
}

fn count_of(n: usize) -> u32
    ensures { result ≡ lesser n 9 }
{
    if n < 9 { n as u32 } else { 9 }
}

// The first n of some keypad numbers.
fn first_words(words: &[u32], n: usize) -> LineRead
    ensures { result ≡ line_in_words (take n words.now) 0 }
{
    if n < words.len() {
        return score_line_reader::line_in_words(&words[..n], 0);
    }
    score_line_reader::line_in_words(words, 0)
}

pub fn end_line(priority: bool, time: f32) -> LineRead
    ensures { result ≡ judged_at priority time content.end }
{
    let words = [
        1u32,
        0,
        base_numbers::float_bits(time),
        flag_of(priority),
        END,
    ];
    score_line_reader::line_in_words(&words, 0)
}

pub fn tempo_line(priority: bool, time: f32, tempo: f32) -> LineRead
    ensures { result ≡ judged_at priority time (content.tempo tempo) }
{
    let words = [
        1u32,
        0,
        base_numbers::float_bits(time),
        flag_of(priority),
        TEMPO,
        base_numbers::float_bits(tempo),
    ];
    score_line_reader::line_in_words(&words, 0)
}

pub fn control_line(priority: bool, time: f32, label: Label, name: u16, value: f32) -> LineRead
    ensures { result ≡ judged_at priority time (content.control (label_parts label) name value) }
{
    let t = base_numbers::float_bits(time);
    let p = flag_of(priority);
    let v = base_numbers::float_bits(value);
    match label {
        Label::Labelled(l) => {
            let words = [1u32, 0, t, p, CONTROL, 1, l as u32, name as u32, v];
            score_line_reader::line_in_words(&words, 0)
        }
        Label::Unlabelled => {
            let words = [1u32, 0, t, p, CONTROL, 0, name as u32, v];
            score_line_reader::line_in_words(&words, 0)
        }
    }
}

// An instr line with a label, or one without, from its keypad numbers.
fn labelled_instr(t: u32, p: u32, l: u32, name: u32, d: u32, k: ValueBits) -> LineRead
    ensures { result ≡ line_in_words (instr_numbers t p (some l) name d k) 0 }
{
    let v = k.bits;
    let words = [
        1u32,
        0,
        t,
        p,
        INSTR,
        1,
        l,
        name,
        d,
        count_of(k.count),
        v[0],
        v[1],
        v[2],
        v[3],
        v[4],
        v[5],
        v[6],
        v[7],
    ];
    first_words(&words, 10 + k.count.min(MOST_VALUES))
}

fn unlabelled_instr(t: u32, p: u32, name: u32, d: u32, k: ValueBits) -> LineRead
    ensures { result ≡ line_in_words (instr_numbers t p none name d k) 0 }
{
    let v = k.bits;
    let words = [
        1u32,
        0,
        t,
        p,
        INSTR,
        0,
        name,
        d,
        count_of(k.count),
        v[0],
        v[1],
        v[2],
        v[3],
        v[4],
        v[5],
        v[6],
        v[7],
    ];
    first_words(&words, 9 + k.count.min(MOST_VALUES))
}

pub fn instr_line(
    priority: bool,
    time: f32,
    label: Label,
    name: u16,
    duration: f32,
    k: ValueBits,
) -> LineRead
    ensures { result ≡ line_in_words (instr_words priority time (label_parts label) name duration k) 0 }
{
    let t = base_numbers::float_bits(time);
    let p = flag_of(priority);
    let d = base_numbers::float_bits(duration);
    match label {
        Label::Labelled(l) => labelled_instr(t, p, l as u32, name as u32, d, k),
        Label::Unlabelled => unlabelled_instr(t, p, name as u32, d, k),
    }
}
