// Scores and access units decoded into a lent area of words, a slot to a line (document 01: "decoded on its own").
#![tactic(auto)]

ghost use Rattle.std.specs.Prelude.{◌≡◌, ◌+◌, ◌*◌, ◌≤◌, length};
ghost use Rattle.base_bitstream.specs.Bits.{bits_of};
ghost use Rattle.score_line.specs.LineFormat.{slot_words};
ghost use Rattle.score_reader.specs.Score.{score_of, unit_of};
ghost use Rattle.score_reader.specs.inside.Walk.{walked};
ghost use Rattle.score_decoder.specs.Area.{area_words, laid, carried, DecodesTo};
ghost use Rattle.score_decoder.specs.inside.Area.{SlotPut};

use base_answer::Answer;
use score_line::SLOT;
use score_reader::Cursor;

// What decoding gives: the answer, the number of the line that it is about, and how many lines stand in the area.
#[derive(Clone, Copy)]
pub struct Decoded {
    pub answer: Answer,
    pub line: usize,
    pub count: usize,
}

fn told(answer: Answer, line: usize, count: usize) -> Decoded
    ensures { result ≡ record { answer = answer; line = line; count = count } }
{
    Decoded {
        answer: answer,
        line: line,
        count: count,
    }
}

// Puts the words of a line into the area at a position.
pub fn put_slot(area: &mut [u32], at: usize, slot: [u32; SLOT])
    requires { at + slot_words ≤ length area.old }
    ensures { SlotPut area.old at slot area.new }
{
    for i in 0..SLOT {
        area[at + i] = slot[i];
    }
}

// Puts the lines from a cursor on into the area, from its start on.
fn fill(bytes: &[u8], area: &mut [u32], start: Cursor)
    requires { slot_words * start.left ≤ length area.old }
    ensures { area.new ≡ laid (area_words (walked (bits_of bytes.now) start.left start)) area.old }
{
    let n = start.left;
    let mut c = start;
    for i in 0..n {
        let step = score_reader::next(bytes, c);
        let line = step.line;
        put_slot(area, SLOT * i, score_line_writer::line_slot(line));
        c = step.rest;
    }
}

// A score's lines into the area: the same reading, then 8 where the area is too short. On refusal no word changes.
pub fn decode_score(bytes: &[u8], area: &mut [u32]) -> Decoded
    ensures { DecodesTo (score_of (bits_of bytes.now)) area.old area.new result }
{
    let read = score_reader::read_score(bytes);
    let answer = read.answer;
    if base_answer::is_taken(answer) {
        let start = score_reader::first(bytes);
        let count = start.left;
        if count <= area.len() / SLOT {
            fill(bytes, area, start);
            return told(Answer::Taken, 0, count);
        }
        return told(Answer::NoRoom, 0, 0);
    }
    told(answer, read.line, 0)
}

// An access unit's line into the area, by the same rules.
pub fn decode_unit(bytes: &[u8], area: &mut [u32]) -> Decoded
    ensures { DecodesTo (carried (unit_of (bits_of bytes.now))) area.old area.new result }
{
    let unit = score_reader::read_unit(bytes);
    let reading = unit.answer;
    if base_answer::is_taken(reading) {
        if SLOT <= area.len() {
            let line = unit.line;
            put_slot(area, 0, score_line_writer::line_slot(line));
            return told(Answer::Taken, 0, 1);
        }
        return told(Answer::NoRoom, 0, 0);
    }
    told(reading, 0, 0)
}
