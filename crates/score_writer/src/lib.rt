// Scores and access units written as bytes: from an area of words, a slot to a line, and a unit from a line.
#![tactic(auto)]

ghost use Rattle.std.specs.Prelude.{◌≡◌, ◌*◌, ◌≤◌, false, length, drop, replicate};
ghost use Rattle.base_bitstream.specs.Bits.{bits_of};
ghost use Rattle.base_bitstream.specs.Fields.{over};
ghost use Rattle.base_bitstream.specs.Filling.{missing};
ghost use Rattle.score_line_writer.specs.Writing.{line_bits};
ghost use Rattle.score_writer.specs.Writing.{lines_bits, score_bits, unit_bits, most_lines};
ghost use Rattle.score_writer.specs.Slots.{all_zero, slot_line, slot_read, area_fault, area_lines};
ghost use Rattle.score_writer.specs.inside.Laid.{Laid, RoomAt, Short};
ghost use Rattle.score_writer.specs.Written.{ScoreDone, UnitDone, SlotDone};

use base_answer::Answer;
use score_line::{Line, LineRead, SLOT};
use score_reader::ScoreRead;

// The most lines that 20 bits can count.
pub const MOST_LINES: usize = 1_048_575;

// What writing gives: the answer, the number of the line that it is about, and how many bytes were written.
#[derive(Clone, Copy)]
pub struct WriteResult {
    pub answer: Answer,
    pub line: usize,
    pub bytes: usize,
}

// A refusal: no byte was written.
pub fn refused(answer: Answer, line: usize) -> WriteResult
    ensures { result ≡ record { answer = answer; line = line; bytes = 0 } }
{
    WriteResult {
        answer: answer,
        line: line,
        bytes: 0,
    }
}

// Whether all words from a position on are zero.
fn zero_from(words: &[u32], at: usize) -> bool
    ensures { result ≡ all_zero (drop at words.now) }
{
    for i in at..words.len() {
        if words[i] != 0 {
            return false;
        }
    }
    true
}

// A slot: a line's numbers as the keypad reads them, then zeros.
fn read_slot(slot: &[u32]) -> LineRead
    ensures { result ≡ slot_line slot.now }
{
    let read = score_line_reader::line_in_words(slot, 0);
    let answer = read.answer;
    if base_answer::is_taken(answer) {
        if zero_from(slot, read.next) {
            return read;
        }
        return score_line::refused(Answer::LeftOver);
    }
    read
}

// The slot of number i; numbers are lacking where the area does not hold it whole.
pub fn slot_at(area: &[u32], i: usize) -> LineRead
    ensures { result ≡ slot_read area.now i }
{
    if i < area.len() / SLOT {
        let start = SLOT * i;
        let end = start + SLOT;
        return read_slot(&area[start..end]);
    }
    score_line::refused(Answer::CutShort)
}

// The first fault among the first n slots.
pub fn first_fault(area: &[u32], n: usize) -> ScoreRead
    ensures { result ≡ area_fault area.now n 0 }
{
    for i in 0..n {
        let answer = slot_at(area, i).answer;
        if !base_answer::is_taken(answer) {
            return ScoreRead { answer, line: i };
        }
    }
    ScoreRead {
        answer: Answer::Taken,
        line: 0,
    }
}

fn line_length(line: Line) -> usize
    ensures { Short (length (line_bits line)) 367 result }
{
    score_line_writer::bit_length(line)
}

// The bits of the lines of the first n slots.
fn lines_length(area: &[u32], n: usize) -> usize
    requires { n ≤ most_lines }
    ensures { Short (length (lines_bits (area_lines area.now n 0))) (367 * n) result }
{
    let mut total: usize = 0;
    for i in 0..n {
        let read = slot_at(area, i);
        let line = read.line;
        total += line_length(line);
    }
    total
}

// Writes the lines of the first n slots at a position, and answers the position past them.
fn write_lines(area: &[u32], n: usize, out: &mut [u8], start: usize) -> usize
    requires { RoomAt (8 * length out.old) start (length (lines_bits (area_lines area.now n 0))) }
    ensures { Laid (bits_of out.old) start (lines_bits (area_lines area.now n 0)) (bits_of out.new) result }
{
    let mut p = start;
    for i in 0..n {
        let read = slot_at(area, i);
        let line = read.line;
        p = score_line_writer::write_line(out, p, line);
    }
    p
}

// Zero bits to a whole byte.
fn fill_byte(out: &mut [u8], p: usize)
    requires { RoomAt (8 * length out.old) p 0 }
    ensures { bits_of out.new ≡ over (bits_of out.old) p (replicate (missing p) false) }
{
    base_bitstream::write(out, p, (8 - p % 8) % 8, 0);
}

fn put_score(area: &[u32], n: usize, out: &mut [u8])
    requires { (n ≤ most_lines) × (RoomAt (8 * length out.old) 20 (length (lines_bits (area_lines area.now n 0)))) }
    ensures { bits_of out.new ≡ over (bits_of out.old) 0 (score_bits (area_lines area.now n 0)) }
{
    base_bitstream::write(out, 0, 20, n as u32);
    let p = write_lines(area, n, out, 20);
    fill_byte(out, p);
}

fn put_unit(line: Line, out: &mut [u8])
    requires { RoomAt (8 * length out.old) 2 (length (line_bits line)) }
    ensures { bits_of out.new ≡ over (bits_of out.old) 0 (unit_bits line) }
{
    base_bitstream::write(out, 0, 2, 0);
    let p = score_line_writer::write_line(out, 2, line);
    fill_byte(out, p);
}

// Writes the score of the first n slots: the first faulty line, then 3 for too many lines, then 8.
// On refusal no byte changes; bytes past what is written stay.
pub fn write_score(area: &[u32], n: usize, out: &mut [u8]) -> WriteResult
    ensures { ScoreDone area.now n out.old out.new result }
{
    let fault = first_fault(area, n);
    let answer = fault.answer;
    if base_answer::is_taken(answer) {
        if n <= MOST_LINES {
            let bytes = (lines_length(area, n) + 27) / 8;
            if bytes <= out.len() {
                put_score(area, n, out);
                return WriteResult {
                    answer: Answer::Taken,
                    line: 0,
                    bytes: bytes,
                };
            }
            return refused(Answer::NoRoom, 0);
        }
        return refused(Answer::OutOfRange, 0);
    }
    refused(answer, fault.line)
}

// Writes the access unit of a line, by the same rules.
pub fn write_unit(line: Line, out: &mut [u8]) -> WriteResult
    ensures { UnitDone line out.old out.new result }
{
    let answer = score_line_writer::line_fault(line);
    if base_answer::is_taken(answer) {
        let bytes = (line_length(line) + 9) / 8;
        if bytes <= out.len() {
            put_unit(line, out);
            return WriteResult {
                answer: Answer::Taken,
                line: 0,
                bytes: bytes,
            };
        }
        return refused(Answer::NoRoom, 0);
    }
    refused(answer, 0)
}

// Writes the access unit of an area's first slot.
pub fn write_slot(area: &[u32], out: &mut [u8]) -> WriteResult
    ensures { SlotDone area.now out.old out.new result }
{
    let read = slot_at(area, 0);
    let answer = read.answer;
    if base_answer::is_taken(answer) {
        let line = read.line;
        return write_unit(line, out);
    }
    refused(answer, 0)
}
