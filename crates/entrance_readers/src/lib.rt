// The entrances: what is handed in at one is read whole (document 01, "Order at an entrance"). Stick, unit, keypad and text differ in how they are read and in nothing
// else.
#![tactic(auto)]

ghost use Rattle.std.specs.Prelude.{◌≡◌, true, false, length};
ghost use Rattle.base_answer.specs.Numbers.{is_taken};
ghost use Rattle.base_bitstream.specs.Bits.{bits_of};
ghost use Rattle.score_reader.specs.Score.{score_of, refused_score};
ghost use Rattle.text_format.specs.inside.Reading.{text_of};
ghost use Rattle.player_model.specs.Calls.{must_be_timed, single, reads};
ghost use Rattle.player_model.specs.Calls as entrance;
ghost use Rattle.entrance_readers.specs.Entrances.{entrance_read_of};

use base_answer::Answer;
use score_line::{Line, LineRead};
use score_reader::ScoreRead;

// 64 lines can wait at most, so that no more than 65 are handed over; the last of them is still judged by its own faults before the room is.
pub const MOST_LINES: usize = 65;

// What was handed in at an entrance, read: the first fault and its line's number, or the lines. `timed` says that each needs a time.
#[derive(Clone, Copy)]
pub struct EntranceRead {
    pub lines: [Line; MOST_LINES],
    pub count: usize,
    pub timed: bool,
    pub answer: Answer,
    pub line: usize,
}

// The lines of a score that is known to be whole.
fn score_lines(s: &[u8]) -> EntranceRead
    requires { is_taken (score_of (bits_of s.now)).answer ≡ true }
    ensures { result ≡ entrance_read_of true (score_of (bits_of s.now)) }
{
    let none = score_line::blank_line();
    let mut lines = [none; MOST_LINES];
    let mut c = score_reader::first(s);
    let m = c.left.min(MOST_LINES);
    for i in 0..m {
        let step = score_reader::next(s, c);
        lines[i] = step.line;
        c = step.rest;
    }
    EntranceRead {
        timed: true,
        answer: Answer::Taken,
        line: 0,
        lines: lines,
        count: m,
    }
}

// A score that is refused: its first fault, and no line.
fn refused_score(read: ScoreRead) -> EntranceRead
    ensures { result ≡ entrance_read_of true (refused_score read.answer read.line) }
{
    let answer = read.answer;
    let none = score_line::blank_line();
    EntranceRead {
        timed: true,
        answer: answer,
        line: read.line,
        lines: [none; MOST_LINES],
        count: 0,
    }
}

// A stick: a whole score, whose lines must be timed.
pub fn stick(s: &[u8]) -> EntranceRead
    ensures { result ≡ entrance_read_of (must_be_timed entrance.stick) (reads entrance.stick s.now) }
{
    let read = score_reader::read_score(s);
    let answer = read.answer;
    if base_answer::is_taken(answer) {
        return score_lines(s);
    }
    refused_score(read)
}

// The lines of a text that is known to be whole, of which there are so many.
fn text_lines(s: &[u8], count: usize) -> EntranceRead
    requires s_value { is_taken (text_of s.now).answer ≡ true }
    requires count_value { count ≡ length (text_of s.now).lines }
    ensures { result ≡ entrance_read_of true (text_of s.now) }
{
    let none = score_line::blank_line();
    let mut lines = [none; MOST_LINES];
    let m = count.min(MOST_LINES);
    let mut at: usize = 0;
    for i in 0..m {
        let (read, next) = text_line_reader::line_at(s, at).unwrap();
        lines[i] = read.line;
        at = next;
    }
    EntranceRead {
        timed: true,
        answer: Answer::Taken,
        line: 0,
        lines: lines,
        count: m,
    }
}

// A text: a whole score, judged as a stick is once it is read.
pub fn text(s: &[u8]) -> EntranceRead
    ensures { result ≡ entrance_read_of (must_be_timed entrance.text) (reads entrance.text s.now) }
{
    let read = text_reader::read_text(s);
    let told = read.answer;
    if base_answer::is_taken(told) {
        return text_lines(s, read.count);
    }
    refused_score(ScoreRead {
        answer: told,
        line: read.line,
    })
}

// A line that was read on its own.
fn single_line(read: LineRead) -> EntranceRead
    ensures { result ≡ entrance_read_of false (single read) }
{
    let answer = read.answer;
    let only = read.line;
    let none = score_line::blank_line();
    let mut lines = [none; MOST_LINES];
    let mut count: usize = 0;
    if base_answer::is_taken(answer) {
        lines[0] = only;
        count = 1;
    }
    EntranceRead {
        timed: false,
        answer: answer,
        line: 0,
        lines: lines,
        count: count,
    }
}

// An access unit.
pub fn unit(s: &[u8]) -> EntranceRead
    ensures { result ≡ entrance_read_of (must_be_timed entrance.unit) (reads entrance.unit s.now) }
{
    single_line(score_reader::read_unit(s))
}

// A keypad line.
pub fn keypad(words: &[u32]) -> EntranceRead
    ensures { result ≡ entrance_read_of (must_be_timed entrance.keypad) (reads entrance.keypad words.now) }
{
    single_line(score_line_reader::keypad_line(words))
}
