// Whole scores and access units, read without storing their lines (document 01, "Score lines, bit by bit").
#![tactic(auto)]

ghost use Rattle.std.specs.Prelude.{◌≡◌, []};
ghost use Rattle.base_bitstream.specs.Bits.{bits_of};
ghost use Rattle.score_reader.specs.Score.{score_of, ended, lines_from, all, unit_of, whole_line};
ghost use Rattle.score_reader.specs.inside.Walk.{score_read_of, first_of, next_of};

use base_answer::Answer;
use score_line::{Line, LineRead};

// What reading a whole score gives: the answer, and the number of the line that it is about.
#[derive(Clone, Copy)]
pub struct ScoreRead {
    pub answer: Answer,
    pub line: usize,
}

// A place in a score: the position of the next line, and how many lines are left.
#[derive(Clone, Copy)]
pub struct Cursor {
    pub at: usize,
    pub left: usize,
}

// What a step past a line gives: what reading it gave, and the cursor past it.
#[derive(Clone, Copy)]
pub struct Step {
    pub answer: Answer,
    pub line: Line,
    pub rest: Cursor,
}

// Past the last line: zero bits to a whole byte.
fn end_of(s: &[u8], p: usize) -> ScoreRead
    ensures { result ≡ score_read_of (ended (bits_of s.now) (all [] p)) }
{
    if base_bitstream::is_filled(s, p) {
        return ScoreRead {
            answer: Answer::Taken,
            line: 0,
        };
    }
    ScoreRead {
        answer: Answer::LeftOver,
        line: 0,
    }
}

// The lines from a position on, and the end of the score.
fn read_lines(s: &[u8], count: usize, start: usize) -> ScoreRead
    ensures { result ≡ score_read_of (ended (bits_of s.now) (lines_from (bits_of s.now) count 0 start)) }
{
    let mut at = start;
    for i in 0..count {
        let read = score_line_reader::line_at(s, at);
        let answer = read.answer;
        if base_answer::is_taken(answer) {
            at = read.next;
        } else {
            return ScoreRead {
                answer: answer,
                line: i,
            };
        }
    }
    end_of(s, at)
}

// A whole score: the first fault with its line's number, or taken.
pub fn read_score(s: &[u8]) -> ScoreRead
    ensures { result ≡ score_read_of (score_of (bits_of s.now)) }
{
    match base_bitstream::read(s, 0, 20) {
        Some((n, p)) => read_lines(s, n as usize, p),
        None => ScoreRead {
            answer: Answer::CutShort,
            line: 0,
        },
    }
}

// The cursor before the first line of a score.
pub fn first(s: &[u8]) -> Cursor
    ensures { result ≡ first_of (bits_of s.now) }
{
    match base_bitstream::read(s, 0, 20) {
        Some((n, p)) => Cursor {
            at: p,
            left: n as usize,
        },
        None => Cursor { at: 0, left: 0 },
    }
}

// The line at a cursor, and the cursor past it.
pub fn next(s: &[u8], c: Cursor) -> Step
    ensures { result ≡ next_of (bits_of s.now) c }
{
    let read = score_line_reader::line_at(s, c.at);
    let answer = read.answer;
    let line = read.line;
    Step {
        answer: answer,
        line: line,
        rest: Cursor {
            at: read.next,
            left: c.left.saturating_sub(1),
        },
    }
}

// A line that has to fill its bytes.
fn whole_line(s: &[u8], read: LineRead) -> LineRead
    ensures { result ≡ whole_line (bits_of s.now) read }
{
    let answer = read.answer;
    if base_answer::is_taken(answer) {
        if base_bitstream::is_filled(s, read.next) {
            return read;
        }
        return score_line::refused(Answer::LeftOver);
    }
    read
}

// An access unit: the line that it carries.
pub fn read_unit(s: &[u8]) -> LineRead
    ensures { result ≡ unit_of (bits_of s.now) }
{
    match base_bitstream::read(s, 0, 2) {
        Some((kind, p)) => {
            if kind == 0 {
                whole_line(s, score_line_reader::line_at(s, p))
            } else {
                score_line::refused(Answer::NotCarried)
            }
        }
        None => score_line::refused(Answer::CutShort),
    }
}
