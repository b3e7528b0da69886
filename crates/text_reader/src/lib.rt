// Whole texts: 18 for the first line that is none, or else the first fault of a line, in one pass that stores no line.
#![tactic(auto)]

ghost use Rattle.std.specs.Prelude.{◌≡◌};
ghost use Rattle.text_format.specs.inside.Reading.{text_of};
ghost use Rattle.text_reader.specs.Texts.{text_told, bad_at, first_of, counted_to};

use base_answer::Answer;
use score_reader::ScoreRead;

// The most lines of a score.
const MOST_LINES: usize = 1048575;

// What reading a whole text gives: the answer, the number of the line that it is about, and how many lines were taken.
#[derive(Clone, Copy)]
pub struct TextRead {
    pub answer: Answer,
    pub line: usize,
    pub count: usize,
}

fn bad_at(i: usize) -> TextRead
    ensures { result ≡ bad_at i }
{
    TextRead {
        answer: Answer::BadText,
        line: i,
        count: 0,
    }
}

// The first fault so far, and the answer of line i.
fn first_of(fault: ScoreRead, answer: Answer, i: usize) -> ScoreRead
    ensures { result ≡ first_of fault answer i }
{
    if base_answer::is_taken(fault.answer) && !base_answer::is_taken(answer) {
        return ScoreRead { answer, line: i };
    }
    fault
}

// Past the last line, the first fault or none.
fn counted_to(fault: ScoreRead, i: usize) -> TextRead
    ensures { result ≡ counted_to fault i }
{
    if base_answer::is_taken(fault.answer) {
        return TextRead {
            answer: Answer::Taken,
            line: 0,
            count: i,
        };
    }
    TextRead {
        answer: fault.answer,
        line: fault.line,
        count: 0,
    }
}

// A whole text. Where it is taken, as many calls of `text_line_reader::line_at` from position 0 on, each from the position past the
// line before, give its lines.
pub fn read_text(s: &[u8]) -> TextRead
    ensures { result ≡ text_told (text_of s.now) }
{
    let mut fault = ScoreRead {
        answer: Answer::Taken,
        line: 0,
    };
    let mut at: usize = 0;
    let mut i: usize = 0;
    while at < s.len() {
        if MOST_LINES <= i {
            return bad_at(i);
        }
        let Some((read, next)) = text_line_reader::line_at(s, at) else {
            return bad_at(i);
        };
        fault = first_of(fault, read.answer, i);
        at = next;
        i += 1;
    }
    counted_to(fault, i)
}
