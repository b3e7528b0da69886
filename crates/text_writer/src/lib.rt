// Scores written as text, from an area of words, a slot to a line.
#![tactic(auto)]

ghost use Rattle.std.specs.Prelude.{◌≡◌, length};
ghost use Rattle.score_writer.specs.Slots.{area_lines};
ghost use Rattle.text_writer.specs.Writing.{text_from, left_text, TextDone};
ghost use Rattle.text_writer.specs.inside.Passes.{measured_past, Measurable, Layable, Fits, Put};

use base_answer::Answer;
use score_writer::{MOST_LINES, WriteResult};
use text_number_writer::LineText;

// One pass over the first n slots: how many bytes their text has, or the number of the first line that has none.
fn measured_lines(area: &[u32], n: usize) -> Result<usize, usize>
    requires { Measurable area.now n }
    ensures { result ≡ measured_past 0 (text_from 0 (area_lines area.now n 0)) }
{
    let mut total: usize = 0;
    for i in 0..n {
        let line = score_writer::slot_at(area, i).line;
        let Some(text) = text_line_writer::line_text(line) else {
            return Err(i);
        };
        total += text.len;
    }
    Ok(total)
}

// Puts a line of text at a position, and answers the position past it.
fn put_text(out: &mut [u8], at: usize, text: LineText) -> usize
    requires { Fits (length out.old) at text }
    ensures { Put out.old at text out.new result }
{
    let len = text.len;
    let bytes = text.bytes;
    for i in 0..len {
        out[at + i] = bytes[i];
    }
    at + len
}

// The other pass: the lines of the first n slots, one behind the other from the first byte on.
fn put_lines(area: &[u32], n: usize, out: &mut [u8])
    requires { Layable area.now n (length out.old) }
    ensures { out.new ≡ left_text (text_from 0 (area_lines area.now n 0)) out.old }
{
    let mut p: usize = 0;
    for i in 0..n {
        let line = score_writer::slot_at(area, i).line;
        let text = text_line_writer::line_text(line).unwrap();
        p = put_text(out, p, text);
    }
}

// Writes the score of the first n slots as text: the first faulty line, then 3 for too many lines, then 19 for the first line
// that has no text, then 8. On refusal no byte changes; bytes past what is written stay.
pub fn write_text(area: &[u32], n: usize, out: &mut [u8]) -> WriteResult
    ensures { TextDone area.now n out.old out.new result }
{
    let fault = score_writer::first_fault(area, n);
    if !base_answer::is_taken(fault.answer) {
        return score_writer::refused(fault.answer, fault.line);
    }
    if MOST_LINES < n {
        return score_writer::refused(Answer::OutOfRange, 0);
    }
    match measured_lines(area, n) {
        Ok(bytes) => {
            if out.len() < bytes {
                return score_writer::refused(Answer::NoRoom, 0);
            }
            put_lines(area, n, out);
            WriteResult {
                answer: Answer::Taken,
                line: 0,
                bytes,
            }
        }
        Err(line) => score_writer::refused(Answer::NoText, line),
    }
}
