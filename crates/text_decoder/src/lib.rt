// Texts decoded into a lent area of words, as scores are.
#![tactic(auto)]

ghost use Rattle.std.specs.Prelude.{◌≡◌, ◌*◌, ◌≤◌, length};
ghost use Rattle.score_line.specs.LineFormat.{slot_words};
ghost use Rattle.score_decoder.specs.Area.{area_words, laid, DecodesTo};
ghost use Rattle.text_format.specs.inside.Reading.{text_of};
ghost use Rattle.text_reader.specs.Texts.{walked};

use base_answer::Answer;
use score_decoder::Decoded;
use score_line::SLOT;

// Puts the first n lines of a text into the area, from its start on.
fn fill(bytes: &[u8], area: &mut [u32], n: usize)
    requires { slot_words * n ≤ length area.old }
    ensures { area.new ≡ laid (area_words (walked bytes.now n 0)) area.old }
{
    let mut at: usize = 0;
    for i in 0..n {
        // Kept: each of the n lines stands there, but what this requires doesn't say so.
        let none = (score_line::refused(Answer::BadText), 0);
        let (read, next) = text_line_reader::line_at(bytes, at).unwrap_or(none);
        score_decoder::put_slot(area, SLOT * i, score_line_writer::line_slot(read.line));
        at = next;
    }
}

// A text's lines into the area: the same reading, then 8 where the area is too short. On refusal no word changes.
pub fn decode_text(bytes: &[u8], area: &mut [u32]) -> Decoded
    ensures { DecodesTo (text_of bytes.now) area.old area.new result }
{
    let read = text_reader::read_text(bytes);
    let answer = read.answer;
    if base_answer::is_taken(answer) {
        let count = read.count;
        if count <= area.len() / SLOT {
            fill(bytes, area, count);
            return Decoded {
                answer: Answer::Taken,
                line: 0,
                count,
            };
        }
        return Decoded {
            answer: Answer::NoRoom,
            line: 0,
            count: 0,
        };
    }
    Decoded {
        answer,
        line: read.line,
        count: 0,
    }
}
