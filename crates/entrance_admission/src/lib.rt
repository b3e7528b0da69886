// What was read at an entrance goes into the waiting lines, all its lines or none (document 01, "Order at an entrance"): whichever entrance it was, a whole reading goes through
// `submit`, a line of it through `admit_line`, and there is no other way to the waiting lines.
#![tactic(auto)]

ghost use Rattle.std.specs.Prelude.{◌≡◌, not, ◌&&◌, take};
ghost use Rattle.player_model.specs.Calls.{has_time};
ghost use Rattle.code_program.specs.InstrumentTable.{instruments_of};
ghost use Rattle.entrance_readers.specs.Entrances.{score_in};
ghost use Rattle.entrance_admission.specs.Submission.{line_admitted, admitted_all, submitted_in};

use base_answer::{Answer, Answered, AnsweredLine};
use code_program::Instruments;
use entrance_readers::EntranceRead;
use player_queue::Queue;
use score_line::Line;

fn lacks_time(l: Line, timed: bool) -> bool
    ensures { result ≡ (timed && not (has_time l.when)) }
{
    if timed {
        !player_queue::is_timed(l)
    } else {
        false
    }
}

// The one operation on a decoded line, whichever entrance read it: 6 where it needs a time and has none, then the one admission, with the fields of
// the line's instrument.
fn admit_line(instruments: Instruments, q: Queue, l: Line, timed: bool) -> Answered<Queue>
    ensures { result ≡ line_admitted timed (instruments_of instruments) q l }
{
    if lacks_time(l, timed) {
        return Answered {
            left: q,
            answer: Answer::NoTime,
        };
    }
    player_queue::admit(q, l, code_program::field_count_for(instruments, l))
}

// The lines into a copy of the waiting ones, so that earlier lines count as waiting.
fn admit_lines(instruments: Instruments, old: Queue, h: EntranceRead) -> AnsweredLine<Queue>
    ensures { result ≡ admitted_all h.timed (instruments_of instruments) old old 0 (take h.count h.lines) }
{
    let lines = h.lines;
    let timed = h.timed;
    let m = h.count.min(entrance_readers::MOST_LINES);
    let mut q = old;
    for i in 0..m {
        let l = lines[i];
        let a = admit_line(instruments, q, l, timed);
        let answer = a.answer;
        if !base_answer::is_taken(answer) {
            return AnsweredLine {
                left: old,
                answer,
                line: i,
            };
        }
        q = a.left;
    }
    AnsweredLine {
        left: q,
        answer: Answer::Taken,
        line: 0,
    }
}

// What was handed in, into the waiting lines: 9 after the end, then the fault of its reading, then all its lines or none.
pub fn submit(
    instruments: Instruments,
    ended: bool,
    q: Queue,
    h: EntranceRead,
) -> AnsweredLine<Queue>
    ensures { result ≡ submitted_in ended h.timed (instruments_of instruments) q (score_in h) }
{
    if ended {
        return AnsweredLine {
            left: q,
            answer: Answer::Ended,
            line: 0,
        };
    }
    let answer = h.answer;
    if base_answer::is_taken(answer) {
        return admit_lines(instruments, q, h);
    }
    AnsweredLine {
        left: q,
        answer,
        line: h.line,
    }
}
