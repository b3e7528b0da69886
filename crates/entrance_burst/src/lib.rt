// A burst into the waiting lines: its units one after the other, each as a unit comes in that comes alone (document 02, M-103).
#![tactic(auto)]

ghost use Rattle.std.specs.Prelude.{◌≡◌, true, ◌≤◌, length};
ghost use Rattle.base_answer.specs.Numbers.{is_taken};
ghost use Rattle.score_bursts.specs.inside.Reading.{burst_of, scan_of};
ghost use Rattle.score_bursts.specs.Bursts.{units_in};
ghost use Rattle.player_model.specs.Lists.{over};
ghost use Rattle.player_model.specs.Calls.{must_be_timed, reads};
ghost use Rattle.player_model.specs.Calls as entrance;
ghost use Rattle.entrance_admission.specs.Submission.{submitted_in};
ghost use Rattle.code_program.specs.InstrumentTable.{instruments_of};
ghost use Rattle.entrance_burst.specs.Singly.{singly_in, burst_submitted_in, area_in};

use base_answer::{Answer, AnsweredLine, AnsweredUnits};
use code_program::Instruments;
use player_queue::Queue;

// A unit of a burst: it comes in as a unit does that comes alone.
fn submit_unit(instruments: Instruments, ended: bool, q: Queue, s: &[u8]) -> AnsweredLine<Queue>
    ensures { result ≡ submitted_in ended (must_be_timed entrance.unit) (instruments_of instruments) q (reads entrance.unit s.now) }
{
    entrance_admission::submit(instruments, ended, q, entrance_readers::unit(s))
}

// The m units of a burst that is known to be whole, in order, and the number of each one's answer in its place.
fn submit_units(
    instruments: Instruments,
    ended: bool,
    old: Queue,
    s: &[u8],
    m: usize,
    answers: &mut [u8],
) -> Queue
    requires s_value { is_taken (scan_of (burst_of s.now)).answer ≡ true }
    requires m_value { m ≡ length (units_in (burst_of s.now)) }
    requires m_in_bounds { m ≤ length answers.old }
    ensures queue { result ≡ (singly_in ended (instruments_of instruments) old (units_in (burst_of s.now))).queue }
    ensures area { answers.new ≡ over (singly_in ended (instruments_of instruments) old (units_in (burst_of s.now))).numbers answers.old }
{
    let mut q = old;
    let mut at: usize = 0;
    for i in 0..m {
        let start = at + score_bursts::LENGTH_BYTES;
        let end = start + score_bursts::length_at(s, at);
        let r = submit_unit(instruments, ended, q, &s[start..end]);
        let given = r.answer;
        answers[i] = base_answer::number(given);
        q = r.left;
        at = end;
    }
    q
}

// A burst into the waiting lines: its first fault, or 8 without a place for each answer; then its units, one after the other.
pub fn submit_burst(
    instruments: Instruments,
    ended: bool,
    q: Queue,
    s: &[u8],
    answers: &mut [u8],
) -> AnsweredUnits<Queue>
    ensures sent { result ≡ burst_submitted_in ended (instruments_of instruments) q (length answers.old) (burst_of s.now) }
    ensures area { answers.new ≡ area_in ended (instruments_of instruments) q answers.old (burst_of s.now) }
{
    let cut = score_bursts::scan(s);
    let fault = cut.answer;
    if !base_answer::is_taken(fault) {
        return AnsweredUnits {
            left: q,
            answer: fault,
            units: 0,
        };
    }
    if answers.len() < cut.units {
        return AnsweredUnits {
            left: q,
            answer: Answer::NoRoom,
            units: 0,
        };
    }
    let left = submit_units(instruments, ended, q, s, cut.units, answers);
    AnsweredUnits {
        left,
        answer: Answer::Taken,
        units: cut.units,
    }
}
