// One cycle, steps 1 to 8, on the state that it changes (document 01, "One cycle, in order"), and the call that asks for it.
#![tactic(auto)]

ghost use Rattle.std.specs.Prelude.{◌≡◌, cond, length};
ghost use Rattle.base_answer.specs.declared.Answer.TheVariants.{Taken, Ended};
ghost use Rattle.code_program.specs.InstrumentTable.{instruments_of};
ghost use Rattle.voices_compiled.specs.Voices.{voices};
ghost use Rattle.player_state.specs.Playing.{settings_in};
ghost use Rattle.player_cycle.specs.OneCycle.{state_after, block_after};
ghost use Rattle.player_cycle.specs.CycleCall.{cycled_of, block_left};

use base_answer::{Answer, Answered};
use code_program::Instruments;
use player_state::{Settings, State};
use player_steps::Due;

// How many samples a block has.
const SAMPLES: usize = 320;

// One cycle: the state afterwards, marked as ended where step 1 ends the piece.
fn one_cycle<'a>(
    instruments: Instruments,
    code: &'a [u64],
    vals: &'a [f32],
    mut s: State,
    settings: Settings,
    block: &mut [i16],
) -> State
    ensures state { result ≡ state_after (voices (instruments_of instruments) code.now vals.now) (settings_in settings) s }
    ensures block { block.new ≡ block_after (voices (instruments_of instruments) code.now vals.now) (settings_in settings) s block.old }
{
    if player_state::is_idle(s) {
        return player_state::idle_cycle(s, settings.ceiling, block);
    }
    let q = s.queue;
    let keys = s.messages;
    let mut p = s.playing;
    let position = p.position;
    let lines = q.lines;
    let due = player_queue::due_lines(lines, q.count, position);
    if player_state::ends_piece(position, due) {
        p.ended = true;
        s.playing = p;
        return s;
    }
    let acts = Due {
        lines: due,
        messages: keys,
    };
    let next = player_steps::advance(instruments, code, vals, p, acts, settings, block);
    State {
        queue: player_state::queue_after_cycle(q, position),
        messages: player_state::emptied(keys),
        playing: next,
    }
}

// Nothing but an answer.
fn unchanged(s: State, a: Answer) -> Answered<State>
    ensures { result ≡ record { left = s; answer = a } }
{
    Answered { left: s, answer: a }
}

// The answer of a cycle that ran: 9 where it met the end.
fn after(ended: bool) -> Answer
    ensures { result ≡ cond ended Ended Taken }
{
    if ended { Answer::Ended } else { Answer::Taken }
}

// A cycle of sound into a block of 320 samples.
pub fn cycle_call<'a>(
    instruments: Instruments,
    code: &'a [u64],
    vals: &'a [f32],
    s: State,
    settings: Settings,
    block: &mut [i16],
) -> Answered<State>
    ensures state { result ≡ cycled_of (voices (instruments_of instruments) code.now vals.now) (settings_in settings) s (length block.old) }
    ensures block { block.new ≡ block_left (voices (instruments_of instruments) code.now vals.now) (settings_in settings) s block.old }
{
    let over = s.playing.ended;
    if block.len() != SAMPLES {
        return unchanged(s, Answer::BlockLength);
    }
    if over {
        return unchanged(s, Answer::Ended);
    }
    let next = one_cycle(instruments, code, vals, s, settings, block);
    Answered {
        left: next,
        answer: after(next.playing.ended),
    }
}
