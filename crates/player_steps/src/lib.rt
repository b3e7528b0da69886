// Steps 2 to 8 of a cycle, on what plays (document 01, "One cycle, in order").
#![tactic(auto)]

ghost use Rattle.std.specs.Prelude.{◌≡◌, ◌≤◌};
ghost use Rattle.engine_limiter.specs.Block.{limited};
ghost use Rattle.player_model.specs.Cycle.{position_limit};
ghost use Rattle.player_model.specs.PlayerState.{rendered_of};
ghost use Rattle.code_program.specs.InstrumentTable.{instruments_of};
ghost use Rattle.voices_compiled.specs.Voices.{voices};
ghost use Rattle.player_state.specs.Playing.{playing_state_of, settings_in};
ghost use Rattle.player_steps.specs.Steps.{due_in, performed_of, advanced};

use code_program::Instruments;
use midi_queue::MessageQueue;
use note_pool::{Notes, Started};
use player_queue::Lines;
use player_state::{Playing, Settings};

// What acts in a cycle: the due lines, in order, and the note messages that wait.
#[derive(Clone, Copy)]
pub struct Due {
    pub lines: Lines,
    pub messages: MessageQueue,
}

// The notes that sound afterwards, and how many were missed so far.
#[derive(Clone, Copy)]
struct Performed {
    notes: Notes,
    missed: u64,
}

// Steps 3 to 7, for the due lines and then the note messages in order.
fn perform<'a>(
    instruments: Instruments,
    code: &'a [u64],
    vals: &'a [f32],
    p: Playing,
    due: Due,
    settings: Settings,
    block: &mut [i16],
) -> Performed
    requires { p.position ≤ position_limit }
    ensures notes { result ≡ performed_of (voices (instruments_of instruments) code.now vals.now) (settings_in settings) (due_in due) p }
    ensures block { block.new ≡ limited settings.ceiling (rendered_of (voices (instruments_of instruments) code.now vals.now) (settings_in settings) (due_in due) (playing_state_of p)).mix block.old }
{
    let most = (settings.notes as usize).min(note_pool::MOST_NOTES);
    let old = p.notes;
    let position = p.position;
    let acting = due.lines;
    let v = note_events::start_notes(instruments, code, vals, old, acting, position, most);
    let born = v.notes;
    let lines = acting.lines;
    let c = note_events::control_lines(
        instruments,
        Notes {
            notes: born,
            count: v.count,
        },
        lines,
        acting.count,
    );
    let changed = c.notes;
    let keys = due.messages;
    let list = keys.list;
    let k = note_events::play_messages(
        instruments,
        code,
        vals,
        Started {
            notes: changed,
            count: c.count,
            missed: v.missed,
        },
        settings.chosen,
        list,
        keys.count,
        most,
    );
    let played = k.notes;
    let h = engine_block::sound(
        instruments,
        code,
        vals,
        Notes {
            notes: played,
            count: k.count,
        },
        settings.ceiling,
        block,
    );
    let heard = h.notes;
    let g = note_pool::remaining(heard, h.count, position);
    let left = g.notes;
    let before = old.notes;
    let out = note_pool::copied_over(left, g.count, before);
    Performed {
        notes: Notes {
            notes: out,
            count: g.count,
        },
        missed: player_state::add_missed(p.missed, k.missed),
    }
}

// Steps 2 to 8 on what plays, for the due lines and then the note messages in order.
pub fn advance<'a>(
    instruments: Instruments,
    code: &'a [u64],
    vals: &'a [f32],
    p: Playing,
    due: Due,
    settings: Settings,
    block: &mut [i16],
) -> Playing
    requires { p.position ≤ position_limit }
    ensures playing { result ≡ advanced (voices (instruments_of instruments) code.now vals.now) (settings_in settings) (due_in due) p }
    ensures block { block.new ≡ limited settings.ceiling (rendered_of (voices (instruments_of instruments) code.now vals.now) (settings_in settings) (due_in due) (playing_state_of p)).mix block.old }
{
    let position = p.position;
    let acting = due.lines;
    let lines = acting.lines;
    let tempo = player_queue::tempo_after(lines, acting.count, p.tempo);
    let t = perform(instruments, code, vals, p, due, settings, block);
    let notes = t.notes;
    let step = base_timebase::ticks_per_cycle(tempo);
    Playing {
        notes: notes,
        position: position + step,
        tempo: tempo,
        missed: t.missed,
        ended: false,
    }
}
