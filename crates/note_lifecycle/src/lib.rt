// One note: how a line or a key starts it, what a control line sets in it, its run in a cycle, and when it is over.
#![tactic(auto)]

ghost use Rattle.std.specs.Prelude.{◌≡◌, cond, ◌<◌, ◌≤◌, ◌+◌, T, take};
ghost use Rattle.std.specs.Float.{binary32};
ghost use Rattle.std.specs.Float.Ieee.{fits};
ghost use Rattle.player_model.specs.Cycle.{position_limit, goes_on};
ghost use Rattle.code_interpreter.specs.Passes.{stretch, fresh_of, once};
ghost use Rattle.note_state.specs.Notes.{with_values};
ghost use Rattle.code_interpreter.specs.WorkingArea.{numbers_in};
ghost use Rattle.voices_compiled.specs.Voices.{named};
ghost use Rattle.note_lifecycle.specs.OneNote.{note_of, label_of, end_after, born_note, note_from_key, is_held_in, controlled_note, ran_note, ran_mix, ran_area};

use code_program::Instrument;
use midi_messages::NoteMessage;
use note_state::Note;
use score_line::{Label, Line};

fn select_value(first: bool, x: f32, y: f32) -> f32
    ensures { (result ≡ cond first x y) × T (fits binary32 result) }
{
    if first { x } else { y }
}

// The values with the one of the imports ksig `variable` set.
fn set_import(values: [f32; 16], imports: [u32; 16], variable: u32, value: f32) -> [f32; 16]
    ensures { result ≡ named variable value imports values }
{
    let mut out = values;
    for j in 0..16 {
        out[j] = select_value(imports[j] == variable, value, values[j]);
    }
    out
}

fn wide(x: u16) -> u32
    ensures { result ≡ x }
{
    x as u32
}

// A line's label, as its note has it.
fn label_of(label: Label) -> Option<u16>
    ensures { result ≡ label_of label }
{
    match label {
        Label::Labelled(n) => Some(n),
        Label::Unlabelled => None,
    }
}

// The first values, as many as there are fields, then zeros.
fn fresh_values(given: [f32; 8], count: usize, fields: usize) -> [f32; 16]
    ensures { result ≡ fresh_of (take fields (take count given)) }
{
    let n = count.min(8).min(fields);
    code_interpreter::initial_values(&given[0..n])
}

// A new note after its i pass.
fn after_i_pass<'a>(code: &'a [u64], vals: &'a [f32], x: Instrument, note: Note) -> Note
    ensures { result ≡ with_values (once vals.now (stretch x.istart x.iend code.now) note.values) note }
{
    let mut room = code_interpreter::working_area(vals);
    code_interpreter::run_pass(code, x.istart, x.iend, &mut room, note)
}

// Where a note ends that starts at a position, if it does: a duration of -1 is without end.
fn end_after(position: u64, duration: f32) -> Option<u64>
    requires { position ≤ position_limit }
    ensures { result ≡ end_after position duration }
{
    if duration == -1.0 {
        None
    } else {
        Some(position + base_timebase::beats_to_ticks(duration))
    }
}

// The note that a line starts at a position, its event an instr with this label, name and duration; its i pass has run.
pub fn note_from_line<'a>(
    code: &'a [u64],
    vals: &'a [f32],
    x: Instrument,
    l: Line,
    position: u64,
    label: Label,
    name: u16,
    duration: f32,
) -> Note
    requires { position ≤ position_limit }
    ensures { result ≡ born_note code.now vals.now x l position label name duration }
{
    let values = fresh_values(l.values, l.count, x.fields);
    let end = end_after(position, duration);
    let note = note_state::new_note(values, label_of(label), name, end, l.priority, None, false);
    after_i_pass(code, vals, x, note)
}

// The note that a note-on starts: field one gets the key's frequency, field two the velocity over 128; its i pass has run.
pub fn note_from_key<'a>(
    code: &'a [u64],
    vals: &'a [f32],
    x: Instrument,
    name: u16,
    m: NoteMessage,
) -> Note
    ensures { result ≡ note_from_key code.now vals.now x name m }
{
    let mut given = [0.0f32; 8];
    given[0] = midi_keys::frequency(m.key);
    given[1] = midi_keys::normalized_velocity(m.velocity);
    let values = fresh_values(given, 2, x.fields);
    let key = Some((m.channel, m.key));
    let note = note_state::new_note(values, None, name, None, false, key, false);
    after_i_pass(code, vals, x, note)
}

// A control line's effect on one note.
pub fn controlled_note(x: Instrument, n: Note, label: u16, variable: u16, value: f32) -> Note
    ensures { result ≡ controlled_note x n label variable value }
{
    if n.label == Some(label) {
        let held = set_import(n.values, x.imports, wide(variable), value);
        return note_state::with_values(n, held);
    }
    n
}

// An unmarked note of a key of a channel.
pub fn is_held(n: Note, channel: u8, key: u8) -> bool
    ensures { result ≡ is_held_in channel key n }
{
    if n.released {
        return false;
    }
    match n.key {
        Some(own) => own.0 == channel && own.1 == key,
        None => false,
    }
}

// A note's cycle: its k pass, then an a pass for each sample of the mix.
pub fn run_note(
    code: &[u64],
    room: &mut [f32; code_operations::WORKING_AREA],
    x: Instrument,
    n: Note,
    mix: &mut [f32],
) -> Note
    ensures note { result ≡ ran_note code.now (numbers_in room.old) x n mix.old }
    ensures mix { mix.new ≡ ran_mix code.now (numbers_in room.old) x n mix.old }
    ensures same { numbers_in room.new ≡ numbers_in room.old }
    ensures room { room.new ≡ ran_area code.now room.old x n mix.old }
{
    let k = code_interpreter::run_pass(code, x.kstart, x.kend, room, n);
    code_interpreter::run_a_passes(code, x.astart, x.aend, room, k, mix)
}

pub fn goes_on(n: Note, position: u64) -> bool
    ensures { result ≡ goes_on position (note_of n) }
{
    if n.released {
        return false;
    }
    match n.end {
        Some(end) => position < end,
        None => true,
    }
}
