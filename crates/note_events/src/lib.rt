// What lines and note messages do with the sounding notes (document 01, "One cycle, in order", steps 3 and 4).
#![tactic(auto)]

ghost use Rattle.std.specs.Prelude.{◌≡◌, ◌<◌, ◌≤◌, take};
ghost use Rattle.player_model.specs.Lists.{each, over};
ghost use Rattle.player_model.specs.Cycle.{position_limit, started_by, started, after_message, after_messages};
ghost use Rattle.code_program.specs.InstrumentTable.{instruments_of};
ghost use Rattle.voices_compiled.specs.Voices.{voices};
ghost use Rattle.note_pool.specs.Notes.{notes_in, started_in, started_over};
ghost use Rattle.note_pool.specs.Started.{StartedBy};
ghost use Rattle.note_events.specs.Controls.{controlled_in, controls_in, controlled_all};

use code_program::Instruments;
use midi_messages::{MOST_MESSAGES, NoteMessage};
use note_pool::{MOST_NOTES, Notes, Started};
use player_queue::{Lines, MOST_LINES};
use score_line::{Event, Line};

// What a due line starts: an instr line a note, where fewer than the most notes sound, or where it has priority and a note has none, which
// is cut off. A birth is worked only where the note starts.
fn start_line<'a>(
    instruments: Instruments,
    code: &'a [u64],
    vals: &'a [f32],
    v: Started,
    l: Line,
    position: u64,
    most: usize,
) -> Started
    requires { (v.count ≤ 16) × (v.missed < 64) × (position ≤ position_limit) × (most ≤ 16) }
    ensures { StartedBy (started_by (voices (instruments_of instruments) code.now vals.now) most position l (started_in v.notes v.count v.missed) l.event) v result }
{
    let e = l.event;
    match e {
        Event::Instr {
            label,
            instrument,
            duration,
        } => {
            if v.count < most {
                let x = code_program::instrument_or_blank(instruments, instrument);
                let note = note_lifecycle::note_from_line(
                    code, vals, x, l, position, label, instrument, duration,
                );
                return note_pool::with_note(v, note);
            }
            if !l.priority {
                return note_pool::with_miss(v);
            }
            let place = note_pool::oldest_without_priority(v);
            if v.count <= place {
                return note_pool::with_miss(v);
            }
            let x = code_program::instrument_or_blank(instruments, instrument);
            let note = note_lifecycle::note_from_line(
                code, vals, x, l, position, label, instrument, duration,
            );
            note_pool::with_note(note_pool::cut_off(v, place), note)
        }
        Event::Control {
            label: _,
            variable: _,
            value: _,
        } => v,
        Event::End => v,
        Event::Tempo(_) => v,
    }
}

// Step 3: each instr line among those that are due starts a note.
pub fn start_notes<'a>(
    instruments: Instruments,
    code: &'a [u64],
    vals: &'a [f32],
    old: Notes,
    due: Lines,
    position: u64,
    most: usize,
) -> Started
    requires { (position ≤ position_limit) × (most ≤ 16) }
    ensures { (result ≡ started_over (started (voices (instruments_of instruments) code.now vals.now) most position (notes_in old.notes old.count) (take due.count due.lines)) old.notes) × (result.missed ≤ 64) }
{
    let w = due.count.min(MOST_LINES);
    let lines = due.lines;
    let notes = old.notes;
    let mut v = Started {
        notes: notes,
        count: old.count.min(MOST_NOTES),
        missed: 0,
    };
    for i in 0..w {
        let l = lines[i];
        v = start_line(instruments, code, vals, v, l, position, most);
    }
    v
}

// A control line's effect on the first notes; what lies behind them stays.
fn control_notes(instruments: Instruments, v: Notes, label: u16, variable: u16, value: f32) -> Notes
    ensures { (result.count ≡ v.count) × (result.notes ≡ over (each (controlled_in (instruments_of instruments) label variable value) (take v.count v.notes)) v.notes) }
{
    let notes = v.notes;
    let m = v.count.min(MOST_NOTES);
    let mut a = notes;
    for j in 0..m {
        let x = notes[j];
        let i = code_program::instrument_or_blank(instruments, x.instrument);
        let y = note_lifecycle::controlled_note(i, x, label, variable, value);
        a[j] = y;
    }
    Notes {
        notes: a,
        count: v.count,
    }
}

fn control_line(instruments: Instruments, v: Notes, l: Line) -> Notes
    ensures { (result.count ≡ v.count) × (result.notes ≡ over (controls_in (instruments_of instruments) (take v.count v.notes) l.event) v.notes) }
{
    let e = l.event;
    match e {
        Event::Control {
            label,
            variable,
            value,
        } => { control_notes(instruments, v, label, variable, value) }
        Event::Instr {
            label: _,
            instrument: _,
            duration: _,
        } => v,
        Event::End => v,
        Event::Tempo(_) => v,
    }
}

// Step 4: each control line among the first m, in order; what lies behind the notes stays.
pub fn control_lines(
    instruments: Instruments,
    notes: Notes,
    lines: [Line; MOST_LINES],
    m: usize,
) -> Notes
    ensures { (result.count ≡ notes.count) × (result.notes ≡ over (controlled_all (instruments_of instruments) (take notes.count notes.notes) (take m lines)) notes.notes) }
{
    let w = m.min(MOST_LINES);
    let mut v = notes;
    for i in 0..w {
        let l = lines[i];
        v = control_line(instruments, v, l);
    }
    v
}

// What a note message does.
fn play_message<'a>(
    instruments: Instruments,
    code: &'a [u64],
    vals: &'a [f32],
    v: Started,
    chosen: u16,
    m: NoteMessage,
    most: usize,
) -> Started
    requires { (v.count ≤ 16) × (v.missed < 128) × (most ≤ 16) }
    ensures { StartedBy (after_message (voices (instruments_of instruments) code.now vals.now) most chosen (started_in v.notes v.count v.missed) m) v result }
{
    if m.on {
        if v.count < most {
            let x = code_program::instrument_or_blank(instruments, chosen);
            let note = note_lifecycle::note_from_key(code, vals, x, chosen, m);
            return note_pool::with_note(v, note);
        }
        return note_pool::with_miss(v);
    }
    note_pool::release_oldest(v, m.channel, m.key)
}

// After step 4: each note message among the first m, in order.
pub fn play_messages<'a>(
    instruments: Instruments,
    code: &'a [u64],
    vals: &'a [f32],
    old: Started,
    chosen: u16,
    messages: [NoteMessage; MOST_MESSAGES],
    m: usize,
    most: usize,
) -> Started
    requires { (old.missed ≤ 64) × (most ≤ 16) }
    ensures { (result ≡ started_over (after_messages (voices (instruments_of instruments) code.now vals.now) most chosen (started_in old.notes old.count old.missed) (take m messages)) old.notes) × (result.missed ≤ 128) }
{
    let count = m.min(MOST_MESSAGES);
    let mut v = old;
    v.count = old.count.min(MOST_NOTES);
    for next in 0..count {
        let x = messages[next];
        v = play_message(instruments, code, vals, v, chosen, x, most);
    }
    v
}
