// The sounding notes in an array of 16: a note more, a note missed, cut off or released, those that go on, and notes laid over others
// (document 01, "One cycle, in order", steps 3 and 7, and what a note-off does).
#![tactic(auto)]

ghost use Rattle.std.specs.Prelude.{◌≡◌, ◌<◌, ◌≤◌, ◌+◌, length, take, set};
ghost use Rattle.player_model.specs.Lists.{filter, over};
ghost use Rattle.player_model.specs.Cycle.{release_oldest};
ghost use Rattle.note_lifecycle.specs.OneNote.{goes_on_in};
ghost use Rattle.note_pool.specs.Notes.{notes_in, oldest_without_priority, without_element};
ghost use Rattle.note_pool.specs.Started.{StartedBy};

use note_state::Note;

// The notes that sound, from the first on, and how many were missed.
#[derive(Clone, Copy)]
pub struct Started {
    pub notes: [Note; MOST_NOTES],
    pub count: usize,
    pub missed: usize,
}

// Some of 16 notes, from the first on.
#[derive(Clone, Copy)]
pub struct Notes {
    pub notes: [Note; MOST_NOTES],
    pub count: usize,
}

// Most notes that sound at once.
pub const MOST_NOTES: usize = 16;

// One note more; there is room for it.
pub fn with_note(v: Started, n: Note) -> Started
    requires { v.count < 16 }
    ensures { (result.notes ≡ set v.notes v.count n) × (result.count ≡ v.count + 1) × (result.missed ≡ v.missed) }
{
    let k = v.count;
    let mut a = v.notes;
    a[k] = n;
    Started {
        notes: a,
        count: k + 1,
        missed: v.missed,
    }
}

// One more missed.
pub fn with_miss(v: Started) -> Started
    requires { v.missed < 128 }
    ensures { (result.notes ≡ v.notes) × (result.count ≡ v.count) × (result.missed ≡ v.missed + 1) }
{
    let notes = v.notes;
    Started {
        notes: notes,
        count: v.count,
        missed: v.missed + 1,
    }
}

// The place of the oldest note without priority; with none, how many notes there are.
pub fn oldest_without_priority(v: Started) -> usize
    requires { v.count ≤ 16 }
    ensures { result ≡ oldest_without_priority (take v.count v.notes) }
{
    let notes = v.notes;
    let count = v.count;
    for oldest in 0..count {
        let x = notes[oldest];
        if !x.priority {
            return oldest;
        }
    }
    count
}

// The note at a place cut off: the later ones move down, what lies behind them stays, and one more is missed.
pub fn cut_off(v: Started, place: usize) -> Started
    requires { (place < v.count) × (v.count ≤ 16) × (v.missed < 128) }
    ensures { (result.notes ≡ over (without_element place (take v.count v.notes)) v.notes) × (result.count + 1 ≡ v.count) × (result.missed ≡ v.missed + 1) }
{
    let notes = v.notes;
    let m = v.count - 1;
    let mut a = notes;
    for i in place..m {
        let x = notes[i + 1];
        a[i] = x;
    }
    with_miss(Started {
        notes: a,
        count: m,
        missed: v.missed,
    })
}

// What a note-off does: the oldest unmarked note of its key and channel is marked for removal.
pub fn release_oldest(v: Started, channel: u8, key: u8) -> Started
    requires { v.count ≤ 16 }
    ensures { StartedBy (record { notes = release_oldest channel key (notes_in v.notes v.count); missed = v.missed }) v result }
{
    let notes = v.notes;
    let count = v.count;
    for place in 0..count {
        let x = notes[place];
        if note_lifecycle::is_held(x, channel, key) {
            let mut a = notes;
            a[place] = note_state::release(x);
            return Started {
                notes: a,
                count: count,
                missed: v.missed,
            };
        }
    }
    v
}

// Step 7: the notes that go on, in order; what lies behind them stays.
pub fn remaining(notes: [Note; MOST_NOTES], count: usize, position: u64) -> Notes
    ensures { (result.count ≡ length (filter (goes_on_in position) (take count notes))) × (result.notes ≡ over (filter (goes_on_in position) (take count notes)) notes) × (result.count ≤ 16) }
{
    let m = count.min(MOST_NOTES);
    let mut a = notes;
    let mut k: usize = 0;
    for i in 0..m {
        let x = notes[i];
        if note_lifecycle::goes_on(x, position) {
            a[k] = x;
            k += 1;
        }
    }
    Notes { notes: a, count: k }
}

// The first notes of an array laid over another.
pub fn copied_over(
    new: [Note; MOST_NOTES],
    count: usize,
    old: [Note; MOST_NOTES],
) -> [Note; MOST_NOTES]
    ensures { result ≡ over (take count new) old }
{
    let m = count.min(MOST_NOTES);
    let mut a = old;
    for i in 0..m {
        let x = new[i];
        a[i] = x;
    }
    a
}
