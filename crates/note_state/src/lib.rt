// A note that sounds, of its parts.
#![tactic(auto)]

ghost use Rattle.std.specs.Prelude.{◌≡◌};
ghost use Rattle.note_state.specs.Notes.{new_note, with_values, release};

// How many values a note holds.
const VALUES: usize = 16;

// A note that sounds: what it holds, its label, if it has one, its instrument, where it ends, if it does, whether its line had priority,
// the channel and key that it is from, if it is from the keyboard, and whether that key was released.
#[derive(Clone, Copy)]
pub struct Note {
    pub values: [f32; VALUES],
    pub label: Option<u16>,
    pub instrument: u16,
    pub end: Option<u64>,
    pub priority: bool,
    pub key: Option<(u8, u8)>,
    pub released: bool,
}

pub fn new_note(
    values: [f32; VALUES],
    label: Option<u16>,
    instrument: u16,
    end: Option<u64>,
    priority: bool,
    key: Option<(u8, u8)>,
    released: bool,
) -> Note
    ensures { result ≡ new_note values label instrument end priority key released }
{
    Note {
        values,
        label,
        instrument,
        end,
        priority,
        key,
        released,
    }
}

// A note marked for removal.
pub fn release(note: Note) -> Note
    ensures { result ≡ release note }
{
    Note {
        released: true,
        ..note
    }
}

// A note with other values.
pub fn with_values(note: Note, values: [f32; VALUES]) -> Note
    ensures { result ≡ with_values values note }
{
    Note { values, ..note }
}
