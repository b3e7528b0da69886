// Step 5 of a cycle with one note after the other, as document 01 has it. `engine_run` falls back on it where lanes find no room.
#![tactic(auto)]

ghost use Rattle.std.specs.Prelude.{◌≡◌};
ghost use Rattle.player_model.specs.Lists.{each, over};
ghost use Rattle.player_model.specs.Cycle.{run_from};
ghost use Rattle.code_program.specs.InstrumentTable.{instruments_of};
ghost use Rattle.voices_compiled.specs.Voices.{voices};
ghost use Rattle.note_pool.specs.Notes.{notes_in};
ghost use Rattle.note_lifecycle.specs.OneNote.{struct_of};

use code_program::Instruments;
use note_pool::MOST_NOTES;
use note_state::Note;

// Step 5: the first notes run, oldest first, each adding its outputs to the mix; what lies behind them stays.
pub fn run_notes<'a>(
    instruments: Instruments,
    code: &'a [u64],
    vals: &'a [f32],
    notes: [Note; MOST_NOTES],
    count: usize,
    mix: &mut [f32],
) -> [Note; MOST_NOTES]
    ensures notes { result ≡ over (each struct_of (run_from (voices (instruments_of instruments) code.now vals.now) (notes_in notes count) mix.old).notes) notes }
    ensures mix { mix.new ≡ (run_from (voices (instruments_of instruments) code.now vals.now) (notes_in notes count) mix.old).mix }
{
    let m = count.min(MOST_NOTES);
    let mut room = code_interpreter::working_area(vals);
    let mut a = notes;
    for j in 0..m {
        let x = notes[j];
        let i = code_program::instrument_or_blank(instruments, x.instrument);
        let y = note_lifecycle::run_note(code, &mut room, i, x, mix);
        a[j] = y;
    }
    a
}
