// The sounding notes rendered: run into one mix, which is limited into a block (document 01, steps 5 and 6).
#![tactic(auto)]

ghost use Rattle.std.specs.Prelude.{◌≡◌};
ghost use Rattle.engine_limiter.specs.Block.{limited};
ghost use Rattle.player_model.specs.Lists.{each, over};
ghost use Rattle.player_model.specs.Cycle.{run_all};
ghost use Rattle.code_program.specs.InstrumentTable.{instruments_of};
ghost use Rattle.voices_compiled.specs.Voices.{voices};
ghost use Rattle.note_lifecycle.specs.OneNote.{struct_of};
ghost use Rattle.note_pool.specs.Notes.{notes_in};

use code_program::Instruments;
use note_pool::Notes;

// Steps 5 and 6: the notes run into one mix, which is limited into the block; what lies behind the notes stays.
pub fn sound<'a>(
    instruments: Instruments,
    code: &'a [u64],
    vals: &'a [f32],
    v: Notes,
    ceiling: u16,
    block: &mut [i16],
) -> Notes
    ensures notes { (result.count ≡ v.count) × (result.notes ≡ over (each struct_of (run_all (voices (instruments_of instruments) code.now vals.now) (notes_in v.notes v.count)).notes) v.notes) }
    ensures block { block.new ≡ limited ceiling (run_all (voices (instruments_of instruments) code.now vals.now) (notes_in v.notes v.count)).mix block.old }
{
    let mut mix = [0.0f32; 320];
    let notes = v.notes;
    let held = engine_run::run_notes(instruments, code, vals, notes, v.count, &mut mix);
    engine_limiter::limit(&mix, ceiling, block);
    Notes {
        notes: held,
        count: v.count,
    }
}
