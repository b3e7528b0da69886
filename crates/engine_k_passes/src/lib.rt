// The k passes of a cycle's notes.
#![tactic(auto)]

ghost use Rattle.std.specs.Prelude.{◌≡◌, false, ◌≤◌, take, drop};
ghost use Rattle.player_model.specs.Lists.{each};
ghost use Rattle.code_program.specs.InstrumentTable.{instruments_of};
ghost use Rattle.engine_rows.specs.Rows.{lane_count};
ghost use Rattle.engine_k_passes.specs.Still.{k_note_in, Still, AllStill};

use code_program::{Instrument, Instruments};
use engine_rows::LANES;
use note_state::Note;

// The first m notes after their k passes, one after the other.
fn run_serially<'a>(
    instruments: Instruments,
    code: &'a [u64],
    vals: &'a [f32],
    notes: [Note; LANES],
    m: usize,
) -> [Note; LANES]
    requires { m ≤ lane_count }
    ensures notes { take m result ≡ each (k_note_in (instruments_of instruments) code.now vals.now) (take m notes) }
    ensures behind { drop m result ≡ drop m notes }
{
    let mut room = code_interpreter::working_area(vals);
    let mut a = notes;
    for j in 0..m {
        let x = notes[j];
        let i = code_program::instrument_or_blank(instruments, x.instrument);
        let y = code_interpreter::run_pass(code, i.kstart, i.kend, &mut room, x);
        a[j] = y;
    }
    a
}

// Whether an instrument has k code; where it has none, a note's k pass leaves it as it is.
fn has_k_code(i: Instrument, x: Note) -> bool
    ensures { result ≡ false → Still i x }
{
    if i.kstart < i.kend {
        return true;
    }
    false
}

// Whether the instrument of one of the first m notes has k code.
fn have_k_code(instruments: Instruments, notes: [Note; LANES], m: usize) -> bool
    requires { m ≤ lane_count }
    ensures { result ≡ false → AllStill (instruments_of instruments) (take m notes) }
{
    for j in 0..m {
        let x = notes[j];
        let i = code_program::instrument_or_blank(instruments, x.instrument);
        if has_k_code(i, x) {
            return true;
        }
    }
    false
}

// The first m notes after their k passes; no room is made where they have no k code.
pub fn run_k_passes<'a>(
    instruments: Instruments,
    code: &'a [u64],
    vals: &'a [f32],
    notes: [Note; LANES],
    m: usize,
) -> [Note; LANES]
    requires { m ≤ lane_count }
    ensures notes { take m result ≡ each (k_note_in (instruments_of instruments) code.now vals.now) (take m notes) }
    ensures behind { drop m result ≡ drop m notes }
{
    if have_k_code(instruments, notes, m) {
        return run_serially(instruments, code, vals, notes, m);
    }
    notes
}
