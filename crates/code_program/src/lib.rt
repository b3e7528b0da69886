// What the player keeps of an orchestra: a table of its instruments, their code and its numbers; and what is looked up in it.
#![tactic(auto)]

ghost use Rattle.std.specs.Prelude.{◌≡◌};
ghost use Rattle.code_program.specs.InstrumentTable.{instruments_of, lookup_in, instrument_in, field_count_in};

use score_line::{Event, Line};

// The most instruments of an orchestra.
pub const MOST_INSTRUMENTS: usize = 8;

// An instrument of the program: its name, how many fields it has, its instructions for the i, k and a passes, from one number
// up to another, and at each place the name of the imports ksig there, or a number above 65,535.
#[derive(Clone, Copy)]
pub struct Instrument {
    pub name: u16,
    pub fields: usize,
    pub istart: usize,
    pub iend: usize,
    pub kstart: usize,
    pub kend: usize,
    pub astart: usize,
    pub aend: usize,
    pub imports: [u32; 16],
}

// The instruments from the first on, their code for the i, k and a passes, and the numbers in it.
#[derive(Clone, Copy)]
pub struct Program {
    pub table: [Instrument; MOST_INSTRUMENTS],
    pub count: usize,
    pub code: [u64; code_operations::CODE],
    pub vals: [f32; code_operations::PROGRAM],
}

// A table of instruments, of which the first so many are there.
#[derive(Clone, Copy)]
pub struct Instruments {
    pub table: [Instrument; MOST_INSTRUMENTS],
    pub count: usize,
}

// The first instrument with a name.
pub fn find(instruments: Instruments, name: u16) -> Option<Instrument>
    ensures { result ≡ lookup_in name (instruments_of instruments) }
{
    let table = instruments.table;
    let m = instruments.count.min(MOST_INSTRUMENTS);
    for i in 0..m {
        let x = table[i];
        if x.name == name {
            return Some(x);
        }
    }
    None
}

// The first instrument with a name; else a blank one: no fields, no code, no imports.
#[tactic(auto, unfolding(crate::specs::InstrumentTable::blank))]
pub fn instrument_or_blank(instruments: Instruments, name: u16) -> Instrument
    ensures { result ≡ instrument_in (instruments_of instruments) name }
{
    match find(instruments, name) {
        Some(x) => x,
        None => Instrument {
            name: 0,
            fields: 0,
            istart: 0,
            iend: 0,
            kstart: 0,
            kend: 0,
            astart: 0,
            aend: 0,
            imports: [65536; 16],
        },
    }
}

// How many fields a line's instrument has, where there is one of that name; none for a line of another kind.
pub fn field_count_for(instruments: Instruments, l: Line) -> Option<usize>
    ensures { result ≡ field_count_in (instruments_of instruments) l.event }
{
    match l.event {
        Event::Instr { instrument, .. } => Some(find(instruments, instrument)?.fields),
        Event::Control { .. } | Event::End | Event::Tempo(_) => None,
    }
}
