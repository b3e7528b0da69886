// A symbol's name, as a part of the list that has it.
#![tactic(auto)]

ghost use Rattle.std.specs.Prelude.{◌≡◌, cond, eqb};
ghost use Rattle.symbol_names.specs.inside.Asking.{name_in};
ghost use Rattle.symbol_names.specs.Asking.{name_found};
ghost use Rattle.symbol_lookup.specs.Places.{Stands};

use std::ops::Range;

// The stretch of the symbol that is wanted, once it has been met.
fn noted(symbol: usize, wanted: usize, its: Range<usize>, before: Range<usize>) -> Range<usize>
    ensures { result ≡ cond (eqb symbol wanted) its before }
{
    if symbol == wanted {
        return its;
    }
    before
}

// Where a symbol's name stands in a list: an empty stretch where it has none, and where the list is cut anywhere.
fn place_in(list: &[u8], symbol: u16) -> Range<usize>
    ensures { Stands list.now symbol result }
{
    let wanted = symbol as usize;
    let mut name = 0..0;
    let mut at: usize = 0;
    let mut i: usize = 0;
    // Kept: a step is as long as the name that it passes, so this is no loop over a range.
    while at < list.len() {
        let length = list[at] as usize;
        let start = at + 1;
        if list.len() - start < length {
            return 0..0;
        }
        let next = start + length;
        name = noted(i, wanted, start..next, name);
        at = next;
        i += 1;
    }
    name
}

// A symbol's name in a list, without its length byte.
pub fn name_in(list: &[u8], symbol: u16) -> &[u8]
    ensures { result.now ≡ name_in list.now symbol }
{
    &list[place_in(list, symbol)]
}

// A symbol's name in the piece's names, else in the panel's own list, else none: a part of the one that has it.
pub fn name_of<'a>(symbol: u16, piece: &'a [u8], own: &'a [u8]) -> &'a [u8]
    ensures { result.now ≡ name_found symbol piece.now own.now }
{
    let name = name_in(piece, symbol);
    if name.len() == 0 {
        return name_in(own, symbol);
    }
    name
}
