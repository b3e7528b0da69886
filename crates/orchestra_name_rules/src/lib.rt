// The name rules of one instruction, the tables of names after it, and its name put by its place.
#![tactic(auto)]

ghost use Rattle.std.specs.Prelude.{◌≡◌, not, ◌&&◌, ℕ, ◌≤◌, List, length, take, ltb};
ghost use Rattle.orchestra_syntax.specs.Names.{has};
ghost use Rattle.orchestra_syntax.specs.inside.Placed.{place as place_of, speed_of_kind};
ghost use Rattle.orchestra_name_rules.specs.Entries.{valid, names_after, titles_after, placed_name};
ghost use Rattle.orchestra_name_rules.specs.Table.{seek_in, own};

use orchestra_syntax::{MOST_NAMES, OpClass};

// How many instruments there are at most.
const MOST_INSTRUMENTS: usize = 8;

// Tables of names are slices of which the first n words are filled.

// The place of the first of n words that is s, or n.
fn seek(table: &[u16], n: usize, s: u16) -> usize
    requires { n ≤ length table.now }
    ensures { result ≡ seek_in (take n table.now) s }
{
    for i in 0..n {
        if table[i] == s {
            return i;
        }
    }
    n
}

fn known(table: &[u16], n: usize, s: u16) -> bool
    requires { n ≤ length table.now }
    ensures { result ≡ has s (take n table.now) }
{
    seek(table, n, s) < n
}

// Whether there is room for one more name below `most`, and s is none of the n.
fn free(table: &[u16], n: usize, most: usize, s: u16) -> bool
    requires { n ≤ length table.now }
    ensures { result ≡ (ltb n most && not (has s (take n table.now))) }
{
    n < most && n <= seek(table, n, s)
}

fn rate_of_kind(k: u8) -> u16
    ensures low { result ≤ 2 }
    ensures is { result ≡ speed_of_kind k }
{
    match k {
        orchestra_syntax::FIELD | orchestra_signs::IVAR => orchestra_syntax::I_RATE,
        orchestra_signs::ASIG => orchestra_syntax::A_RATE,
        _ => orchestra_syntax::K_RATE,
    }
}

// A name by its place; 0 where there is none.
fn place(symbols: &[u16], kinds: &[u8], n: usize, s: u16) -> u16
    requires { (n ≤ 16) × (n ≤ length symbols.now) × (n ≤ length kinds.now) }
    ensures { result ≡ place_of (own symbols.now kinds.now n) s }
{
    let i = seek(symbols, n, s);
    if i < n {
        return orchestra_syntax::placed_as(rate_of_kind(kinds[i]), i as u16);
    }
    0
}

// Whether an instruction keeps the rules, whatever the kinds of the names.
pub fn is_valid(
    act: OpClass,
    arg: u16,
    titles: &[u16],
    heads: usize,
    symbols: &[u16],
    count: usize,
) -> bool
    requires { (heads ≤ length titles.now) × (count ≤ length symbols.now) }
    ensures { (ks : List ℕ) → result ≡ valid act arg (take heads titles.now) (own symbols.now ks count) }
{
    match act {
        OpClass::Name => known(symbols, count, arg),
        OpClass::Store => known(symbols, count, arg),
        OpClass::Declare => free(symbols, count, MOST_NAMES, arg),
        OpClass::Instr => free(titles, heads, MOST_INSTRUMENTS, arg),
        _ => true,
    }
}

// Enters an instrument's name, where there are fewer than 8; how many there are then.
pub fn titles_after(act: OpClass, arg: u16, titles: &mut [u16], heads: usize) -> usize
    requires { (heads ≤ 8) × (length titles.old ≡ 8) }
    ensures room { result ≤ 8 }
    ensures is { take result titles.new ≡ titles_after act arg (take heads titles.old) }
{
    match act {
        OpClass::Instr => {
            if heads < MOST_INSTRUMENTS {
                titles[heads] = arg;
                return heads + 1;
            }
            heads
        }
        _ => heads,
    }
}

// Enters a declared name with its kind, where there are fewer than 16; a new instrument has none. How many there are then.
pub fn names_after(
    act: OpClass,
    op: u8,
    arg: u16,
    symbols: &mut [u16],
    kinds: &mut [u8],
    count: usize,
) -> usize
    requires { (count ≤ 16) × (length symbols.old ≡ 16) × (length kinds.old ≡ 16) }
    ensures room { result ≤ 16 }
    ensures is { own symbols.new kinds.new result ≡ names_after act op arg (own symbols.old kinds.old count) }
{
    match act {
        OpClass::Declare => {
            if count < MOST_NAMES {
                symbols[count] = arg;
                kinds[count] = op;
                return count + 1;
            }
            count
        }
        OpClass::Instr => 0,
        _ => count,
    }
}

pub fn placed(act: OpClass, arg: u16, symbols: &[u16], kinds: &[u8], count: usize) -> u16
    requires { (count ≤ 16) × (count ≤ length symbols.now) × (count ≤ length kinds.now) }
    ensures { result ≡ placed_name act arg (own symbols.now kinds.now count) }
{
    match act {
        OpClass::Name => place(symbols, kinds, count, arg),
        OpClass::Store => place(symbols, kinds, count, arg),
        _ => arg,
    }
}
