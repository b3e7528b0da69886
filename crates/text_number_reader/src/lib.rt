// Numbers and names in text, read at any position among bytes. A result is what was read and the position past it, or none.
#![tactic(auto)]

ghost use Rattle.std.specs.Prelude.{◌≡◌, ◌^◌, ◌<◌, ◌≤◌, drop};
ghost use Rattle.text_numerals.specs.Numeral.{most_number, most_decimals, float_of};
ghost use Rattle.text_numerals.specs.inside.Reading.{digits_from, decimals_from, unsigned_from, number_from, symbol_from, name_from};
ghost use Rattle.text_number_reader.specs.Results.{NumberAt, NameAt, DigitsAt, Starts};

const MINUS: u8 = 45;

const POINT: u8 = 46;

const ZERO: u8 = 48;

const NINE: u8 = 57;

// The letter s.
const NAME_LETTER: u8 = 115;

// All the digits of a number, as one number, are below this.
const MOST_NUMBER: u32 = 16777216;

const MOST_DECIMALS: usize = 3;

// Symbols are below this.
const SYMBOLS: u32 = 65536;

// Whether this byte stands at a position.
pub fn starts_with(s: &[u8], at: usize, b: u8) -> bool
    ensures { Starts s.now at b result }
{
    at < s.len() && s[at] == b
}

// Every digit from a position on, behind the number `start`: the number that they make, how many they are and the position past them. The number
// stays below `most`.
fn digits_at(s: &[u8], at: usize, start: u32, most: u32) -> Option<(u32, usize, usize)>
    requires { (start < most) × (most ≤ most_number) }
    ensures { DigitsAt s.now (digits_from most start 0 (drop at s.now)) result }
{
    let mut n = start;
    for i in at..s.len() {
        let b = s[i];
        if b < ZERO || NINE < b {
            return Some((n, i - at, i));
        }
        n = n * 10 + (b - ZERO) as u32;
        if most <= n {
            return None;
        }
    }
    Some((n, s.len().saturating_sub(at), s.len()))
}

// 10 to the power d.
fn power_of_ten(d: usize) -> u16
    requires { d ≤ most_decimals }
    ensures { result ≡ 10 ^ d }
{
    match d {
        0 => 1,
        1 => 10,
        2 => 100,
        _ => 1000,
    }
}

// What a minus or none, n and d decimals mean: one division, rounded once.
fn value(minus: bool, n: u32, d: usize) -> f32
    requires { (n < most_number) × (d ≤ most_decimals) }
    ensures { result ≡ float_of minus n d }
{
    let x = (n as f32) / (power_of_ten(d) as f32);
    if minus {
        return -x;
    }
    x
}

// Behind the point: one to three decimals.
fn decimals_at(s: &[u8], at: usize, minus: bool, n: u32) -> Option<(f32, usize)>
    requires { n < most_number }
    ensures { NumberAt s.now (decimals_from minus n (drop at s.now)) result }
{
    let (all, count, next) = digits_at(s, at, n, MOST_NUMBER)?;
    if count == 0 || MOST_DECIMALS < count {
        return None;
    }
    Some((value(minus, all, count), next))
}

// Behind the sign: one digit or more, and then a point or none.
fn unsigned_at(s: &[u8], at: usize, minus: bool) -> Option<(f32, usize)>
    ensures { NumberAt s.now (unsigned_from minus (drop at s.now)) result }
{
    let (whole, count, next) = digits_at(s, at, 0, MOST_NUMBER)?;
    if count == 0 {
        return None;
    }
    if starts_with(s, next, POINT) {
        return decimals_at(s, next + 1, minus, whole);
    }
    Some((value(minus, whole, 0), next))
}

// A number.
pub fn number_at(s: &[u8], at: usize) -> Option<(f32, usize)>
    ensures { NumberAt s.now (number_from (drop at s.now)) result }
{
    if starts_with(s, at, MINUS) {
        return unsigned_at(s, at + 1, true);
    }
    unsigned_at(s, at, false)
}

// Behind the s: a lone 0, or digits of which the first is none.
fn symbol_at(s: &[u8], at: usize) -> Option<(u16, usize)>
    ensures { NameAt s.now (symbol_from (drop at s.now)) result }
{
    if starts_with(s, at, ZERO) {
        return Some((0, at + 1));
    }
    let (symbol, count, next) = digits_at(s, at, 0, SYMBOLS)?;
    if count == 0 {
        return None;
    }
    Some((symbol as u16, next))
}

// A name: an s and a symbol.
pub fn name_at(s: &[u8], at: usize) -> Option<(u16, usize)>
    ensures { NameAt s.now (name_from (drop at s.now)) result }
{
    if starts_with(s, at, NAME_LETTER) {
        return symbol_at(s, at + 1);
    }
    None
}
