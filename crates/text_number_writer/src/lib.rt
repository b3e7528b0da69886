// Numbers and names written as text: a float's shortest text, and bytes put behind each other in a line of text.
#![tactic(auto)]

ghost use Rattle.std.specs.Prelude.{◌≡◌, ◌<◌, ◌≤◌, ◌^◌, ◌+◌, ◌/◌, ◌%◌, min as lesser};
ghost use Rattle.std.specs.Float.Ieee as Ieee;
ghost use Rattle.text_numerals.specs.Numeral.{float_of, digit_bytes, lowest, width_of, decimal, sign_bytes, decimal_bytes, numeral_of, encoded, name_bytes};
ghost use Rattle.text_numerals.specs.Nearest.{sign_of};
ghost use Rattle.text_number_writer.specs.Push.{empty_text, pushed, push_all};
ghost use Rattle.text_number_writer.specs.Answers.{TextIs, Around, LeastIs};

// A line of text as it grows.
#[derive(Clone, Copy)]
pub struct LineText {
    pub bytes: [u8; 128],
    pub len: usize,
}

// It and the next are the largest numbers that a text can have.
const LAST_PAIR: u32 = 16777214;

// ---- powers of ten

// 10 to the power j.
fn power_of_ten(j: u8) -> u32
    requires { j < 8 }
    ensures { (result ≡ 10 ^ j) × (0 < result) }
{
    match j {
        0 => 1,
        1 => 10,
        2 => 100,
        3 => 1000,
        4 => 10000,
        5 => 100000,
        6 => 1000000,
        _ => 10000000,
    }
}

// ---- a float's shortest text

// Whether the sign bit is set.
pub fn sign(x: f32) -> bool
    ensures { result ≡ sign_of x }
{
    0x8000_0000 <= base_numbers::float_bits(x)
}

// What a minus or none, n and d decimals mean.
fn value(minus: bool, n: u32, d: u8) -> f32
    requires { (n < 16777216) × (d ≤ 3) }
    ensures { result ≡ float_of minus n d }
{
    let c = power_of_ten(d);
    let x = (n as f32) / (c as f32);
    if minus {
        return -x;
    }
    x
}

// Whether n with d decimals reads as x.
fn reads(x: f32, n: u32, d: u8) -> bool
    requires { (n < 16777216) × (d ≤ 3) }
    ensures { result ≡ Ieee.eq (float_of (sign_of x) n d) x }
{
    value(sign(x), n, d) == x
}

// Only the size of x times 10^d, its fraction dropped, and the next number can read as x. By the float's own digits and exponent it is
// (2^23 + digits) * 10^d * 2^(exponent - 150). No number reads as a float from 2^24 on.
fn part(x: f32, d: u8) -> u32
    requires { d ≤ 3 }
    ensures { Around x d result × (result < 16777215) }
{
    let b = base_numbers::float_bits(x);
    let exponent = b % 0x8000_0000 / 0x80_0000;
    if exponent < 110 {
        return 0;
    }
    if 150 < exponent {
        return LAST_PAIR;
    }
    let significand = 0x80_0000 + b % 0x80_0000;
    let product = (significand as u64) * (power_of_ten(d) as u64);
    let f = product >> (150 - exponent);
    if f < (LAST_PAIR as u64) {
        return f as u32;
    }
    LAST_PAIR
}

// The smallest number that reads as x with d decimals, or none.
fn least(x: f32, d: u8) -> Option<u32>
    requires { d ≤ 3 }
    ensures { LeastIs x d result }
{
    let n = part(x, d);
    let next = n + 1;
    if reads(x, n, d) {
        return Some(n);
    }
    if reads(x, next, d) {
        return Some(next);
    }
    None
}

// A number's text: all its digits as one number, and how many of them are decimals; or none.
pub fn shortest(x: f32) -> Option<(u32, u8)>
    ensures { TextIs x result }
{
    for d in 0..4 {
        if let Some(n) = least(x, d) {
            return Some((n, d));
        }
    }
    None
}

// ---- a line of text

pub fn empty() -> LineText
    ensures { result ≡ empty_text }
{
    LineText {
        bytes: [0; 128],
        len: 0,
    }
}

// One byte more; past 128 bytes nothing.
pub fn push(t: LineText, b: u8) -> LineText
    ensures { result ≡ pushed t b }
{
    let len = t.len;
    let mut bytes = t.bytes;
    if len < 128 {
        bytes[len] = b;
        return LineText {
            bytes,
            len: len + 1,
        };
    }
    t
}

pub fn push_word(t: LineText, word: &[u8]) -> LineText
    ensures { result ≡ push_all t word.now }
{
    let mut text = t;
    for b in word {
        text = push(text, *b);
    }
    text
}

// The byte of the digit of n at 10 to the power j.
fn digit_at(n: u32, j: u8) -> u8
    requires { j < 8 }
    ensures { result ≡ 48 + n / 10 ^ j % 10 }
{
    let v = n / power_of_ten(j) % 10;
    48 + (v as u8)
}

// The k lowest digits of n.
fn push_digits(t: LineText, n: u32, k: u8) -> LineText
    requires { k ≤ 8 }
    ensures { result ≡ push_all t (digit_bytes (lowest k n)) }
{
    let mut text = t;
    for j in (0..k).rev() {
        text = push(text, digit_at(n, j));
    }
    text
}

// How many digits a number has.
fn width(n: u32) -> u8
    ensures { (result ≡ width_of n) × (result ≤ 8) }
{
    if n < 10 {
        return 1;
    }
    if n < 100 {
        return 2;
    }
    if n < 1000 {
        return 3;
    }
    if n < 10000 {
        return 4;
    }
    if n < 100000 {
        return 5;
    }
    if n < 1000000 {
        return 6;
    }
    if n < 10000000 {
        return 7;
    }
    8
}

fn push_whole(t: LineText, n: u32) -> LineText
    ensures { result ≡ push_all t (digit_bytes (decimal n)) }
{
    push_digits(t, n, width(n))
}

fn push_sign(t: LineText, minus: bool) -> LineText
    ensures { result ≡ push_all t (sign_bytes minus) }
{
    if minus {
        return push(t, 45);
    }
    t
}

// The point and the d lowest digits of n, or nothing.
fn push_decimals(t: LineText, n: u32, d: u8) -> LineText
    requires { d ≤ 3 }
    ensures { result ≡ push_all t (decimal_bytes (lowest d n)) }
{
    if d == 0 {
        return t;
    }
    push_digits(push(t, 46), n, d)
}

fn at_most_three(d: u8) -> u8
    ensures { result ≡ lesser d 3 }
{
    if d < 3 { d } else { 3 }
}

// A minus or none, and the number n with d decimals; more than three decimals count as three.
pub fn push_number(t: LineText, minus: bool, n: u32, d: u8) -> LineText
    ensures { result ≡ push_all t (encoded (numeral_of minus n (lesser d 3))) }
{
    let few = at_most_three(d);
    let signed = push_sign(t, minus);
    let whole = push_whole(signed, n / power_of_ten(few));
    push_decimals(whole, n, few)
}

// The name of a symbol.
pub fn push_name(t: LineText, symbol: u16) -> LineText
    ensures { result ≡ push_all t (name_bytes symbol) }
{
    push_whole(push(t, 115), symbol as u32)
}
