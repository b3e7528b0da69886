// The reading of an orchestra's bytes: a first pass finds the tokens and measures them, a second stores them.
#![tactic(auto)]

ghost use Rattle.std.specs.Prelude.{Ok, ◌≡◌, true, ◌<◌, ◌≤◌, ◌+◌, drop, length};
ghost use Rattle.base_timebase.specs.Time.{finite_bits};
ghost use Rattle.orchestra_tokens.specs.Measures.{longest};
ghost use Rattle.orchestra_tokens.specs.Encoding.{valid};
ghost use Rattle.orchestra_tokens.specs.inside.Scanning.{two_of, four_of, more as more_of, tokens_of};
ghost use Rattle.orchestra_tokens.specs.inside.Passes.{standing, scanned};
ghost use Rattle.orchestra_tokens.specs.inside.Reading.{real_of, judged, read_of};

use base_answer::Answer;
use orchestra_tokens::{Measure, NUMBER, SYMBOL, Token, Tokens, WHOLE, byte_at};

// The byte that ends the tokens.
const END: u8 = 0xff;

// Document 01's sizes.
const MOST_BYTES: usize = 16384;

const WHOLE_LIMIT: u32 = 16777217;

fn wide(b: u8) -> u32
    ensures low { result < 256 }
    ensures is { result ≡ b }
{
    b as u32
}

// The whole number of the two bytes from `at`, and of the four, which stand behind a token's first byte.
fn two_at(bytes: &[u8], at: usize) -> u32
    requires { at ≤ longest + 3 }
    ensures low { result < 65536 }
    ensures is { result ≡ two_of (drop at bytes.now) }
{
    let high = wide(byte_at(bytes, at));
    let low = wide(byte_at(bytes, at + 1));
    256 * high + low
}

fn four_at(bytes: &[u8], at: usize) -> u32
    requires { at ≤ longest + 1 }
    ensures { result ≡ four_of (drop at bytes.now) }
{
    let high = two_at(bytes, at);
    let low = two_at(bytes, at + 2);
    65536 * high + low
}

// How many more bytes a token has, by its first.
fn more(k: u8) -> usize
    ensures low { result ≤ 4 }
    ensures is { result ≡ more_of k }
{
    match k {
        SYMBOL => 2,
        NUMBER | WHOLE => 4,
        _ => 0,
    }
}

fn is_finite(w: u32) -> bool
    ensures { result ≡ finite_bits w }
{
    base_timebase::value_of(w).is_some()
}

// Whether the token that stands at `at` is listed and its number is in range.
fn is_valid(bytes: &[u8], at: usize) -> bool
    requires { at ≤ longest }
    ensures { result ≡ valid (standing bytes.now at) }
{
    match byte_at(bytes, at) {
        SYMBOL => true,
        NUMBER => is_finite(four_at(bytes, at + 1)),
        WHOLE => four_at(bytes, at + 1) < WHOLE_LIMIT,
        k => k != 0 && k <= orchestra_signs::SIGNS,
    }
}

// How many tokens there are.
fn scan(bytes: &[u8]) -> Result<usize, Answer>
    requires { length bytes.now ≤ longest }
    ensures { result ≡ scanned bytes.now }
{
    let mut m = Measure {
        count: 0,
        depth: 0,
        run: 0,
        fits: true,
    };
    let mut at: usize = 0;
    while at < bytes.len() {
        let k = bytes[at];
        if k == END {
            return orchestra_tokens::closed(m, bytes.len() - at);
        }
        if !is_valid(bytes, at) {
            return Err(Answer::BadToken);
        }
        m = orchestra_tokens::next(m, k);
        at = at + 1 + more(k);
    }
    Err(Answer::BadToken)
}

// The float of the token that stands at `at`.
fn real_from(bytes: &[u8], at: usize) -> f32
    requires { (at ≤ longest) × (valid (standing bytes.now at) ≡ true) }
    ensures { result ≡ real_of (standing bytes.now at) }
{
    let k = byte_at(bytes, at);
    if k == NUMBER {
        return base_timebase::value_of(four_at(bytes, at + 1)).unwrap_or(0.0);
    }
    0.0
}

// The token that stands at `at`.
fn token_from(bytes: &[u8], at: usize) -> Token
    requires { (at ≤ longest) × (valid (standing bytes.now at) ≡ true) }
    ensures { result ≡ standing bytes.now at }
{
    match byte_at(bytes, at) {
        SYMBOL => Token::Symbol(two_at(bytes, at + 1) as u16),
        NUMBER => Token::Number(real_from(bytes, at)),
        WHOLE => Token::Whole(four_at(bytes, at + 1)),
        k => Token::Sign(k),
    }
}

// The second pass, over bytes that the first one took.
fn store(bytes: &[u8], count: usize) -> Tokens
    requires { (length bytes.now ≤ longest) × (scanned bytes.now ≡ Ok count) }
    ensures { judged (tokens_of bytes.now) ≡ Ok result }
{
    let mut tokens = [Token::Sign(0); 2048];
    let mut at: usize = 0;
    for n in 0..count {
        tokens[n] = token_from(bytes, at);
        at = at + 1 + more(byte_at(bytes, at));
    }
    Tokens { count, tokens }
}

// The tokens of an orchestra's bytes, or why they are refused.
pub fn read(bytes: &[u8]) -> Result<Tokens, Answer>
    ensures { result ≡ read_of bytes.now }
{
    if MOST_BYTES < bytes.len() {
        return Err(Answer::TooLarge);
    }
    let count = scan(bytes)?;
    Ok(store(bytes, count))
}
