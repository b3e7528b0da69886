// Tokens of the orchestra, and the token measures.
#![tactic(auto)]

ghost use Rattle.std.specs.Prelude.{◌≡◌, ◌&&◌, ◌+◌, ◌≤◌, leb, get_or};
ghost use Rattle.orchestra_tokens.specs.Measures.{longest, opened as opened_of, since as since_of};
ghost use Rattle.orchestra_tokens.specs.inside.Passes.{next as next_of, closed_of};

use base_answer::Answer;

// The first bytes of tokens that are no signs.
pub const SYMBOL: u8 = 0xf0;

pub const NUMBER: u8 = 0xf1;

pub const WHOLE: u8 = 0xf2;

const MOST_TOKENS: usize = 2048;

const MOST_BRACKETS: usize = 24;

const LONGEST_STRETCH: usize = 128;

#[derive(Clone, Copy)]
pub enum Token {
    Number(f32),
    Symbol(u16),
    Whole(u32),
    Sign(u8),
}

// The tokens of an orchestra's bytes.
#[derive(Clone, Copy)]
pub struct Tokens {
    pub count: usize,
    pub tokens: [Token; 2048],
}

// The byte at i, or 0 past the end.
pub fn byte_at(s: &[u8], i: usize) -> u8
    ensures { result ≡ get_or s.now i 0 }
{
    if i < s.len() { s[i] } else { 0 }
}

// What is counted of the tokens so far: how many, how many brackets are open, how many since the last of ; { } or the
// start; and whether the last two kept their limits. There is at most a token to a byte, so that none of these passes the most bytes.
#[derive(Clone, Copy)]
pub struct Measure {
    pub count: usize,
    pub depth: usize,
    pub run: usize,
    pub fits: bool,
}

#[tactic(auto, unfolding(crate::specs::Measures::opened))]
fn opened(n: usize, k: u8) -> usize
    requires { n ≤ longest }
    ensures low { result ≤ n + 1 }
    ensures is { result ≡ opened_of n k }
{
    match k {
        orchestra_signs::ROUND_OPEN | orchestra_signs::CURLY_OPEN => n + 1,
        orchestra_signs::ROUND_CLOSE | orchestra_signs::CURLY_CLOSE => n.saturating_sub(1),
        _ => n,
    }
}

#[tactic(auto, unfolding(crate::specs::Measures::since))]
fn since(n: usize, k: u8) -> usize
    requires { n ≤ longest }
    ensures low { result ≤ n + 1 }
    ensures is { result ≡ since_of n k }
{
    match k {
        orchestra_signs::SEMICOLON | orchestra_signs::CURLY_OPEN | orchestra_signs::CURLY_CLOSE =>
            0,
        _ => n + 1,
    }
}

// Whether the limits are kept by these too.
fn limited(fits: bool, depth: usize, run: usize) -> bool
    ensures { result ≡ (fits && (leb depth 24 && leb run 128)) }
{
    fits && depth <= MOST_BRACKETS && run <= LONGEST_STRETCH
}

// The measures after one more token, of the kind k.
pub fn next(m: Measure, k: u8) -> Measure
    requires { (m.count ≤ longest) × (m.depth ≤ longest) × (m.run ≤ longest) }
    ensures { result ≡ next_of m k }
{
    let depth = opened(m.depth, k);
    let run = since(m.run, k);
    let fits = limited(m.fits, depth, run);
    Measure {
        count: m.count + 1,
        depth,
        run,
        fits,
    }
}

// At the end token, with as many bytes left as it and those after it are: how many tokens there are.
pub fn closed(m: Measure, left: usize) -> Result<usize, Answer>
    ensures { result ≡ closed_of m left }
{
    if left != 1 {
        return Err(Answer::BadToken);
    }
    if m.fits && m.count <= MOST_TOKENS {
        Ok(m.count)
    } else {
        Err(Answer::TooLarge)
    }
}
