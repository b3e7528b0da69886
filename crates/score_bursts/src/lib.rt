// A burst's bytes: up to 32 access units, each behind its 16-bit length (document 02, M-103).
#![tactic(auto)]

ghost use Rattle.std.specs.Prelude.{◌≡◌, drop};
ghost use Rattle.score_bursts.specs.Bursts.{sixteen_bits};
ghost use Rattle.score_bursts.specs.inside.Reading.{burst_of, scan_of, length_at};

use base_answer::Answer;

// Whether bytes are a burst, and of how many units.
#[derive(Clone, Copy)]
pub struct BurstScan {
    pub answer: Answer,
    pub units: usize,
}

const MOST_UNITS: usize = 32;

// The bytes of a length.
pub const LENGTH_BYTES: usize = 2;

// The length that two bytes are.
fn length_of(high: u8, low: u8) -> usize
    ensures { result ≡ sixteen_bits high low }
{
    256 * (high as usize) + (low as usize)
}

// The length that stands at a place, 0 where there is none.
pub fn length_at(s: &[u8], at: usize) -> usize
    ensures { result ≡ length_at (drop at s.now) }
{
    if s.len() < LENGTH_BYTES {
        return 0;
    }
    if s.len() - LENGTH_BYTES < at {
        return 0;
    }
    length_of(s[at], s[at + 1])
}

// The first of 1 and 5 met in the bytes of a burst, or how many units they are.
pub fn scan(s: &[u8]) -> BurstScan
    ensures { result ≡ scan_of (burst_of s.now) }
{
    let mut at: usize = 0;
    let mut n: usize = 0;
    while at < s.len() {
        if n == MOST_UNITS {
            return BurstScan {
                answer: Answer::TooManyValues,
                units: 0,
            };
        }
        let left = s.len() - at;
        if left < LENGTH_BYTES {
            return BurstScan {
                answer: Answer::CutShort,
                units: 0,
            };
        }
        let length = length_at(s, at);
        if left - LENGTH_BYTES < length {
            return BurstScan {
                answer: Answer::CutShort,
                units: 0,
            };
        }
        at += LENGTH_BYTES + length;
        n += 1;
    }
    BurstScan {
        answer: Answer::Taken,
        units: n,
    }
}
