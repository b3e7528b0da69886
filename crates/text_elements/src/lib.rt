// The elements of a line of text, read at any position among bytes: spaces, the colon, words, names and numbers behind a gap.
#![tactic(auto)]

ghost use Rattle.std.specs.Prelude.{◌≡◌, ◌+◌, length, drop};
ghost use Rattle.text_format.specs.inside.Reading.{gap_from, colon_from, word_from, next_name, next_number};
ghost use Rattle.text_number_reader.specs.Results.{NumberAt, NameAt};
ghost use Rattle.text_elements.specs.Passing.{SpacesPast, PassedAt, WordAt};

const SPACE: u8 = 32;

const COLON: u8 = 58;

fn past_spaces(s: &[u8], at: usize) -> usize
    ensures { SpacesPast s.now at result }
{
    for i in at..s.len() {
        if s[i] != SPACE {
            return i;
        }
    }
    s.len()
}

// One space or more, and the position past them.
pub fn gap_at(s: &[u8], at: usize) -> Option<usize>
    ensures { PassedAt s.now (gap_from (drop at s.now)) result }
{
    if text_number_reader::starts_with(s, at, SPACE) {
        return Some(past_spaces(s, at));
    }
    None
}

// A colon, spaces round it optional, and the position past them.
pub fn colon_at(s: &[u8], at: usize) -> Option<usize>
    ensures { PassedAt s.now (colon_from (drop at s.now)) result }
{
    let p = past_spaces(s, at);
    if text_number_reader::starts_with(s, p, COLON) {
        return Some(past_spaces(s, p + 1));
    }
    None
}

// A word, and the position past it.
pub fn word_at(s: &[u8], at: usize, word: &[u8]) -> Option<usize>
    ensures { WordAt s.now (at + length word.now) (word_from word.now (drop at s.now)) result }
{
    let mut p = at;
    for b in word {
        if !text_number_reader::starts_with(s, p, *b) {
            return None;
        }
        p += 1;
    }
    Some(p)
}

pub fn next_name(s: &[u8], at: usize) -> Option<(u16, usize)>
    ensures { NameAt s.now (next_name (drop at s.now)) result }
{
    text_number_reader::name_at(s, gap_at(s, at)?)
}

pub fn next_number(s: &[u8], at: usize) -> Option<(f32, usize)>
    ensures { NumberAt s.now (next_number (drop at s.now)) result }
{
    text_number_reader::number_at(s, gap_at(s, at)?)
}
