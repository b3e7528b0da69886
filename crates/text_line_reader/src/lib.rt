// A line of text, read at any position among bytes, and then judged by the stick's rules.
#![tactic(auto)]

ghost use Rattle.std.specs.Prelude.{◌≡◌, drop};
ghost use Rattle.text_format.specs.inside.Reading.{timed_from, body_from, line_from};
ghost use Rattle.text_event_reader.specs.Results.{line_told};
ghost use Rattle.text_line_reader.specs.Labelled.{after_label};

use score_line::{Label, LineRead};

const STAR: u8 = 42;

// Behind a label: its colon, the time, the instrument's name.
fn after_label(s: &[u8], at: usize, priority: bool, label: u16) -> Option<(LineRead, usize)>
    ensures { result ≡ line_told s.now (after_label priority label (drop at s.now)) }
{
    let p = text_elements::colon_at(s, at)?;
    let (time, q) = text_number_reader::number_at(s, p)?;
    let (name, n) = text_elements::next_name(s, q)?;
    text_event_reader::instr_at(s, n, priority, time, Label::Labelled(label), name)
}

// A line that begins with its time.
fn timed_at(s: &[u8], at: usize, priority: bool) -> Option<(LineRead, usize)>
    ensures { result ≡ line_told s.now (timed_from priority (drop at s.now)) }
{
    let (time, p) = text_number_reader::number_at(s, at)?;
    let q = text_elements::gap_at(s, p)?;
    text_event_reader::event_at(s, q, priority, time)
}

// Behind the star, or without one.
fn body_at(s: &[u8], at: usize, priority: bool) -> Option<(LineRead, usize)>
    ensures { result ≡ line_told s.now (body_from priority (drop at s.now)) }
{
    if text_number_reader::starts_with(s, at, text_event_reader::NAME_LETTER) {
        let (label, p) = text_number_reader::name_at(s, at)?;
        return after_label(s, p, priority, label);
    }
    timed_at(s, at, priority)
}

// The line at a position, and the position past it; none where no line stands there.
pub fn line_at(s: &[u8], at: usize) -> Option<(LineRead, usize)>
    ensures { result ≡ line_told s.now (line_from (drop at s.now)) }
{
    if text_number_reader::starts_with(s, at, STAR) {
        return body_at(s, at + 1, true);
    }
    body_at(s, at, false)
}
