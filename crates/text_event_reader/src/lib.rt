// What stands behind the time of a line of text, to the end of the line: its event, and then what the stick's rules make of the line.
#![tactic(auto)]

ghost use Rattle.std.specs.Prelude.{◌≡◌, length, drop};
ghost use Rattle.score_line.specs.LineFormat.{label_parts};
ghost use Rattle.text_format.specs.inside.Reading.{values_from, instr_from, control_from, tempo_from, end_from, named_from, event_from};
ghost use Rattle.text_event_reader.specs.Results.{values_told, at_time, ended_at, line_told, setting_from};

use score_line::{Label, LineRead};
use text_content::ValueBits;

const NEWLINE: u8 = 10;

// The letters c, s and t.
const CONTROL_LETTER: u8 = 99;

pub const NAME_LETTER: u8 = 115;

const TEMPO_LETTER: u8 = 116;

// ---- values

// Numbers to the end of the line, and the position past it.
fn values_at(s: &[u8], at: usize) -> Option<(ValueBits, usize)>
    ensures { result ≡ values_told s.now (values_from (length (drop at s.now)) (drop at s.now)) }
{
    let mut kept = ValueBits {
        count: 0,
        bits: [0; 8],
    };
    let mut p = at;
    while !text_number_reader::starts_with(s, p, NEWLINE) {
        let (x, q) = text_elements::next_number(s, p)?;
        kept = text_content::with_value(kept, x);
        p = q;
    }
    Some((kept, p + 1))
}

// ---- the events: what the stick's rules make of a line of text, and the position past it; none where no line stands there

// A line that has to end here.
fn ended(s: &[u8], at: usize, read: LineRead) -> Option<(LineRead, usize)>
    ensures { result ≡ ended_at s.now read (drop at s.now) }
{
    if text_number_reader::starts_with(s, at, NEWLINE) {
        return Some((read, at + 1));
    }
    None
}

// Behind the instrument's name: duration and values.
pub fn instr_at(
    s: &[u8],
    at: usize,
    priority: bool,
    time: f32,
    label: Label,
    name: u16,
) -> Option<(LineRead, usize)>
    ensures { result ≡ line_told s.now (at_time priority time (instr_from (label_parts label) name (drop at s.now))) }
{
    let (duration, p) = text_elements::next_number(s, at)?;
    let (kept, next) = values_at(s, p)?;
    let read = text_content::instr_line(priority, time, label, name, duration, kept);
    Some((read, next))
}

// Behind `control`: the variable's name and its value.
fn setting_at(
    s: &[u8],
    at: usize,
    priority: bool,
    time: f32,
    label: Label,
) -> Option<(LineRead, usize)>
    ensures { result ≡ line_told s.now (at_time priority time (setting_from (label_parts label) (drop at s.now))) }
{
    let (name, p) = text_elements::next_name(s, at)?;
    let (value, q) = text_elements::next_number(s, p)?;
    ended(
        s,
        q,
        text_content::control_line(priority, time, label, name, value),
    )
}

// From `control` on.
fn control_at(
    s: &[u8],
    at: usize,
    priority: bool,
    time: f32,
    label: Label,
) -> Option<(LineRead, usize)>
    ensures { result ≡ line_told s.now (at_time priority time (control_from (label_parts label) (drop at s.now))) }
{
    let p = text_elements::word_at(s, at, b"control")?;
    setting_at(s, p, priority, time, label)
}

// From `tempo` on.
fn tempo_at(s: &[u8], at: usize, priority: bool, time: f32) -> Option<(LineRead, usize)>
    ensures { result ≡ line_told s.now (at_time priority time (tempo_from (drop at s.now))) }
{
    let p = text_elements::word_at(s, at, b"tempo")?;
    let (tempo, q) = text_elements::next_number(s, p)?;
    ended(s, q, text_content::tempo_line(priority, time, tempo))
}

// From `end` on.
fn end_at(s: &[u8], at: usize, priority: bool, time: f32) -> Option<(LineRead, usize)>
    ensures { result ≡ line_told s.now (at_time priority time (end_from (drop at s.now))) }
{
    let p = text_elements::word_at(s, at, b"end")?;
    ended(s, p, text_content::end_line(priority, time))
}

// Behind a name that may be an instrument's or a control line's label.
fn named_at(s: &[u8], at: usize, priority: bool, time: f32, name: u16) -> Option<(LineRead, usize)>
    ensures { result ≡ line_told s.now (at_time priority time (named_from name (drop at s.now))) }
{
    let p = text_elements::gap_at(s, at)?;
    if text_number_reader::starts_with(s, p, CONTROL_LETTER) {
        return control_at(s, p, priority, time, Label::Labelled(name));
    }
    instr_at(s, at, priority, time, Label::Unlabelled, name)
}

// Behind the time and a gap: the first letter tells the kind.
pub fn event_at(s: &[u8], at: usize, priority: bool, time: f32) -> Option<(LineRead, usize)>
    ensures { result ≡ line_told s.now (at_time priority time (event_from (drop at s.now))) }
{
    if text_number_reader::starts_with(s, at, NAME_LETTER) {
        let (name, p) = text_number_reader::name_at(s, at)?;
        return named_at(s, p, priority, time, name);
    }
    if text_number_reader::starts_with(s, at, CONTROL_LETTER) {
        return control_at(s, at, priority, time, Label::Unlabelled);
    }
    if text_number_reader::starts_with(s, at, TEMPO_LETTER) {
        return tempo_at(s, at, priority, time);
    }
    end_at(s, at, priority, time)
}
