// A score line, and its parts read from bits or from keypad numbers (document 01, "Score lines, bit by bit").
#![tactic(auto)]

ghost use Rattle.std.specs.Prelude.{◌≡◌};
ghost use Rattle.base_timebase.specs.inside.Range.{checked};
ghost use Rattle.base_formats.specs.inside.Source.{source_of};
ghost use Rattle.base_formats.specs.Format.{number_from};
ghost use Rattle.score_line.specs.LineFormat.{in_range};
ghost use Rattle.score_line.specs.inside.Reading.{number_is, real_is, when_is, label_is, event_is, small_from, float_from, timed_from, when_from, label_from, instr_from, labelled_from, control_from, tempo_from, event_from};
ghost use Rattle.score_line.specs.Reading.{blank_line, refused_line};

use base_answer::Answer;
use base_formats::{Fault, Source};

// The numbers of the line types.
pub const INSTR: u32 = 0;

pub const CONTROL: u32 = 1;

pub const END: u32 = 4;

pub const TEMPO: u32 = 5;

// How many values a line has at most.
pub const MOST_VALUES: usize = 8;

// How many fields a line has at most: those of an instr line with time, label and all its values. In an area of words each line has a slot of so many.
pub const SLOT: usize = 10 + MOST_VALUES;

// When a line is used: at its time, or late where use-if-late is set; untimed, in the next cycle (document 01, "has-time").
#[derive(Clone, Copy)]
pub enum When {
    Timed { use_if_late: bool, time: f32 },
    Untimed,
}

// The label of an instr line, by which control lines find its note; it may have none (document 01, "has-label").
#[derive(Clone, Copy)]
pub enum Label {
    Unlabelled,
    Labelled(u16),
}

// What a line asks for, by its type: instr, control, end or tempo (document 01, types 0, 1, 4 and 5).
#[derive(Clone, Copy)]
pub enum Event {
    Instr {
        label: Label,
        instrument: u16,
        duration: f32,
    },
    Control {
        label: u16,
        variable: u16,
        value: f32,
    },
    End,
    Tempo(f32),
}

// A line: its time, if any, beside one of the four events, and the values of an instr line.
#[derive(Clone, Copy)]
pub struct Line {
    pub when: When,
    pub priority: bool,
    pub event: Event,
    pub count: usize,
    pub values: [f32; MOST_VALUES],
}

// What reading a line gives: the answer, the line, and the position past it. On refusal a blank line and 0.
// Kept: a refused line stands as a blank one in an area of slots, and `Answer` has `Taken`, so that a `Result` of it could say `Err(Taken)`.
#[derive(Clone, Copy)]
pub struct LineRead {
    pub answer: Answer,
    pub line: Line,
    pub next: usize,
}

// The ranges of a line's floats.
#[derive(Clone, Copy)]
pub enum Range {
    Time,
    Duration,
    Tempo,
    Value,
}

// The next number of a line: a field of `width` bits, or the next of the keypad's numbers.
pub fn number_at(source: Source, at: usize, width: usize) -> Result<(u32, usize), Fault>
    ensures { number_is result ≡ number_from (source_of source.entry) width at }
{
    match source {
        Source::Bits(bytes) => base_bitstream::read(bytes, at, width).ok_or(Fault::CutShort),
        Source::Keypad(words) => {
            if at < words.len() {
                Ok((words[at], at + 1))
            } else {
                Err(Fault::CutShort)
            }
        }
    }
}

// A number that is at most `most`: a flag, or a symbol.
pub fn small_at(source: Source, at: usize, width: usize, most: u32) -> Result<(u32, usize), Fault>
    ensures { number_is result ≡ small_from (source_of source.entry) width most at }
{
    let (v, next) = number_at(source, at, width)?;
    if v <= most {
        Ok((v, next))
    } else {
        Err(Fault::OutOfRange)
    }
}

fn in_range(range: Range, b: u32) -> Option<f32>
    ensures { result ≡ checked (in_range range b) b }
{
    match range {
        Range::Time => base_timebase::time_of(b),
        Range::Duration => base_timebase::duration_of(b),
        Range::Tempo => base_timebase::tempo_of(b),
        Range::Value => base_timebase::value_of(b),
    }
}

pub fn float_at(source: Source, at: usize, range: Range) -> Result<(f32, usize), Fault>
    ensures { real_is result ≡ float_from (source_of source.entry) range at }
{
    let (b, next) = number_at(source, at, 32)?;
    let x = in_range(range, b).ok_or(Fault::OutOfRange)?;
    Ok((x, next))
}

fn timed_at(source: Source, at: usize) -> Result<(When, usize), Fault>
    ensures { when_is result ≡ timed_from (source_of source.entry) at }
{
    let (late, p) = small_at(source, at, 1, 1)?;
    let (time, q) = float_at(source, p, Range::Time)?;
    Ok((
        When::Timed {
            use_if_late: late == 1,
            time,
        },
        q,
    ))
}

pub fn when_at(source: Source, at: usize) -> Result<(When, usize), Fault>
    ensures { when_is result ≡ when_from (source_of source.entry) at }
{
    let (has_time, p) = small_at(source, at, 1, 1)?;
    if has_time == 1 {
        timed_at(source, p)
    } else {
        Ok((When::Untimed, p))
    }
}

fn label_at(source: Source, at: usize) -> Result<(Label, usize), Fault>
    ensures { label_is result ≡ label_from (source_of source.entry) at }
{
    let (has_label, p) = small_at(source, at, 1, 1)?;
    if has_label == 1 {
        let (label, q) = small_at(source, p, 16, 65535)?;
        Ok((Label::Labelled(label as u16), q))
    } else {
        Ok((Label::Unlabelled, p))
    }
}

fn instr_at(source: Source, at: usize) -> Result<(Event, usize), Fault>
    ensures { event_is result ≡ instr_from (source_of source.entry) at }
{
    let (label, p) = label_at(source, at)?;
    let (instrument, q) = small_at(source, p, 16, 65535)?;
    let (duration, r) = float_at(source, q, Range::Duration)?;
    Ok((
        Event::Instr {
            label,
            instrument: instrument as u16,
            duration,
        },
        r,
    ))
}

// A control line from its label on.
fn labelled_at(source: Source, at: usize) -> Result<(Event, usize), Fault>
    ensures { event_is result ≡ labelled_from (source_of source.entry) at }
{
    let (label, p) = small_at(source, at, 16, 65535)?;
    let (variable, q) = small_at(source, p, 16, 65535)?;
    let (value, r) = float_at(source, q, Range::Value)?;
    Ok((
        Event::Control {
            label: label as u16,
            variable: variable as u16,
            value,
        },
        r,
    ))
}

fn control_at(source: Source, at: usize) -> Result<(Event, usize), Fault>
    ensures { event_is result ≡ control_from (source_of source.entry) at }
{
    let (has_label, p) = small_at(source, at, 1, 1)?;
    if has_label == 1 {
        labelled_at(source, p)
    } else {
        Err(Fault::NotCarried)
    }
}

fn tempo_at(source: Source, at: usize) -> Result<(Event, usize), Fault>
    ensures { event_is result ≡ tempo_from (source_of source.entry) at }
{
    let (tempo, p) = float_at(source, at, Range::Tempo)?;
    Ok((Event::Tempo(tempo), p))
}

// The event of a line's type.
pub fn event_at(source: Source, at: usize, kind: u32) -> Result<(Event, usize), Fault>
    ensures { event_is result ≡ event_from (source_of source.entry) kind at }
{
    match kind {
        INSTR => instr_at(source, at),
        CONTROL => control_at(source, at),
        END => Ok((Event::End, at)),
        TEMPO => tempo_at(source, at),
        _ => Err(Fault::NotCarried),
    }
}

// A line for places that hold none.
pub fn blank_line() -> Line
    ensures { result ≡ blank_line }
{
    Line {
        when: When::Untimed,
        priority: false,
        event: Event::End,
        count: 0,
        values: [0.0f32; MOST_VALUES],
    }
}

// A refusal: a blank line and the position 0.
pub fn refused(a: Answer) -> LineRead
    ensures { result ≡ refused_line a }
{
    LineRead {
        answer: a,
        line: blank_line(),
        next: 0,
    }
}
