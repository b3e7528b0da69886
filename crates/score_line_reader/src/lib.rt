// Score lines read whole, from bits or from keypad numbers.
#![tactic(auto)]

ghost use Rattle.std.specs.Prelude.{◌≡◌, ◌≤◌, []};
ghost use Rattle.base_bitstream.specs.Bits.{bits_of};
ghost use Rattle.base_formats.specs.inside.Source.{source_of};
ghost use Rattle.base_formats.specs.Format.{got};
ghost use Rattle.score_line.specs.Reading.{answer_of, line_from, refused_line, line_read, line_at, line_in_words, keypad_line};
ghost use Rattle.score_line.specs.inside.Reading.{part_is, values_from, with_values, after_count, after_event, after_when};

use base_answer::Answer;
use base_formats::{Fault, Source};
use score_line::{Event, Line, LineRead, Range, When};

fn answer_of(f: Fault) -> Answer
    ensures { result ≡ answer_of f }
{
    match f {
        Fault::CutShort => Answer::CutShort,
        Fault::NotCarried => Answer::NotCarried,
        Fault::OutOfRange => Answer::OutOfRange,
        Fault::TooManyValues => Answer::TooManyValues,
    }
}

fn faulty(f: Fault) -> LineRead
    ensures { result ≡ refused_line (answer_of f) }
{
    score_line::refused(answer_of(f))
}

// A line with the n values that stand next.
fn values_line(
    source: Source,
    at: usize,
    n: usize,
    when: When,
    priority: bool,
    event: Event,
) -> Result<(Line, usize), Fault>
    requires { n ≤ 8 }
    ensures { part_is result ≡ with_values when priority event n (values_from (source_of source.entry) n at) }
{
    let mut values = [0.0f32; 8];
    let mut p = at;
    for i in 0..n {
        let (x, q) = score_line::float_at(source, p, Range::Value)?;
        values[i] = x;
        p = q;
    }
    Ok((
        Line {
            when,
            priority,
            event,
            count: n,
            values,
        },
        p,
    ))
}

fn counted_line(
    source: Source,
    at: usize,
    when: When,
    priority: bool,
    event: Event,
) -> Result<(Line, usize), Fault>
    ensures { part_is result ≡ after_count (source_of source.entry) when priority event at }
{
    let (n, p) = score_line::number_at(source, at, 8)?;
    if 8 < n {
        Err(Fault::TooManyValues)
    } else {
        values_line(source, p, n as usize, when, priority, event)
    }
}

fn no_values(at: usize, when: When, priority: bool, event: Event) -> (Line, usize)
    ensures { got result.0 result.1 ≡ with_values when priority event 0 (got [] at) }
{
    (
        Line {
            when,
            priority,
            event,
            count: 0,
            values: [0.0f32; 8],
        },
        at,
    )
}

// From past the event on: an instr line has values.
fn after_event(
    source: Source,
    at: usize,
    when: When,
    priority: bool,
    event: Event,
) -> Result<(Line, usize), Fault>
    ensures { part_is result ≡ after_event (source_of source.entry) when priority event at }
{
    match event {
        Event::Instr { .. } => counted_line(source, at, when, priority, event),
        _ => Ok(no_values(at, when, priority, event)),
    }
}

fn after_when(source: Source, at: usize, when: When) -> Result<(Line, usize), Fault>
    ensures { part_is result ≡ after_when (source_of source.entry) when at }
{
    let (priority, p) = score_line::small_at(source, at, 1, 1)?;
    let (kind, q) = score_line::number_at(source, p, 3)?;
    let (event, r) = score_line::event_at(source, q, kind)?;
    after_event(source, r, when, priority == 1, event)
}

// The one reader of lines, from bits or from keypad numbers.
fn line_from(source: Source, at: usize) -> Result<(Line, usize), Fault>
    ensures { part_is result ≡ line_from (source_of source.entry) at }
{
    let (when, p) = score_line::when_at(source, at)?;
    after_when(source, p, when)
}

// What the calls give of it.
fn told(read: Result<(Line, usize), Fault>) -> LineRead
    ensures { result ≡ line_read (part_is read) }
{
    match read {
        Ok((line, next)) => LineRead {
            answer: Answer::Taken,
            line,
            next,
        },
        Err(f) => faulty(f),
    }
}

// A line somewhere among bits.
pub fn line_at(bytes: &[u8], at: usize) -> LineRead
    ensures { result ≡ line_at (bits_of bytes.now) at }
{
    told(line_from(Source::Bits(bytes), at))
}

// A line somewhere among keypad numbers.
pub fn line_in_words(words: &[u32], at: usize) -> LineRead
    ensures { result ≡ line_in_words words.now at }
{
    told(line_from(Source::Keypad(words), at))
}

// A keypad line: the whole run of numbers.
pub fn keypad_line(words: &[u32]) -> LineRead
    ensures { result ≡ keypad_line words.now }
{
    let read = line_in_words(words, 0);
    let answer = read.answer;
    if base_answer::is_taken(answer) {
        if read.next == words.len() {
            return read;
        }
        return score_line::refused(Answer::LeftOver);
    }
    read
}
