// The text of a score line, put together piece by piece.
#![tactic(auto)]

ghost use Rattle.std.specs.Prelude.{◌≡◌, ◌∷◌, take};
ghost use Rattle.std.proofs.Math.Option.{some, map};
ghost use Rattle.text_numerals.specs.Numeral.{name_bytes};
ghost use Rattle.text_number_writer.specs.Push.{empty_text, push_all};
ghost use Rattle.score_line.specs.LineFormat.{label_parts};
ghost use Rattle.text_format.specs.Content as content;
ghost use Rattle.text_format.specs.Form.{star_bytes, line_bytes};
ghost use Rattle.text_line_writer.specs.LineText.{event_content};
ghost use Rattle.text_line_writer.specs.inside.LineText.{line_text};
ghost use Rattle.text_line_writer.specs.inside.Drafts.{Drafted, Joined, number_bytes, next_bytes, values_bytes, label_bytes_of, form_text};

use score_line::{Event, Label, Line, MOST_VALUES, When};
use text_number_writer::LineText;

const STAR: u8 = 42;

const SPACE: u8 = 32;

const COLON: u8 = 58;

const NEWLINE: u8 = 10;

// A number's shortest text, behind what is written; none where it has no text.
fn with_number(t: LineText, x: f32) -> Option<LineText>
    ensures { Joined t (number_bytes x) result }
{
    let (n, decimals) = text_number_writer::shortest(x)?;
    Some(text_number_writer::push_number(t, text_number_writer::sign(x), n, decimals))
}

// A name behind a space.
fn next_name(t: LineText, symbol: u16) -> LineText
    ensures { result ≡ push_all t (32 ∷ name_bytes symbol) }
{
    text_number_writer::push_name(text_number_writer::push(t, SPACE), symbol)
}

// A number behind a space.
fn next_number(t: LineText, x: f32) -> Option<LineText>
    ensures { Joined t (next_bytes x) result }
{
    with_number(text_number_writer::push(t, SPACE), x)
}

fn with_values(t: LineText, count: usize, values: [f32; MOST_VALUES]) -> Option<LineText>
    ensures { Joined t (values_bytes (take count values)) result }
{
    let n = count.min(MOST_VALUES);
    let mut text = t;
    for i in 0..n {
        text = next_number(text, values[i])?;
    }
    Some(text)
}

// An instr line's label, its colon and a space.
fn with_label(t: LineText, label: Label) -> LineText
    ensures { result ≡ push_all t (label_bytes_of label) }
{
    match label {
        Label::Labelled(n) => {
            let named = text_number_writer::push_name(t, n);
            text_number_writer::push(text_number_writer::push(named, COLON), SPACE)
        }
        Label::Unlabelled => t,
    }
}

fn instr_text(
    t: LineText,
    time: f32,
    label: Label,
    instrument: u16,
    duration: f32,
    count: usize,
    values: [f32; MOST_VALUES],
) -> Option<LineText>
    ensures { Joined t (form_text time (content.instr (label_parts label) instrument duration (take count values))) result }
{
    let timed = with_number(with_label(t, label), time)?;
    let lasting = next_number(next_name(timed, instrument), duration)?;
    with_values(lasting, count, values)
}

fn control_text(t: LineText, time: f32, label: u16, variable: u16, value: f32) -> Option<LineText>
    ensures { Joined t (form_text time (content.control (some label) variable value)) result }
{
    let timed = with_number(t, time)?;
    let labelled = next_name(timed, label);
    let named = next_name(
        text_number_writer::push_word(labelled, b" control"),
        variable,
    );
    next_number(named, value)
}

fn tempo_text(t: LineText, time: f32, tempo: f32) -> Option<LineText>
    ensures { Joined t (form_text time (content.tempo tempo)) result }
{
    let timed = with_number(t, time)?;
    next_number(text_number_writer::push_word(timed, b" tempo"), tempo)
}

fn end_text(t: LineText, time: f32) -> Option<LineText>
    ensures { Joined t (form_text time content.end) result }
{
    let timed = with_number(t, time)?;
    Some(text_number_writer::push_word(timed, b" end"))
}

fn event_text(
    t: LineText,
    time: f32,
    event: Event,
    count: usize,
    values: [f32; MOST_VALUES],
) -> Option<LineText>
    ensures { Joined t (form_text time (event_content event count values)) result }
{
    match event {
        Event::Instr {
            label,
            instrument,
            duration,
        } => instr_text(t, time, label, instrument, duration, count, values),
        Event::Control {
            label,
            variable,
            value,
        } => control_text(t, time, label, variable, value),
        Event::End => end_text(t, time),
        Event::Tempo(tempo) => tempo_text(t, time, tempo),
    }
}

// A star first of all for priority.
fn begun(priority: bool) -> LineText
    ensures { result ≡ push_all empty_text (star_bytes priority) }
{
    let empty = text_number_writer::empty();
    if priority {
        return text_number_writer::push(empty, STAR);
    }
    empty
}

// A line's text with its newline; none for a line without a time, with use-if-late set, or with a number that has no text.
pub fn line_text(line: Line) -> Option<LineText>
    ensures { Drafted result (map line_bytes (line_text line)) }
{
    match line.when {
        When::Timed { use_if_late, time } => {
            if use_if_late {
                None
            } else {
                let begun = begun(line.priority);
                let text = event_text(begun, time, line.event, line.count, line.values)?;
                Some(text_number_writer::push(text, NEWLINE))
            }
        }
        When::Untimed => None,
    }
}
