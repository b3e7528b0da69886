// The calls that a case can name, each on the panel of the piece or on the one that the case before left.
use crate::calls::Call;
use crate::settings::{Area, Called};
use crate::text::{Head, MOST};
use crate::{calls, listening, settings};
use base_answer::Answer;
use panel::Panel;

// A fresh panel of the piece and the settings area that its start left, both as the last call left them, and the number that came of it.
#[derive(Clone, Copy)]
pub struct Session {
    fresh: Panel,
    begun: Area,
    panel: Panel,
    area: Area,
    pub got: u64,
}

fn number(a: Answer) -> u64 {
    base_answer::number(a) as u64
}

fn left(d: Session, panel: Panel, got: u64) -> Session {
    let area = d.area;
    left_with(d, panel, area, got)
}

// The same after a call that was lent the area.
fn left_with(d: Session, panel: Panel, area: Area, got: u64) -> Session {
    let fresh = d.fresh;
    let begun = d.begun;
    Session {
        fresh,
        begun,
        panel,
        area,
        got,
    }
}

fn after(d: Session, c: Called) -> Session {
    let panel = c.panel;
    let area = c.area;
    left_with(d, panel, area, c.answer)
}

// A panel with which the next cases begin.
fn beginning(c: Called) -> Session {
    let panel = c.panel;
    let area = c.area;
    Session {
        fresh: panel,
        begun: area,
        panel,
        area,
        got: c.answer,
    }
}

// No piece yet: a refused start's panel stands in.
pub fn bare() -> Session {
    beginning(settings::started(settings::unused(), b"", b"", 0))
}

// The numbers as bytes.
fn bytes_of(numbers: &[u32]) -> [u8; MOST] {
    let mut bytes = [0u8; MOST];
    for (byte, n) in bytes.iter_mut().zip(numbers) {
        *byte = (*n % 256) as u8;
    }
    bytes
}

// ---- calls on the panel

// Its settings are one record of version 1.
fn piece(ceiling: u32, bytes: &[u8]) -> Session {
    let first = program_io::settings_record(ceiling);
    let chosen = program_io::first_instrument(bytes);
    beginning(settings::started(settings::unused(), bytes, &first, chosen))
}

fn begun(d: Session, ceiling: u32, chosen: u16, bytes: &[u8]) -> Session {
    let area = d.area;
    let first = program_io::settings_record(ceiling);
    after(d, settings::started(area, bytes, &first, chosen))
}

// The first bytes are a settings record, the others the orchestra.
fn begun_with(d: Session, size: usize, bytes: &[u8]) -> Session {
    if size <= bytes.len() {
        let area = d.area;
        let orchestra = &bytes[size..];
        let chosen = program_io::first_instrument(orchestra);
        return after(
            d,
            settings::started(area, orchestra, &bytes[..size], chosen),
        );
    }
    d
}

fn change(d: Session, bytes: &[u8]) -> Session {
    let panel = d.panel;
    let area = d.area;
    after(d, settings::changed(panel, area, bytes))
}

fn undo(d: Session) -> Session {
    let panel = d.panel;
    let area = d.area;
    after(d, settings::undone(panel, area))
}

fn lend(d: Session, size: usize) -> Session {
    let panel = d.panel;
    let area = d.area;
    left_with(d, panel, settings::lending(area, size), 0)
}

fn overwrite(d: Session, at: usize, bytes: &[u8]) -> Session {
    let panel = d.panel;
    let area = d.area;
    left_with(d, panel, settings::overwritten(area, at, bytes), 0)
}

fn byte(d: Session, at: usize) -> Session {
    let panel = d.panel;
    let area = d.area;
    left(d, panel, settings::byte_at(area, at))
}

fn fresh(d: Session, ceiling: u32, bytes: &[u8]) -> Session {
    begun(d, ceiling, program_io::first_instrument(bytes), bytes)
}

fn keyboard(d: Session, bytes: &[u8]) -> Session {
    let panel = d.panel;
    let r = Panel::play_keys(panel, bytes);
    let a = r.answer;
    let after = r.left;
    left(d, after, number(a))
}

fn stick(d: Session, bytes: &[u8]) -> Session {
    let panel = d.panel;
    let r = Panel::load_score(panel, bytes);
    let a = r.answer;
    let after = r.left;
    left(d, after, number(a))
}

fn typed(d: Session, bytes: &[u8]) -> Session {
    let panel = d.panel;
    let r = Panel::load_text(panel, bytes);
    let a = r.answer;
    let after = r.left;
    left(d, after, number(a))
}

// The number of the line that a text is refused for.
fn typed_line(d: Session, bytes: &[u8]) -> Session {
    let panel = d.panel;
    let r = Panel::load_text(panel, bytes);
    let after = r.left;
    left(d, after, r.line as u64)
}

fn unit(d: Session, bytes: &[u8]) -> Session {
    let panel = d.panel;
    let r = Panel::receive_unit(panel, bytes);
    let a = r.answer;
    let after = r.left;
    left(d, after, number(a))
}

// A burst, with an answer area of so many places: its own answer, and the places as they are left.
#[derive(Clone, Copy)]
struct Outcome {
    panel: Panel,
    answer: u64,
    places: u64,
}

const UNTOUCHED: u8 = 90;

fn with_place(n: u64, place: u8) -> u64 {
    n % 1000000000 * 100 + (place % 100) as u64
}

// Two digits for each place.
fn digits(area: &[u8]) -> u64 {
    let mut n: u64 = 0;
    for place in area {
        n = with_place(n, *place);
    }
    n
}

fn sent(panel: Panel, bytes: &[u8], area: &mut [u8]) -> Outcome {
    let r = Panel::receive_burst(panel, bytes, area);
    let a = r.answer;
    let after = r.left;
    Outcome {
        panel: after,
        answer: number(a),
        places: digits(area),
    }
}

fn sent_with(panel: Panel, places: usize, bytes: &[u8]) -> Outcome {
    let mut area = [UNTOUCHED; 64];
    if places <= 64 {
        return sent(panel, bytes, &mut area[..places]);
    }
    Outcome {
        panel,
        answer: NO_CALL,
        places: NO_CALL,
    }
}

fn burst(d: Session, places: usize, bytes: &[u8]) -> Session {
    let panel = d.panel;
    let s = sent_with(panel, places, bytes);
    let after = s.panel;
    left(d, after, s.answer)
}

fn burst_places(d: Session, places: usize, bytes: &[u8]) -> Session {
    let panel = d.panel;
    let s = sent_with(panel, places, bytes);
    let after = s.panel;
    left(d, after, s.places)
}

fn keypad(d: Session, numbers: &[u32]) -> Session {
    let panel = d.panel;
    let r = Panel::enter_line(panel, numbers);
    let a = r.answer;
    let after = r.left;
    left(d, after, number(a))
}

fn cycle(d: Session, samples: usize) -> Session {
    let mut block = [0i16; 1024];
    if samples <= 1024 {
        let panel = d.panel;
        let r = Panel::cycle(panel, &mut block[..samples]);
        let a = r.answer;
        let after = r.left;
        return left(d, after, number(a));
    }
    d
}

// ---- what is heard and told of it

fn silent(d: Session) -> Session {
    let panel = d.panel;
    let h = listening::listened(panel);
    left(d, panel, h.silent)
}

fn sounding(d: Session) -> Session {
    let panel = d.panel;
    let h = listening::listened(panel);
    left(d, panel, h.sounding)
}

fn first_sample(block: &[i16; 320]) -> u64 {
    program_io::sample_bits(block[0]) as u64
}

// The first sample of the next cycle.
fn level(d: Session) -> Session {
    let mut block = [0i16; 320];
    let panel = d.panel;
    Panel::cycle(panel, &mut block);
    left(d, panel, first_sample(&block))
}

fn notes(d: Session) -> Session {
    let panel = d.panel;
    left(d, panel, Panel::sounding_notes(panel) as u64)
}

fn missed(d: Session) -> Session {
    let panel = d.panel;
    left(d, panel, Panel::missed_notes(panel))
}

fn position(d: Session) -> Session {
    let panel = d.panel;
    left(d, panel, Panel::position_in_ticks(panel))
}

fn ticks_of(c: Option<f32>) -> u64 {
    match c {
        Some(x) => base_timebase::beats_to_ticks(x),
        None => 0,
    }
}

// The ticks of the float that the first number is.
fn ticks(numbers: &[u32]) -> u64 {
    if 0 < numbers.len() {
        return ticks_of(base_timebase::value_of(numbers[0]));
    }
    0
}

// ---- the call that a line names, carried out

fn ceiling_of(size: usize) -> u32 {
    (size % 4294967296) as u32
}

fn symbol_of(size: usize) -> u16 {
    (size % 65536) as u16
}

// The ceiling where a case chooses an instrument.
const HIGHEST: u32 = 32767;

fn got(d: Session, n: u64) -> Session {
    let panel = d.panel;
    left(d, panel, n)
}

const NO_CALL: u64 = 255;

fn called(d: Session, c: Call, size: usize, bytes: &[u8], numbers: &[u32]) -> Session {
    match c {
        Call::Piece => piece(ceiling_of(size), bytes),
        Call::Fresh => fresh(d, ceiling_of(size), bytes),
        Call::Stick => stick(d, bytes),
        Call::Text => typed(d, bytes),
        Call::TextLine => typed_line(d, bytes),
        Call::Unit => unit(d, bytes),
        Call::Burst => burst(d, size, bytes),
        Call::BurstPlaces => burst_places(d, size, bytes),
        Call::Keypad => keypad(d, numbers),
        Call::Keyboard => keyboard(d, bytes),
        Call::Choose => begun(d, HIGHEST, symbol_of(size), bytes),
        Call::Cycle => cycle(d, size),
        Call::Missed => missed(d),
        Call::Silent => silent(d),
        Call::Sounding => sounding(d),
        Call::Level => level(d),
        Call::Notes => notes(d),
        Call::Ticks => got(d, ticks(numbers)),
        Call::Position => position(d),
        Call::First => begun_with(d, size, bytes),
        Call::Change => change(d, bytes),
        Call::Undo => undo(d),
        Call::Lend => lend(d, size),
        Call::Overwrite => overwrite(d, size, bytes),
        Call::Byte => byte(d, size),
        Call::Decode => got(d, crate::areas::decode(bytes, size)),
        Call::DecodeUnit => got(d, crate::areas::decode_unit(bytes, size)),
        Call::DecodeText => got(d, crate::areas::decode_text(bytes, size)),
        Call::WriteText => got(d, crate::areas::write_text(numbers, size)),
        Call::Write => got(d, crate::areas::write(numbers, size)),
        Call::WriteUnit => got(d, crate::areas::write_unit(numbers, size)),
        Call::Unpack => got(d, crate::naming::unpack(bytes, size)),
        Call::Name => got(d, crate::naming::name(symbol_of(size), bytes)),
    }
}

fn started(d: Session, goes_on: bool) -> Session {
    if goes_on {
        return d;
    }
    let fresh = d.fresh;
    let begun = d.begun;
    left_with(d, fresh, begun, 0)
}

fn repeated(
    d: Session,
    c: Option<Call>,
    times: u32,
    size: usize,
    bytes: &[u8],
    numbers: &[u32],
) -> Session {
    let mut e = d;
    for _ in 0..times {
        e = match c {
            Some(c) => called(e, c, size, bytes, numbers),
            None => got(e, NO_CALL),
        };
    }
    e
}

pub fn carried_out(d: Session, h: Head<'_>, numbers: &[u32]) -> Session {
    let e = started(d, h.goes_on);
    let bytes = bytes_of(numbers);
    let n = numbers.len().min(MOST);
    repeated(
        e,
        calls::named(h.name),
        h.times,
        h.size,
        &bytes[..n],
        numbers,
    )
}
