// The settings area of a case, and the calls that are lent it.
use base_answer::{Answer, Answered};
use panel::Panel;

// The longest area that a case lends.
pub const LONGEST: usize = 8192;

// What it holds before the first fresh start.
const MARK: u8 = 90;

// Its bytes, and how many of them are lent.
#[derive(Clone, Copy)]
pub struct Area {
    bytes: [u8; LONGEST],
    lent: usize,
}

// What a call leaves that is lent the area.
#[derive(Clone, Copy)]
pub struct Called {
    pub panel: Panel,
    pub area: Area,
    pub answer: u64,
}

fn number(a: Answer) -> u64 {
    base_answer::number(a) as u64
}

pub fn unused() -> Area {
    Area {
        bytes: [MARK; LONGEST],
        lent: settings_records::AREA,
    }
}

// From now on so many bytes are lent.
pub fn lending(a: Area, lent: usize) -> Area {
    let bytes = a.bytes;
    Area { bytes, lent }
}

fn put_at(bytes: &mut [u8], at: usize, s: &[u8]) {
    program_io::put_bytes(bytes, at, s);
}

// Bytes that somebody else writes into it.
pub fn overwritten(a: Area, at: usize, s: &[u8]) -> Area {
    let mut bytes = a.bytes;
    put_at(&mut bytes, at, s);
    Area {
        bytes,
        lent: a.lent,
    }
}

pub fn byte_at(a: Area, at: usize) -> u64 {
    let bytes = a.bytes;
    program_io::byte_at(&bytes, at) as u64
}

fn with_area(panel: Panel, bytes: [u8; LONGEST], lent: usize, answer: u64) -> Called {
    Called {
        panel,
        area: Area { bytes, lent },
        answer,
    }
}

// The calls, lent the first bytes, or all where there are not so many.
fn fresh_in(
    bytes: &mut [u8],
    lent: usize,
    orchestra: &[u8],
    first: &[u8],
    chosen: u16,
) -> Answered<Panel> {
    let n = lent.min(bytes.len());
    Panel::fresh(orchestra, &mut bytes[..n], first, chosen)
}

fn change_in(panel: Panel, bytes: &mut [u8], lent: usize, handed: &[u8]) -> Answered<Panel> {
    let n = lent.min(bytes.len());
    Panel::change(panel, &mut bytes[..n], handed)
}

fn undo_in(panel: Panel, bytes: &[u8], lent: usize) -> Answered<Panel> {
    let n = lent.min(bytes.len());
    Panel::undo(panel, &bytes[..n])
}

// A fresh start. On a refusal its panel, which has ended, stands.
pub fn started(a: Area, orchestra: &[u8], first: &[u8], chosen: u16) -> Called {
    let mut bytes = a.bytes;
    let f = fresh_in(&mut bytes, a.lent, orchestra, first, chosen);
    let answer = f.answer;
    let panel = f.left;
    with_area(panel, bytes, a.lent, number(answer))
}

pub fn changed(panel: Panel, a: Area, handed: &[u8]) -> Called {
    let mut bytes = a.bytes;
    let r = change_in(panel, &mut bytes, a.lent, handed);
    let answer = r.answer;
    let after = r.left;
    with_area(after, bytes, a.lent, number(answer))
}

pub fn undone(panel: Panel, a: Area) -> Called {
    let bytes = a.bytes;
    let r = undo_in(panel, &bytes, a.lent);
    let answer = r.answer;
    let after = r.left;
    with_area(after, bytes, a.lent, number(answer))
}
