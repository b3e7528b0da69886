// The panel as a filter: a list of calls on standard input, every answer on standard output.
// A record is a code and its fields; each kind has a function, and the fields of all kinds are read in one way.
#![tactic(auto)]

mod burst;
mod calls;
mod naming;
mod port;
mod record;
mod settings;

use base_answer::Answered;
use panel::{Core, Panel};
use port::Port;
use record::{Kind, Record};
use settings::Area;

// The items of the longest record: two lists of names.
const DATA: usize = 2097152;

// The next record, behind what was written; nothing follows output that is lost, or a fault, which is told. Where standard
// error takes nothing there is no other place to tell it.
fn following(rt: &HostRuntime, port: &mut Port, data: &mut [u8]) -> Option<Record> {
    port.relieve(rt);
    if port.is_lost() {
        return None;
    }
    let start = port.taken();
    match record::read(rt, port, data) {
        Ok(next) => next,
        Err(fault) => {
            let _ = eprintln!(rt; "replay: {fault}, in the record at byte {start}");
            None
        }
    }
}

// The records up to the next fresh start, which is the answer, on one panel or on none. A proved loop has to end: it counts to
// a number that no run reaches.
fn piece<'a>(
    rt: &HostRuntime,
    first: Option<Core>,
    code: &'a [u64],
    vals: &'a [f32],
    area: &mut Area,
    port: &mut Port,
    data: &mut [u8],
) -> Option<Record> {
    let mut core = first;
    for _ in 0..u64::MAX {
        let r = following(rt, port, data)?;
        if r.kind == Kind::Fresh {
            return Some(r);
        }
        core = calls::carry_out(core, code, vals, r, data, area, port);
    }
    None
}

// A panel's code beside the records on it; a refused start leaves no panel.
fn with_panel(
    rt: &HostRuntime,
    f: Answered<Panel>,
    area: &mut Area,
    port: &mut Port,
    data: &mut [u8],
) -> Option<Record> {
    let answer = f.answer;
    let panel = f.left;
    let parted = Panel::split(panel);
    let core = base_answer::is_taken(answer).then_some(parted.core);
    piece(rt, core, &parted.code, &parted.vals, area, port, data)
}

// A fresh start, its answer and the settings area, and the records on its panel.
fn started(
    rt: &HostRuntime,
    r: Record,
    area: &mut Area,
    port: &mut Port,
    data: &mut [u8],
) -> Option<Record> {
    let (handed, orchestra, _) = r.parts(data);
    let lent = area.lent();
    let f = Panel::fresh(orchestra, lent, handed, r.symbol);
    let a = f.answer;
    port.put_answer(a);
    port.put_bytes(lent);
    with_panel(rt, f, area, port, data)
}

fn run(rt: &HostRuntime, area: &mut Area, port: &mut Port, data: &mut [u8]) {
    let mut next = piece(rt, None, &[], &[], area, port, data);
    for _ in 0..u64::MAX {
        match next {
            Some(r) => next = started(rt, r, area, port, data),
            None => return,
        }
    }
}

fn items_buffer() -> [u8; DATA] {
    [0; DATA]
}

fn main(rt: HostRuntime) {
    let mut area = Area::marked();
    let mut port = Port::opened();
    let mut data = items_buffer();
    run(&rt, &mut area, &mut port, &mut data);
    port.flush(&rt);
    if port.is_lost() {
        let _ = eprintln!(rt; "replay: the output cannot be written");
    }
}
