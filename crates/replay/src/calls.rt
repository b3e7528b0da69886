// One function for each kind of call: the call on lent memory that is marked, and its answer into the output.
use crate::port::Port;
use crate::record::{Kind, Record};
use crate::settings::Area;
use crate::{burst, naming, settings};
use base_answer::AnsweredLine;
use panel::Core;
use score_decoder::Decoded;
use score_writer::WriteResult;

// A whole score: the number of the line that the answer is about stands behind it.
fn whole(r: AnsweredLine<Core>, port: &mut Port) -> Core {
    let a = r.answer;
    let after = r.left;
    port.put_answer(a);
    port.put_number(r.line);
    port.put_missed(after);
    after
}

fn single(r: AnsweredLine<Core>, port: &mut Port) -> Core {
    let a = r.answer;
    let after = r.left;
    port.put_answer(a);
    port.put_missed(after);
    after
}

// Each call has a function of its own, so that the room for what it leaves is made for that call alone.
fn stick(core: Core, bytes: &[u8], port: &mut Port) -> Core {
    whole(Core::load_score(core, bytes), port)
}

fn text(core: Core, bytes: &[u8], port: &mut Port) -> Core {
    whole(Core::load_text(core, bytes), port)
}

fn unit(core: Core, bytes: &[u8], port: &mut Port) -> Core {
    single(Core::receive_unit(core, bytes), port)
}

fn keys(core: Core, bytes: &[u8], port: &mut Port) -> Core {
    let r = Core::play_keys(core, bytes);
    let a = r.answer;
    let after = r.left;
    port.put_answer(a);
    port.put_missed(after);
    after
}

fn keypad_words(core: Core, bytes: &[u8], words: &mut [u32], port: &mut Port) -> Core {
    program_io::words_of(bytes, words);
    single(Core::enter_line(core, words), port)
}

// A line has at most so many numbers: a large room is made only for a call that is refused.
const LINE: usize = 18;

const LONGEST: usize = 4096;

fn long_keypad(core: Core, bytes: &[u8], count: usize, port: &mut Port) -> Core {
    let mut words = [0u32; LONGEST];
    keypad_words(core, bytes, &mut words[..count.min(LONGEST)], port)
}

fn keypad(core: Core, bytes: &[u8], count: usize, port: &mut Port) -> Core {
    if count > LINE {
        return long_keypad(core, bytes, count, port);
    }
    let mut words = [0u32; LINE];
    keypad_words(core, bytes, &mut words[..count], port)
}

const BLOCK: usize = 1024;

const MARKED: [i16; BLOCK] = [23130; BLOCK];

fn cycle<'a>(core: Core, code: &'a [u64], vals: &'a [f32], count: usize, port: &mut Port) -> Core {
    let mut marked = MARKED;
    let block = &mut marked[..count.min(BLOCK)];
    let r = Core::cycle(core, code, vals, block);
    let a = r.answer;
    let after = r.left;
    port.put_answer(a);
    port.put_missed(after);
    port.put_samples(block);
    after
}

// Without a panel: 255, the other numbers 0, and what is lent as it was.
fn absent(r: Record, area: &mut Area, port: &mut Port) {
    match r.kind {
        Kind::Burst => burst::absent(r.first as usize, port),
        Kind::Change | Kind::Undo => settings::absent(area.lent(), port),
        Kind::Score | Kind::Text => {
            port.put_byte(255);
            port.put_word(0);
            port.put_long(0);
        }
        Kind::Cycle => {
            port.put_byte(255);
            port.put_long(0);
            port.put_samples(&MARKED[..(r.count as usize).min(BLOCK)]);
        }
        _ => {
            port.put_byte(255);
            port.put_long(0);
        }
    }
}

fn decoded(kind: Kind, bytes: &[u8], area: &mut [u32]) -> Decoded {
    match kind {
        Kind::DecodeScore => score_decoder::decode_score(bytes, area),
        Kind::DecodeUnit => score_decoder::decode_unit(bytes, area),
        _ => text_decoder::decode_text(bytes, area),
    }
}

// The most slots of an area, and its words.
const SLOTS: usize = 128;

const WORDS: usize = 2304;

fn decode(kind: Kind, bytes: &[u8], slots: usize, port: &mut Port) {
    let mut marked = [1515870810u32; WORDS];
    let area = &mut marked[..18 * slots.min(SLOTS)];
    let r = decoded(kind, bytes, area);
    let a = r.answer;
    port.put_answer(a);
    if kind != Kind::DecodeUnit {
        port.put_number(r.line);
    }
    port.put_words(area);
}

fn written(kind: Kind, area: &[u32], slots: usize, lent: &mut [u8]) -> WriteResult {
    match kind {
        Kind::WriteScore => score_writer::write_score(area, slots, lent),
        Kind::WriteUnit => score_writer::write_slot(area, lent),
        _ => text_writer::write_text(area, slots, lent),
    }
}

const ROOM: usize = 16384;

fn write(kind: Kind, bytes: &[u8], slots: usize, room: usize, port: &mut Port) {
    let mut marked = [90u8; ROOM];
    let lent = &mut marked[..room.min(ROOM)];
    let mut area = [0u32; WORDS];
    program_io::words_of(bytes, &mut area);
    let r = written(kind, &area, slots, lent);
    let a = r.answer;
    port.put_answer(a);
    if kind == Kind::WriteText {
        port.put_number(r.line);
    }
    port.put_number(r.bytes);
    port.put_bytes(lent);
}

// The calls on a panel.
fn on_panel<'a>(
    core: Core,
    code: &'a [u64],
    vals: &'a [f32],
    r: Record,
    items: &[u8],
    area: &mut Area,
    port: &mut Port,
) -> Core {
    match r.kind {
        Kind::Score => stick(core, items, port),
        Kind::Text => text(core, items, port),
        Kind::Unit => unit(core, items, port),
        Kind::Burst => burst::received(core, r.first as usize, items, port),
        Kind::Keys => keys(core, items, port),
        Kind::Cycle => cycle(core, code, vals, r.count as usize, port),
        Kind::Change => settings::changed(core, area.lent(), items, port),
        Kind::Undo => settings::undone(core, area.lent(), port),
        _ => keypad(core, items, r.count as usize, port),
    }
}

// A call, on the panel if there is one; the panel's code stands beside it.
pub fn carry_out<'a>(
    core: Option<Core>,
    code: &'a [u64],
    vals: &'a [f32],
    r: Record,
    data: &[u8],
    area: &mut Area,
    port: &mut Port,
) -> Option<Core> {
    let (_, items, behind) = r.parts(data);
    match r.kind {
        Kind::DecodeScore | Kind::DecodeUnit | Kind::DecodeText => {
            decode(r.kind, items, r.first as usize, port);
        }
        Kind::WriteScore | Kind::WriteUnit | Kind::WriteText => {
            write(r.kind, items, r.count as usize, r.room as usize, port);
        }
        Kind::Unpack => naming::unpack(items, r.room as usize, port),
        Kind::Name => naming::ask(r.first, items, behind, r.room as usize, port),
        Kind::Area => area.replace(items),
        _ => match core {
            Some(core) => return Some(on_panel(core, code, vals, r, items, area, port)),
            None => absent(r, area, port),
        },
    }
    core
}
