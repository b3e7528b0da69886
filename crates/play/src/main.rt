// Plays a score of any length through an orchestra into a WAV. It tells numbers; the words for people are the front's (bin/play).
#![tactic(auto)]

mod files;
mod piece;
mod report;
mod wav;

use base_answer::Answer;
use panel::{Core, Panel};
use score_decoder::Decoded;
use score_line::SLOT;

const DEFAULT_CEILING: u32 = 32767;

// What the usual stack of 8 MB has room for, and the kit has no other memory: lines, the words of their slots, bytes of their file.
const LINES: usize = 32_768;

const WORDS: usize = LINES * SLOT;

const BYTES: usize = 1_048_576;

// Bytes of an orchestra, and of the longest name that the system takes.
const ORCHESTRA: usize = 65_536;

const NAME: usize = 4096;

// Refusal 8.
const NO_ROOM: u8 = 8;

// A score's lines into the area: of a text where the file's name says so.
fn decoded(path: &[u8], bytes: &[u8], area: &mut [u32]) -> Decoded {
    if files::is_text(path) {
        return text_decoder::decode_text(bytes, area);
    }
    score_decoder::decode_score(bytes, area)
}

// More lines than the area has slots are refused 8.
fn not_taken(rt: &HostRuntime, path: &[u8], line: usize, a: Answer) {
    if base_answer::number(a) == NO_ROOM {
        report::room(rt, path, BYTES, LINES);
        return;
    }
    report::refused_score(rt, path, line, a);
}

// The lines of a file's bytes into the area, and how many; none, and a message, where they are not taken. A file that fills
// its buffer is too long.
fn lines_in(rt: &HostRuntime, path: &[u8], bytes: &[u8], area: &mut [u32]) -> Option<usize> {
    if bytes.len() >= BYTES {
        report::room(rt, path, BYTES, LINES);
        return None;
    }
    let d = decoded(path, bytes, area);
    let a = d.answer;
    if base_answer::is_taken(a) {
        return Some(d.count);
    }
    not_taken(rt, path, d.line, a);
    None
}

// The piece, the first n ranks its order.
fn in_order<'a>(
    rt: &HostRuntime,
    core: Core,
    code: &'a [u64],
    vals: &'a [f32],
    area: &[u32],
    order: &[u64],
    n: usize,
    path: &[u8],
    out: &[u8],
) {
    wav::recorded(
        rt,
        core,
        code,
        vals,
        area,
        &order[..n.min(order.len())],
        path,
        out,
    );
}

fn bytes() -> [u8; BYTES] {
    [0; BYTES]
}

fn words() -> [u32; WORDS] {
    [0; WORDS]
}

fn ranks() -> [u64; LINES] {
    [0; LINES]
}

fn lines_of(
    rt: &HostRuntime,
    path: &[u8],
    buffer: &mut [u8; BYTES],
    area: &mut [u32; WORDS],
) -> Option<usize> {
    match files::read(rt, path, buffer) {
        Ok(bytes) => lines_in(rt, path, bytes, area),
        Err(e) => {
            report::fault(rt, path, &e);
            None
        }
    }
}

// The lines put in order, and then the piece.
fn ordered<'a>(
    rt: &HostRuntime,
    core: Core,
    code: &'a [u64],
    vals: &'a [f32],
    path: &[u8],
    area: &[u32; WORDS],
    n: usize,
    out: &[u8],
) {
    let mut order = ranks();
    let mut room = ranks();
    let r = panel_feeder::prepare(core, area, n, &mut order, &mut room);
    if base_answer::is_taken(r.answer) {
        in_order(rt, core, code, vals, area, &order, n, path, out);
        return;
    }
    report::refused_score(rt, path, r.line, r.answer);
}

fn with_score<'a>(
    rt: &HostRuntime,
    core: Core,
    code: &'a [u64],
    vals: &'a [f32],
    path: &[u8],
    out: &[u8],
) {
    let mut buffer = bytes();
    let mut area = words();
    if let Some(n) = lines_of(rt, path, &mut buffer, &mut area) {
        ordered(rt, core, code, vals, path, &area, n, out);
    }
}

// The settings are one record of version 1: this ceiling, and 16 notes. No keyboard plays here: the first instrument is chosen.
fn with_orchestra(
    rt: &HostRuntime,
    bytes: &[u8],
    ceiling: u32,
    path: &[u8],
    score: &[u8],
    out: &[u8],
) {
    let mut area = [0u8; settings_records::AREA];
    let first = program_io::settings_record(ceiling);
    let f = Panel::fresh(
        bytes,
        &mut area,
        &first,
        program_io::first_instrument(bytes),
    );
    let a = f.answer;
    if base_answer::is_taken(a) {
        let panel = f.left;
        let parted = Panel::split(panel);
        let core = parted.core;
        with_score(rt, core, &parted.code, &parted.vals, score, out);
        return;
    }
    report::refused_start(rt, path, a);
}

// An orchestra that fills the buffer is far longer than the panel takes, and is refused for its length.
fn played(rt: &HostRuntime, ceiling: u32, orchestra: &[u8], score: &[u8], out: &[u8]) {
    let mut buffer = [0u8; ORCHESTRA];
    match files::read(rt, orchestra, &mut buffer) {
        Ok(bytes) => with_orchestra(rt, bytes, ceiling, orchestra, score, out),
        Err(e) => report::fault(rt, orchestra, &e),
    }
}

// The ceiling that is named behind OUT; 0, which is refused, where it is no number.
fn ceiling(rt: &HostRuntime) -> u32 {
    if !program_io::has_argument(rt, 4) {
        return DEFAULT_CEILING;
    }
    let mut text = [0u8; 16];
    let n = program_io::argument(rt, 4, &mut text);
    program_io::number(&text[..n])
}

fn with_out(rt: &HostRuntime, orchestra: &[u8], score: &[u8]) {
    let mut path = [0u8; NAME];
    let n = program_io::argument(rt, 3, &mut path);
    played(rt, ceiling(rt), orchestra, score, &path[..n]);
}

fn with_paths(rt: &HostRuntime, orchestra: &[u8]) {
    let mut path = [0u8; NAME];
    let n = program_io::argument(rt, 2, &mut path);
    with_out(rt, orchestra, &path[..n]);
}

fn main(rt: HostRuntime) {
    if !program_io::has_argument(&rt, 3) || program_io::has_argument(&rt, 6) {
        report::usage(&rt);
        return;
    }
    let mut path = [0u8; NAME];
    let n = program_io::argument(&rt, 1, &mut path);
    with_paths(&rt, &path[..n]);
}
