// A piece into a WAV file or to standard output.
use crate::piece::Piece;
use crate::{files, report};
use panel::Core;
use std::fs::File;
use std::io::{Seek, SeekFrom, Write};

// The size in the header of a WAV whose length is not known yet.
const UNKNOWN: u32 = 0xffff_ffff;

// The most cycles whose bytes a WAV's header can count.
const MOST_CYCLES: u32 = 6_710_886;

// Cycles in a second.
const CYCLES: u32 = 100;

// Writes, and tells a fault.
fn written(rt: &HostRuntime, to: &mut impl Write, bytes: &[u8]) -> bool {
    let sent = Write::write_all(to, bytes);
    if let Err(e) = &sent {
        report::unwritten(rt, e);
    }
    sent.is_ok()
}

// The 44 bytes in front of the samples: `whole` counts those behind it, `size` those of the samples.
fn write_header(rt: &HostRuntime, to: &mut impl Write, whole: u32, size: u32) -> bool {
    let mut h = [0u8; 44];
    let riff = program_io::put_bytes(&mut h, 0, b"RIFF");
    let form = program_io::put_little_word(&mut h, riff, whole);
    let wave = program_io::put_bytes(&mut h, form, b"WAVEfmt ");
    let format = program_io::put_little_word(&mut h, wave, 16);
    let pcm = program_io::put_little_half(&mut h, format, 1);
    let channels = program_io::put_little_half(&mut h, pcm, 1);
    let rate = program_io::put_little_word(&mut h, channels, 32000);
    let bytes = program_io::put_little_word(&mut h, rate, 64000);
    let frame = program_io::put_little_half(&mut h, bytes, 2);
    let bits = program_io::put_little_half(&mut h, frame, 16);
    let data = program_io::put_bytes(&mut h, bits, b"data");
    program_io::put_little_word(&mut h, data, size);
    written(rt, to, &h)
}

fn write_block(rt: &HostRuntime, to: &mut impl Write, block: &[i16]) -> bool {
    let mut bytes = [0u8; 640];
    program_io::put_little_samples(&mut bytes, 0, block);
    written(rt, to, &bytes)
}

// A fed piece's next cycle; it ends where it is over, or where the sound cannot be written.
fn one_cycle<'a>(
    rt: &HostRuntime,
    p: Piece,
    code: &'a [u64],
    vals: &'a [f32],
    order: &[u64],
    to: &mut impl Write,
) -> Piece {
    let mut block = [0i16; 320];
    let mut q = crate::piece::sounded(p, code, vals, &mut block);
    if q.ended {
        return q;
    }
    report::progress(rt, q.cycles);
    if write_block(rt, to, &block) {
        let core = q.core;
        q.ended = crate::piece::is_over(core, q.at, order);
        return q;
    }
    q.ended = true;
    q.lost = true;
    q
}

fn all_cycles<'a>(
    rt: &HostRuntime,
    start: Piece,
    code: &'a [u64],
    vals: &'a [f32],
    area: &[u32],
    order: &[u64],
    to: &mut impl Write,
    most: u32,
) -> Piece {
    let mut p = start;
    for _ in 0..most {
        if p.ended {
            return p;
        }
        p = crate::piece::fed(p, area, order);
        let a = p.answer;
        if !base_answer::is_taken(a) {
            return p;
        }
        p = one_cycle(rt, p, code, vals, order, to);
    }
    p
}

// The cycles that are asked for behind the ceiling.
fn most_cycles(rt: &HostRuntime) -> u32 {
    if !program_io::has_argument(rt, 5) {
        return MOST_CYCLES;
    }
    let mut text = [0u8; 16];
    let n = program_io::argument(rt, 5, &mut text);
    let seconds = program_io::number(&text[..n]);
    if seconds < MOST_CYCLES / CYCLES {
        return seconds * CYCLES;
    }
    MOST_CYCLES
}

// The samples behind a header of unknown length.
fn filled<'a>(
    rt: &HostRuntime,
    core: Core,
    code: &'a [u64],
    vals: &'a [f32],
    area: &[u32],
    order: &[u64],
    to: &mut impl Write,
) -> Piece {
    let mut p = crate::piece::begun(core);
    p.ended = crate::piece::is_over(core, 0, order);
    p.lost = !write_header(rt, to, UNKNOWN, UNKNOWN);
    if !p.lost {
        p = all_cycles(rt, p, code, vals, area, order, to, most_cycles(rt));
    }
    report::progress_over(rt);
    p
}

// Whether the piece is as it should be, with a message where a line was refused on its way.
fn is_sound(rt: &HostRuntime, p: Piece, path: &[u8]) -> bool {
    let a = p.answer;
    if base_answer::is_taken(a) {
        return !p.lost;
    }
    report::refused_score(rt, path, p.line, a);
    false
}

// What was played. Where it cannot be told the piece is written all the same.
fn summary(rt: &HostRuntime, to: &impl Print, p: Piece, out: &[u8]) {
    if !p.ended {
        report::stopped(rt);
    }
    let core = p.core;
    let _ = report::played(to, out, p.cycles, Core::missed_notes(core), p.first, p.sum);
}

// The header again, with the number of bytes.
fn is_sized(rt: &HostRuntime, mut file: File, cycles: u32) -> bool {
    let size = cycles % (MOST_CYCLES + 1) * 640;
    file.seek(SeekFrom::Start(0)).is_ok()
        && write_header(rt, &mut file, size % (UNKNOWN - 36) + 36, size)
}

// What is not whole is removed.
fn kept_or_removed(rt: &HostRuntime, p: Piece, path: &[u8], out: &[u8], file: File) {
    let sound = is_sound(rt, p, path);
    let sized = is_sized(rt, file, p.cycles);
    if sound && sized {
        summary(rt, rt, p, out);
        return;
    }
    let _ = files::removed(rt, out);
}

fn to_file<'a>(
    rt: &HostRuntime,
    core: Core,
    code: &'a [u64],
    vals: &'a [f32],
    area: &[u32],
    order: &[u64],
    path: &[u8],
    out: &[u8],
) {
    match files::created(rt, out) {
        Ok(mut file) => {
            let p = filled(rt, core, code, vals, area, order, &mut file);
            kept_or_removed(rt, p, path, out, file);
        }
        Err(e) => report::fault(rt, out, &e),
    }
}

fn to_output<'a>(
    rt: &HostRuntime,
    core: Core,
    code: &'a [u64],
    vals: &'a [f32],
    area: &[u32],
    order: &[u64],
    path: &[u8],
) {
    let p = filled(rt, core, code, vals, area, order, &mut rt.stdout());
    if is_sound(rt, p, path) {
        summary(rt, &rt.stderr(), p, b"-");
    }
}

pub fn recorded<'a>(
    rt: &HostRuntime,
    core: Core,
    code: &'a [u64],
    vals: &'a [f32],
    area: &[u32],
    order: &[u64],
    path: &[u8],
    out: &[u8],
) {
    if out == b"-".as_slice() {
        to_output(rt, core, code, vals, area, order, path);
    } else {
        to_file(rt, core, code, vals, area, order, path, out);
    }
}
