// 16 notes of one fixed tone for 1,000 cycles, and a checksum of the samples. The orchestra is bench/tone.orc.
#![tactic(auto)]

use panel::{Core, Panel, SplitPanel};
use std::io;

const CYCLES: u32 = 1000;

fn started() -> SplitPanel {
    let mut area = [0u8; settings_records::AREA];
    let first = program_io::settings_record(32767);
    let f = Panel::fresh(
        b"\x01\xf0\x00\x00\x0f\xf0\x00\x01\x10\x11\x02\xf0\x00\x02\x14\x04\xf0\x00\x03\x14\xf0\x00\x02\x15\xf0\x00\x01\x23\xf2\x00\x00\x7d\x00\x14\xf0\x00\x03\x15\xf0\x00\x03\x20\xf0\x00\x02\x14\x07\x0f\xf0\x00\x03\x1f\xf2\x00\x00\x00\x01\x10\x11\xf0\x00\x03\x15\xf0\x00\x03\x21\xf2\x00\x00\x00\x01\x14\x12\x06\x0f\xf0\x00\x03\x22\x0f\xf2\x00\x00\x00\x01\x21\xf0\x00\x03\x10\x22\xf1\x3e\x80\x00\x00\x10\x14\x12\xff",
        &mut area,
        &first,
        0,
    );
    Panel::split(f.left)
}

// A note without end, at 440 Hz.
fn with_note(c: Core) -> Core {
    let line = [0u32, 0, 0, 0, 0, 3212836864, 1, 1138491392];
    let r = Core::enter_line(c, &line);
    r.left
}

fn with_notes(c: Core) -> Core {
    let mut with = c;
    for _ in 0..16 {
        with = with_note(with);
    }
    with
}

fn played<'a>(c: Core, code: &'a [u64], vals: &'a [f32]) -> u32 {
    let mut core = c;
    let mut sum: u32 = 0;
    for _ in 0..CYCLES {
        let mut block = [0i16; 320];
        let r = Core::cycle(core, code, vals, &mut block);
        core = r.left;
        sum = program_io::checked_sum(sum, &block);
    }
    sum
}

fn main(rt: HostRuntime) -> io::Result<()> {
    let p = started();
    let core = p.core;
    let sum = played(with_notes(core), &p.code, &p.vals);
    println!(rt; "16 notes, 1,000 cycles, checksum {sum:08x}")
}
