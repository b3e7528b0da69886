// A piece: what has become due is fed, then a cycle sounds.
use base_answer::Answer;
use panel::Core;

// `at` is how many lines of the order are fed, `first` the cycle of the first missed note; `answer` and `line` are those of feeding;
// `lost`: the sound could not be written.
#[derive(Clone, Copy)]
pub struct Piece {
    pub core: Core,
    pub at: usize,
    pub answer: Answer,
    pub line: usize,
    pub cycles: u32,
    // Kept: no Option, since the count of missed notes decides whether it is told, and feeding alone can miss notes.
    pub first: u32,
    pub sum: u32,
    pub ended: bool,
    pub lost: bool,
}

pub fn begun(core: Core) -> Piece {
    Piece {
        core,
        at: 0,
        answer: Answer::Taken,
        line: 0,
        cycles: 0,
        first: 0,
        sum: 0,
        ended: false,
        lost: false,
    }
}

// Nothing is left to feed, nothing waits and nothing sounds: only silence could follow.
pub fn is_over(core: Core, at: usize, order: &[u64]) -> bool {
    at >= order.len() && Core::waiting_lines(core) == 0 && Core::sounding_notes(core) == 0
}

// Asked first whether a line is due, so that feeding costs other cycles nothing.
pub fn fed(mut p: Piece, area: &[u32], order: &[u64]) -> Piece {
    let core = p.core;
    if panel_feeder::next_due(order, p.at, Core::position_in_ticks(core)) {
        let f = panel_feeder::feed(core, area, order, p.at);
        p.core = f.core;
        p.at = f.at;
        p.answer = f.answer;
        p.line = f.line;
    }
    p
}

fn counted(mut p: Piece, before: u64, block: &[i16]) -> Piece {
    let core = p.core;
    let n = p.cycles % 0xffff_ffff + 1;
    if before == 0 && 0 < Core::missed_notes(core) {
        p.first = n - 1;
    }
    p.cycles = n;
    p.sum = program_io::checked_sum(p.sum, block);
    p
}

// The next cycle into the block; the piece has ended where the core says so.
pub fn sounded<'a>(mut p: Piece, code: &'a [u64], vals: &'a [f32], block: &mut [i16]) -> Piece {
    let old = p.core;
    let before = Core::missed_notes(old);
    let r = Core::cycle(old, code, vals, block);
    let a = r.answer;
    let core = r.left;
    p.core = core;
    if base_answer::is_taken(a) {
        return counted(p, before, block);
    }
    p.ended = true;
    p
}
