// How many of the next 300 cycles are silent before the first that sounds, and how many sound.
use panel::Panel;

#[derive(Clone, Copy)]
pub struct Heard {
    panel: Panel,
    pub silent: u64,
    pub sounding: u64,
}

fn sounds(block: &[i16; 320]) -> bool {
    block[0] != 0
}

fn with_cycle(h: Heard) -> Heard {
    let mut block = [0i16; 320];
    let before = h.panel;
    let r = Panel::cycle(before, &mut block);
    let panel = r.left;
    if sounds(&block) {
        return Heard {
            panel,
            silent: h.silent,
            sounding: h.sounding % 1000 + 1,
        };
    }
    if h.sounding == 0 {
        return Heard {
            panel,
            silent: h.silent % 1000 + 1,
            sounding: 0,
        };
    }
    Heard {
        panel,
        silent: h.silent,
        sounding: h.sounding,
    }
}

pub fn listened(panel: Panel) -> Heard {
    let mut h = Heard {
        panel,
        silent: 0,
        sounding: 0,
    };
    for _ in 0..300 {
        h = with_cycle(h);
    }
    h
}
