// The settings area that the filter holds and lends: another one is put there, a record joins those in use, the last one goes out of use.
use crate::port::Port;
use base_answer::Answered;
use panel::Core;

// The longest area that can be put there.
const LONGEST: usize = 8192;

// What the area holds at first.
const MARK: u8 = 90;

// The first `length` bytes are lent.
#[derive(Drop)]
pub struct Area {
    bytes: [u8; LONGEST],
    length: usize,
}

impl Area {
    pub fn marked() -> Area {
        Area {
            bytes: [MARK; LONGEST],
            length: settings_records::AREA,
        }
    }

    pub fn lent(&mut self) -> &mut [u8] {
        let n = self.length.min(LONGEST);
        &mut self.bytes[..n]
    }

    // Another area is put there.
    pub fn replace(&mut self, bytes: &[u8]) {
        program_io::put_bytes(&mut self.bytes, 0, bytes);
        self.length = bytes.len();
    }
}

fn put_result(r: Answered<Core>, area: &[u8], port: &mut Port) -> Core {
    let a = r.answer;
    let after = r.left;
    port.put_answer(a);
    port.put_missed(after);
    port.put_bytes(area);
    after
}

pub fn changed(core: Core, area: &mut [u8], handed: &[u8], port: &mut Port) -> Core {
    let r = Core::change(core, area, handed);
    put_result(r, area, port)
}

pub fn undone(core: Core, area: &[u8], port: &mut Port) -> Core {
    put_result(Core::undo(core, area), area, port)
}

// Without a panel: 255, no missed notes, and the area as it was lent.
pub fn absent(area: &[u8], port: &mut Port) {
    port.put_byte(255);
    port.put_long(0);
    port.put_bytes(area);
}
