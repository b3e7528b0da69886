// A burst: the call on an answer area that is marked, and what it leaves into the output.
use crate::port::Port;
use panel::Core;

// Most places of an answer area.
const PLACES: usize = 64;

const MARKED: [u8; PLACES] = [90; PLACES];

// Its answer, how many units were answered, and the area.
pub fn received(core: Core, places: usize, bytes: &[u8], port: &mut Port) -> Core {
    let mut marked = MARKED;
    let area = &mut marked[..places.min(PLACES)];
    let r = Core::receive_burst(core, bytes, area);
    let a = r.answer;
    let after = r.left;
    port.put_answer(a);
    port.put_number(r.units);
    port.put_bytes(area);
    port.put_missed(after);
    after
}

// Without a panel: 255, the other numbers 0, and the area as it was lent.
pub fn absent(places: usize, port: &mut Port) {
    port.put_byte(255);
    port.put_word(0);
    port.put_bytes(&MARKED[..places.min(PLACES)]);
    port.put_long(0);
}
