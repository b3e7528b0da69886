// Names: a symbol table unpacked, and a symbol's name asked for.
use crate::port::Port;

// The longest buffer that names are unpacked into.
const BUFFER: usize = 65536;

pub fn unpack(bytes: &[u8], room: usize, port: &mut Port) {
    let mut marked = [90u8; BUFFER];
    let buffer = &mut marked[..room.min(BUFFER)];
    let r = symbol_unpacker::unpack(bytes, buffer);
    let a = r.answer;
    port.put_answer(a);
    port.put_number(r.left);
    port.put_bytes(buffer);
}

fn put_name(name: &[u8], port: &mut Port) {
    port.put_number(name.len());
    port.put_bytes(name);
}

fn symbol_of(n: u32) -> u16 {
    (n % 65536) as u16
}

// The piece's names, and the first `own` bytes of the panel's own list.
pub fn ask(symbol: u32, piece: &[u8], rest: &[u8], own: usize, port: &mut Port) {
    let list = &rest[..own.min(rest.len())];
    put_name(symbol_lookup::name_of(symbol_of(symbol), piece, list), port);
}
