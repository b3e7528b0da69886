// A symbol table unpacked, and the last symbol's name asked for.
const ROOM: usize = 1048576;

// The last symbol that a table can have.
const LAST: u16 = 65534;

fn asked(names: &[u8], n: usize) -> usize {
    match names.get(..n) {
        Some(names) => symbol_lookup::name_in(names, LAST).len(),
        None => 0,
    }
}

// The length of that name.
pub fn unpacked(table: &[u8], buffer: &mut [u8; ROOM]) -> u8 {
    let r = symbol_unpacker::unpack(table, buffer);
    (asked(buffer, r.left) % 256) as u8
}
