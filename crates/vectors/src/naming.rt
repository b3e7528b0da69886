// Symbol tables unpacked, and names asked for.

const NO_ROOM: u64 = 255;

// The panel's own list: own for symbol 0, nothing for 1, no for 2.
const OWN: [u8; 8] = [3, b'o', b'w', b'n', 0, 2, b'n', b'o'];

fn told_with(number: u8, length: usize) -> u64 {
    (length % 1000) as u64 * 1000 + number as u64
}

// Into a buffer of so many bytes: the answer, and 1,000 times the whole length.
pub fn unpack(bytes: &[u8], room: usize) -> u64 {
    let mut buffer = [0u8; 512];
    if room <= 512 {
        let r = symbol_unpacker::unpack(bytes, &mut buffer[..room]);
        let a = r.answer;
        return told_with(base_answer::number(a), r.left);
    }
    NO_ROOM
}

// A name as a number: 256 times its length, and its first byte.
fn told(name: &[u8]) -> u64 {
    name.first()
        .map_or(0, |b| (name.len() % 256) as u64 * 256 + *b as u64)
}

// A symbol's name, where the piece's names are these bytes.
fn found<'a>(symbol: u16, piece: &'a [u8], own: &'a [u8]) -> u64 {
    told(symbol_lookup::name_of(symbol, piece, own))
}

pub fn name(symbol: u16, piece: &[u8]) -> u64 {
    let own = OWN;
    found(symbol, piece, &own)
}
