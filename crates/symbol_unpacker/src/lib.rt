// The names of a symbol table, unpacked into a lent buffer: judged whole first, then laid.
#![tactic(auto)]

ghost use Rattle.std.specs.Prelude.{◌≡◌, ◌*◌, ◌^◌, ◌<◌, length, drop, ltb};
ghost use Rattle.base_bitstream.specs.Bits.{bits_of};
ghost use Rattle.base_bitstream.specs.inside.Fields.{Room};
ghost use Rattle.base_bitstream.specs.Filling.{bytes_from};
ghost use Rattle.symbol_names.specs.inside.Reading.{table_of};
ghost use Rattle.symbol_names.specs.Asking.{laid, unpacking_of};
ghost use Rattle.symbol_unpacker.specs.Passes.{number_at, names_of, Counted, measured, judgement, listed, Fits, laid_at, Copies, Entry, NameLaid, UnpacksTo};

use base_answer::{Answer, Answered};

// The bits of a table's count, of a name's length and of a byte.
const COUNT: usize = 16;

const LENGTH: usize = 4;

const BYTE: usize = 8;

// Whether that many bytes end before a position of their bits.
fn ends_before(bytes: usize, end: usize) -> bool
    requires { end < 2 ^ 32 }
    ensures { result ≡ ltb (8 * bytes) end }
{
    bytes < (end + BYTE - 1) / BYTE
}

// The number of n bits at a position.
fn number_at(s: &[u8], at: usize, n: usize) -> u32
    requires { Room (8 * length s.now) at n }
    ensures { result ≡ number_at (bits_of s.now) at n }
{
    match base_bitstream::read(s, at, n) {
        Some((v, _)) => v,
        None => 0,
    }
}

fn length_at(s: &[u8], at: usize) -> usize
    requires { Room (8 * length s.now) at 4 }
    ensures { (result ≡ number_at (bits_of s.now) at 4) × (result < 2 ^ 4) }
{
    number_at(s, at, LENGTH) as usize
}

fn byte_at(s: &[u8], at: usize) -> u8
    requires { Room (8 * length s.now) at 8 }
    ensures { result ≡ number_at (bits_of s.now) at 8 }
{
    number_at(s, at, BYTE) as u8
}

// Where a table's names end, and how long their list is; none where the table is cut.
fn measure(table: &[u8], count: usize) -> Option<(usize, usize)>
    requires { Counted table.now count }
    ensures { result ≡ measured (bits_of table.now) 0 (names_of table.now count) }
{
    let mut at = COUNT;
    let mut total: usize = 0;
    for i in 0..count {
        if ends_before(table.len(), at + LENGTH) {
            return None;
        }
        let n = length_at(table, at);
        let next = at + LENGTH + BYTE * n;
        if ends_before(table.len(), next) {
            return None;
        }
        at = next;
        total = total + 1 + n;
    }
    Some((at, total))
}

// How many names a table has, and how long their list is: 1, then 11.
fn judge(table: &[u8]) -> Result<(usize, usize), Answer>
    ensures { result ≡ judgement (table_of table.now) }
{
    let (count, _) = base_bitstream::read(table, 0, COUNT).ok_or(Answer::CutShort)?;
    let (end, total) = measure(table, count as usize).ok_or(Answer::CutShort)?;
    if base_bitstream::is_filled(table, end) {
        return Ok((count as usize, total));
    }
    Err(Answer::LeftOver)
}

// Copies n bytes from a position of the table to a place of the buffer.
fn copy_bytes(table: &[u8], at: usize, n: usize, buffer: &mut [u8], to: usize)
    requires { Copies table.now buffer.old at n to }
    ensures { buffer.new ≡ laid_at to (bytes_from n (drop at (bits_of table.now))) buffer.old }
{
    for j in 0..n {
        buffer[to + j] = byte_at(table, at + BYTE * j);
    }
}

// Lays the name at a position of the table, and gives its length.
fn lay_name(table: &[u8], at: usize, buffer: &mut [u8], to: usize) -> usize
    requires { Entry table.now buffer.old at to }
    ensures { NameLaid table.now buffer.old buffer.new at to result }
{
    let n = length_at(table, at);
    buffer[to] = n as u8;
    copy_bytes(table, at + LENGTH, n, buffer, to + 1);
    n
}

// Lays a table's names, each as a length byte and its bytes.
fn lay_names(table: &[u8], count: usize, buffer: &mut [u8])
    requires { Fits table.now count (length buffer.old) }
    ensures { buffer.new ≡ laid (listed (names_of table.now count)) buffer.old }
{
    let mut at = COUNT;
    let mut to: usize = 0;
    for i in 0..count {
        let n = lay_name(table, at, buffer, to);
        at = at + LENGTH + BYTE * n;
        to = to + 1 + n;
    }
}

// Unpacks a symbol table's names into the buffer, and leaves their whole length: 1, 11, then 8 where it is too short. On refusal no byte changes, and 0 is left.
pub fn unpack(table: &[u8], buffer: &mut [u8]) -> Answered<usize>
    ensures { UnpacksTo (unpacking_of (table_of table.now) buffer.old) buffer.new result }
{
    match judge(table) {
        Ok((count, total)) => {
            if total <= buffer.len() {
                lay_names(table, count, buffer);
                return Answered {
                    left: total,
                    answer: Answer::Taken,
                };
            }
            Answered {
                left: 0,
                answer: Answer::NoRoom,
            }
        }
        Err(answer) => Answered { left: 0, answer },
    }
}
