// Fields of bits in bytes, most significant first: reading one at a bit position, and writing one.
#![tactic(auto)]

ghost use Rattle.std.specs.Prelude.{◌≡◌, ◌+◌, ◌*◌, ◌/◌, ◌%◌, ◌^◌, ◌<◌, ◌≤◌, length, take, drop, set};
ghost use Rattle.base_bitstream.specs.Bits.{bits_of, bit, field, value_of};
ghost use Rattle.base_bitstream.specs.inside.Fields.{Room, written};
ghost use Rattle.base_bitstream.specs.Fields.{room_for, over, read_at};
ghost use Rattle.base_bitstream.specs.Filling.{filled};

// The last position at which a field may begin.
const FARTHEST: usize = 0x4000_0000_0000_0000;

// Whether that many bytes have a field of n bits at a position.
pub fn has_room(bytes: usize, at: usize, n: usize) -> bool
    ensures { result ≡ room_for (8 * bytes) at n }
{
    if n > 32 {
        return false;
    }
    if at > FARTHEST {
        return false;
    }
    (at + n + 7) / 8 <= bytes
}

fn low_bits(x: u64, n: usize) -> u32
    requires { n ≤ 32 }
    ensures { result ≡ x % 2 ^ n }
{
    (x % (1u64 << n)) as u32
}

// The number of a field, out of the number of the bytes that it touches.
fn value_at(s: &[u8], at: usize, n: usize) -> u32
    requires { Room (8 * length s.now) at n }
    ensures { result ≡ value_of (take n (drop at (bits_of s.now))) }
{
    let q = at / 8;
    let k = (at % 8 + n + 7) / 8;
    let mut w: u64 = 0;
    for i in 0..k {
        w = w * 256 + s[q + i] as u64;
    }
    low_bits(w >> (8 * k - at % 8 - n), n)
}

// A field of n bits at a position, and the position past it; none where the bits end before it is whole.
pub fn read(s: &[u8], at: usize, n: usize) -> Option<(u32, usize)>
    ensures { result ≡ read_at (bits_of s.now) at n }
{
    if has_room(s.len(), at, n) {
        let next = at + n;
        return Some((value_at(s, at, n), next));
    }
    None
}

// Whether fewer than 8 bits are left from a position on, all of them zero.
pub fn is_filled(s: &[u8], p: usize) -> bool
    ensures { result ≡ filled (bits_of s.now) p }
{
    let q = p / 8;
    let r = p % 8;
    if s.len() <= q {
        return true;
    }
    if r == 0 {
        return false;
    }
    if q + 1 < s.len() {
        return false;
    }
    low_bits(s[q] as u64, 8 - r) == 0
}

fn power(m: u32) -> u32
    requires { m < 8 }
    ensures { result ≡ 2 ^ m }
{
    1u32 << m
}

// The byte `old` with the bit of weight 2^m set to d.
fn with_bit(old: u8, m: u32, d: u32) -> u8
    requires { (m < 8) × (d < 2) }
    ensures { result ≡ (old / 2 ^ m / 2 * 2 + d) * 2 ^ m + old % 2 ^ m }
{
    let p = power(m);
    let b = old as u32;
    ((b / p / 2 * 2 + d) * p + b % p) as u8
}

// Writes the bit of v that weighs 2^k at a position.
fn put_bit(s: &mut [u8], at: usize, v: u32, k: usize)
    requires { (at < 8 * length s.old) × (k < 32) }
    ensures { bits_of s.new ≡ set (bits_of s.old) at (bit k v) }
{
    let q = at / 8;
    let m = (7 - at % 8) as u32;
    let d = (v >> k) % 2;
    s[q] = with_bit(s[q], m, d);
}

// Lays the lowest n bits of v over what stands at a position.
fn put_field(s: &mut [u8], at: usize, n: usize, v: u32)
    requires { Room (8 * length s.old) at n }
    ensures { bits_of s.new ≡ over (bits_of s.old) at (field n v) }
{
    for i in 0..n {
        put_bit(s, at + i, v, n - 1 - i);
    }
}

// Writes the lowest n bits of v at a position; nothing where they have no room.
pub fn write(s: &mut [u8], at: usize, n: usize, v: u32)
    ensures { bits_of s.new ≡ written (bits_of s.old) at n v }
{
    if has_room(s.len(), at, n) {
        put_field(s, at, n, v);
    }
}
