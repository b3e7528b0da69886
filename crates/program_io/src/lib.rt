// Numbers in lent memory, a number from a text, arguments and whole inputs.
// All functions are total: past the end of a buffer nothing is stored, and zeros are read.
#![tactic(auto)]

ghost use Rattle.std.specs.Prelude.{◌≡◌, ℕ, ◌+◌, ◌*◌, ◌≤◌, List, [], ◌∷◌, length, slice_index};
ghost use Rattle.program_io.specs.Bytes.{big_endian, little_endian, itself, sample_bits as bits_of, joined, Put, symbol_at, word_at, words_of, checksum, in_two_bytes};
ghost use Rattle.settings_records.specs.Form.{encoded, version_one};
ghost use Rattle.program_io.specs.Decimal.{digits_after, decimal};

use std::env::{Env, FillError};
use std::io::Read;

// ---- numbers in lent memory

pub fn byte_at(s: &[u8], at: usize) -> u8
    ensures { result ≡ slice_index s.now at }
{
    s.get(at).copied().unwrap_or(0)
}

// The k-th byte behind a place.
fn byte_after(s: &[u8], at: usize, k: usize) -> u8
    ensures { result ≡ slice_index s.now (at + k) }
{
    at.checked_add(k).map_or(0, |n| byte_at(s, n))
}

pub fn word_at(s: &[u8], at: usize) -> u32
    ensures { result ≡ word_at s.now at }
{
    u32::from_be_bytes([
        byte_at(s, at),
        byte_after(s, at, 1),
        byte_after(s, at, 2),
        byte_after(s, at, 3),
    ])
}

pub fn symbol_at(s: &[u8], at: usize) -> u16
    ensures { result ≡ symbol_at s.now at }
{
    u16::from_be_bytes([byte_at(s, at), byte_after(s, at, 1)])
}

// The name of an orchestra's first instrument: it stands behind the token instr and the byte that tells a symbol.
pub fn first_instrument(orchestra: &[u8]) -> u16
    ensures { result ≡ symbol_at orchestra.now 2 }
{
    symbol_at(orchestra, 2)
}

// A number that two bytes hold; 0, which is no ceiling, in place of a larger one.
fn in_two_bytes(n: u32) -> u16
    ensures { result ≡ in_two_bytes n }
{
    u16::try_from(n).unwrap_or(0)
}

// The settings record that a program starts a panel with: version 1, this ceiling, 16 notes.
pub fn settings_record(ceiling: u32) -> [u8; 6]
    ensures { result ≡ encoded (version_one (in_two_bytes ceiling) 16) }
{
    let c = in_two_bytes(ceiling).to_be_bytes();
    [0, 4, 1, c[0], c[1], 16]
}

// Stores a byte, and answers the place after it.
pub fn put_byte(out: &mut [u8], at: usize, b: u8) -> usize
    ensures { Put out.old at (b ∷ []) out.new result }
{
    if at < out.len() {
        out[at] = b;
        return at + 1;
    }
    at
}

pub fn put_half(out: &mut [u8], at: usize, half: u16) -> usize
    ensures { Put out.old at (big_endian 2 half) out.new result }
{
    put_bytes(out, at, &half.to_be_bytes())
}

pub fn put_word(out: &mut [u8], at: usize, word: u32) -> usize
    ensures { Put out.old at (big_endian 4 word) out.new result }
{
    put_bytes(out, at, &word.to_be_bytes())
}

pub fn put_long(out: &mut [u8], at: usize, long: u64) -> usize
    ensures { Put out.old at (big_endian 8 long) out.new result }
{
    put_bytes(out, at, &long.to_be_bytes())
}

// The same with the low byte first, as a WAV file has them.
pub fn put_little_half(out: &mut [u8], at: usize, half: u16) -> usize
    ensures { Put out.old at (little_endian 2 half) out.new result }
{
    put_bytes(out, at, &half.to_le_bytes())
}

pub fn put_little_word(out: &mut [u8], at: usize, word: u32) -> usize
    ensures { Put out.old at (little_endian 4 word) out.new result }
{
    put_bytes(out, at, &word.to_le_bytes())
}

// The 16 bits of a sample.
pub fn sample_bits(v: i16) -> u16
    ensures { result ≡ bits_of v }
{
    v.cast_unsigned()
}

// ---- whole slices

// How the elements of a slice are laid into a buffer.
trait Laying<T> {
    ghost bytes: { T → List ℕ };

    fn put(out: &mut [u8], at: usize, v: T) -> usize
        ensures { Put out.old at (bytes v) out.new result };
}

struct BigEndian;

struct LittleEndian;

impl Laying<u8> for BigEndian {
    ghost bytes = { itself };

    fn put(out: &mut [u8], at: usize, v: u8) -> usize {
        put_byte(out, at, v)
    }
}

impl Laying<u32> for BigEndian {
    ghost bytes = { big_endian 4 };

    fn put(out: &mut [u8], at: usize, v: u32) -> usize {
        put_word(out, at, v)
    }
}

impl Laying<i16> for BigEndian {
    ghost bytes = { λ v. big_endian 2 (bits_of v) };

    fn put(out: &mut [u8], at: usize, v: i16) -> usize {
        put_half(out, at, sample_bits(v))
    }
}

impl Laying<i16> for LittleEndian {
    ghost bytes = { λ v. little_endian 2 (bits_of v) };

    fn put(out: &mut [u8], at: usize, v: i16) -> usize {
        put_little_half(out, at, sample_bits(v))
    }
}

fn put_each<L: Laying<T>, T: Copy>(out: &mut [u8], at: usize, s: &[T]) -> usize
    ensures { Put out.old at (joined L.bytes s.now) out.new result }
{
    let mut next = at;
    for v in s {
        next = L::put(out, next, *v);
    }
    next
}

pub fn put_bytes(out: &mut [u8], at: usize, s: &[u8]) -> usize
    ensures { Put out.old at s.now out.new result }
{
    put_each::<BigEndian, u8>(out, at, s)
}

pub fn put_words(out: &mut [u8], at: usize, s: &[u32]) -> usize
    ensures { Put out.old at (joined (big_endian 4) s.now) out.new result }
{
    put_each::<BigEndian, u32>(out, at, s)
}

pub fn put_samples(out: &mut [u8], at: usize, s: &[i16]) -> usize
    ensures { Put out.old at (joined (λ v. big_endian 2 (bits_of v)) s.now) out.new result }
{
    put_each::<BigEndian, i16>(out, at, s)
}

pub fn put_little_samples(out: &mut [u8], at: usize, s: &[i16]) -> usize
    ensures { Put out.old at (joined (λ v. little_endian 2 (bits_of v)) s.now) out.new result }
{
    put_each::<LittleEndian, i16>(out, at, s)
}

// A checksum carried on over a block of samples.
pub fn checked_sum(sum: u32, s: &[i16]) -> u32
    ensures { result ≡ checksum sum s.now }
{
    let mut n = sum;
    for v in s {
        n = n % 67108864 * 61 + sample_bits(*v) as u32;
    }
    n
}

// The word of four bytes at a place that counts words.
fn nth_word(s: &[u8], i: usize) -> u32
    ensures { result ≡ word_at s.now (4 * i) }
{
    if i <= s.len() / 4 {
        word_at(s, 4 * i)
    } else {
        0
    }
}

// The words that stand in the bytes, as many as there is room for.
pub fn words_of(s: &[u8], words: &mut [u32])
    ensures { words.new ≡ words_of s.now (length words.old) }
{
    for (i, word) in words.iter_mut().enumerate() {
        *word = nth_word(s, i);
    }
}

// A whole number in decimal, of at most nine digits; 0 where there is none.
pub fn number(text: &[u8]) -> u32
    ensures { result ≡ decimal text.now }
{
    let mut n: u32 = 0;
    for b in text {
        if !b.is_ascii_digit() || 99999999 < n {
            return 0;
        }
        n = n * 10 + (*b - b'0') as u32;
    }
    n
}

// ---- arguments and whole inputs

// Whether the program has this argument; its own name is argument 0.
pub fn has_argument(rt: &impl Env, i: usize) -> bool {
    let mut one = [0u8; 1];
    !matches!(rt.arg(i, &mut one), Err(FillError::NotPresent))
}

// An argument at the start of a buffer, and its length; 0 where there is none, or it is longer than the buffer.
pub fn argument(rt: &impl Env, i: usize, to: &mut [u8]) -> usize
    ensures { result ≤ length to.new }
{
    rt.arg(i, to).unwrap_or(0)
}

// Reads until the buffer is full, the input ends or a read fails, and answers how many bytes came.
pub fn read_full(from: &mut impl Read, to: &mut [u8]) -> usize
    ensures { result ≤ length to.new }
{
    let mut done: usize = 0;
    while done < to.len() {
        match from.read(&mut to[done..]) {
            Ok(0) => return done,
            Ok(n) => done += n,
            Err(_) => return done,
        }
    }
    done
}
