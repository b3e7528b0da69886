// A text of cases, a line each: `[+] [TIMES] CALL[(SIZE)] NUMBERS .. = EXPECTED # title`. TIMES, SIZE and EXPECTED are decimal, the
// numbers hexadecimal, and `00*13` is the number 00 thirteen times. `"0 end|"` stands for the numbers of its letters, | for a newline.
// The program's input says what each call is.
// Kept: a line is bytes and no str, since it need not be UTF-8.

// Most numbers of a line; those past them are left out.
pub const MOST: usize = 512;

// What reading a piece of a line gives: a number, and the rest of the line.
type Read<'a> = (u64, &'a [u8]);

pub fn ends_line(b: u8) -> bool {
    matches!(b, b'\n' | 0)
}

fn ends_word(b: u8) -> bool {
    ends_line(b) || matches!(b, b' ' | b'(' | b')' | b'*')
}

fn begins_with(rest: &[u8], sign: u8) -> bool {
    rest.first().copied() == Some(sign)
}

// A word, which may be empty, and what stands behind it.
fn word_at(rest: &[u8]) -> (&[u8], &[u8]) {
    let n = rest.iter().position(|b| ends_word(*b));
    rest.split_at(n.unwrap_or(rest.len()).min(rest.len()))
}

fn past_spaces(rest: &[u8]) -> &[u8] {
    let n = rest.iter().position(|b| *b != b' ');
    &rest[n.unwrap_or(rest.len()).min(rest.len())..]
}

fn past_sign(rest: &[u8], sign: u8) -> &[u8] {
    match rest.split_first() {
        Some((first, after)) if *first == sign => after,
        _ => rest,
    }
}

// ---- numbers

fn digit_of(b: u8) -> u32 {
    match b {
        b'0'..=b'9' => (b - b'0') as u32,
        b'a'..=b'f' => (b - b'a') as u32 + 10,
        _ => 0,
    }
}

fn hex_of(word: &[u8]) -> u32 {
    let mut n: u32 = 0;
    for b in word {
        n = n % 268435456 * 16 + digit_of(*b) % 16;
    }
    n
}

fn decimal_of(word: &[u8]) -> u64 {
    let mut n: u64 = 0;
    for b in word {
        n = n % 100000000000 * 10 + (digit_of(*b) % 10) as u64;
    }
    n
}

// A number that is not large, as all but what is expected are.
fn word_of(n: u64) -> u32 {
    (n % 4294967296) as u32
}

fn number_at(rest: &[u8]) -> Read<'_> {
    let (word, rest) = word_at(rest);
    (decimal_of(word), rest)
}

// What stands behind a sign, if the sign is there: `*13`, `(320`.
fn behind(rest: &[u8], sign: u8, otherwise: u64) -> Read<'_> {
    if begins_with(rest, sign) {
        return number_at(past_sign(rest, sign));
    }
    (otherwise, rest)
}

// ---- a line

// The numbers of a line.
// Kept: an array and how many of it count, no Vec: nothing in this program allocates.
#[derive(Clone, Copy)]
pub struct Numbers {
    items: [u32; MOST],
    count: usize,
}

impl Numbers {
    pub fn none() -> Numbers {
        Numbers {
            items: [0; MOST],
            count: 0,
        }
    }

    pub fn items(&self) -> &[u32] {
        &self.items[..self.count.min(MOST)]
    }

    fn push(&mut self, value: u32) {
        if self.count < MOST {
            self.items[self.count] = value;
            self.count += 1;
        }
    }

    fn push_letters(&mut self, letters: &[u8]) {
        for b in letters {
            self.push(letter(*b));
        }
    }
}

fn letter(b: u8) -> u32 {
    match b {
        b'|' => 10,
        _ => b as u32,
    }
}

// A text between quotation marks, which may be repeated as a number is, into the numbers, and what stands behind it.
fn quoted<'a>(rest: &'a [u8], numbers: &mut Numbers) -> &'a [u8] {
    let n = rest.iter().position(|b| *b == b'"');
    let (letters, end) = rest.split_at(n.unwrap_or(rest.len()).min(rest.len()));
    let (times, next) = behind(past_sign(end, b'"'), b'*', 1);
    for _ in 0..word_of(times) {
        numbers.push_letters(letters);
    }
    past_spaces(next)
}

fn one_more<'a>(rest: &'a [u8], numbers: &mut Numbers) -> &'a [u8] {
    if begins_with(rest, b'"') {
        return quoted(past_sign(rest, b'"'), numbers);
    }
    let (word, end) = word_at(rest);
    let (times, next) = behind(end, b'*', 1);
    let value = hex_of(word);
    for _ in 0..word_of(times) {
        numbers.push(value);
    }
    past_spaces(next)
}

// The numbers up to the sign `=` or the end of the line, and what stands behind them.
fn numbers_at<'a>(rest: &'a [u8], numbers: &mut Numbers) -> &'a [u8] {
    let mut next = past_spaces(rest);
    for _ in 0..MOST {
        if next.is_empty() || begins_with(next, b'=') {
            return next;
        }
        next = one_more(next, numbers);
    }
    next
}

// How a line begins: whether it goes on with the panel that the line before left, how often the call is made, its name and size.
#[derive(Clone, Copy)]
pub struct Head<'a> {
    pub goes_on: bool,
    pub times: u32,
    pub name: &'a [u8],
    pub size: usize,
    next: &'a [u8],
}

fn times_at(rest: &[u8]) -> Read<'_> {
    match rest.first() {
        Some(b'0'..=b'9') => number_at(rest),
        _ => (1, rest),
    }
}

pub fn head_of(line: &[u8]) -> Head<'_> {
    let (times, rest) = times_at(past_spaces(past_sign(line, b'+')));
    let (name, rest) = word_at(past_spaces(rest));
    let (size, rest) = behind(rest, b'(', 0);
    Head {
        goes_on: begins_with(line, b'+'),
        times: word_of(times),
        name,
        size: word_of(size) as usize,
        next: past_sign(rest, b')'),
    }
}

// How a line ends: what is expected, and its title.
#[derive(Clone, Copy)]
pub struct Tail<'a> {
    pub expected: u64,
    pub title: &'a [u8],
}

// The line's numbers are put into `numbers`.
pub fn tail_of<'a>(h: Head<'a>, numbers: &mut Numbers) -> Tail<'a> {
    let rest = numbers_at(h.next, numbers);
    let (expected, rest) = number_at(past_spaces(past_sign(rest, b'=')));
    Tail {
        expected,
        title: past_spaces(past_sign(past_spaces(rest), b'#')),
    }
}

// Lines that hold no case: empty ones, and those that begin with the sign #.
pub fn is_remark(line: &[u8]) -> bool {
    line.is_empty() || begins_with(line, b'#')
}
