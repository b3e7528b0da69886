// Standard input and output in large pieces.
use crate::record::Fault;
use base_answer::Answer;
use panel::Core;
use std::io::Read;

// How much of the input is taken in at once.
const INPUT: usize = 65536;

// The output, and how much of it is used before it goes out: no record writes more than the rest.
const OUT: usize = 131072;

const USED: usize = 32768;

// The input's bytes from `at` to `end` are still to be taken, `taken` were taken in all; the first `used` of the output
// are to be written; `lost`: a write failed.
#[derive(Clone, Copy)]
pub struct Port {
    input: [u8; INPUT],
    at: usize,
    end: usize,
    taken: u64,
    output: [u8; OUT],
    used: usize,
    lost: bool,
}

// A number that fits 32 bits, as line numbers and byte counts do.
fn word_of(n: usize) -> u32 {
    (n % 4294967296) as u32
}

impl Port {
    pub fn opened() -> Port {
        Port {
            input: [0; INPUT],
            at: 0,
            end: 0,
            taken: 0,
            output: [0; OUT],
            used: 0,
            lost: false,
        }
    }

    pub fn taken(&self) -> u64 {
        self.taken
    }

    pub fn is_lost(&self) -> bool {
        self.lost
    }

    // Writes what the output holds.
    pub fn flush(&mut self, rt: &HostRuntime) {
        if rt.write_all(&self.output[..self.used.min(OUT)]).is_err() {
            self.lost = true;
        }
        self.used = 0;
    }

    pub fn relieve(&mut self, rt: &HostRuntime) {
        if self.used >= USED {
            self.flush(rt);
        }
    }

    // Output goes out before a read that may wait, so that a host that sends one call after the other's answer gets it.
    fn refill(&mut self, rt: &HostRuntime) -> Result<(), Fault> {
        self.flush(rt);
        self.at = 0;
        self.end = 0;
        match rt.reader().read(&mut self.input) {
            Ok(0) => Err(Fault::Cut),
            Ok(n) => {
                self.end = n;
                Ok(())
            }
            Err(_) => Err(Fault::Unread),
        }
    }

    fn take(&mut self, rt: &HostRuntime) -> Result<u8, Fault> {
        if self.at >= self.end {
            self.refill(rt)?;
        }
        let b = program_io::byte_at(&self.input, self.at);
        self.at = self.at.wrapping_add(1);
        self.taken = self.taken.wrapping_add(1);
        Ok(b)
    }

    // The next bytes of the input, as many as there is room for.
    pub fn receive(&mut self, rt: &HostRuntime, to: &mut [u8]) -> Result<(), Fault> {
        for place in to.iter_mut() {
            *place = self.take(rt)?;
        }
        Ok(())
    }

    pub fn put_byte(&mut self, b: u8) {
        self.used = program_io::put_byte(&mut self.output, self.used, b);
    }

    pub fn put_word(&mut self, n: u32) {
        self.used = program_io::put_word(&mut self.output, self.used, n);
    }

    pub fn put_long(&mut self, n: u64) {
        self.used = program_io::put_long(&mut self.output, self.used, n);
    }

    pub fn put_bytes(&mut self, s: &[u8]) {
        self.used = program_io::put_bytes(&mut self.output, self.used, s);
    }

    pub fn put_words(&mut self, s: &[u32]) {
        self.used = program_io::put_words(&mut self.output, self.used, s);
    }

    pub fn put_samples(&mut self, s: &[i16]) {
        self.used = program_io::put_samples(&mut self.output, self.used, s);
    }

    pub fn put_answer(&mut self, a: Answer) {
        self.put_byte(base_answer::number(a));
    }

    pub fn put_number(&mut self, n: usize) {
        self.put_word(word_of(n));
    }

    pub fn put_missed(&mut self, core: Core) {
        self.put_long(Core::missed_notes(core));
    }
}
