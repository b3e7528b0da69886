// Formats of records: what their fields can be refused for. How a format is described, and what follows from a description, stands in
// specs/ and proofs/.
#![tactic(auto)]

// The faults that a record's fields can show.
#[derive(Clone, Copy)]
pub enum Fault {
    CutShort,
    NotCarried,
    OutOfRange,
    TooManyValues,
}

// Where a record's numbers are read from: bits, or the keypad's numbers.
#[derive(Clone, Copy)]
pub enum Source<'a> {
    Bits(&'a [u8]),
    Keypad(&'a [u32]),
}
