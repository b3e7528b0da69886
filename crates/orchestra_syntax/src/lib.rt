// The kinds of instruction in an orchestra's program, and its names by their places; the trees and rules themselves stand in specs/.
#![tactic(auto)]

ghost use Rattle.std.specs.Prelude.{◌≡◌, ◌≤◌};
ghost use Rattle.orchestra_syntax.specs.inside.Program.{op_class_of};
ghost use Rattle.orchestra_syntax.specs.inside.Placed.{placed_as, rate_of, place_of};

// What an operation is to the passes over a program.
#[derive(Clone, Copy)]
pub enum OpClass {
    Value,
    Name,
    Store,
    Output,
    If,
    Else,
    End,
    Declare,
    Instr,
}

// The operation of a name in an expression, and of a number: the first bytes of their tokens. The other operations have signs' numbers.
pub const NAME: u8 = 0xf0;

pub const NUMBER: u8 = 0xf1;

// Unary minus, whose sign is the difference's.
pub const NEGATIVE: u8 = orchestra_signs::SIGNS + 1;

// A field's declaration.
pub const FIELD: u8 = 0;

// Rates as numbers, i slowest.
pub const I_RATE: u16 = 0;

pub const K_RATE: u16 = 1;

pub const A_RATE: u16 = 2;

// How many names an instrument has at most, fields included.
pub const MOST_NAMES: usize = 16;

const PLACES: u16 = MOST_NAMES as u16;

// A name by its place: its rate and its place among the instrument's names, as one number.
pub fn placed_as(rate: u16, place: u16) -> u16
    requires { (rate ≤ 2) × (place ≤ 15) }
    ensures { result ≡ placed_as rate place }
{
    PLACES * rate + place
}

pub fn rate_of(name: u16) -> u16
    ensures { result ≡ rate_of name }
{
    name / PLACES % 4
}

pub fn place_of(name: u16) -> u16
    ensures { result ≡ place_of name }
{
    name % PLACES
}

pub fn op_class(op: u8) -> OpClass
    ensures { result ≡ op_class_of op }
{
    if op == NAME {
        return OpClass::Name;
    }
    if op == orchestra_signs::ASSIGN {
        return OpClass::Store;
    }
    if op == orchestra_signs::OUTPUT {
        return OpClass::Output;
    }
    if op == orchestra_signs::IF {
        return OpClass::If;
    }
    if op == orchestra_signs::ELSE {
        return OpClass::Else;
    }
    if op == orchestra_signs::CURLY_CLOSE {
        return OpClass::End;
    }
    if op == orchestra_signs::INSTR {
        return OpClass::Instr;
    }
    if op <= orchestra_signs::IMPORTS {
        return OpClass::Declare;
    }
    OpClass::Value
}
