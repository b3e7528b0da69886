// The signs of an orchestra's tokens, by name.
#![tactic(auto)]

ghost use Rattle.std.specs.Prelude.{◌≡◌, map};
ghost use Rattle.orchestra_signs.specs.Signs.{signs, number};

pub const INSTR: u8 = 1;

pub const IVAR: u8 = 2;

pub const KSIG: u8 = 3;

pub const ASIG: u8 = 4;

pub const IMPORTS: u8 = 5;

pub const OUTPUT: u8 = 6;

pub const IF: u8 = 7;

pub const ELSE: u8 = 8;

pub const ABS: u8 = 9;

pub const SGN: u8 = 10;

pub const INT: u8 = 11;

pub const FRAC: u8 = 12;

pub const MIN: u8 = 13;

pub const MAX: u8 = 14;

pub const ROUND_OPEN: u8 = 15;

pub const ROUND_CLOSE: u8 = 16;

pub const CURLY_OPEN: u8 = 17;

pub const CURLY_CLOSE: u8 = 18;

pub const COMMA: u8 = 19;

pub const SEMICOLON: u8 = 20;

pub const ASSIGN: u8 = 21;

pub const QUESTION: u8 = 22;

pub const COLON: u8 = 23;

pub const OR: u8 = 24;

pub const AND: u8 = 25;

pub const EQUAL: u8 = 26;

pub const UNEQUAL: u8 = 27;

pub const LESS: u8 = 28;

pub const GREATER: u8 = 29;

pub const AT_MOST: u8 = 30;

pub const AT_LEAST: u8 = 31;

pub const PLUS: u8 = 32;

pub const MINUS: u8 = 33;

pub const TIMES: u8 = 34;

pub const DIVIDE: u8 = 35;

pub const NOT: u8 = 36;

// How many there are: each number from 1 up to this one is a sign's.
pub const SIGNS: u8 = NOT;

// The signs in document 01's order: each constant above is the number of its sign.
pub fn in_order() -> [u8; 36]
    ensures { result ≡ map number signs }
{
    [
        INSTR,
        IVAR,
        KSIG,
        ASIG,
        IMPORTS,
        OUTPUT,
        IF,
        ELSE,
        ABS,
        SGN,
        INT,
        FRAC,
        MIN,
        MAX,
        ROUND_OPEN,
        ROUND_CLOSE,
        CURLY_OPEN,
        CURLY_CLOSE,
        COMMA,
        SEMICOLON,
        ASSIGN,
        QUESTION,
        COLON,
        OR,
        AND,
        EQUAL,
        UNEQUAL,
        LESS,
        GREATER,
        AT_MOST,
        AT_LEAST,
        PLUS,
        MINUS,
        TIMES,
        DIVIDE,
        NOT,
    ]
}
