// What a token does in an expression, a sign that must be there, and one instruction more: what the reading code is made of.
#![tactic(auto)]

ghost use Rattle.std.specs.Prelude.{◌≡◌, drop};
ghost use Rattle.orchestra_expressions.specs.Roles.{prefix_of, infix_of, is_sign, prefix_l, infix_l, sign_l};
ghost use Rattle.orchestra_expressions.specs.Areas.{areas, stored_at, one_more, passed, Place};

use orchestra_tokens::Token;

// The levels of operators, loosest first: ? : is of level 0, and ! and unary - are tighter than all with two sides.
pub const LOOSEST: u8 = 0;

pub const EITHER: u8 = 1;

const BOTH: u8 = 2;

const EQUALITY: u8 = 3;

const ORDER: u8 = 4;

const SUM: u8 = 5;

pub const PRODUCT: u8 = 6;

pub const TIGHTEST: u8 = 7;

// What a token may start: a number or a name is pushed.
#[derive(Clone, Copy)]
pub enum PrefixToken {
    Push(u8, u16, f32),
    Unary(u8),
    Open,
    Call(u8),
    Call2(u8),
    Bad,
}

// What a token after an operand does: an operator and its level.
#[derive(Clone, Copy)]
pub enum InfixToken {
    Binary(u8, u8),
    Question,
    Stop,
}

// How far a reading has come: the next token and the next place in the code; none at a refusal.
pub type ParseState = Option<(usize, usize)>;

pub fn prefix_of(t: Token) -> PrefixToken
    ensures { result ≡ prefix_of t }
{
    match t {
        Token::Number(x) => PrefixToken::Push(orchestra_syntax::NUMBER, 0, x),
        Token::Symbol(n) => PrefixToken::Push(orchestra_syntax::NAME, n, 0.0),
        Token::Whole(w) => {
            let x = std::num::nearest_u32_to_f32(w);
            PrefixToken::Push(orchestra_syntax::NUMBER, 0, x)
        }
        Token::Sign(s) => match s {
            orchestra_signs::ABS => PrefixToken::Call(orchestra_signs::ABS),
            orchestra_signs::SGN => PrefixToken::Call(orchestra_signs::SGN),
            orchestra_signs::INT => PrefixToken::Call(orchestra_signs::INT),
            orchestra_signs::FRAC => PrefixToken::Call(orchestra_signs::FRAC),
            orchestra_signs::MIN => PrefixToken::Call2(orchestra_signs::MIN),
            orchestra_signs::MAX => PrefixToken::Call2(orchestra_signs::MAX),
            orchestra_signs::ROUND_OPEN => PrefixToken::Open,
            orchestra_signs::MINUS => PrefixToken::Unary(orchestra_syntax::NEGATIVE),
            orchestra_signs::NOT => PrefixToken::Unary(orchestra_signs::NOT),
            _ => PrefixToken::Bad,
        },
    }
}

pub fn infix_of(t: Token) -> InfixToken
    ensures { result ≡ infix_of t }
{
    match t {
        Token::Sign(s) => match s {
            orchestra_signs::QUESTION => InfixToken::Question,
            orchestra_signs::OR => InfixToken::Binary(orchestra_signs::OR, EITHER),
            orchestra_signs::AND => InfixToken::Binary(orchestra_signs::AND, BOTH),
            orchestra_signs::EQUAL => InfixToken::Binary(orchestra_signs::EQUAL, EQUALITY),
            orchestra_signs::UNEQUAL => InfixToken::Binary(orchestra_signs::UNEQUAL, EQUALITY),
            orchestra_signs::LESS => InfixToken::Binary(orchestra_signs::LESS, ORDER),
            orchestra_signs::GREATER => InfixToken::Binary(orchestra_signs::GREATER, ORDER),
            orchestra_signs::AT_MOST => InfixToken::Binary(orchestra_signs::AT_MOST, ORDER),
            orchestra_signs::AT_LEAST => InfixToken::Binary(orchestra_signs::AT_LEAST, ORDER),
            orchestra_signs::PLUS => InfixToken::Binary(orchestra_signs::PLUS, SUM),
            orchestra_signs::MINUS => InfixToken::Binary(orchestra_signs::MINUS, SUM),
            orchestra_signs::TIMES => InfixToken::Binary(orchestra_signs::TIMES, PRODUCT),
            orchestra_signs::DIVIDE => InfixToken::Binary(orchestra_signs::DIVIDE, PRODUCT),
            _ => InfixToken::Stop,
        },
        _ => InfixToken::Stop,
    }
}

pub fn is_sign(t: Token, s: u8) -> bool
    ensures { result ≡ is_sign t s }
{
    match t {
        Token::Sign(k) => k == s,
        _ => false,
    }
}

// What stands at a place among the tokens; past their end nothing starts, nothing goes on and no sign stands.
pub fn prefix_at(tokens: &[Token], at: usize) -> PrefixToken
    ensures { result ≡ prefix_l (drop at tokens.now) }
{
    if at < tokens.len() {
        prefix_of(tokens[at])
    } else {
        PrefixToken::Bad
    }
}

pub fn infix_at(tokens: &[Token], at: usize) -> InfixToken
    ensures { result ≡ infix_l (drop at tokens.now) }
{
    if at < tokens.len() {
        infix_of(tokens[at])
    } else {
        InfixToken::Stop
    }
}

pub fn sign_at(tokens: &[Token], at: usize, s: u8) -> bool
    ensures { result ≡ sign_l (drop at tokens.now) s }
{
    if at < tokens.len() {
        is_sign(tokens[at], s)
    } else {
        false
    }
}

// Past a sign that must be there.
pub fn expect(tokens: &[Token], got: ParseState, s: u8) -> ParseState
    ensures { result ≡ passed s tokens.now got }
{
    let (at, out) = got?;
    if sign_at(tokens, at, s) {
        Some((at + 1, out))
    } else {
        None
    }
}

// One instruction where the reading has come to, which is inside the areas.
pub fn emit(
    ops: &mut [u8],
    args: &mut [u16],
    vals: &mut [f32],
    got: ParseState,
    op: u8,
    arg: u16,
    val: f32,
) -> ParseState
    requires { Place got (areas ops.old args.old vals.old) }
    ensures answer { result ≡ one_more got }
    ensures code { areas ops.new args.new vals.new ≡ stored_at got (areas ops.old args.old vals.old) (record { op = op; arg = arg; val = val }) }
{
    let (at, out) = got?;
    ops[out] = op;
    args[out] = arg;
    vals[out] = val;
    Some((at, out + 1))
}
