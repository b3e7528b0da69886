// The expression reader: from a place among the tokens to postfix code, by precedence climbing.
#![tactic(auto)]

ghost use Rattle.std.specs.Prelude.{◌≡◌};
ghost use Rattle.orchestra_expressions.specs.Reader.{reader, lastly};
ghost use Rattle.orchestra_expressions.specs.Areas.{areas, Ready, Runs};

use orchestra_expressions::{
    InfixToken, LOOSEST, ParseState, PrefixToken, TIGHTEST, emit, expect, infix_at, prefix_at,
};
use orchestra_tokens::Token;

// An operand, and the operators of level `min` and tighter that follow it.
#[cycle(expr_last_more)]
pub fn expr(
    tokens: &[Token],
    got: ParseState,
    min: u8,
    ops: &mut [u8],
    args: &mut [u16],
    vals: &mut [f32],
) -> ParseState
    requires { Ready tokens.now 0 got (areas ops.old args.old vals.old) }
    ensures { Runs tokens.now (reader.expr min) got (areas ops.old args.old vals.old) result (areas ops.new args.new vals.new) }
{
    let (at, out) = got?;
    match prefix_at(tokens, at) {
        PrefixToken::Push(op, arg, val) => {
            let a = emit(ops, args, vals, Some((at + 1, out)), op, arg, val);
            more(tokens, a, min, ops, args, vals)
        }
        PrefixToken::Unary(op) => {
            let a = expr(tokens, Some((at + 1, out)), TIGHTEST, ops, args, vals);
            let b = emit(ops, args, vals, a, op, 0, 0.0);
            more(tokens, b, min, ops, args, vals)
        }
        PrefixToken::Open => {
            let a = expr(tokens, Some((at + 1, out)), LOOSEST, ops, args, vals);
            let b = expect(tokens, a, orchestra_signs::ROUND_CLOSE);
            more(tokens, b, min, ops, args, vals)
        }
        PrefixToken::Call(op) => {
            let a = last(
                tokens,
                Some((at + 1, out)),
                orchestra_signs::ROUND_OPEN,
                op,
                ops,
                args,
                vals,
            );
            more(tokens, a, min, ops, args, vals)
        }
        PrefixToken::Call2(op) => {
            let a = expect(tokens, Some((at + 1, out)), orchestra_signs::ROUND_OPEN);
            let b = expr(tokens, a, LOOSEST, ops, args, vals);
            let c = last(tokens, b, orchestra_signs::COMMA, op, ops, args, vals);
            more(tokens, c, min, ops, args, vals)
        }
        PrefixToken::Bad => None,
    }
}

// The sign before the last argument of a call, that argument, its bracket, and the call's operation.
#[cycle(expr_last_more)]
fn last(
    tokens: &[Token],
    got: ParseState,
    s: u8,
    op: u8,
    ops: &mut [u8],
    args: &mut [u16],
    vals: &mut [f32],
) -> ParseState
    requires { Ready tokens.now 0 got (areas ops.old args.old vals.old) }
    ensures { Runs tokens.now (lastly reader s op) got (areas ops.old args.old vals.old) result (areas ops.new args.new vals.new) }
{
    let next = expect(tokens, got, s)?;
    let a = expr(tokens, Some(next), LOOSEST, ops, args, vals);
    let b = expect(tokens, a, orchestra_signs::ROUND_CLOSE);
    emit(ops, args, vals, b, op, 0, 0.0)
}

// The operators of level `min` and tighter that follow an operand, with their right sides.
#[cycle(expr_last_more)]
fn more(
    tokens: &[Token],
    got: ParseState,
    min: u8,
    ops: &mut [u8],
    args: &mut [u16],
    vals: &mut [f32],
) -> ParseState
    requires { Ready tokens.now 0 got (areas ops.old args.old vals.old) }
    ensures { Runs tokens.now (reader.more min) got (areas ops.old args.old vals.old) result (areas ops.new args.new vals.new) }
{
    let (at, out) = got?;
    match infix_at(tokens, at) {
        InfixToken::Binary(op, level) => {
            if min <= level {
                let a = expr(tokens, Some((at + 1, out)), level + 1, ops, args, vals);
                let b = emit(ops, args, vals, a, op, 0, 0.0);
                more(tokens, b, min, ops, args, vals)
            } else {
                got
            }
        }
        InfixToken::Question => {
            if min == LOOSEST {
                let a = expr(tokens, Some((at + 1, out)), LOOSEST, ops, args, vals);
                let b = expect(tokens, a, orchestra_signs::COLON);
                let c = expr(tokens, b, LOOSEST, ops, args, vals);
                let d = emit(ops, args, vals, c, orchestra_signs::QUESTION, 0, 0.0);
                more(tokens, d, min, ops, args, vals)
            } else {
                got
            }
        }
        InfixToken::Stop => got,
    }
}
