// The reader of statements: from a place among the tokens to the program of the statements there.
#![tactic(auto)]

ghost use Rattle.orchestra_expressions.specs.Areas.{areas, Ready, Runs};
ghost use Rattle.orchestra_grammar.specs.Reader.{set_to, bracketed, close, statements, branches, otherwise};

use orchestra_expressions::ParseState;
use orchestra_grammar::StatementStart;
use orchestra_tokens::Token;

// = expression ; and the instruction that stores in n.
fn assignment(
    tokens: &[Token],
    got: ParseState,
    n: u16,
    ops: &mut [u8],
    args: &mut [u16],
    vals: &mut [f32],
) -> ParseState
    requires { Ready tokens.now 0 got (areas ops.old args.old vals.old) }
    ensures { Runs tokens.now (set_to n) got (areas ops.old args.old vals.old) result (areas ops.new args.new vals.new) }
{
    let a = orchestra_expressions::expect(tokens, got, orchestra_signs::ASSIGN);
    let b = orchestra_expression_parser::expr(
        tokens,
        a,
        orchestra_expressions::LOOSEST,
        ops,
        args,
        vals,
    );
    let c = orchestra_expressions::expect(tokens, b, orchestra_signs::SEMICOLON);
    orchestra_expressions::emit(ops, args, vals, c, orchestra_signs::ASSIGN, n, 0.0)
}

// ( expression ) and the sign s, and the instruction op.
fn bracketed(
    tokens: &[Token],
    got: ParseState,
    s: u8,
    op: u8,
    ops: &mut [u8],
    args: &mut [u16],
    vals: &mut [f32],
) -> ParseState
    requires { Ready tokens.now 0 got (areas ops.old args.old vals.old) }
    ensures { Runs tokens.now (bracketed s op) got (areas ops.old args.old vals.old) result (areas ops.new args.new vals.new) }
{
    let a = orchestra_expressions::expect(tokens, got, orchestra_signs::ROUND_OPEN);
    let b = orchestra_expression_parser::expr(
        tokens,
        a,
        orchestra_expressions::LOOSEST,
        ops,
        args,
        vals,
    );
    let c = orchestra_expressions::expect(tokens, b, orchestra_signs::ROUND_CLOSE);
    let d = orchestra_expressions::expect(tokens, c, s);
    orchestra_expressions::emit(ops, args, vals, d, op, 0, 0.0)
}

// The } of a block, and the instruction op.
fn block_end(
    tokens: &[Token],
    got: ParseState,
    op: u8,
    ops: &mut [u8],
    args: &mut [u16],
    vals: &mut [f32],
) -> ParseState
    requires { Ready tokens.now 0 got (areas ops.old args.old vals.old) }
    ensures { Runs tokens.now (close op) got (areas ops.old args.old vals.old) result (areas ops.new args.new vals.new) }
{
    let a = orchestra_expressions::expect(tokens, got, orchestra_signs::CURLY_CLOSE);
    orchestra_expressions::emit(ops, args, vals, a, op, 0, 0.0)
}

// Statements, none or more, up to a token that starts none.
#[cycle(branches_otherwise_statements)]
pub fn statements(
    tokens: &[Token],
    got: ParseState,
    ops: &mut [u8],
    args: &mut [u16],
    vals: &mut [f32],
) -> ParseState
    requires { Ready tokens.now 0 got (areas ops.old args.old vals.old) }
    ensures { Runs tokens.now statements got (areas ops.old args.old vals.old) result (areas ops.new args.new vals.new) }
{
    let (at, out) = got?;
    match orchestra_grammar::statement_start_at(tokens, at) {
        StatementStart::Name(n) => {
            let a = assignment(tokens, Some((at + 1, out)), n, ops, args, vals);
            statements(tokens, a, ops, args, vals)
        }
        StatementStart::Output => {
            let a = bracketed(
                tokens,
                Some((at + 1, out)),
                orchestra_signs::SEMICOLON,
                orchestra_signs::OUTPUT,
                ops,
                args,
                vals,
            );
            statements(tokens, a, ops, args, vals)
        }
        StatementStart::If => {
            let a = branches(tokens, Some((at + 1, out)), ops, args, vals);
            statements(tokens, a, ops, args, vals)
        }
        StatementStart::Stop => got,
    }
}

// An if, after its first token.
#[cycle(branches_otherwise_statements)]
fn branches(
    tokens: &[Token],
    got: ParseState,
    ops: &mut [u8],
    args: &mut [u16],
    vals: &mut [f32],
) -> ParseState
    requires { Ready tokens.now 0 got (areas ops.old args.old vals.old) }
    ensures { Runs tokens.now (branches statements) got (areas ops.old args.old vals.old) result (areas ops.new args.new vals.new) }
{
    let next = bracketed(
        tokens,
        got,
        orchestra_signs::CURLY_OPEN,
        orchestra_signs::IF,
        ops,
        args,
        vals,
    )?;
    let b = statements(tokens, Some(next), ops, args, vals);
    let c = block_end(tokens, b, orchestra_signs::ELSE, ops, args, vals);
    otherwise(tokens, c, ops, args, vals)
}

// With or without else and a block. The mark of the end may come without a token.
#[cycle(branches_otherwise_statements)]
fn otherwise(
    tokens: &[Token],
    got: ParseState,
    ops: &mut [u8],
    args: &mut [u16],
    vals: &mut [f32],
) -> ParseState
    requires { Ready tokens.now 1 got (areas ops.old args.old vals.old) }
    ensures { Runs tokens.now (otherwise statements) got (areas ops.old args.old vals.old) result (areas ops.new args.new vals.new) }
{
    let (at, out) = got?;
    if orchestra_expressions::sign_at(tokens, at, orchestra_signs::ELSE) {
        let a = orchestra_expressions::expect(
            tokens,
            Some((at + 1, out)),
            orchestra_signs::CURLY_OPEN,
        );
        let b = statements(tokens, a, ops, args, vals);
        block_end(tokens, b, orchestra_signs::CURLY_CLOSE, ops, args, vals)
    } else {
        orchestra_expressions::emit(ops, args, vals, got, orchestra_signs::CURLY_CLOSE, 0, 0.0)
    }
}
