// The reader of the whole orchestra: from tokens to the program of its tree.
#![tactic(auto)]

ghost use Rattle.std.specs.Prelude.{length};
ghost use Rattle.orchestra_expressions.specs.Areas.{areas, Holds, Ready, Runs};
ghost use Rattle.orchestra_grammar.specs.Reader.{name, names, listed, declarations, fields, header, body, instrument, orchestra};
ghost use Rattle.orchestra_parser.specs.Reading.{Reads};

use orchestra_expressions::ParseState;
use orchestra_grammar::DeclarationStart;
use orchestra_tokens::Token;

// A name that must be there, as an instruction.
fn name(
    tokens: &[Token],
    got: ParseState,
    op: u8,
    ops: &mut [u8],
    args: &mut [u16],
    vals: &mut [f32],
) -> ParseState
    requires { Ready tokens.now 0 got (areas ops.old args.old vals.old) }
    ensures { Runs tokens.now (name op) got (areas ops.old args.old vals.old) result (areas ops.new args.new vals.new) }
{
    let (at, out) = got?;
    match orchestra_grammar::name_token_at(tokens, at) {
        Some(n) => orchestra_expressions::emit(ops, args, vals, Some((at + 1, out)), op, n, 0.0),
        None => None,
    }
}

// One or more names parted by commas.
fn names(
    tokens: &[Token],
    got: ParseState,
    kind: u8,
    ops: &mut [u8],
    args: &mut [u16],
    vals: &mut [f32],
) -> ParseState
    requires { Ready tokens.now 0 got (areas ops.old args.old vals.old) }
    ensures { Runs tokens.now (names kind) got (areas ops.old args.old vals.old) result (areas ops.new args.new vals.new) }
{
    let a = name(tokens, got, kind, ops, args, vals);
    let (at, out) = a?;
    if orchestra_expressions::sign_at(tokens, at, orchestra_signs::COMMA) {
        names(tokens, Some((at + 1, out)), kind, ops, args, vals)
    } else {
        a
    }
}

// Names and ;
fn listed(
    tokens: &[Token],
    got: ParseState,
    kind: u8,
    ops: &mut [u8],
    args: &mut [u16],
    vals: &mut [f32],
) -> ParseState
    requires { Ready tokens.now 0 got (areas ops.old args.old vals.old) }
    ensures { Runs tokens.now (listed kind) got (areas ops.old args.old vals.old) result (areas ops.new args.new vals.new) }
{
    let a = names(tokens, got, kind, ops, args, vals);
    orchestra_expressions::expect(tokens, a, orchestra_signs::SEMICOLON)
}

// Declarations, none or more, up to a token that starts none.
fn declarations(
    tokens: &[Token],
    got: ParseState,
    ops: &mut [u8],
    args: &mut [u16],
    vals: &mut [f32],
) -> ParseState
    requires { Ready tokens.now 0 got (areas ops.old args.old vals.old) }
    ensures { Runs tokens.now declarations got (areas ops.old args.old vals.old) result (areas ops.new args.new vals.new) }
{
    let (at, out) = got?;
    match orchestra_grammar::declaration_start_at(tokens, at) {
        DeclarationStart::Kind(k) => {
            let a = listed(tokens, Some((at + 1, out)), k, ops, args, vals);
            declarations(tokens, a, ops, args, vals)
        }
        DeclarationStart::Imports => {
            let a = orchestra_expressions::expect(
                tokens,
                Some((at + 1, out)),
                orchestra_signs::KSIG,
            );
            let b = listed(tokens, a, orchestra_signs::IMPORTS, ops, args, vals);
            declarations(tokens, b, ops, args, vals)
        }
        DeclarationStart::Stop => got,
    }
}

// Names parted by commas, or none before )
fn fields(
    tokens: &[Token],
    got: ParseState,
    ops: &mut [u8],
    args: &mut [u16],
    vals: &mut [f32],
) -> ParseState
    requires { Ready tokens.now 0 got (areas ops.old args.old vals.old) }
    ensures { Runs tokens.now fields got (areas ops.old args.old vals.old) result (areas ops.new args.new vals.new) }
{
    let (at, _) = got?;
    if orchestra_expressions::sign_at(tokens, at, orchestra_signs::ROUND_CLOSE) {
        got
    } else {
        names(tokens, got, orchestra_syntax::FIELD, ops, args, vals)
    }
}

// name ( fields )
fn header(
    tokens: &[Token],
    got: ParseState,
    ops: &mut [u8],
    args: &mut [u16],
    vals: &mut [f32],
) -> ParseState
    requires { Ready tokens.now 0 got (areas ops.old args.old vals.old) }
    ensures { Runs tokens.now header got (areas ops.old args.old vals.old) result (areas ops.new args.new vals.new) }
{
    let a = name(tokens, got, orchestra_signs::INSTR, ops, args, vals);
    let b = orchestra_expressions::expect(tokens, a, orchestra_signs::ROUND_OPEN);
    let c = fields(tokens, b, ops, args, vals);
    orchestra_expressions::expect(tokens, c, orchestra_signs::ROUND_CLOSE)
}

// { declarations statements }
fn body(
    tokens: &[Token],
    got: ParseState,
    ops: &mut [u8],
    args: &mut [u16],
    vals: &mut [f32],
) -> ParseState
    requires { Ready tokens.now 0 got (areas ops.old args.old vals.old) }
    ensures { Runs tokens.now body got (areas ops.old args.old vals.old) result (areas ops.new args.new vals.new) }
{
    let a = orchestra_expressions::expect(tokens, got, orchestra_signs::CURLY_OPEN);
    let b = declarations(tokens, a, ops, args, vals);
    let c = orchestra_statement_parser::statements(tokens, b, ops, args, vals);
    orchestra_expressions::expect(tokens, c, orchestra_signs::CURLY_CLOSE)
}

// An instrument.
fn instrument(
    tokens: &[Token],
    got: ParseState,
    ops: &mut [u8],
    args: &mut [u16],
    vals: &mut [f32],
) -> ParseState
    requires { Ready tokens.now 0 got (areas ops.old args.old vals.old) }
    ensures { Runs tokens.now instrument got (areas ops.old args.old vals.old) result (areas ops.new args.new vals.new) }
{
    let a = orchestra_expressions::expect(tokens, got, orchestra_signs::INSTR);
    let b = header(tokens, a, ops, args, vals);
    body(tokens, b, ops, args, vals)
}

// One or more instruments, and nothing after them.
fn instruments(
    tokens: &[Token],
    got: ParseState,
    ops: &mut [u8],
    args: &mut [u16],
    vals: &mut [f32],
) -> ParseState
    requires { Ready tokens.now 0 got (areas ops.old args.old vals.old) }
    ensures { Runs tokens.now orchestra got (areas ops.old args.old vals.old) result (areas ops.new args.new vals.new) }
{
    let a = instrument(tokens, got, ops, args, vals);
    let (at, _) = a?;
    if at < tokens.len() {
        instruments(tokens, a, ops, args, vals)
    } else {
        a
    }
}

// The program of a whole orchestra, from the front of the three areas, each of which has a place for each token.
pub fn orchestra(tokens: &[Token], ops: &mut [u8], args: &mut [u16], vals: &mut [f32]) -> ParseState
    requires { Holds (length tokens.now) (areas ops.old args.old vals.old) }
    ensures { Reads tokens.now (areas ops.old args.old vals.old) result (areas ops.new args.new vals.new) }
{
    instruments(tokens, Some((0, 0)), ops, args, vals)
}
