// What tokens start above expressions; the grammar, the reader's definition and their theorems stand in specs/ and proofs/.
#![tactic(auto)]

ghost use Rattle.std.specs.Prelude.{◌≡◌, drop};
ghost use Rattle.orchestra_grammar.specs.Starts.{statement_start_of, declaration_start_of, name_token_of, statement_start_l, declaration_start_l, name_token_l};

use orchestra_tokens::Token;

// What a token starts among statements.
#[derive(Clone, Copy)]
pub enum StatementStart {
    Name(u16),
    Output,
    If,
    Stop,
}

// What a token starts among declarations: names of a kind, or imports.
#[derive(Clone, Copy)]
pub enum DeclarationStart {
    Kind(u8),
    Imports,
    Stop,
}

pub fn statement_start_of(t: Token) -> StatementStart
    ensures { result ≡ statement_start_of t }
{
    match t {
        Token::Symbol(n) => StatementStart::Name(n),
        Token::Sign(s) => match s {
            orchestra_signs::OUTPUT => StatementStart::Output,
            orchestra_signs::IF => StatementStart::If,
            _ => StatementStart::Stop,
        },
        _ => StatementStart::Stop,
    }
}

pub fn declaration_start_of(t: Token) -> DeclarationStart
    ensures { result ≡ declaration_start_of t }
{
    match t {
        Token::Sign(s) => match s {
            orchestra_signs::IVAR => DeclarationStart::Kind(orchestra_signs::IVAR),
            orchestra_signs::KSIG => DeclarationStart::Kind(orchestra_signs::KSIG),
            orchestra_signs::ASIG => DeclarationStart::Kind(orchestra_signs::ASIG),
            orchestra_signs::IMPORTS => DeclarationStart::Imports,
            _ => DeclarationStart::Stop,
        },
        _ => DeclarationStart::Stop,
    }
}

// The name that a token is, if it is one.
pub fn name_token_of(t: Token) -> Option<u16>
    ensures { result ≡ name_token_of t }
{
    match t {
        Token::Symbol(n) => Some(n),
        _ => None,
    }
}

// The same of the token at a place; past the end nothing starts.
pub fn statement_start_at(tokens: &[Token], at: usize) -> StatementStart
    ensures { result ≡ statement_start_l (drop at tokens.now) }
{
    if at < tokens.len() {
        statement_start_of(tokens[at])
    } else {
        StatementStart::Stop
    }
}

pub fn declaration_start_at(tokens: &[Token], at: usize) -> DeclarationStart
    ensures { result ≡ declaration_start_l (drop at tokens.now) }
{
    if at < tokens.len() {
        declaration_start_of(tokens[at])
    } else {
        DeclarationStart::Stop
    }
}

pub fn name_token_at(tokens: &[Token], at: usize) -> Option<u16>
    ensures { result ≡ name_token_l (drop at tokens.now) }
{
    if at < tokens.len() {
        name_token_of(tokens[at])
    } else {
        None
    }
}
