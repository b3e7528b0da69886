// The orchestra: from bytes to the program that the panel keeps.
#![tactic(auto)]

ghost use Rattle.std.specs.Prelude.{◌≡◌, ◌≤◌, length, take};
ghost use Rattle.orchestra_grammar.specs.Reader.{orchestra};
ghost use Rattle.orchestra_reader.specs.inside.Reading.{refused, starts_from, by_grammar, read_of};
ghost use Rattle.orchestra_reader.specs.inside.Arrays.{starting, starts_in, marked_at, Fits, judgement, placed_if, kept_in, finished_in};

use base_answer::Answer;
use orchestra_tokens::Token;

// How many instruments there are at most.
const MOST_INSTRUMENTS: usize = 8;

// The program of an accepted orchestra: where each instrument starts, and an operation, a name or place and a number for each instruction.
#[derive(Clone, Copy)]
pub struct PostfixProgram {
    pub count: usize,
    pub heads: [u16; 8],
    pub length: usize,
    pub ops: [u8; 2048],
    pub args: [u16; 2048],
    pub vals: [f32; 2048],
}

// What reading an orchestra gives: the answer, and its program. On refusal a blank program.
// Kept: a refusal's program is promised to be blank (`RefusedBlank`), which a Result would drop.
#[derive(Clone, Copy)]
pub struct OrchestraRead {
    pub answer: Answer,
    pub program: PostfixProgram,
}

fn refused(a: Answer) -> OrchestraRead
    ensures { result ≡ refused a }
{
    OrchestraRead {
        answer: a,
        program: PostfixProgram {
            count: 0,
            heads: [0; 8],
            length: 0,
            ops: [0; 2048],
            args: [0; 2048],
            vals: [0.0; 2048],
        },
    }
}

// Where the first 8 instruments start.
#[derive(Clone, Copy)]
struct Starts {
    count: usize,
    places: [u16; 8],
}

// With the place of one more operation: an instrument starts at instr, where there is room for it. Gives how many there are then.
fn with_start(places: &mut [u16], count: usize, op: u8, at: u16) -> usize
    requires { Fits (starting count places.old) }
    ensures { starting result places.new ≡ marked_at (starting count places.old) op at }
{
    if op == orchestra_signs::INSTR {
        if count < MOST_INSTRUMENTS {
            places[count] = at;
            return count + 1;
        }
    }
    count
}

fn starts_of(ops: &[u8]) -> Starts
    requires { length ops.now ≤ 2048 }
    ensures { result ≡ starts_in (take 8 (starts_from 0 ops.now)) }
{
    let mut places = [0u16; 8];
    let mut count: usize = 0;
    for pc in 0..ops.len() {
        count = with_start(&mut places, count, ops[pc], pc as u16);
    }
    Starts { count, places }
}

// The name rules, then the rate rules. Where the first are kept, names are put by their places.
fn rules_answer(ops: &[u8], args: &mut [u16]) -> Answer
    ensures answer { result ≡ judgement ops.now args.old }
    ensures names { args.new ≡ placed_if ops.now args.old }
{
    if orchestra_rules::obeys_name_rules(ops, args) {
        orchestra_rules::place_names(ops, args);
        if orchestra_rules::obeys_rate_rules(ops, args) {
            Answer::Taken
        } else {
            Answer::BadRates
        }
    } else {
        Answer::BadNames
    }
}

// An accepted orchestra, whose program stands in the first cells of three arrays.
fn accepted(ops: [u8; 2048], args: [u16; 2048], vals: [f32; 2048], length: usize) -> OrchestraRead
    requires { length ≤ 2048 }
    ensures { result ≡ kept_in ops args vals length }
{
    let s = starts_of(&ops[..length]);
    let heads = s.places;
    OrchestraRead {
        answer: Answer::Taken,
        program: PostfixProgram {
            count: s.count,
            heads,
            length,
            ops,
            args,
            vals,
        },
    }
}

// The rules, of a program in the first cells of three arrays.
fn finished(ops: [u8; 2048], args: [u16; 2048], vals: [f32; 2048], length: usize) -> OrchestraRead
    requires { length ≤ 2048 }
    ensures { result ≡ finished_in ops args vals length }
{
    let mut places = args;
    let a = rules_answer(&ops[..length], &mut places[..length]);
    if base_answer::is_taken(a) {
        accepted(ops, places, vals, length)
    } else {
        refused(a)
    }
}

// The grammar, then the rules, of tokens within the measures.
fn parsed(tokens: &[Token]) -> OrchestraRead
    requires { length tokens.now ≤ 2048 }
    ensures { result ≡ by_grammar (orchestra tokens.now) }
{
    let mut ops = [0u8; 2048];
    let mut args = [0u16; 2048];
    let mut vals = [0.0f32; 2048];
    match orchestra_parser::orchestra(tokens, &mut ops, &mut args, &mut vals) {
        Some((_, length)) => finished(ops, args, vals, length),
        None => refused(Answer::BadGrammar),
    }
}

// The program of an orchestra's bytes, or the first refusal in document 01's order: each stage runs over the whole orchestra before the next.
pub fn read(bytes: &[u8]) -> OrchestraRead
    ensures { result ≡ read_of bytes.now }
{
    match orchestra_lexer::read(bytes) {
        Ok(t) => parsed(&t.tokens[..t.count]),
        Err(a) => refused(a),
    }
}
