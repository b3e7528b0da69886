// A fresh start: what a panel starts with, and its answer (documents 01 and 02).
#![tactic(auto)]

ghost use Rattle.std.specs.Prelude.{◌≡◌, [], pos};
ghost use Rattle.std.specs.Float.{binary32};
ghost use Rattle.std.specs.Float.Ieee.{of_int};
ghost use Rattle.code_loader.specs.Loading.{load_of as loaded_from};
ghost use Rattle.player_start.specs.Starting.{start_of, refused_start, has_chosen, starting_of, area_started};

use base_answer::Answer;
use code_program::{Instruments, Program};
use player_state::State;
use settings_records::InUse;

// What the calls change, beside what a fresh start fixes, and the answer.
#[derive(Clone, Copy)]
pub struct Start {
    pub state: State,
    pub settings: InUse,
    pub chosen: u16,
    pub program: Program,
    pub answer: Answer,
}

// A tempo in beats a minute, as a float.
fn beats(tempo: u16) -> f32
    ensures { result ≡ of_int binary32 (pos tempo) }
{
    tempo as f32
}

// A start with these settings, at their tempo; ended only where it is refused.
fn begin(program: Program, settings: InUse, chosen: u16, ended: bool, answer: Answer) -> Start
    ensures { result ≡ start_of program settings chosen ended answer }
{
    let tempo = beats(settings.last.tempo);
    Start {
        state: player_calls::initial_state(tempo, ended),
        settings,
        chosen,
        program,
        answer,
    }
}

// The program of no orchestra, for a start whose orchestra is not looked at.
fn empty_program() -> Program
    ensures { result ≡ (loaded_from []).left }
{
    let none = [0u8; 1];
    let read = code_loader::load(&none[..0]);
    read.left
}

// A refused start is one that has ended: every call on it answers 9.
fn refused(program: Program, answer: Answer) -> Start
    ensures { result ≡ refused_start program answer }
{
    begin(program, settings_records::none_in_use(), 0, true, answer)
}

// Whether a program has the chosen instrument.
fn has_chosen(program: Program, chosen: u16) -> bool
    ensures { result ≡ has_chosen program chosen }
{
    let table = program.table;
    let instruments = Instruments {
        table,
        count: program.count,
    };
    code_program::find(instruments, chosen).is_some()
}

// The start of an orchestra's bytes and a first settings record, which goes into the lent area, with the instrument that is chosen for the
// keyboard; or a refusal, of the record, of the orchestra or of the choice, and nothing is written.
pub fn fresh_start(orchestra: &[u8], area: &mut [u8], first: &[u8], chosen: u16) -> Start
    ensures start { result ≡ starting_of orchestra.now area.old first.now chosen }
    ensures area { area.new ≡ area_started orchestra.now area.old first.now chosen }
{
    let judged = settings_records::judge(settings_records::none_in_use(), area, first);
    let fault = judged.answer;
    if !base_answer::is_taken(fault) {
        return refused(empty_program(), fault);
    }
    let read = code_loader::load(orchestra);
    let program = read.left;
    let answer = read.answer;
    if !base_answer::is_taken(answer) {
        return refused(program, answer);
    }
    if !has_chosen(program, chosen) {
        return refused(program, Answer::NoInstrument);
    }
    let written = settings_records::change(settings_records::none_in_use(), area, first);
    begin(program, written.left, chosen, false, answer)
}
