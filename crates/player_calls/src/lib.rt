// The work of every call but the cycle, on the state that it changes (documents 01 and 02).
#![tactic(auto)]

ghost use Rattle.std.specs.Prelude.{◌≡◌, length};
ghost use Rattle.score_bursts.specs.inside.Reading.{burst_of};
ghost use Rattle.code_program.specs.InstrumentTable.{instruments_of};
ghost use Rattle.entrance_readers.specs.Entrances.{score_in};
ghost use Rattle.entrance_burst.specs.Singly.{area_in};
ghost use Rattle.player_calls.specs.OnState.{start_state, submitted_of, burst_submitted_of, keyboard_call_of};

use base_answer::{Answer, Answered, AnsweredLine, AnsweredUnits};
use code_program::Instruments;
use entrance_readers::EntranceRead;
use note_pool::Notes;
use player_queue::Queue;
use player_state::{Playing, State};

// The state at a fresh start with a tempo; ended only where the start is refused.
pub fn initial_state(tempo: f32, ended: bool) -> State
    ensures { result ≡ start_state tempo ended }
{
    let line = score_line::blank_line();
    let silence = [0.0f32; 16];
    let note = note_state::new_note(silence, None, 0, Some(0), false, None, false);
    let messages = midi_queue::no_messages();
    let lines = [line; player_queue::MOST_LINES];
    let notes = [note; note_pool::MOST_NOTES];
    State {
        queue: Queue {
            lines: lines,
            count: 0,
            ran: false,
            last: 0,
        },
        messages: messages,
        playing: Playing {
            notes: Notes {
                notes: notes,
                count: 0,
            },
            position: 0,
            tempo: tempo,
            missed: 0,
            ended: ended,
        },
    }
}

// What was handed in at an entrance, read, into the waiting lines.
pub fn submit(instruments: Instruments, mut s: State, h: EntranceRead) -> AnsweredLine<State>
    ensures { result ≡ submitted_of (instruments_of instruments) s h.timed (score_in h) }
{
    let q = s.queue;
    let brought = entrance_admission::submit(instruments, s.playing.ended, q, h);
    s.queue = brought.left;
    brought.leaving(s)
}

// A burst of access units: each as if it came singly, in order, with its answer's number in the lent area; or a refusal, and nothing is
// taken or written.
pub fn receive_burst(
    instruments: Instruments,
    mut s: State,
    bytes: &[u8],
    answers: &mut [u8],
) -> AnsweredUnits<State>
    ensures state { result ≡ burst_submitted_of (instruments_of instruments) s (length answers.old) (burst_of bytes.now) }
    ensures area { answers.new ≡ area_in s.playing.ended (instruments_of instruments) s.queue answers.old (burst_of bytes.now) }
{
    let q = s.queue;
    let sent = entrance_burst::submit_burst(instruments, s.playing.ended, q, bytes, answers);
    s.queue = sent.left;
    sent.leaving(s)
}

// Bytes at the keyboard: all its note messages, or none of them.
pub fn play_keys(mut s: State, bytes: &[u8]) -> Answered<State>
    ensures { result ≡ keyboard_call_of s bytes.now }
{
    if s.playing.ended {
        return Answered {
            left: s,
            answer: Answer::Ended,
        };
    }
    match midi_queue::enqueue(s.messages, bytes) {
        Ok(messages) => {
            s.messages = messages;
            Answered {
                left: s,
                answer: Answer::Taken,
            }
        }
        Err(answer) => Answered { left: s, answer },
    }
}
