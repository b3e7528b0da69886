// The fourth entrance: the note messages that wait, and what the bytes of a keyboard call bring in, all of it or none (document 02, M-104).
#![tactic(auto)]

ghost use Rattle.std.specs.Prelude.{◌≡◌, ◌++◌, ◌+◌, ◌≤◌, take};
ghost use Rattle.player_model.specs.Lists.{over};
ghost use Rattle.midi_messages.specs.inside.Reading.{call_of};
ghost use Rattle.midi_queue.specs.Keyboard.{no_messages, enqueued_in};

use base_answer::{Answer, Answered};
use midi_messages::{MOST_MESSAGES, MOST_READ, NoteMessage};

// The note messages that wait, from the first on.
#[derive(Clone, Copy)]
pub struct MessageQueue {
    pub list: [NoteMessage; MOST_MESSAGES],
    pub count: usize,
}

// None wait.
pub fn no_messages() -> MessageQueue
    ensures { result ≡ no_messages }
{
    let blank = NoteMessage {
        on: false,
        channel: 0,
        key: 0,
        velocity: 0,
    };
    MessageQueue {
        list: [blank; MOST_MESSAGES],
        count: 0,
    }
}

// The first m of some messages behind the first n of others; what lies behind them stays.
fn appended(
    list: [NoteMessage; MOST_MESSAGES],
    n: usize,
    more: [NoteMessage; MOST_READ],
    m: usize,
) -> [NoteMessage; MOST_MESSAGES]
    requires { n + m ≤ 64 }
    ensures { result ≡ over (take n list ++ take m more) list }
{
    let mut out = list;
    for i in 0..m {
        let x = more[i];
        out[n + i] = x;
    }
    out
}

// The bytes of a call: their note messages wait behind the others, or, at a fault or without room for all of them, none does.
pub fn enqueue(waiting: MessageQueue, bytes: &[u8]) -> Result<MessageQueue, Answer>
    ensures { result ≡ enqueued_in waiting (call_of bytes.now) }
{
    let g = midi_messages::read_call(bytes)?;
    let n = waiting.count.min(MOST_MESSAGES);
    if MOST_MESSAGES - n < g.count {
        return Err(Answer::NoRoom);
    }
    Ok(MessageQueue {
        list: appended(waiting.list, n, g.list, g.count),
        count: n + g.count,
    })
}
