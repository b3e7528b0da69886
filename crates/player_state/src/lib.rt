// The state that the calls change, and what a cycle does with it beside its steps: whether it ends the piece, what waits afterwards, and an
// idle cycle (document 01, "One cycle, in order").
#![tactic(auto)]

ghost use Rattle.std.specs.Prelude.{◌≡◌, ◌||◌, ◌≤◌, ◌+◌, min, ltb, take};
ghost use Rattle.engine_limiter.specs.Block.{limited};
ghost use Rattle.player_model.specs.Cycle.{position_limit, any_end};
ghost use Rattle.player_model.specs.inside.PlayerState.{most_counted};
ghost use Rattle.player_state.specs.States.{queue_after, used_of, is_idle_now, after_idle, silence};

use midi_queue::MessageQueue;
use note_pool::Notes;
use player_queue::{Lines, Queue};

// What plays: the sounding notes, position, tempo, missed notes and the mark of the end.
#[derive(Clone, Copy)]
pub struct Playing {
    pub notes: Notes,
    pub position: u64,
    pub tempo: f32,
    pub missed: u64,
    pub ended: bool,
}

// What a cycle goes by: the ceiling, the highest number of notes, and the instrument of the keyboard's notes by its name.
#[derive(Clone, Copy)]
pub struct Settings {
    pub ceiling: u16,
    pub notes: u8,
    pub chosen: u16,
}

// What the calls change: the waiting lines and note messages, and what plays.
#[derive(Clone, Copy)]
pub struct State {
    pub queue: Queue,
    pub messages: MessageQueue,
    pub playing: Playing,
}

// The limit on position.
const POSITION_LIMIT: u64 = 1_000_000_000_000;

// The largest count.
const MOST_COUNTED: u64 = 18446744073709551615;

// The count of missed notes stops at the largest number.
pub fn add_missed(missed: u64, more: usize) -> u64
    ensures { result ≡ min (missed + more) most_counted }
{
    let m = more as u64;
    if missed <= MOST_COUNTED - m {
        missed + m
    } else {
        MOST_COUNTED
    }
}

// Step 1: an end line is due, or the position is past the limit.
pub fn ends_piece(position: u64, due: Lines) -> bool
    ensures { result ≡ (ltb position_limit position || any_end (take due.count due.lines)) }
{
    if POSITION_LIMIT < position {
        return true;
    }
    let lines = due.lines;
    player_queue::has_end(lines, due.count)
}

// The lines that are not due stay; a cycle has run at this position.
pub fn queue_after_cycle(q: Queue, position: u64) -> Queue
    ensures { result ≡ queue_after position q }
{
    let lines = q.lines;
    let k = player_queue::not_due(lines, q.count, position);
    let rest = k.lines;
    Queue {
        lines: rest,
        count: k.count,
        ran: true,
        last: position,
    }
}

// Note messages that have acted wait no more.
pub fn emptied(keys: MessageQueue) -> MessageQueue
    ensures { result ≡ used_of keys }
{
    let list = keys.list;
    MessageQueue {
        list: list,
        count: 0,
    }
}

// Whether a cycle is one of rest: no line is due, no note message waits and no note sounds.
pub fn is_idle(s: State) -> bool
    ensures { result ≡ is_idle_now s }
{
    let position = s.playing.position;
    if POSITION_LIMIT < position {
        return false;
    }
    if s.playing.notes.count != 0 {
        return false;
    }
    if s.messages.count != 0 {
        return false;
    }
    let q = s.queue;
    let lines = q.lines;
    !player_queue::has_due(lines, q.count, position)
}

// An idle cycle: silence, and the clock goes on. Nothing large is copied.
pub fn idle_cycle(mut s: State, ceiling: u16, block: &mut [i16]) -> State
    requires { s.playing.position ≤ position_limit }
    ensures state { result ≡ after_idle s }
    ensures block { block.new ≡ limited ceiling silence block.old }
{
    let mix = [0.0f32; 320];
    engine_limiter::limit(&mix, ceiling, block);
    let position = s.playing.position;
    let step = base_timebase::ticks_per_cycle(s.playing.tempo);
    let next = position + step;
    let waiting = s.queue.count.min(player_queue::MOST_LINES);
    s.queue.count = waiting;
    s.queue.ran = true;
    s.queue.last = position;
    s.playing.position = next;
    s.playing.ended = false;
    s
}
