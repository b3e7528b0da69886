// The note messages of MIDI 1.0 channel messages, read from the bytes of one keyboard call (document 02, M-104).
#![tactic(auto)]

ghost use Rattle.std.specs.Prelude.{◌≡◌, []};
ghost use Rattle.midi_messages.specs.Message.{data_bytes, note_off, note_on, classified};
ghost use Rattle.midi_messages.specs.inside.Reading.{feed_data as feed_data_of, feed_running as feed_running_of, feed_status as feed_status_of, stepped, call_of, messages_with, call_messages};
ghost use Rattle.midi_messages.specs.inside.Passes.{added};

use base_answer::Answer;

// A note-on, or a note-off, which has velocity 0.
// Kept: `on` is a flag, since a test of it is plainer than a match on two kinds with the same fields.
#[derive(Clone, Copy)]
pub struct NoteMessage {
    pub on: bool,
    pub channel: u8,
    pub key: u8,
    pub velocity: u8,
}

// A place between two bytes: the running status, how many data bytes the message that has begun still wants, and the first that it had.
#[derive(Clone, Copy)]
struct ParserState {
    status: u8,
    wants: u8,
    first: u8,
}

// How many note messages wait at most.
pub const MOST_MESSAGES: usize = 64;

// The note messages of a call, from the first on: one more than can wait tells that there is no room.
#[derive(Clone, Copy)]
pub struct CallMessages {
    pub list: [NoteMessage; MOST_READ],
    pub count: usize,
}

pub const MOST_READ: usize = MOST_MESSAGES + 1;

const FIRST_STATUS: u8 = 0x80;

const FIRST_SYSTEM: u8 = 0xf0;

const NO_STATUS: u8 = 0;

// The kinds of channel messages that are told apart.
const NOTE_OFF: u8 = 0x8;

const NOTE_ON: u8 = 0x9;

const PROGRAM: u8 = 0xc;

const PRESSURE: u8 = 0xd;

fn data_bytes(status: u8) -> u8
    ensures { result ≡ data_bytes status }
{
    let kind = status / 16;
    if kind == PROGRAM {
        return 1;
    }
    if kind == PRESSURE {
        return 1;
    }
    2
}

fn note_off(channel: u8, key: u8) -> NoteMessage
    ensures { result ≡ note_off channel key }
{
    NoteMessage {
        on: false,
        channel,
        key,
        velocity: 0,
    }
}

// With velocity 0 a note-on is a note-off.
fn note_on(channel: u8, key: u8, velocity: u8) -> NoteMessage
    ensures { result ≡ note_on channel key velocity }
{
    if velocity == 0 {
        return note_off(channel, key);
    }
    NoteMessage {
        on: true,
        channel,
        key,
        velocity,
    }
}

// The note message that a whole channel message is, if it is one.
fn classify(status: u8, key: u8, velocity: u8) -> Option<NoteMessage>
    ensures { result ≡ classified status key velocity }
{
    let kind = status / 16;
    let channel = status % 16;
    if kind == NOTE_OFF {
        return Some(note_off(channel, key));
    }
    if kind == NOTE_ON {
        return Some(note_on(channel, key, velocity));
    }
    None
}

// What a byte does: the place behind it, and the note message that it ends, if it ends one.
type Step = Result<(ParserState, Option<NoteMessage>), Answer>;

// A data byte for a message that wants some.
fn feed_data(status: u8, wants: u8, first: u8, b: u8) -> Step
    ensures { result ≡ feed_data_of status wants first b }
{
    if wants == 1 {
        let ended = ParserState {
            status,
            wants: 0,
            first: 0,
        };
        return Ok((ended, classify(status, first, b)));
    }
    let begun = ParserState {
        status,
        wants: 1,
        first: b,
    };
    Ok((begun, None))
}

// A data byte between messages.
fn feed_running(status: u8, b: u8) -> Step
    ensures { result ≡ feed_running_of status b }
{
    if status == NO_STATUS {
        return Err(Answer::NotCarried);
    }
    feed_data(status, data_bytes(status), 0, b)
}

// A status byte between messages.
fn feed_status(b: u8) -> Step
    ensures { result ≡ feed_status_of b }
{
    if b < FIRST_SYSTEM {
        let begun = ParserState {
            status: b,
            wants: data_bytes(b),
            first: 0,
        };
        return Ok((begun, None));
    }
    Err(Answer::NotCarried)
}

fn advance(p: ParserState, b: u8) -> Step
    ensures { result ≡ stepped p b }
{
    if p.wants == 0 {
        if b < FIRST_STATUS {
            return feed_running(p.status, b);
        }
        return feed_status(b);
    }
    if b < FIRST_STATUS {
        return feed_data(p.status, p.wants, p.first, b);
    }
    Err(Answer::CutShort)
}

// No messages.
fn empty() -> CallMessages
    ensures { result ≡ messages_with [] }
{
    let blank = note_off(0, 0);
    CallMessages {
        list: [blank; MOST_READ],
        count: 0,
    }
}

// A note message goes behind the others while there is a place for it.
fn add(g: CallMessages, m: NoteMessage) -> CallMessages
    ensures { result ≡ added g m }
{
    let n = g.count;
    if n < MOST_READ {
        let mut list = g.list;
        list[n] = m;
        return CallMessages { list, count: n + 1 };
    }
    g
}

// The bytes of one call: its note messages in order, at most the first 65, or its first fault.
pub fn read_call(bytes: &[u8]) -> Result<CallMessages, Answer>
    ensures { result ≡ call_messages (call_of bytes.now) }
{
    let mut g = empty();
    let mut p = ParserState {
        status: NO_STATUS,
        wants: 0,
        first: 0,
    };
    for i in 0..bytes.len() {
        let b = bytes[i];
        let (q, h) = advance(p, b)?;
        p = q;
        if let Some(m) = h {
            g = add(g, m);
        }
    }
    if p.wants != 0 {
        return Err(Answer::CutShort);
    }
    Ok(g)
}
