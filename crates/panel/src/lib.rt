// The panel: its state by value, the fresh start, the entrances and the cycle (documents 01 and 02).
#![tactic(auto)]

ghost use Rattle.std.specs.Prelude.{◌≡◌, length};
ghost use Rattle.player_model.specs.Calls.{stick, unit, keypad, text};
ghost use Rattle.entrance_readers.specs.Entrances.{score_in};
ghost use Rattle.panel.specs.State.{panel_of, entrance_on, burst_on, result_on};
ghost use Rattle.panel.specs.Display.{display_of};
ghost use Rattle.panel.specs.Calls.{fresh_of, area_fresh, submitted_of, submit_of, receive_of, area_after, play_keys_of, changed_in, area_in, undone_in, change_of, area_changed, undo_of, cycle_of, block_after};

use base_answer::{Answer, Answered, AnsweredLine, AnsweredUnits};
use code_operations::{CODE, PROGRAM};
use code_program::Instruments;
use entrance_readers::EntranceRead;
use player_state::{Settings, State};
use settings_records::{InUse, Setting};

// What the calls change, the settings in use among it, beside what a fresh start fixes. The code of its instruments is lent to each cycle.
#[derive(Clone, Copy)]
pub struct Core {
    state: State,
    settings: InUse,
    chosen: u16,
    instruments: Instruments,
}

// A core with its code and the numbers in it, which it lends to each cycle.
#[derive(Clone, Copy)]
pub struct Panel {
    core: Core,
    code: [u64; CODE],
    vals: [f32; PROGRAM],
}

// A panel in two, for a host that keeps the code and lends it.
#[derive(Clone, Copy)]
pub struct SplitPanel {
    pub core: Core,
    pub code: [u64; CODE],
    pub vals: [f32; PROGRAM],
}

// A change: 9 first.
fn change_unless_ended(
    ended: bool,
    settings: InUse,
    area: &mut [u8],
    handed: &[u8],
) -> Answered<InUse>
    ensures settings { result ≡ changed_in ended settings area.old handed.now }
    ensures area { area.new ≡ area_in ended settings area.old handed.now }
{
    if ended {
        return Answered {
            left: settings,
            answer: Answer::Ended,
        };
    }
    settings_records::change(settings, area, handed)
}

// An undo: 9 first.
fn undo_unless_ended(ended: bool, settings: InUse, area: &[u8]) -> Answered<InUse>
    ensures { result ≡ undone_in ended settings area.now }
{
    if ended {
        return Answered {
            left: settings,
            answer: Answer::Ended,
        };
    }
    settings_records::undo(settings, area)
}

// What was handed in at an entrance, read, into the waiting lines.
fn submit(mut c: Core, h: EntranceRead) -> AnsweredLine<Core>
    ensures { result ≡ submitted_of c h.timed (score_in h) }
{
    let r = player_calls::submit(c.instruments, c.state, h);
    c.state = r.left;
    r.leaving(c)
}

impl Core {
    // A stick: the whole score, or nothing of it.
    pub fn load_score(self, s: &[u8]) -> AnsweredLine<Core>
        ensures { result ≡ submit_of self stick s.now }
    {
        submit(self, entrance_readers::stick(s))
    }

    // An access unit.
    pub fn receive_unit(self, s: &[u8]) -> AnsweredLine<Core>
        ensures { result ≡ submit_of self unit s.now }
    {
        submit(self, entrance_readers::unit(s))
    }

    // A keypad line.
    pub fn enter_line(self, words: &[u32]) -> AnsweredLine<Core>
        ensures { result ≡ submit_of self keypad words.now }
    {
        submit(self, entrance_readers::keypad(words))
    }

    // A score as text: the whole of it, or nothing, as a stick.
    pub fn load_text(self, s: &[u8]) -> AnsweredLine<Core>
        ensures { result ≡ submit_of self text s.now }
    {
        submit(self, entrance_readers::text(s))
    }

    // A burst of access units: each as if it came singly, in order, with its answer's number in the lent area; or a refusal, and nothing is
    // taken or written.
    pub fn receive_burst(mut self, s: &[u8], answers: &mut [u8]) -> AnsweredUnits<Core>
        ensures panel { result ≡ receive_of self s.now (length answers.old) }
        ensures area { answers.new ≡ area_after self s.now answers.old }
    {
        let r = player_calls::receive_burst(self.instruments, self.state, s, answers);
        self.state = r.left;
        r.leaving(self)
    }

    // Bytes at the keyboard: all its note messages, or none of them.
    pub fn play_keys(mut self, bytes: &[u8]) -> Answered<Core>
        ensures { result ≡ play_keys_of self bytes.now }
    {
        let r = player_calls::play_keys(self.state, bytes);
        self.state = r.left;
        r.leaving(self)
    }

    // A settings record behind those in use, in the lent area.
    pub fn change(mut self, area: &mut [u8], handed: &[u8]) -> Answered<Core>
        ensures panel { result ≡ change_of self area.old handed.now }
        ensures area { area.new ≡ area_changed self area.old handed.now }
    {
        let r = change_unless_ended(self.state.playing.ended, self.settings, area, handed);
        self.settings = r.left;
        r.leaving(self)
    }

    // The last settings record out of use; its bytes stay.
    pub fn undo(mut self, area: &[u8]) -> Answered<Core>
        ensures { result ≡ undo_of self area.now }
    {
        let r = undo_unless_ended(self.state.playing.ended, self.settings, area);
        self.settings = r.left;
        r.leaving(self)
    }

    // A cycle of sound into a block of 320 samples, by the code that is lent.
    pub fn cycle<'a>(
        mut self,
        code: &'a [u64],
        vals: &'a [f32],
        block: &mut [i16],
    ) -> Answered<Core>
        ensures panel { result ≡ cycle_of code.now vals.now self (length block.old) }
        ensures block { block.new ≡ block_after code.now vals.now self block.old }
    {
        let settings = Settings {
            ceiling: self.settings.last.ceiling,
            notes: self.settings.last.notes,
            chosen: self.chosen,
        };
        let r = player_cycle::cycle_call(self.instruments, code, vals, self.state, settings, block);
        self.state = r.left;
        r.leaving(self)
    }

    pub fn missed_notes(self) -> u64
        ensures { result ≡ (display_of self).missed }
    {
        self.state.playing.missed
    }

    pub fn waiting_lines(self) -> usize
        ensures { result ≡ (display_of self).lines }
    {
        self.state.queue.count
    }

    pub fn waiting_messages(self) -> usize
        ensures { result ≡ (display_of self).messages }
    {
        self.state.messages.count
    }

    pub fn sounding_notes(self) -> usize
        ensures { result ≡ (display_of self).notes }
    {
        self.state.playing.notes.count
    }

    pub fn has_ended(self) -> bool
        ensures { result ≡ (display_of self).ended }
    {
        self.state.playing.ended
    }

    pub fn position_in_ticks(self) -> u64
        ensures { result ≡ (display_of self).position }
    {
        self.state.playing.position
    }

    // What the settings in use are: ceiling, notes and starting tempo of the last record.
    pub fn settings_in_use(self) -> Setting
        ensures { result ≡ self.settings.last }
    {
        self.settings.last
    }

    // How many settings records are in use.
    pub fn records_in_use(self) -> usize
        ensures { result ≡ self.settings.count }
    {
        self.settings.count
    }
}

// A panel with its core as a call has left it.
fn entrance_on(mut p: Panel, c: AnsweredLine<Core>) -> AnsweredLine<Panel>
    ensures { result ≡ entrance_on p c }
{
    p.core = c.left;
    c.leaving(p)
}

fn result_on(mut p: Panel, c: Answered<Core>) -> Answered<Panel>
    ensures { result ≡ result_on p c }
{
    p.core = c.left;
    c.leaving(p)
}

// Each call is its core's; a cycle is lent the panel's own code.
impl Panel {
    // The tempo that a panel starts at where its first settings record is of version 1: it is the value that such a record is read with.
    pub const STARTING_TEMPO: u16 = settings_records::STARTING_TEMPO;

    // A fresh panel of an orchestra's bytes and a first settings record, which goes into the lent area, with the instrument that is chosen for
    // the keyboard. A refusal, of the record, of the orchestra or of the choice, gives a panel that has ended and leaves the area.
    pub fn fresh(orchestra: &[u8], area: &mut [u8], first: &[u8], chosen: u16) -> Answered<Panel>
        ensures panel { result ≡ fresh_of orchestra.now area.old first.now chosen }
        ensures area { area.new ≡ area_fresh orchestra.now area.old first.now chosen }
    {
        let s = player_start::fresh_start(orchestra, area, first, chosen);
        let table = s.program.table;
        let code = s.program.code;
        let vals = s.program.vals;
        Answered {
            left: Panel {
                core: Core {
                    state: s.state,
                    settings: s.settings,
                    chosen: s.chosen,
                    instruments: Instruments {
                        table,
                        count: s.program.count,
                    },
                },
                code,
                vals,
            },
            answer: s.answer,
        }
    }

    pub fn load_score(self, s: &[u8]) -> AnsweredLine<Panel>
        ensures { result ≡ entrance_on self (submit_of self.core stick s.now) }
    {
        entrance_on(self, self.core.load_score(s))
    }

    pub fn receive_unit(self, s: &[u8]) -> AnsweredLine<Panel>
        ensures { result ≡ entrance_on self (submit_of self.core unit s.now) }
    {
        entrance_on(self, self.core.receive_unit(s))
    }

    pub fn enter_line(self, words: &[u32]) -> AnsweredLine<Panel>
        ensures { result ≡ entrance_on self (submit_of self.core keypad words.now) }
    {
        entrance_on(self, self.core.enter_line(words))
    }

    pub fn load_text(self, s: &[u8]) -> AnsweredLine<Panel>
        ensures { result ≡ entrance_on self (submit_of self.core text s.now) }
    {
        entrance_on(self, self.core.load_text(s))
    }

    pub fn receive_burst(mut self, s: &[u8], answers: &mut [u8]) -> AnsweredUnits<Panel>
        ensures panel { result ≡ burst_on self (receive_of self.core s.now (length answers.old)) }
        ensures area { answers.new ≡ area_after self.core s.now answers.old }
    {
        let r = self.core.receive_burst(s, answers);
        self.core = r.left;
        r.leaving(self)
    }

    pub fn play_keys(self, bytes: &[u8]) -> Answered<Panel>
        ensures { result ≡ result_on self (play_keys_of self.core bytes.now) }
    {
        result_on(self, self.core.play_keys(bytes))
    }

    pub fn change(self, area: &mut [u8], handed: &[u8]) -> Answered<Panel>
        ensures panel { result ≡ result_on self (change_of self.core area.old handed.now) }
        ensures area { area.new ≡ area_changed self.core area.old handed.now }
    {
        result_on(self, self.core.change(area, handed))
    }

    pub fn undo(self, area: &[u8]) -> Answered<Panel>
        ensures { result ≡ result_on self (undo_of self.core area.now) }
    {
        result_on(self, self.core.undo(area))
    }

    pub fn cycle(self, block: &mut [i16]) -> Answered<Panel>
        ensures panel { result ≡ result_on self (cycle_of self.code self.vals self.core (length block.old)) }
        ensures block { block.new ≡ block_after self.code self.vals self.core block.old }
    {
        let r = self.core.cycle(&self.code, &self.vals, block);
        result_on(self, r)
    }

    // The panel in two, for a host that lends its code.
    pub fn split(self) -> SplitPanel
        ensures { panel_of result.core result.code result.vals ≡ self }
    {
        let code = self.code;
        let vals = self.vals;
        SplitPanel {
            core: self.core,
            code,
            vals,
        }
    }

    pub fn missed_notes(self) -> u64
        ensures { result ≡ (display_of self.core).missed }
    {
        self.core.missed_notes()
    }

    pub fn waiting_lines(self) -> usize
        ensures { result ≡ (display_of self.core).lines }
    {
        self.core.waiting_lines()
    }

    pub fn waiting_messages(self) -> usize
        ensures { result ≡ (display_of self.core).messages }
    {
        self.core.waiting_messages()
    }

    pub fn sounding_notes(self) -> usize
        ensures { result ≡ (display_of self.core).notes }
    {
        self.core.sounding_notes()
    }

    pub fn has_ended(self) -> bool
        ensures { result ≡ (display_of self.core).ended }
    {
        self.core.has_ended()
    }

    pub fn position_in_ticks(self) -> u64
        ensures { result ≡ (display_of self.core).position }
    {
        self.core.position_in_ticks()
    }

    pub fn settings_in_use(self) -> Setting
        ensures { result ≡ self.core.settings.last }
    {
        self.core.settings_in_use()
    }

    pub fn records_in_use(self) -> usize
        ensures { result ≡ self.core.settings.count }
    {
        self.core.records_in_use()
    }
}
