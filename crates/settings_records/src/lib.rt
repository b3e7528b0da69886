// Settings records in a lent area (document 02, M-107): read, changed and undone.
#![tactic(auto)]

ghost use Rattle.std.specs.Prelude.{◌≡◌, length, ◌+◌, ◌≤◌};
ghost use Rattle.settings_records.specs.Form.{sixteen_bits, told};
ghost use Rattle.settings_records.specs.inside.Reading.{within_of, judged_of, found_in, records_in};
ghost use Rattle.settings_records.specs.Changes.{none_in_use, changing, change_of, area_changed, undo_of, laid_at};

use base_answer::{Answer, Answered};

// What a record sets.
#[derive(Clone, Copy)]
pub struct Setting {
    pub ceiling: u16,
    pub notes: u8,
    pub tempo: u16,
}

// The settings in use: how many records are, and what the last of them sets.
#[derive(Clone, Copy)]
pub struct InUse {
    pub count: usize,
    pub last: Setting,
}

// The bytes of the lent area.
pub const AREA: usize = 4096;

const LENGTH_BYTES: usize = 2;

const HIGHEST_CEILING: u16 = 32767;

const MOST_NOTES: u16 = 16;

const HIGHEST_TEMPO: u16 = 960;

// The tempo of a version 1 record.
pub const STARTING_TEMPO: u16 = 60;

// The number that two bytes are.
fn two(high: u8, low: u8) -> u16
    ensures { result ≡ sixteen_bits high low }
{
    256 * (high as u16) + (low as u16)
}

// Whether a number is from 1 to the most.
fn within(x: u16, most: u16) -> bool
    ensures { result ≡ within_of x most }
{
    if x < 1 {
        return false;
    }
    x <= most
}

// A record whose bytes are all there: 3 where a number is bad.
fn judged(ceiling: u16, notes: u8, tempo: u16, size: usize) -> Result<(Setting, usize), Answer>
    ensures { result ≡ told (judged_of ceiling notes tempo size) }
{
    if !within(ceiling, HIGHEST_CEILING) {
        return Err(Answer::OutOfRange);
    }
    if !within(notes as u16, MOST_NOTES) {
        return Err(Answer::OutOfRange);
    }
    if !within(tempo, HIGHEST_TEMPO) {
        return Err(Answer::OutOfRange);
    }
    let setting = Setting {
        ceiling,
        notes,
        tempo,
    };
    Ok((setting, size))
}

// What the record at the start of bytes sets, and how many bytes it has: cut 1, length zero 11, another version 17, a wrong length 11, a bad number 3.
pub fn read(s: &[u8]) -> Result<(Setting, usize), Answer>
    ensures { result ≡ told (found_in s.now) }
{
    if s.len() < LENGTH_BYTES {
        return Err(Answer::CutShort);
    }
    let k = two(s[0], s[1]) as usize;
    if s.len() - LENGTH_BYTES < k {
        return Err(Answer::CutShort);
    }
    if k == 0 {
        return Err(Answer::LeftOver);
    }
    let version = s[2];
    if version == 1 {
        if k == 4 {
            return judged(two(s[3], s[4]), s[5], STARTING_TEMPO, 6);
        }
        return Err(Answer::LeftOver);
    }
    if version == 2 {
        if k == 6 {
            return judged(two(s[3], s[4]), s[5], two(s[6], s[7]), 8);
        }
        return Err(Answer::LeftOver);
    }
    Err(Answer::UnknownVersion)
}

// The records in use, from byte 0: what the last of them sets and where it ends, or the first fault.
pub fn read_records(area: &[u8], count: usize) -> Result<(Setting, usize), Answer>
    ensures { result ≡ told (records_in count area.now) }
{
    let mut at: usize = 0;
    let mut last = Setting {
        ceiling: 0,
        notes: 0,
        tempo: 0,
    };
    for n in 0..count {
        let (setting, size) = read(&area[at..])?;
        last = setting;
        at += size;
    }
    Ok((last, at))
}

// What a record sets that can go behind those in use, and where: 8 for an area of another length; the records in use; the new one; 11 for bytes
// left over; 8 without room.
fn judge_change(count: usize, area: &[u8], handed: &[u8]) -> Result<(Setting, usize), Answer>
    ensures { result ≡ told (changing count area.now handed.now) }
{
    if area.len() != AREA {
        return Err(Answer::NoRoom);
    }
    let (_, end) = read_records(area, count)?;
    let (setting, size) = read(handed)?;
    if size < handed.len() {
        return Err(Answer::LeftOver);
    }
    if AREA - end < size {
        return Err(Answer::NoRoom);
    }
    Ok((setting, end))
}

// Lays bytes at a place of the area.
fn lay(area: &mut [u8], at: usize, handed: &[u8])
    requires { at + length handed.now ≤ length area.old }
    ensures { area.new ≡ laid_at at handed.now area.old }
{
    for i in 0..handed.len() {
        area[at + i] = handed[i];
    }
}

// What a change would leave, and nothing is written.
pub fn judge(settings: InUse, area: &[u8], handed: &[u8]) -> Answered<InUse>
    ensures { result ≡ change_of settings area.now handed.now }
{
    match judge_change(settings.count, area, handed) {
        Ok((last, _)) => Answered {
            left: InUse {
                count: settings.count + 1,
                last,
            },
            answer: Answer::Taken,
        },
        Err(answer) => Answered {
            left: settings,
            answer,
        },
    }
}

// A change: the record goes behind those in use, or nothing changes.
pub fn change(settings: InUse, area: &mut [u8], handed: &[u8]) -> Answered<InUse>
    ensures value { result ≡ change_of settings area.old handed.now }
    ensures area_after { area.new ≡ area_changed settings.count area.old handed.now }
{
    match judge_change(settings.count, area, handed) {
        Ok((last, end)) => {
            lay(area, end, handed);
            Answered {
                left: InUse {
                    count: settings.count + 1,
                    last,
                },
                answer: Answer::Taken,
            }
        }
        Err(answer) => Answered {
            left: settings,
            answer,
        },
    }
}

// An undo: the last record goes out of use, and its bytes stay.
pub fn undo(settings: InUse, area: &[u8]) -> Answered<InUse>
    ensures { result ≡ undo_of settings area.now }
{
    if area.len() != AREA {
        return Answered {
            left: settings,
            answer: Answer::NoRoom,
        };
    }
    if let Err(answer) = read_records(area, settings.count) {
        return Answered {
            left: settings,
            answer,
        };
    }
    if settings.count < 2 {
        return Answered {
            left: settings,
            answer: Answer::NothingToUndo,
        };
    }
    let (last, _) = read_records(area, settings.count - 1).unwrap();
    Answered {
        left: InUse {
            count: settings.count - 1,
            last,
        },
        answer: Answer::Taken,
    }
}

// No record is in use, as before a fresh start.
pub fn none_in_use() -> InUse
    ensures { result ≡ none_in_use }
{
    let none = Setting {
        ceiling: 0,
        notes: 0,
        tempo: 0,
    };
    InUse {
        count: 0,
        last: none,
    }
}
