// The fields of a record: a code, then, as its kind has them, a first number, a settings record, a symbol, a count, that many items, and a room.
use crate::port::Port;
use std::fmt;

// The highest symbol.
const MOST_SYMBOL: u32 = 65535;

// The most bytes that are handed in as a settings record or put into the settings area.
const MOST_SETTINGS: u32 = 8192;

// Why there is no further record.
#[derive(Clone, Copy)]
pub enum Fault {
    Unknown,
    Outside,
    Cut,
    Unread,
}

impl fmt::Display for Fault {
    fn fmt<W: fmt::Write>(&self, f: &mut fmt::Formatter<W>) -> fmt::Result {
        f.write_str(match self {
            Fault::Unknown => "unknown code",
            Fault::Outside => "a field outside its range",
            Fault::Cut => "the input is cut",
            Fault::Unread => "the input cannot be read",
        })
    }
}

// The calls.
#[derive(Clone, Copy, PartialEq, Eq)]
pub enum Kind {
    Fresh,
    Score,
    Text,
    Unit,
    Burst,
    Keypad,
    Keys,
    Cycle,
    DecodeScore,
    DecodeUnit,
    DecodeText,
    WriteScore,
    WriteUnit,
    WriteText,
    Unpack,
    Name,
    Area,
    Change,
    Undo,
}

impl TryFrom<u8> for Kind {
    type Error = Fault;

    fn try_from(code: u8) -> Result<Kind, Fault> {
        match code {
            b'F' => Ok(Kind::Fresh),
            b'S' => Ok(Kind::Score),
            b'T' => Ok(Kind::Text),
            b'U' => Ok(Kind::Unit),
            b'B' => Ok(Kind::Burst),
            b'K' => Ok(Kind::Keypad),
            b'M' => Ok(Kind::Keys),
            b'C' => Ok(Kind::Cycle),
            b'D' => Ok(Kind::DecodeScore),
            b'd' => Ok(Kind::DecodeUnit),
            b'E' => Ok(Kind::DecodeText),
            b'W' => Ok(Kind::WriteScore),
            b'w' => Ok(Kind::WriteUnit),
            b'X' => Ok(Kind::WriteText),
            b'N' => Ok(Kind::Unpack),
            b'n' => Ok(Kind::Name),
            b'A' => Ok(Kind::Area),
            b'G' => Ok(Kind::Change),
            b'Z' => Ok(Kind::Undo),
            _ => Err(Fault::Unknown),
        }
    }
}

// The most that a field may be, where the kind has it.
impl Kind {
    fn most_first(self) -> Option<u32> {
        match self {
            Kind::Fresh => Some(MOST_SETTINGS),
            Kind::Burst => Some(64),
            Kind::Name => Some(MOST_SYMBOL),
            Kind::DecodeScore | Kind::DecodeUnit | Kind::DecodeText => Some(128),
            _ => None,
        }
    }

    fn most_count(self) -> Option<u32> {
        match self {
            Kind::WriteUnit | Kind::Undo => None,
            Kind::Fresh => Some(32768),
            Kind::Area | Kind::Change => Some(MOST_SETTINGS),
            Kind::Keypad => Some(4096),
            Kind::Cycle => Some(1024),
            Kind::WriteScore | Kind::WriteText => Some(128),
            _ => Some(1048576),
        }
    }

    // Where a name is asked for, the number behind the items is the length of the panel's own list.
    fn most_room(self) -> Option<u32> {
        match self {
            Kind::WriteScore | Kind::WriteUnit => Some(8192),
            Kind::WriteText => Some(16384),
            Kind::Unpack => Some(65536),
            Kind::Name => Some(1048576),
            _ => None,
        }
    }

    // How many bytes a number of items takes.
    fn size_of(self, count: u32) -> usize {
        let n = count as usize;
        match self {
            Kind::Keypad => 4 * n,
            Kind::WriteScore | Kind::WriteUnit | Kind::WriteText => 72 * n,
            Kind::Cycle | Kind::Undo => 0,
            _ => n,
        }
    }
}

#[derive(Clone, Copy)]
pub struct Record {
    pub kind: Kind,
    pub first: u32,
    pub symbol: u16,
    pub count: u32,
    pub room: u32,
}

impl Record {
    // How many bytes of settings record stand before the items.
    fn handed(self) -> usize {
        match self.kind {
            Kind::Fresh => self.first as usize,
            _ => 0,
        }
    }

    // What its bytes are: a settings record, the items, and what stands behind them.
    pub fn parts(self, data: &[u8]) -> (&[u8], &[u8], &[u8]) {
        let (handed, rest) = data.split_at(self.handed().min(data.len()));
        let (items, behind) = rest.split_at(self.kind.size_of(self.count).min(rest.len()));
        (handed, items, behind)
    }
}

// A number that is at most `most`; where the kind has none, the one that stands for it.
fn number(
    rt: &HostRuntime,
    port: &mut Port,
    most: Option<u32>,
    otherwise: u32,
) -> Result<u32, Fault> {
    match most {
        None => Ok(otherwise),
        Some(most) => {
            let mut four = [0u8; 4];
            port.receive(rt, &mut four)?;
            let n = u32::from_be_bytes(four);
            if most < n { Err(Fault::Outside) } else { Ok(n) }
        }
    }
}

// A fresh start has the symbol of the chosen instrument; the other kinds have none.
fn symbol(rt: &HostRuntime, port: &mut Port, kind: Kind) -> Result<u16, Fault> {
    let mut two = [0u8; 2];
    if kind == Kind::Fresh {
        port.receive(rt, &mut two)?;
    }
    Ok(u16::from_be_bytes(two))
}

// So many bytes into the start of `data`, and what is left of it.
fn front<'a>(
    rt: &HostRuntime,
    port: &mut Port,
    data: &'a mut [u8],
    size: usize,
) -> Result<&'a mut [u8], Fault> {
    let n = size.min(data.len());
    let (front, rest) = data.split_at_mut(n);
    port.receive(rt, front)?;
    Ok(rest)
}

// What follows a known code. A settings record's bytes go before the items, the panel's own list of names behind them.
fn body(rt: &HostRuntime, port: &mut Port, kind: Kind, data: &mut [u8]) -> Result<Record, Fault> {
    let mut r = Record {
        kind,
        first: number(rt, port, kind.most_first(), 0)?,
        symbol: 0,
        count: 0,
        room: 0,
    };
    let rest = front(rt, port, data, r.handed())?;
    r.symbol = symbol(rt, port, kind)?;
    r.count = number(rt, port, kind.most_count(), 1)?;
    let behind = front(rt, port, rest, kind.size_of(r.count))?;
    r.room = number(rt, port, kind.most_room(), 0)?;
    if kind == Kind::Name {
        front(rt, port, behind, r.room as usize)?;
    }
    Ok(r)
}

// The next record; none where the input ends before one.
pub fn read(rt: &HostRuntime, port: &mut Port, data: &mut [u8]) -> Result<Option<Record>, Fault> {
    let mut code = [0u8; 1];
    match port.receive(rt, &mut code) {
        Ok(()) => {}
        Err(Fault::Cut) => return Ok(None),
        Err(fault) => return Err(fault),
    }
    let kind = Kind::try_from(code[0])?;
    Ok(Some(body(rt, port, kind, data)?))
}
