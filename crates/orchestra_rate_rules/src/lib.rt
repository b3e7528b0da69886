// The rate rules of one instruction whose name is put by its place, and the rates after it.
#![tactic(auto)]

ghost use Rattle.std.specs.Prelude.{◌≡◌, ◌&&◌, ◌-◌, ◌<◌, max, leb};
ghost use Rattle.orchestra_syntax.specs.inside.Program.{op_class_of};
ghost use Rattle.orchestra_rate_rules.specs.Change.{rates, guard as guard_of, entered as entered_of, left as left_of, rates_valid, rates_after};

use orchestra_syntax::{A_RATE, I_RATE, K_RATE, OpClass};

// The fastest part of the expression so far; how many ifs are open from the first on whose guard, or one around it, has rate k, and
// rate a.
#[derive(Clone, Copy)]
pub struct Rates {
    pub fastest: u16,
    pub kdeep: usize,
    pub adeep: usize,
}

fn faster(x: u16, y: u16) -> u16
    ensures { result ≡ max x y }
{
    if x <= y { y } else { x }
}

// The rate of the fastest guard around.
fn guard(q: Rates) -> u16
    ensures { result ≡ guard_of q }
{
    if 0 < q.adeep {
        return A_RATE;
    }
    if 0 < q.kdeep {
        return K_RATE;
    }
    I_RATE
}

// One more if, the fastest guard around whose statements has rate m.
fn entered(m: u16, q: Rates) -> Rates
    requires { (q.kdeep < 9223372036854775807) × (q.adeep < 9223372036854775807) }
    ensures { result ≡ entered_of m q }
{
    if A_RATE <= m {
        return Rates {
            fastest: I_RATE,
            kdeep: q.kdeep + 1,
            adeep: q.adeep + 1,
        };
    }
    if K_RATE <= m {
        return Rates {
            fastest: I_RATE,
            kdeep: q.kdeep + 1,
            adeep: q.adeep,
        };
    }
    Rates {
        fastest: I_RATE,
        kdeep: q.kdeep,
        adeep: q.adeep,
    }
}

fn left(q: Rates) -> Rates
    ensures { result ≡ left_of q }
{
    Rates {
        fastest: q.fastest,
        kdeep: q.kdeep.saturating_sub(1),
        adeep: q.adeep.saturating_sub(1),
    }
}

fn ended(q: Rates, m: u16) -> Rates
    ensures { result ≡ rates m q.kdeep q.adeep }
{
    Rates {
        fastest: m,
        kdeep: q.kdeep,
        adeep: q.adeep,
    }
}

// Whether an assignment to a name of rate r is slower neither than its expression nor than a guard around it.
fn assigns(q: Rates, r: u16) -> bool
    ensures { result ≡ (leb q.fastest r && leb (guard_of q) r) }
{
    q.fastest <= r && guard(q) <= r
}

pub fn rate_valid(op: u8, arg: u16, q: Rates) -> bool
    ensures { result ≡ rates_valid (op_class_of op) arg q }
{
    match orchestra_syntax::op_class(op) {
        OpClass::Store => assigns(q, orchestra_syntax::rate_of(arg)),
        _ => true,
    }
}

pub fn rates_after(op: u8, arg: u16, q: Rates) -> Rates
    requires { (q.kdeep < 9223372036854775807) × (q.adeep < 9223372036854775807) }
    ensures { result ≡ rates_after (op_class_of op) arg q }
{
    match orchestra_syntax::op_class(op) {
        OpClass::Value => q,
        OpClass::Name => ended(q, faster(q.fastest, orchestra_syntax::rate_of(arg))),
        OpClass::Store => ended(q, I_RATE),
        OpClass::Output => ended(q, I_RATE),
        OpClass::If => entered(faster(guard(q), q.fastest), q),
        OpClass::Else => q,
        OpClass::End => left(q),
        OpClass::Declare => q,
        OpClass::Instr => q,
    }
}
