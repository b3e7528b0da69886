// The name rules and the rate rules as passes over a program, and its names put by their places. A program is given as two slices: an
// operation for each instruction, and the name (or the place) that it has.
#![tactic(auto)]

ghost use Rattle.std.specs.Prelude.{◌≡◌};
ghost use Rattle.orchestra_rules.specs.Naming.{names_pass, places_pass};
ghost use Rattle.orchestra_rules.specs.Rating.{rates_pass};

use orchestra_rate_rules::Rates;

// Whether a program keeps the name rules.
pub fn obeys_name_rules(ops: &[u8], args: &[u16]) -> bool
    ensures { result ≡ names_pass ops.now args.now }
{
    let mut titles = [0u16; 8];
    let mut symbols = [0u16; 16];
    // No rule asks for the kinds: they are entered with the names.
    let mut kinds = [0u8; 16];
    let mut heads: usize = 0;
    let mut count: usize = 0;
    for pc in 0..ops.len() {
        if args.len() <= pc {
            return true;
        }
        let op = ops[pc];
        let arg = args[pc];
        let act = orchestra_syntax::op_class(op);
        let fine = orchestra_name_rules::is_valid(act, arg, &titles, heads, &symbols, count);
        if !fine {
            return false;
        }
        heads = orchestra_name_rules::titles_after(act, arg, &mut titles, heads);
        count = orchestra_name_rules::names_after(act, op, arg, &mut symbols, &mut kinds, count);
    }
    true
}

// Puts the names that a program uses by their places.
pub fn place_names(ops: &[u8], args: &mut [u16])
    ensures { args.new ≡ places_pass ops.now args.old }
{
    let mut symbols = [0u16; 16];
    let mut kinds = [0u8; 16];
    let mut count: usize = 0;
    for pc in 0..ops.len() {
        if args.len() <= pc {
            return;
        }
        let op = ops[pc];
        let arg = args[pc];
        let act = orchestra_syntax::op_class(op);
        args[pc] = orchestra_name_rules::placed(act, arg, &symbols, &kinds, count);
        count = orchestra_name_rules::names_after(act, op, arg, &mut symbols, &mut kinds, count);
    }
}

// Whether a program whose names are put by their places keeps the rate rules.
pub fn obeys_rate_rules(ops: &[u8], args: &[u16]) -> bool
    ensures { result ≡ rates_pass ops.now args.now }
{
    let mut q = Rates {
        fastest: orchestra_syntax::I_RATE,
        kdeep: 0,
        adeep: 0,
    };
    for pc in 0..ops.len() {
        if args.len() <= pc {
            return true;
        }
        let op = ops[pc];
        let arg = args[pc];
        let fine = orchestra_rate_rules::rate_valid(op, arg, q);
        if !fine {
            return false;
        }
        q = orchestra_rate_rules::rates_after(op, arg, q);
    }
    true
}
