// A float's bits, as many crates ask for them.
#![tactic(auto)]

ghost use Rattle.std.specs.Prelude.{◌≡◌};
ghost use Rattle.std.specs.Float.{binary32};
ghost use Rattle.std.specs.Float.Ieee.{to_bits};

// A float's bits. Every not-a-number counts as one.
pub fn float_bits(x: f32) -> u32
    ensures { result ≡ to_bits binary32 x }
{
    if x == x {
        return f32::to_bits(x);
    }
    0x7fc0_0000
}
