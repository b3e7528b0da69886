// Step 6 of a cycle (document 01) for a whole block.
#![tactic(auto)]

ghost use Rattle.std.specs.Prelude.{◌≡◌};
ghost use Rattle.engine_limiter.specs.Block.{limited};

// Each summed sample, limited, at its place in the block. Where the two have not the same length, places
// that the mix does not reach stay as they were.
pub fn limit(mix: &[f32], ceiling: u16, block: &mut [i16])
    ensures block { block.new ≡ limited ceiling mix.now block.old }
{
    for i in 0..block.len() {
        if mix.len() <= i {
            return;
        }
        block[i] = base_float32::sample(mix[i], ceiling);
    }
}
