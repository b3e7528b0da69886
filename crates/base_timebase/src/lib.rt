// Times, durations, tempos and values by their 32-bit patterns; ticks of a time and of a tempo (document 01,
// "Score lines, bit by bit"). Every function is total.
#![tactic(auto)]

ghost use Rattle.std.specs.Prelude.{◌≡◌, ◌+◌, ◌-◌, ◌*◌, ◌/◌, ◌%◌, ◌^◌, ◌<◌, ◌≤◌, min};
ghost use Rattle.base_timebase.specs.Time.{nearest, ticks_in, cycle_in, finite_bits, time_bits, duration_bits, tempo_bits};
ghost use Rattle.base_timebase.specs.inside.Range.{checked};

// A float is its significand times 2^(exponent - 150): the bias of its exponent, and 23 digits behind the point. 6,144,000
// is 375 * 2^14, and 23 - 14 is 9.
const BIAS: u32 = 127;

const PLACES: u32 = 9;

// The farthest shift of a 64-bit number.
const FARTHEST: u32 = 63;

// 375 times a significand that is shifted up by its leading zeros.
fn scaled(significand: u32, zeros: u32) -> u64
    requires { (zeros < 32) × (significand * 2 ^ zeros < 2 ^ 32) }
    ensures { result ≡ significand * 2 ^ zeros * 375 }
{
    ((significand << zeros) as u64) * 375
}

// How far 375 times a significand that was shifted up by its leading zeros is shifted down to ticks. Past 41 less than half
// a tick is left of it, so that a distance past the farthest gives what the farthest gives.
fn distance(exponent: u32, zeros: u32) -> u32
    requires { (exponent ≤ 136 + zeros) × (zeros < 32) }
    ensures { result ≡ min (136 + zeros - exponent) 63 }
{
    let far = BIAS + PLACES + zeros - exponent;
    if FARTHEST < far { FARTHEST } else { far }
}

fn half_of(tick: u64) -> u64
    requires { 1 < tick }
    ensures { result ≡ tick / 2 }
{
    tick / 2
}

// The ticks of a significand above 0 and an exponent: the half of a tick that is added makes the whole part the nearest.
fn shifted(significand: u32, exponent: u32) -> u64
    requires { (0 < significand) × (0 < exponent) × (significand * 2 ^ (exponent - 1) ≤ 2 ^ 163) }
    ensures { result ≡ nearest (significand * 2 ^ (exponent - 1) * 6144000) (2 ^ 149) }
{
    let zeros = u32::leading_zeros(significand);
    let product = scaled(significand, zeros);
    let down = distance(exponent, zeros);
    let tick = 1u64 << down;
    (product + half_of(tick)) >> down
}

// The exponent's field of a pattern, without the sign bit.
fn exponent_of(pattern: u32) -> u32
    ensures { result ≡ pattern % 2 ^ 31 / 2 ^ 23 }
{
    pattern % 0x8000_0000 / 0x80_0000
}

// The digits of a pattern's significand, without the hidden one.
fn digits_of(pattern: u32) -> u32
    ensures { result ≡ pattern % 2 ^ 23 }
{
    pattern % 0x80_0000
}

// The ticks of a time or a duration: 0 past the latest time.
pub fn beats_to_ticks(time: f32) -> u64
    ensures { result ≡ ticks_in time }
{
    if 0.0 < time {
        if time <= 16384.0 {
            let b = f32::to_bits(time);
            let exponent = exponent_of(b);
            let digits = digits_of(b);
            // a subnormal float has no hidden digit, and the exponent of the smallest normal one
            if exponent == 0 {
                return shifted(digits, 1);
            }
            return shifted(0x80_0000 + digits, exponent);
        }
    }
    0
}

// The ticks per cycle of a tempo: 0 out of its range.
pub fn ticks_per_cycle(tempo: f32) -> u64
    ensures { result ≡ cycle_in tempo }
{
    if 1.0 <= tempo {
        if tempo <= 960.0 {
            return std::num::truncating_f32_to_u64(tempo * 1024.0);
        }
    }
    0
}

// Each of the next four gives the float that a pattern of 32 bits means, or none outside its range.

// A value: finite.
pub fn value_of(b: u32) -> Option<f32>
    ensures { result ≡ checked (finite_bits b) b }
{
    if b % 0x8000_0000 < 0x7f80_0000 {
        Some(f32::from_bits(b))
    } else {
        None
    }
}

// A time: sign bit clear, at most 16,384.
pub fn time_of(b: u32) -> Option<f32>
    ensures { result ≡ checked (time_bits b) b }
{
    // past infinity's pattern: the sign bit is set, or it is not a number
    if 0x7f80_0000 < b {
        return None;
    }
    let x = f32::from_bits(b);
    if x <= 16384.0 { Some(x) } else { None }
}

// A duration: a time, or exactly -1.
pub fn duration_of(b: u32) -> Option<f32>
    ensures { result ≡ checked (duration_bits b) b }
{
    if b == 0xbf80_0000 {
        return Some(-1.0);
    }
    time_of(b)
}

// A tempo: from 1 to 960.
pub fn tempo_of(b: u32) -> Option<f32>
    ensures { result ≡ checked (tempo_bits b) b }
{
    // not a number
    if 0x7f80_0000 < b % 0x8000_0000 {
        return None;
    }
    let x = f32::from_bits(b);
    if 1.0 <= x && x <= 960.0 {
        Some(x)
    } else {
        None
    }
}
