// The built-in functions and operators of the orchestra's code on 32-bit floats (document 01, "What the
// code does"), and the limited sample (step 6 of a cycle). Every function is total.
#![tactic(auto)]

ghost use Rattle.std.specs.Prelude.{◌≡◌, min as lesser, if◌then◌else◌};
ghost use Rattle.std.specs.Float.Ieee as Ieee;
ghost use Rattle.base_float32.specs.Builtins.{abs_of, sgn_of, int_of, frac_of, min_of, max_of, flag_of, truth, either_of, both_of, not_of, select_of};
ghost use Rattle.base_float32.specs.Limit.{sample_of};

// One of two by a test: a choice of values and no branch, so that lanes are worked together.
fn select_if(test: bool, x: f32, y: f32) -> f32
    ensures { result ≡ (if test then x else y) }
{
    if test { x } else { y }
}

pub fn abs(x: f32) -> f32
    ensures { result ≡ abs_of x }
{
    let magnitude = select_if(x < 0.0, -x, x);
    select_if(x == 0.0, 0.0, magnitude)
}

pub fn sgn(x: f32) -> f32
    ensures { result ≡ sgn_of x }
{
    if 0.0 < x {
        return 1.0;
    }
    if x < 0.0 {
        return -1.0;
    }
    0.0
}

// 2^23: from here on a float has no fraction.
const WHOLE_FROM: f32 = 8388608.0;

// Below 2^23 the sum with it is rounded to a whole number, up or down, and a comparison tells which.
pub fn int(x: f32) -> f32
    ensures { result ≡ int_of x }
{
    let below = x < 0.0;
    let magnitude = select_if(below, -x, x);
    let nearest = (magnitude + WHOLE_FROM) - WHOLE_FROM;
    let n = nearest - flag(magnitude < nearest);
    let whole = select_if(below, 0.0 - n, n);
    select_if(magnitude < WHOLE_FROM, whole, x)
}

pub fn frac(x: f32) -> f32
    ensures { result ≡ frac_of x }
{
    x - int(x)
}

pub fn min(x: f32, y: f32) -> f32
    ensures { result ≡ min_of x y }
{
    if y < x { y } else { x }
}

pub fn max(x: f32, y: f32) -> f32
    ensures { result ≡ max_of x y }
{
    if x < y { y } else { x }
}

// 1 where a test holds, else 0.
fn flag(b: bool) -> f32
    ensures { result ≡ flag_of b }
{
    if b { 1.0 } else { 0.0 }
}

pub fn less(x: f32, y: f32) -> f32
    ensures { result ≡ flag_of (Ieee.lt x y) }
{
    flag(x < y)
}

pub fn greater(x: f32, y: f32) -> f32
    ensures { result ≡ flag_of (Ieee.lt y x) }
{
    flag(y < x)
}

pub fn less_or_equal(x: f32, y: f32) -> f32
    ensures { result ≡ flag_of (Ieee.le x y) }
{
    flag(x <= y)
}

pub fn greater_or_equal(x: f32, y: f32) -> f32
    ensures { result ≡ flag_of (Ieee.le y x) }
{
    flag(y <= x)
}

pub fn equal(x: f32, y: f32) -> f32
    ensures { result ≡ flag_of (Ieee.eq x y) }
{
    flag(x == y)
}

pub fn not_equal(x: f32, y: f32) -> f32
    ensures { result ≡ flag_of (Ieee.ne x y) }
{
    flag(x != y)
}

// Whether a float counts as true.
pub fn is_true(x: f32) -> bool
    ensures { result ≡ truth x }
{
    x != 0.0
}

pub fn logical_or(x: f32, y: f32) -> f32
    ensures { result ≡ either_of x y }
{
    let p = is_true(x);
    let q = is_true(y);
    flag(p | q)
}

pub fn logical_and(x: f32, y: f32) -> f32
    ensures { result ≡ both_of x y }
{
    let p = is_true(x);
    let q = is_true(y);
    flag(p & q)
}

pub fn logical_not(x: f32) -> f32
    ensures { result ≡ not_of x }
{
    let p = is_true(x);
    flag(!p)
}

// Unary minus: the sign turned.
pub fn negate(x: f32) -> f32
    ensures { result ≡ Ieee.neg x }
{
    -x
}

// c ? x : y
pub fn select(c: f32, x: f32, y: f32) -> f32
    ensures { result ≡ select_of c x y }
{
    if is_true(c) { x } else { y }
}

// The whole part of y, at most `limit`: 0 where y is below zero or not a number.
fn size(y: f32, limit: u16) -> u16
    ensures { result ≡ lesser (Ieee.to_unsigned 64 y) limit }
{
    if -1.0 < y {
        if y < 65536.0 {
            let n = std::num::truncating_f32_to_u64(y);
            if n < limit as u64 {
                return n as u16;
            }
        }
        return limit;
    }
    0
}

// The ceiling that a sample of 16 bits can have.
fn capped(ceiling: u16) -> u16
    ensures { result ≡ lesser ceiling 32767 }
{
    ceiling.min(32767)
}

// The sample of x: 16 bits, held between -ceiling and ceiling.
pub fn sample(x: f32, ceiling: u16) -> i16
    ensures { result ≡ sample_of x ceiling }
{
    let limit = capped(ceiling);
    let y = x * 32768.0;
    if y < 0.0 {
        let n = size(-y, limit) as i16;
        return -n;
    }
    size(y, limit) as i16
}
