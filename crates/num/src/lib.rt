// Numbers: f64 narrowed to f32, f32 and f64 rounded and cut to whole numbers, near zero.
// Every public function takes any bits: infinities and NaN too.
#![tactic(auto)]

ghost use Rattle.std.specs.Prelude.{◌≡◌, Bool, cond, None, Some, ◌+◌, ◌*◌, ◌/◌, ◌%◌, ◌^◌, ◌≤◌, ◌<◌};
ghost use Rattle.std.specs.Float.{binary32, binary64};
ghost use Rattle.std.specs.Float.Ieee.{of_fields, of_bits, to_bits, to_signed};
ghost use Rattle.std.specs.Float.Ieee.Nearest.{closest};
ghost use Rattle.std.specs.Float.Ieee.Scale.{finite};
ghost use Rattle.num.specs.Narrowed.{narrowed};
ghost use Rattle.num.specs.Means.{if_finite, single_of, double_of};
ghost use Rattle.num.specs.Whole.{octaves_of, rounded};
ghost use Rattle.num.specs.Sign.{positive, sign_negative, near_zero, f32_bound};

use std::num::{
    f32_to_bits_with_nan, f64_from_bits_with_nan, saturating_f32_to_i32, saturating_f32_to_u32,
    saturating_f64_to_i32,
};

// ---- rounding

// n / 2 ^ d to the nearest, a tie to the even one.
fn nearest_shift(n: u64, d: u64) -> u64
    requires { (d < 54) × (n < 9223372036854775808) }
    ensures { result ≡ closest n (2 ^ d) }
{
    let q = n >> d;
    let u = 1 << d;
    let rest = n % u * 2;
    if rest < u {
        q
    } else if u < rest {
        q + 1
    } else {
        q + q % 2
    }
}

// ---- f64 to f32, by hand: std's `nearest_f64_to_f32_with_nan` takes twice the time, and each number of a sheet is narrowed

// What an f64's fraction has before it, and does not write.
const LEADING_ONE: u64 = 0x10_0000_0000_0000;

// The f32's bits without the sign, of an f64 that is no NaN and has the exponent's field x and the fraction t.
fn magnitude(x: u64, t: u64) -> u64
    requires { (x * 4503599627370496 + t ≤ 9218868437227405312) × (t < 4503599627370496) }
    ensures upper_bound { result ≤ 2139095040 }
    ensures bits_narrowed { (s : Bool) → to_bits binary32 (narrowed (of_fields binary64 s x t)) ≡ cond s 2147483648 0 + result }
{
    if x < 873 {
        return 0;
    }
    let g = LEADING_ONE + t;
    if x < 897 {
        return nearest_shift(g, 926 - x);
    }
    if x < 1151 {
        return ((x - 897) << 23) + nearest_shift(g, 29);
    }
    0x7f80_0000
}

// The bits of the f32 nearest to an f64, a tie to the even one; an infinity's where the number is too large. Every NaN gives 0x7fc0_0000.
pub fn narrow(bits: u64) -> u32
    ensures { result ≡ to_bits binary32 (narrowed (of_bits binary64 bits)) }
{
    if 0x7ff0_0000_0000_0000 < bits % 0x8000_0000_0000_0000 {
        return 0x7fc0_0000;
    }
    let m = magnitude((bits >> 52) % 0x800, bits % LEADING_ONE);
    (((bits >> 63) << 31) + m) as u32
}

// ---- bits read as numbers: one test says that they are no infinity's and no NaN's, where after `f32_from_bits_with_nan` it takes a second

// An f32's bits as a number, where they are a finite one's.
#[inline]
pub fn take_single(bits: u32) -> Option<f32>
    ensures { result ≡ if_finite (of_bits binary32 bits) }
{
    if bits % 0x8000_0000 < 0x7f80_0000 {
        return Some(f32::from_bits(bits));
    }
    None
}

// An f64's bits as an f32, where both are finite.
#[inline]
pub fn take_number(bits: u64) -> Option<f32>
    ensures { result ≡ if_finite (narrowed (of_bits binary64 bits)) }
{
    take_single(narrow(bits))
}

// The same two for what reads a sheet that is accepted, where each number is finite: 0 for any other, since they can't fail, and no caller has a use for None.

#[inline]
#[tactic(auto, using(crate::proofs::Finite::single_or_zero))]
pub fn single(bits: u32) -> f32
    ensures { result ≡ single_of bits }
{
    take_single(bits).unwrap_or(0.0)
}

#[inline]
#[tactic(auto, using(crate::proofs::Finite::double_or_zero))]
pub fn double_narrowed(bits: u64) -> f32
    ensures { result ≡ double_of bits }
{
    take_number(bits).unwrap_or(0.0)
}

// ---- whole numbers. Of these and of the tests below, `f32_to_i32`, `round_f32` and `is_finite` only call the library, by the definitions that the contracts above this crate name:
// where its clause says the same in other words, the lemma is used once here and at no call.

// Rust's `x as i32`: cut toward zero, held at both ends, 0 for NaN.
pub fn f32_to_i32(x: f32) -> i32
    ensures { result ≡ to_signed 31 x }
{
    saturating_f32_to_i32(x)
}

// The same for the bits of an f64.
pub fn f64_to_i32(bits: u64) -> i32
    ensures { result ≡ to_signed 31 (of_bits binary64 bits) }
{
    saturating_f64_to_i32(f64_from_bits_with_nan(bits))
}

// `numOctaves`: 0 where the sign is set; else to the nearest u32, a half to the even one, held at its upper end. 0 for NaN.
pub fn octaves(x: f32) -> u32
    ensures { result ≡ octaves_of x }
{
    if is_sign_negative(x) {
        return 0;
    }
    saturating_f32_to_u32(x.round_ties_even())
}

// Rust's `f32::round`: half away from zero, the sign kept, an infinity and NaN as they are.
pub fn round_f32(x: f32) -> f32
    ensures { result ≡ rounded x }
{
    x.round()
}

// ---- tests

// Whether x is neither an infinity nor NaN.
pub fn is_finite(x: f32) -> bool
    ensures { result ≡ finite x }
{
    x.is_finite()
}

// strict-num's `PositiveF32`: finite and not below 0; -0 passes.
pub fn is_positive(x: f32) -> bool
    ensures { result ≡ positive x }
{
    is_finite(x) && 0.0 <= x
}

// strict-num's `PositiveF32::new`: x where it is positive.
#[inline]
pub fn positive(x: f32) -> Option<f32>
    ensures { result ≡ cond (positive x) (Some x) None }
{
    is_positive(x).then_some(x)
}

// Rust's `is_sign_negative`: -0, every negative number and the negative infinity. NaN has no sign here: false.
pub fn is_sign_negative(x: f32) -> bool
    ensures { result ≡ sign_negative x }
{
    !x.is_nan() && x.is_sign_negative()
}

// The crate's `approx_zero_ulps(4)`: +0, -0 and the bit patterns 1 to 4.
pub fn approx_zero_ulps(x: f32) -> bool
    ensures { result ≡ near_zero x }
{
    let bits = f32_to_bits_with_nan(x);
    bits <= 4 || bits == 0x8000_0000
}

// val held between min and max; min for NaN. Rust's `clamp` asks for min <= max and keeps a NaN.
pub fn f32_bound(min: f32, val: f32, max: f32) -> f32
    ensures { result ≡ f32_bound min val max }
{
    if val > max {
        max
    } else if val >= min {
        val
    } else {
        min
    }
}
