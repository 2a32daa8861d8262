// A number as it is typed: read from its bytes, and what it is worth.
#![tactic(auto)]

ghost use Rattle.std.specs.Prelude.{◌≡◌, List, ℕ, ◌-◌, ◌*◌, ◌^◌, ◌+◌, ◌≤◌, ◌<◌, min, length, pos, true, false, ◌-ℤ◌};
ghost use Rattle.decimal.specs.Grammar.{is_e, unsigned, leading_digits, after_digits, scaled, pointed, signed, item_of};
ghost use Rattle.decimal.specs.Limits.{whole};
ghost use Rattle.decimal.specs.Value.{item_value_in};
ghost use Rattle.decimal.specs.Means.{limit, held_in, item_check, in_limits_held, double_held, value_held, signed_exponent, DigitsOf};
ghost use Rattle.decimal.specs.Windows.{seen};
ghost use Rattle.std.specs.Float.{binary64, fin};
ghost use Rattle.std.specs.Float.Ieee.{to_bits};
ghost use Rattle.std.specs.Float.Ieee.Exact.{HasValue};

use num::double_narrowed;
use window::Window;

pub mod window;

// The least number of 16 digits: digits and exponents are held there. The bound stands in five clauses and in no type: the definitions (`whole`, `held_in`, `DigitsOf`) speak of plain
// numbers, so with a struct that has it in a ghost field each of those clauses would name the struct's field where it now names the number, and `Decimal` would take the struct apart.
const LIMIT: u64 = 1000000000000000;

// ± digits * 10 ^ power, held. The sign is apart from the digits, since zero has one too.
#[derive(Clone, Copy)]
pub struct Decimal {
    pub minus: bool,
    pub digits: u64,
    pub power: i64,
}

// Why typed text is not read: outside the grammar it is refused with 10, outside the limits with 11.
#[derive(Clone, Copy)]
pub enum TextFault {
    OutsideLimits,
    OutsideGrammar,
}

// How many digits stand somewhere, and their number.
#[derive(Clone, Copy)]
pub struct Run {
    pub len: usize,
    pub value: u64,
}

#[tactic(auto, unfolding(crate::specs::Grammar::is_e))]
fn is_e(b: u8) -> bool
    ensures { result ≡ is_e b }
{
    matches!(b, b'E' | b'e')
}

// A digit more, held.
fn grown(v: u64, b: u8) -> u64
    requires { (v ≤ limit) × (48 ≤ b) }
    ensures { (result ≡ min (v * 10 + (b - 48)) limit) × (result ≤ limit) }
{
    (v * 10 + u64::from(b - b'0')).min(LIMIT)
}

// The digits that stand first, after the number v.
#[tactic(auto, using(crate::proofs::Running::digit_same, crate::proofs::Running::going_start, crate::proofs::Running::going_step, crate::proofs::Running::going_stop, crate::proofs::Running::going_end, crate::proofs::Windows::seen_length))]
fn digit_run(text: Window<'_>, v: u64) -> Run
    requires { v ≤ limit }
    ensures within { result.len ≤ text.entry.len }
    ensures digits { DigitsOf (seen text.entry) v result.len result.value }
{
    let mut value = v;
    for len in 0..text.len {
        let b = text.get(len);
        if !b.is_ascii_digit() {
            return Run { len, value };
        }
        value = grown(value, b);
    }
    Run {
        len: text.len,
        value,
    }
}

// What follows a sign, if one stands first.
#[tactic(auto, using(crate::proofs::Signs::sign_plus, crate::proofs::Signs::sign_minus, crate::proofs::Signs::sign_none, crate::proofs::Signs::sign_other, crate::proofs::Windows::some_first))]
fn unsigned(text: Window<'_>) -> Window<'_>
    ensures { seen result ≡ unsigned (seen text.entry) }
{
    match text.first() {
        Some(b'+' | b'-') => text.behind(1),
        _ => text,
    }
}

// The power of ten: ± size - decimals. `as`, since no From leads from u64 to i64; a held size is below 2 ^ 50.
fn power(minus: bool, size: u64, decimals: u16) -> i64
    requires { size ≤ limit }
    ensures { result ≡ signed_exponent minus size -ℤ pos decimals }
{
    let exponent = size as i64;
    let signed = if minus { -exponent } else { exponent };
    signed - i64::from(decimals)
}

// The exponent, if there is one, and the end. The sign goes down with the digits, since the grammar's definition (`signed`, `pointed`, `scaled`) has it so.
#[tactic(auto, using(crate::proofs::Scales::scale_end, crate::proofs::Scales::scale_other, crate::proofs::Scales::scale_none, crate::proofs::Scales::scale_more, crate::proofs::Scales::scale_is, crate::proofs::Windows::seen_length, crate::proofs::Windows::some_first))]
fn scale(text: Window<'_>, minus: bool, digits: u64, decimals: u16) -> Option<Decimal>
    ensures { (ds : List ℕ) → digits ≡ min (whole ds) limit → result ≡ held_in (scaled minus ds decimals (seen text.entry)) }
{
    let Some(b) = text.first() else {
        return Some(Decimal {
            minus,
            digits,
            power: power(false, 0, decimals),
        });
    };
    if !is_e(b) {
        return None;
    }
    let exponent = text.behind(1);
    let size = unsigned(exponent);
    let run = digit_run(size, 0);
    if run.len == 0 || run.len < size.len {
        return None;
    }
    Some(Decimal {
        minus,
        digits,
        power: power(exponent.starts_with(b'-'), run.value, decimals),
    })
}

// What follows a point. `as`, since no From leads from usize to u16; a window has fewer than 65,536 bytes.
#[tactic(auto, using(crate::proofs::Parts::decimals_none, crate::proofs::Parts::decimals_value, crate::proofs::Parts::decimals_some))]
fn decimals(text: Window<'_>, minus: bool, value: u64) -> Option<Decimal>
    requires { value ≤ limit }
    ensures { (ds : List ℕ) → value ≡ min (whole ds) limit → result ≡ held_in (pointed minus ds (leading_digits (seen text.entry)) (after_digits (seen text.entry))) }
{
    let run = digit_run(text, value);
    if run.len == 0 {
        return None;
    }
    scale(text.behind(run.len), minus, run.value, run.len as u16)
}

// What follows the first digits.
#[tactic(auto, using(crate::proofs::Parts::after_point, crate::proofs::Parts::after_none, crate::proofs::Parts::after_plain, crate::proofs::Windows::some_start))]
fn after_digits(text: Window<'_>, minus: bool, first: Run) -> Option<Decimal>
    requires { first.value ≤ limit }
    ensures { (ds : List ℕ) → first.len ≡ length ds → first.value ≡ min (whole ds) limit → result ≡ held_in (signed minus ds (seen text.entry)) }
{
    if text.starts_with(b'.') {
        return decimals(text.behind(1), minus, first.value);
    }
    if first.len == 0 {
        return None;
    }
    scale(text, minus, first.value, 0)
}

// The number that a word is.
fn decimal_at(word: Window<'_>) -> Option<Decimal>
    ensures { result ≡ held_in (item_of (seen word.entry)) }
{
    let minus = word.starts_with(b'-');
    let text = unsigned(word);
    let first = digit_run(text, 0);
    after_digits(text.behind(first.len), minus, first)
}

// 10 ^ 0 to 10 ^ 22, each exact.
const TENS: [f64; 23] = [
    1.0,
    10.0,
    100.0,
    1000.0,
    10000.0,
    100000.0,
    1000000.0,
    10000000.0,
    100000000.0,
    1000000000.0,
    10000000000.0,
    100000000000.0,
    1000000000000.0,
    10000000000000.0,
    100000000000000.0,
    1000000000000000.0,
    10000000000000000.0,
    100000000000000000.0,
    1000000000000000000.0,
    10000000000000000000.0,
    100000000000000000000.0,
    1000000000000000000000.0,
    10000000000000000000000.0,
];

// 10 ^ p, exact.
fn power_of_ten(p: u64) -> f64
    requires { p ≤ 22 }
    ensures { result ≡ fin false (5 ^ p) (pos p) }
{
    TENS[p as usize]
}

// ± n, exact. `as`, since no From leads from u64 to f64: below 2 ^ 53 nothing is lost.
#[tactic(auto, using(crate::proofs::Tens::whole_plus, crate::proofs::Tens::whole_minus))]
fn signed_double(minus: bool, n: u64) -> f64
    requires { n < limit }
    ensures { HasValue result minus n 1 }
{
    let x = n as f64;
    if minus { -x } else { x }
}

// A number within the limits as an f64, rounded once.
#[tactic(auto, using(crate::proofs::Held::held_within))]
fn double(d: Decimal) -> f64
    requires { in_limits_held d ≡ true }
    ensures { result ≡ double_held d }
{
    let x = signed_double(d.minus, d.digits);
    let ten = power_of_ten(d.power.unsigned_abs());
    if 0 <= d.power { x * ten } else { x / ten }
}

// The same, as its bits.
#[tactic(auto, using(num::proofs::Laws::round_num), unfolding(crate::specs::Means::double_held))]
fn double_bits(d: Decimal) -> u64
    requires { in_limits_held d ≡ true }
    ensures { result ≡ to_bits binary64 (double_held d) }
{
    f64::to_bits(double(d))
}

// At most 15 digits, and a power of ten from -22 to 22.
#[tactic(auto, unfolding(crate::specs::Means::in_limits_held))]
fn in_limits(d: Decimal) -> bool
    ensures { result ≡ in_limits_held d }
{
    d.digits < LIMIT && (-22..=22).contains(&d.power)
}

// The number as an f32. 0 and no None where it is outside the limits: the definition has +0 there (`item_value_in`), and a sheet with such a number is refused
// before one is read.
#[tactic(auto, using(crate::proofs::Held::value_refused, crate::proofs::Held::value_is))]
fn decimal_value(d: Decimal) -> f32
    ensures { result ≡ value_held d }
{
    if !in_limits(d) {
        return 0.0;
    }
    double_narrowed(double_bits(d))
}

// Whether a word of a text is an item within the limits.
#[tactic(auto, using(crate::proofs::Worth::word_within, crate::proofs::Worth::word_outside, crate::proofs::Worth::word_none, crate::proofs::Windows::seen_short))]
pub fn check_word(word: Window<'_>) -> Result<(), TextFault>
    ensures { result ≡ item_check (item_of (seen word.entry)) }
{
    match decimal_at(word) {
        Some(d) if in_limits(d) => Ok(()),
        Some(_) => Err(TextFault::OutsideLimits),
        None => Err(TextFault::OutsideGrammar),
    }
}

// The number that it is. 0 and no None where it is refused, as in `decimal_value`.
#[tactic(auto, using(crate::proofs::Worth::value_at, crate::proofs::Worth::value_none, crate::proofs::Windows::seen_short))]
pub fn word_value(word: Window<'_>) -> f32
    ensures { result ≡ item_value_in (item_of (seen word.entry)) }
{
    decimal_at(word).map_or(0.0, decimal_value)
}
