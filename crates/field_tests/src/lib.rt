// Tests of a field at a place of the bytes: what a sheet's layout, its numbers and a function record have in common.
#![tactic(auto, using(crate::proofs::Finiteness::taken))]

ghost use Rattle.std.specs.Prelude.{◌≡◌, ◌^◌, ◌<◌};
ghost use Rattle.std.specs.Float.Ieee.Scale.{finite};
ghost use Rattle.bits.specs.Bytes.{bytes_from};
ghost use Rattle.num.specs.Sign.{positive, opacity_in};
ghost use Rattle.geom.specs.Geometry.{valid_length, view_box_length};
ghost use Rattle.svgtree.specs.Parse.{single, double};
ghost use Rattle.field_tests.specs.Tests.{zeros, marked_ok, double_ok};

use bits::{byte, get32, get64};
use geom::{is_valid_length, is_view_box_length};
use num::{is_sign_negative, take_number, take_single};

// Bytes. A field is a place and a length. No slices: a field may reach past the lent bytes, where zeros are read, and no caller has to rule that out. A place is a u32's, or that
// and a few constants: its bound is there only so that adding one more does not overflow, and a type of places would need it again at each addition.

// Whether n bytes from a place on are zero.
pub fn is_zero(s: &[u8], from: usize, n: u8) -> bool
    requires { from < 2 ^ 40 }
    ensures { result ≡ zeros (bytes_from s.now from n) }
{
    (from..from + usize::from(n)).all(|at| byte(s, at) == 0)
}

// A mark, and the n bytes that are zero where it says absent.
#[tactic(auto, unfolding(crate::specs::Tests::marked_ok))]
pub fn marked_ok(s: &[u8], mark: u8, from: usize, n: u8) -> bool
    requires { from < 2 ^ 40 }
    ensures { result ≡ marked_ok mark (bytes_from s.now from n) }
{
    mark == 1 || (mark == 0 && is_zero(s, from, n))
}

// Numbers. A name for each test: of one function over a closure, each caller would have to show that its closure is the test of its definition.

pub fn is_finite_at(s: &[u8], at: usize) -> bool
    ensures { result ≡ finite (single s.now at) }
{
    take_single(get32(s, at)).is_some()
}

pub fn is_double_at(s: &[u8], at: usize) -> bool
    ensures { result ≡ double_ok (double s.now at) }
{
    take_number(get64(s, at)).is_some()
}

pub fn is_positive_at(s: &[u8], at: usize) -> bool
    ensures { result ≡ positive (single s.now at) }
{
    take_single(get32(s, at)).is_some_and(|x| 0.0 <= x)
}

pub fn is_view_box_length_at(s: &[u8], at: usize) -> bool
    ensures { result ≡ view_box_length (single s.now at) }
{
    take_single(get32(s, at)).is_some_and(is_view_box_length)
}

pub fn is_valid_length_at(s: &[u8], at: usize) -> bool
    ensures { result ≡ valid_length (single s.now at) }
{
    take_single(get32(s, at)).is_some_and(is_valid_length)
}

// Whether a number lies from 0 to 1 and is not -0.
#[tactic(auto, unfolding(num::specs::Sign::opacity_in))]
fn is_opacity(x: f32) -> bool
    ensures { result ≡ opacity_in x }
{
    (0.0..=1.0).contains(&x) && !is_sign_negative(x)
}

pub fn is_opacity_at(s: &[u8], at: usize) -> bool
    ensures { result ≡ opacity_in (single s.now at) }
{
    take_single(get32(s, at)).is_some_and(is_opacity)
}
