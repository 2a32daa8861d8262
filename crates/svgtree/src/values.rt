// An attribute's value, read as one of a kind. A value is read at its place, and not from a slice of it: its length may reach past the sheet's end, where there are
// zeros, and no caller has to rule that out.
#![tactic(auto, using(crate::proofs::ByKind::by_kind))]

ghost use Rattle.std.specs.Prelude.{◌≡◌, List, ℕ, ◌^◌, ◌<◌, None, Option, Some};
ghost use Rattle.svgtree.specs.Readers.{length_in};
ghost use Rattle.svgtree.specs.Values.{Value, absent};
ghost use Rattle.svgtree.specs.Parse.{unit_of, length_at, color_at, try_at, tried_at, value_at};
ghost use Rattle.svgtree.specs.Means.{try_is, maybe_tries_is};
ghost use Rattle.svgtree.specs.Attributes.{TextSays, NumberSays, NumbersSays, LengthSays, ColorSays, TriesSays, text_none, number_none, numbers_none, length_none, color_none, tries_none};

use crate::{Color, Found, Length, LengthUnit, Tries};
use bits::{Text, byte, bytes_at, get32, get64};
use num::{double_narrowed, single};
use number_list::{Numbers, packed, typed};
use sheet_fields::kind::ValueKind;
use sheet_fields::{marked, size, tries, unit};

// What an attribute is read as, by type: the source's `FromValue`.
pub trait FromValue: Copy + Drop {
    // what is read of a value, over the sheet's bytes
    ghost says: { List ℕ → Option Self → Value → Type 0 };

    fn parse(bytes: &[u8], found: Found) -> Option<Self>
        ensures { says bytes.now result (value_at bytes.now found.kind found.at found.len) };

    // an attribute that is absent reads as none
    ghost none_said: { (s : List ℕ) → says s None absent };
}

impl FromValue for Text {
    ghost says = { TextSays };

    ghost none_said = { λ s. text_none s };

    fn parse(bytes: &[u8], found: Found) -> Option<Self> {
        found.is(ValueKind::Text).then(|| Text {
            at: found.at,
            len: found.len.min(size::TEXT_MOST) as u8,
        })
    }
}

impl FromValue for f32 {
    ghost says = { NumberSays };

    ghost none_said = { λ s. number_none s };

    fn parse(bytes: &[u8], found: Found) -> Option<Self> {
        found
            .is(ValueKind::Number)
            .then(|| single(get32(bytes, found.at as usize)))
    }
}

impl FromValue for Numbers {
    ghost says = { NumbersSays };

    ghost none_said = { λ s. numbers_none s };

    fn parse(bytes: &[u8], found: Found) -> Option<Self> {
        match ValueKind::try_from(found.kind) {
            Ok(ValueKind::Numbers) => Some(packed(found.at, found.len / size::NUMBER)),
            Ok(ValueKind::Typed) => Some(typed(found.at, found.len)),
            _ => None,
        }
    }
}

impl From<u8> for LengthUnit {
    ghost from_gives = { λ byte unit. unit ≡ unit_of byte };

    #[tactic(auto, unfolding(crate::specs::Parse::unit_of))]
    fn from(byte: u8) -> LengthUnit {
        match byte {
            unit::EM => LengthUnit::Em,
            unit::EX => LengthUnit::Ex,
            unit::PX => LengthUnit::Px,
            unit::IN => LengthUnit::In,
            unit::CM => LengthUnit::Cm,
            unit::MM => LengthUnit::Mm,
            unit::PT => LengthUnit::Pt,
            unit::PC => LengthUnit::Pc,
            unit::PERCENT => LengthUnit::Percent,
            _ => LengthUnit::None,
        }
    }
}

// A place in these clauses is a u32's, or that and a few constants: the clause is there only so that adding one more does not overflow. A type of places would need its
// bound again at each addition.
#[tactic(auto, unfolding(crate::specs::Parse::length_at, crate::specs::Readers::length_in, num::specs::Means::double_of))]
pub fn length_from(s: &[u8], at: usize) -> Length
    requires { at < 2 ^ 33 }
    ensures { Some result ≡ length_in (length_at s.now at) }
{
    Length {
        number: double_narrowed(get64(s, at + marked::NUMBER)),
        unit: LengthUnit::from(byte(s, at)),
    }
}

impl FromValue for Length {
    ghost says = { LengthSays };

    ghost none_said = { λ s. length_none s };

    fn parse(bytes: &[u8], found: Found) -> Option<Self> {
        found
            .is(ValueKind::Length)
            .then(|| length_from(bytes, found.at as usize))
    }
}

#[tactic(auto, unfolding(bits::specs::Bytes::bytes_from))]
pub fn color_from(s: &[u8], at: usize) -> Color
    requires { at < 2 ^ 33 }
    ensures { result ≡ color_at s.now at }
{
    let [red, green, blue, alpha] = bytes_at::<4>(s, at);
    Color {
        red,
        green,
        blue,
        alpha,
    }
}

impl FromValue for Color {
    ghost says = { ColorSays };

    ghost none_said = { λ s. color_none s };

    fn parse(bytes: &[u8], found: Found) -> Option<Self> {
        found
            .is(ValueKind::Color)
            .then(|| color_from(bytes, found.at as usize))
    }
}

#[tactic(auto, unfolding(crate::specs::Parse::try_at))]
fn try_at(s: &[u8], at: usize) -> Option<u64>
    requires { at < 2 ^ 33 }
    ensures { try_is result ≡ try_at s.now at }
{
    if byte(s, at) == 1 {
        return Some(get64(s, at + marked::NUMBER));
    }
    None
}

fn tries_from(s: &[u8], at: usize) -> Tries
    requires { at < 2 ^ 32 }
    ensures { maybe_tries_is (Some result) ≡ Some (tried_at s.now at) }
{
    Tries {
        first: try_at(s, at),
        second: try_at(s, at + tries::SECOND),
        third: try_at(s, at + tries::THIRD),
    }
}

impl FromValue for Tries {
    ghost says = { TriesSays };

    ghost none_said = { λ s. tries_none s };

    fn parse(bytes: &[u8], found: Found) -> Option<Self> {
        found
            .is(ValueKind::Tries)
            .then(|| tries_from(bytes, found.at as usize))
    }
}
