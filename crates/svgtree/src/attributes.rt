// A node's attributes, one after the other as they stand in the sheet.
#![tactic(auto, using(crate::proofs::Listed::listed))]

ghost use Rattle.std.specs.Prelude.{◌≡◌, ◌+◌, ◌^◌, ◌<◌};
ghost use Rattle.std.specs.Iterator.{YieldsFirst, item_count};
ghost use Rattle.svgtree.specs.Parse.{attribute_count, attributes_place};
ghost use Rattle.svgtree.specs.Listed.{read_at, read_from};

use crate::Found;
use bits::{byte, get16};
use sheet_fields::{attribute, node};
use std::marker::Model;

// An attribute as it stands: its id, the zero byte of its head, and its value.
#[derive(Clone, Copy)]
pub struct Attribute {
    pub id: u16,
    pub zero: u8,
    pub value: Found,
}

// An attribute whose head reaches past the sheet's end. Out of line, so that a search has only what nearly every attribute needs.
#[cold]
#[inline(never)]
fn padded_attribute(s: &[u8], at: u32) -> Attribute
    requires { at < 2 ^ 31 }
    ensures { result ≡ read_at s.now at }
{
    let value = at + attribute::VALUE as u32;
    let at = at as usize;
    Attribute {
        id: get16(s, at),
        zero: byte(s, at + attribute::ZERO),
        value: Found {
            at: value,
            len: get16(s, at + attribute::LENGTH),
            kind: byte(s, at + attribute::KIND),
        },
    }
}

// One test serves for all six bytes of the head where they lie in the sheet. An array pattern over `bytes_at::<6>` proves as well, but a search then takes half as
// many instructions again: there are two tests, and the two bytes of a number are read apart.
#[tactic(auto, unfolding(bits::specs::Bytes::le16))]
#[inline(always)]
fn attribute_at(s: &[u8], at: u32) -> Attribute
    requires { at < 2 ^ 31 }
    ensures { result ≡ read_at s.now at }
{
    let value = at + attribute::VALUE as u32;
    if s.len() < value as usize {
        return padded_attribute(s, at);
    }
    let at = at as usize;
    Attribute {
        id: u16::from_le_bytes([s[at], s[at + 1]]),
        zero: s[at + attribute::ZERO],
        value: Found {
            at: value,
            len: u16::from_le_bytes([s[at + attribute::LENGTH], s[at + attribute::LENGTH + 1]]),
            kind: s[at + attribute::KIND],
        },
    }
}

// The attributes of a node that are left, in the sheet's order. A clause sees them as a list.
#[derive(Drop)]
pub struct Attributes<'a> {
    bytes: &'a [u8],
    at: u32,
    left: u8,
}

impl<'a> Model for Attributes<'a> {
    ghost use Rattle.std.specs.Prelude.{◌+◌, ◌*◌, ◌^◌, ◌<◌, List};
    ghost use Rattle.svgtree.specs.declared.attributes.Attribute.{Attribute};
    ghost use Rattle.svgtree.specs.Listed.{read_from};

    ghost Value = { List Attribute };

    ghost view = { λ a. read_from a.bytes.now a.at a.left };

    // Each attribute has a head of 6 bytes and at most 65,535 behind it.
    ghost invariant = { λ a. a.at + a.left * 65541 < 2 ^ 31 };
}

impl<'a> Attributes<'a> {
    // Of the node at an offset.
    pub(crate) fn new(bytes: &'a [u8], at: u16) -> Attributes<'a>
        ensures { result ≡ read_from bytes.now (attributes_place at) (attribute_count bytes.now at) }
    {
        let at = usize::from(at);
        Attributes {
            bytes,
            at: (at + node::ATTRIBUTES) as u32,
            left: byte(bytes, at + node::ATTRIBUTE_COUNT),
        }
    }
}

impl<'a> Iterator for Attributes<'a> {
    type Item = Attribute;

    ghost next_gives = { YieldsFirst (λ rest. rest) };

    ghost remaining = { item_count (λ rest. rest) };

    #[inline(always)]
    fn next(&mut self) -> Option<Attribute> {
        if self.left == 0 {
            return None;
        }
        let attribute = attribute_at(self.bytes, self.at);
        self.left -= 1;
        self.at = attribute.value.at + u32::from(attribute.value.len);
        Some(attribute)
    }
}
