// The header: its numbers, units and lengths.
#![tactic(auto, unfolding(crate::specs::Parse::header_of, num::specs::Means::single_of))]

ghost use Rattle.std.specs.Prelude.{◌≡◌, ◌<◌};
ghost use Rattle.svgtree.specs.Readers.{length_in, box_of, view_box_width_of, view_box_height_of, dpi_of, filter_font_size_of, filter_x_of, filter_y_of, filter_width_of, filter_height_of};
ghost use Rattle.svgtree.specs.Parse.{units_of, header_length, header_of};

use crate::values::length_from;
use crate::{Length, Units};
use bits::{byte, get32};
use geom::Rect;
use num::single;
use sheet_fields::{header, space, unit};

// An Option, and no `TryFrom`: a byte that stands for no units says that they are absent, and no error could say more.
#[tactic(auto, unfolding(crate::specs::Parse::units_of))]
fn units_of(b: u8) -> Option<Units>
    ensures { result ≡ units_of b }
{
    match b {
        space::USER_SPACE_ON_USE => Some(Units::UserSpaceOnUse),
        space::OBJECT_BOUNDING_BOX => Some(Units::ObjectBoundingBox),
        _ => None,
    }
}

pub fn filter_units(s: &[u8]) -> Option<Units>
    ensures { result ≡ (header_of s.now).filter_units }
{
    units_of(byte(s, header::FILTER_UNITS))
}

pub fn primitive_units(s: &[u8]) -> Option<Units>
    ensures { result ≡ (header_of s.now).primitive_units }
{
    units_of(byte(s, header::PRIMITIVE_UNITS))
}

// The object's bounding box.
pub fn bbox(s: &[u8]) -> Option<Rect>
    ensures { result ≡ box_of (header_of s.now) }
{
    if byte(s, header::BOX_PRESENT) == 1 {
        let x = single(get32(s, header::BOX_X));
        let y = single(get32(s, header::BOX_Y));
        let width = single(get32(s, header::BOX_WIDTH));
        let height = single(get32(s, header::BOX_HEIGHT));
        return Rect::from_xywh(x, y, width, height);
    }
    None
}

// A name for each field, as in the source: one function for all would take the field's place as a number, and its callers would have to know that
// `header_of` has the field of the same name there.

pub fn view_box_width(s: &[u8]) -> f32
    ensures { result ≡ view_box_width_of (header_of s.now) }
{
    single(get32(s, header::VIEW_BOX_WIDTH))
}

pub fn view_box_height(s: &[u8]) -> f32
    ensures { result ≡ view_box_height_of (header_of s.now) }
{
    single(get32(s, header::VIEW_BOX_HEIGHT))
}

pub fn dpi(s: &[u8]) -> f32
    ensures { result ≡ dpi_of (header_of s.now) }
{
    single(get32(s, header::DPI))
}

pub fn filter_font_size(s: &[u8]) -> f32
    ensures { result ≡ filter_font_size_of (header_of s.now) }
{
    single(get32(s, header::FONT_SIZE))
}

// The place is one of four, each named where it is passed: no enum of them, since that would be four names for these four constants.
#[tactic(auto, unfolding(crate::specs::Parse::header_length, crate::specs::Readers::length_in))]
fn header_length(s: &[u8], at: usize) -> Option<Length>
    requires { at < 256 }
    ensures { result ≡ length_in (header_length s.now at) }
{
    if byte(s, at) == unit::ABSENT {
        return None;
    }
    Some(length_from(s, at))
}

pub fn filter_x(s: &[u8]) -> Option<Length>
    ensures { result ≡ filter_x_of (header_of s.now) }
{
    header_length(s, header::X)
}

pub fn filter_y(s: &[u8]) -> Option<Length>
    ensures { result ≡ filter_y_of (header_of s.now) }
{
    header_length(s, header::Y)
}

pub fn filter_width(s: &[u8]) -> Option<Length>
    ensures { result ≡ filter_width_of (header_of s.now) }
{
    header_length(s, header::WIDTH)
}

pub fn filter_height(s: &[u8]) -> Option<Length>
    ensures { result ≡ filter_height_of (header_of s.now) }
{
    header_length(s, header::HEIGHT)
}
