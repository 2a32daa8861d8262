// The filter region and what the children are converted with: the first part of `convert_url` of filter.rs. Each of the filter element's four lengths
// goes with the font size of the sheet that it is read from; units, view box, resolution and bounding box are given.
#![tactic(auto)]

ghost use Rattle.std.specs.Prelude.{◌≡◌};
ghost use Rattle.geom.specs.Geometry.{placed};
ghost use Rattle.svgtree.specs.Parse.{header_of};
ghost use Rattle.region.specs.Region.{state_of, filter_side_in, filter_rect_in, placed_in, region_in, filter_region_of, frame_of};

use answer::Refusal;
use geom::{Rect, Size};
use names::aid;
use svgtree::header::{
    bbox, dpi, filter_font_size, filter_height, filter_units, filter_width, filter_x, filter_y,
    primitive_units, view_box_height, view_box_width,
};
use svgtree::{Length, LengthUnit, Units};
use units::{LengthContext, State, convert_units};

// What the children are converted with, beside the sheet that holds them: primitiveUnits, the filter region, the object's bounding box, the
// view box and the resolution.
#[derive(Clone, Copy)]
pub struct Frame {
    pub units: Units,
    pub region: Rect,
    pub bbox: Option<Rect>,
    pub state: State,
}

pub fn state_of(s: &[u8]) -> State
    ensures { result ≡ state_of (header_of s.now) }
{
    State {
        view_box: Size {
            width: view_box_width(s),
            height: view_box_height(s),
        },
        dpi: dpi(s),
    }
}

// The filter element's rectangle.

const MINUS_TEN_PERCENT: Length = Length {
    number: -10.0,
    unit: LengthUnit::Percent,
};

const HUNDRED_TWENTY_PERCENT: Length = Length {
    number: 120.0,
    unit: LengthUnit::Percent,
};

// The filter element's four lengths. One function with the length's name, and not four calls in `filter_rect`: so each length has a clause of its own (`filter_x_in` to
// `filter_height_in`), which the rectangle's clause does not give where there is no rectangle; a function for each would be four twins.
#[derive(Clone, Copy)]
pub enum Side {
    X,
    Y,
    Width,
    Height,
}

// One of them as a number, with its default.
pub fn resolve_side(s: &[u8], side: Side, units: Units, state: State) -> f32
    ensures { result ≡ filter_side_in side (header_of s.now) units state }
{
    let lengths = LengthContext {
        units,
        state,
        font_size: filter_font_size(s),
    };
    match side {
        Side::X => lengths.resolve_number(filter_x(s), aid::X, MINUS_TEN_PERCENT),
        Side::Y => lengths.resolve_number(filter_y(s), aid::Y, MINUS_TEN_PERCENT),
        Side::Width => lengths.resolve_number(filter_width(s), aid::WIDTH, HUNDRED_TWENTY_PERCENT),
        Side::Height => {
            lengths.resolve_number(filter_height(s), aid::HEIGHT, HUNDRED_TWENTY_PERCENT)
        }
    }
}

#[tactic(auto, unfolding(crate::specs::Region::filter_rect_in))]
fn filter_rect(s: &[u8], units: Units, state: State) -> Option<Rect>
    ensures { result ≡ filter_rect_in (header_of s.now) units state }
{
    Rect::from_xywh(
        resolve_side(s, Side::X, units, state),
        resolve_side(s, Side::Y, units, state),
        resolve_side(s, Side::Width, units, state),
        resolve_side(s, Side::Height, units, state),
    )
}

// The filter region.

// The crate panics where placing makes no rectangle; here that is an answer.
fn place_in_bbox(rect: Rect, bbox: Rect) -> Result<Rect, Refusal>
    ensures { result ≡ placed_in (placed rect bbox) }
{
    rect.bbox_transform(bbox).ok_or(Refusal::Unrepresentable)
}

// The region of a filter with this rectangle in these units. That there is a rectangle is asked first, and then for the bounding box.
pub fn region_in(units: Units, rect: Option<Rect>, bbox: Option<Rect>) -> Result<Rect, Refusal>
    ensures { result ≡ region_in units rect bbox }
{
    let rect = rect.ok_or(Refusal::NoRegion)?;
    match units {
        Units::UserSpaceOnUse => Ok(rect),
        Units::ObjectBoundingBox => place_in_bbox(rect, bbox.ok_or(Refusal::NoRegion)?),
    }
}

// Out of line, so that its locals are not on the stack while children are converted.
#[inline(never)]
#[tactic(auto, unfolding(crate::specs::Region::filter_region_of))]
pub fn filter_region(s: &[u8]) -> Result<Rect, Refusal>
    ensures { result ≡ filter_region_of (header_of s.now) }
{
    let units = convert_units(filter_units(s), Units::ObjectBoundingBox);
    let rect = filter_rect(s, units, state_of(s));
    region_in(units, rect, bbox(s))
}

// The frame of a sheet's children, with the filter region found before.
pub fn frame_of(s: &[u8], region: Rect) -> Frame
    ensures { result ≡ frame_of (header_of s.now) region }
{
    Frame {
        units: convert_units(primitive_units(s), Units::UserSpaceOnUse),
        region,
        bbox: bbox(s),
        state: state_of(s),
    }
}
