// The filter primitive subregion of a child, in the place of `resolve_primitive_region` of filter.rs, and the scale of a child's numbers, from its
// `collect_children`.
#![tactic(auto)]

ghost use Rattle.std.specs.Prelude.{◌≡◌};
ghost use Rattle.svgtree.specs.Nodes.{node_of};
ghost use Rattle.subregion.specs.Subregions.{corner_in_box, side_in_box, region_of, scale_of};
ghost use Rattle.subregion.specs.Means.{given_in, given_in_box, rect_of_given};

use geom::{Rect, Size};
use names::aid;
use region::Frame;
use svgtree::sides::{Sides, sides_of};
use svgtree::{SvgNode, Units};
use units::LengthContext;

// A child's x, y, width and height as numbers in primitiveUnits, where they are given.
#[inline(always)]
fn given_of(node: SvgNode<'_>, frame: Frame) -> Sides<Option<f32>>
    ensures { result ≡ given_in frame (node_of node.entry) }
{
    let lengths = LengthContext {
        units: frame.units,
        state: frame.state,
        font_size: node.font_size(),
    };
    let sides = sides_of(node);
    Sides {
        x: lengths.try_convert_length(sides.x, aid::X),
        y: lengths.try_convert_length(sides.y, aid::Y),
        width: lengths.try_convert_length(sides.width, aid::WIDTH),
        height: lengths.try_convert_length(sides.height, aid::HEIGHT),
    }
}

// The product is rounded, and then the sum.
fn corner_in_box(fraction: Option<f32>, side: f32, corner: f32) -> Option<f32>
    ensures { result ≡ corner_in_box fraction side corner }
{
    fraction.map(|v| v * side + corner)
}

fn side_in_box(fraction: Option<f32>, side: f32) -> Option<f32>
    ensures { result ≡ side_in_box fraction side }
{
    fraction.map(|v| v * side)
}

// Fractions of the box as numbers of user space.
fn in_box(given: Sides<Option<f32>>, bbox: Rect) -> Sides<Option<f32>>
    ensures { result ≡ given_in_box given bbox }
{
    let size = bbox.size();
    Sides {
        x: corner_in_box(given.x, size.width, bbox.left),
        y: corner_in_box(given.y, size.height, bbox.top),
        width: side_in_box(given.width, size.width),
        height: side_in_box(given.height, size.height),
    }
}

// What is absent is the filter region's own.
#[tactic(auto, unfolding(crate::specs::Subregions::rect_within))]
fn rect_within(region: Rect, given: Sides<Option<f32>>) -> Option<Rect>
    ensures { result ≡ rect_of_given region given }
{
    Rect::from_xywh(
        given.x.unwrap_or(region.left),
        given.y.unwrap_or(region.top),
        given.width.unwrap_or(region.width()),
        given.height.unwrap_or(region.height()),
    )
}

// The child's subregion: its numbers, in box units by the box, and their rectangle, if there is one. Inlined, as the step that asks for it is.
#[inline(always)]
#[tactic(auto, unfolding(crate::specs::Subregions::region_of, crate::specs::Subregions::user_space_region, crate::specs::Subregions::bbox_region))]
pub fn resolve_primitive_region(node: SvgNode<'_>, frame: Frame) -> Option<Rect>
    ensures { result ≡ region_of frame (node_of node.entry) }
{
    let given = given_of(node, frame);
    let given = match frame.units {
        Units::UserSpaceOnUse => given,
        Units::ObjectBoundingBox => in_box(given, frame.bbox?),
    };
    rect_within(frame.region, given)
}

// What the numbers of a child are multiplied by.
#[tactic(auto, unfolding(crate::specs::Subregions::scale_of))]
pub fn scale(frame: Frame) -> Size
    ensures { result ≡ scale_of frame }
{
    match (frame.units, frame.bbox) {
        (Units::ObjectBoundingBox, Some(bbox)) => bbox.size(),
        _ => Size {
            width: 1.0,
            height: 1.0,
        },
    }
}
