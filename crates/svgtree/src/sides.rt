// The attributes x, y, width and height of a node. Every child's subregion asks all four, so they are found in one walk over the attributes.
ghost use Rattle.std.specs.Prelude.{◌≡◌};
ghost use Rattle.svgtree.specs.Readers.{length_in};
ghost use Rattle.svgtree.specs.Means.{found_is};
ghost use Rattle.svgtree.specs.Nodes.{node_of};
ghost use Rattle.svgtree.specs.Sides.{FoundSides, SidesOf};

use crate::values::FromValue;
use crate::{Found, Length, SvgNode};
use names::aid;

// What stands for each of the four: where it is, a length, a number.
#[derive(Clone, Copy)]
pub struct Sides<T> {
    pub x: T,
    pub y: T,
    pub width: T,
    pub height: T,
}

// Of several attributes with one id the first counts, as it does in a search.
#[tactic(auto, using(crate::proofs::FirstWith::firsts))]
fn find_sides(node: SvgNode<'_>) -> Sides<Option<Found>>
    ensures { FoundSides node.entry.bytes.now (node_of node.entry).attributes result }
{
    let mut sides = Sides {
        x: None,
        y: None,
        width: None,
        height: None,
    };
    for attribute in node.attributes() {
        let value = Some(attribute.value);
        match attribute.id {
            aid::X => sides.x = sides.x.or(value),
            aid::Y => sides.y = sides.y.or(value),
            aid::WIDTH => sides.width = sides.width.or(value),
            aid::HEIGHT => sides.height = sides.height.or(value),
            _ => {}
        }
    }
    sides
}

#[tactic(auto, using(crate::proofs::ByKind::by_kind))]
fn length_of(bytes: &[u8], found: Option<Found>) -> Option<Length>
    ensures { result ≡ length_in (found_is bytes.now found) }
{
    Length::parse(bytes, found?)
}

pub fn sides_of(node: SvgNode<'_>) -> Sides<Option<Length>>
    ensures { SidesOf (node_of node.entry) result }
{
    let found = find_sides(node);
    Sides {
        x: length_of(node.bytes, found.x),
        y: length_of(node.bytes, found.y),
        width: length_of(node.bytes, found.width),
        height: length_of(node.bytes, found.height),
    }
}
