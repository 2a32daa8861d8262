// lighting-color, which both elements have.
ghost use Rattle.std.specs.Prelude.{◌≡◌};
ghost use Rattle.svgtree.specs.Nodes.{node_of};
ghost use Rattle.fe_light.specs.LightingColor.{opaque_or, lighting_color_of};

use fe::{BLACK, WHITE, is_word, without_alpha};
use names::aid;
use svgtree::SvgNode;
use tree::Color;

// The source's `split_alpha().0`.
fn opaque_or(color: Option<svgtree::Color>, default: Color) -> Color
    ensures { result ≡ opaque_or color default }
{
    color.map_or(default, without_alpha)
}

pub(crate) fn convert_lighting_color(node: SvgNode<'_>) -> Color
    ensures { result ≡ lighting_color_of (node_of node.entry) }
{
    // `currentColor` is a text, and every other value a colour.
    let text = node.attribute(aid::LIGHTING_COLOR);
    if is_word(node.bytes, text, b"currentColor") {
        return opaque_or(node.attribute(aid::COLOR), BLACK);
    }
    opaque_or(node.attribute(aid::LIGHTING_COLOR), WHITE)
}
