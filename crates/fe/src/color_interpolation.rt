// color-interpolation-filters, which any element has.
ghost use Rattle.std.specs.Prelude.{◌≡◌};
ghost use Rattle.svgtree.specs.Nodes.{node_of};
ghost use Rattle.fe.specs.ColorInterpolation.{color_interpolation_of};

use crate::keyword;
use names::aid;
use svgtree::SvgNode;
use tree::ColorInterpolation;

// `auto` and every text that is no keyword are linearRGB.
const KEYWORDS: [(&[u8], ColorInterpolation); 1] = [(b"sRGB", ColorInterpolation::SRGB)];

// Inlined, as the step that asks for it is (`chain`).
#[inline(always)]
#[tactic(auto, unfolding(crate::specs::Keywords::keyword))]
pub fn convert_color_interpolation(node: SvgNode<'_>) -> ColorInterpolation
    ensures { result ≡ color_interpolation_of (node_of node.entry) }
{
    let text = node.attribute(aid::COLOR_INTERPOLATION_FILTERS);
    keyword(node.bytes, text, &KEYWORDS, ColorInterpolation::LinearRGB)
}
