// feBlend.
ghost use Rattle.std.specs.Prelude.{◌≡◌};
ghost use Rattle.svgtree.specs.Nodes.{node_of};
ghost use Rattle.fe_color.specs.Blend.{mode_of};

use fe::keyword;
use names::aid;
use svgtree::SvgNode;
use tree::BlendMode;

// The modes but `normal`.
const MODES: [(&[u8], BlendMode); 15] = [
    (b"multiply", BlendMode::Multiply),
    (b"screen", BlendMode::Screen),
    (b"overlay", BlendMode::Overlay),
    (b"darken", BlendMode::Darken),
    (b"lighten", BlendMode::Lighten),
    (b"color-dodge", BlendMode::ColorDodge),
    (b"color-burn", BlendMode::ColorBurn),
    (b"hard-light", BlendMode::HardLight),
    (b"soft-light", BlendMode::SoftLight),
    (b"difference", BlendMode::Difference),
    (b"exclusion", BlendMode::Exclusion),
    (b"hue", BlendMode::Hue),
    (b"saturation", BlendMode::Saturation),
    (b"color", BlendMode::Color),
    (b"luminosity", BlendMode::Luminosity),
];

pub fn convert_blend(node: SvgNode<'_>) -> BlendMode
    ensures { result ≡ mode_of (node_of node.entry) }
{
    let mode = node.attribute(aid::MODE);
    keyword(node.bytes, mode, &MODES, BlendMode::Normal)
}
