// feDisplacementMap: a node's attributes to the fields of its kind, or the refusal that it causes. `scale` is the
// size of the object's box in box units, and else 1 by 1.
#![tactic(auto)]

ghost use Rattle.std.specs.Prelude.{◌≡◌};
ghost use Rattle.svgtree.specs.Nodes.{node_of};
ghost use Rattle.svgtree.specs.Readers.{text_of};
ghost use Rattle.fe_displacement_map.specs.DisplacementMap.{channel_of, displacement_with, displacement_map_of};

use answer::Refusal;
use fe::{keyword, number_or};
use geom::Size;
use names::aid;
use num::is_finite;
use svgtree::SvgNode;
use tree::{ColorChannel, DisplacementMap};

const CHANNELS: [(&[u8], ColorChannel); 3] = [
    (b"R", ColorChannel::R),
    (b"G", ColorChannel::G),
    (b"B", ColorChannel::B),
];

#[tactic(auto, unfolding(fe::specs::Keywords::keyword))]
fn parse_channel(node: SvgNode<'_>, id: u16) -> ColorChannel
    ensures { result ≡ channel_of (text_of (node_of node.entry) id) }
{
    keyword(node.bytes, node.attribute(id), &CHANNELS, ColorChannel::A)
}

// `sum` is width + height.
fn displacement_map(node: SvgNode<'_>, sum: f32) -> DisplacementMap
    ensures { result ≡ displacement_with (node_of node.entry) sum }
{
    DisplacementMap {
        scale: number_or(node, aid::SCALE, 0.0) * (sum / 2.0),
        x_channel_selector: parse_channel(node, aid::X_CHANNEL_SELECTOR),
        y_channel_selector: parse_channel(node, aid::Y_CHANNEL_SELECTOR),
    }
}

pub fn convert_displacement_map(node: SvgNode<'_>, scale: Size) -> Result<DisplacementMap, Refusal>
    ensures { result ≡ displacement_map_of (node_of node.entry) scale }
{
    let sum = scale.width + scale.height;
    if is_finite(sum) {
        Ok(displacement_map(node, sum))
    } else {
        Err(Refusal::Unrepresentable)
    }
}
