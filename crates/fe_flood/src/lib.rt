// feFlood, and the flood that stands for a light or a kernel that cannot be used.
#![tactic(auto)]

ghost use Rattle.std.specs.Prelude.{◌≡◌};
ghost use Rattle.svgtree.specs.Nodes.{node_of};
ghost use Rattle.fe_flood.specs.Flood.{or_black, split_alpha, flood_of, transparent_black};

use fe::{BLACK, number_or, without_alpha};
use names::aid;
use svgtree::SvgNode;
use tree::Flood;

// A colour without its alpha, and the opacity that stands for the alpha.
#[derive(Clone, Copy)]
pub struct SplitColor {
    pub color: tree::Color,
    pub opacity: f32,
}

const OPAQUE_BLACK: svgtree::Color = svgtree::Color {
    red: 0,
    green: 0,
    blue: 0,
    alpha: 255,
};

fn or_black(c: Option<svgtree::Color>) -> svgtree::Color
    ensures { result ≡ or_black c }
{
    c.unwrap_or(OPAQUE_BLACK)
}

#[tactic(auto, unfolding(crate::specs::Flood::alpha_opacity))]
pub fn split_alpha(c: svgtree::Color) -> SplitColor
    ensures { result ≡ split_alpha c }
{
    SplitColor {
        color: without_alpha(c),
        opacity: (c.alpha as f32) / 255.0,
    }
}

pub fn convert_flood(node: SvgNode<'_>) -> Flood
    ensures { result ≡ flood_of (node_of node.entry) }
{
    let c = split_alpha(or_black(node.attribute(aid::FLOOD_COLOR)));
    let flood_opacity = number_or(node, aid::FLOOD_OPACITY, 1.0);
    Flood {
        color: c.color,
        opacity: c.opacity * flood_opacity,
    }
}

// What stands for a light or a kernel that cannot be used.
pub fn create_dummy_primitive() -> Flood
    ensures { result ≡ transparent_black }
{
    Flood {
        color: BLACK,
        opacity: 0.0,
    }
}
