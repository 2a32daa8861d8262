// feDropShadow: a blur, an offset and a flood in one.
ghost use Rattle.std.specs.Prelude.{◌≡◌};
ghost use Rattle.svgtree.specs.Nodes.{node_of};
ghost use Rattle.fe_blur.specs.DropShadow.{drop_shadow_of};

use crate::gaussian_blur::convert_std_dev_attr;
use crate::offset::scaled_offsets;
use fe_flood::convert_flood;
use geom::Size;
use svgtree::SvgNode;
use tree::DropShadow;

pub fn convert_drop_shadow(node: SvgNode<'_>, scale: Size) -> DropShadow
    ensures { result ≡ drop_shadow_of (node_of node.entry) scale }
{
    let d = convert_std_dev_attr(node, scale, 2.0);
    let f = convert_flood(node);
    let o = scaled_offsets(node, scale, 2.0);
    DropShadow {
        dx: o.dx,
        dy: o.dy,
        std_dev_x: d.x,
        std_dev_y: d.y,
        color: f.color,
        opacity: f.opacity,
    }
}
