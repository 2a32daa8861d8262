// feOffset.
ghost use Rattle.std.specs.Prelude.{◌≡◌};
ghost use Rattle.svgtree.specs.Nodes.{node_of};
ghost use Rattle.fe_blur.specs.Offset.{offsets_of, offset_fields_of};

use fe::number_or;
use geom::Size;
use names::aid;
use svgtree::SvgNode;
use tree::Offset;

// `default` stands for each number that is absent.
pub(crate) fn scaled_offsets(node: SvgNode<'_>, scale: Size, default: f32) -> Offset
    ensures { result ≡ offsets_of (node_of node.entry) scale default }
{
    let dx = number_or(node, aid::DX, default);
    let dy = number_or(node, aid::DY, default);
    Offset {
        dx: dx * scale.width,
        dy: dy * scale.height,
    }
}

pub fn convert_offset(node: SvgNode<'_>, scale: Size) -> Offset
    ensures { result ≡ offset_fields_of (node_of node.entry) scale }
{
    scaled_offsets(node, scale, 0.0)
}
