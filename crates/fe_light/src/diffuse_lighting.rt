// feDiffuseLighting.
ghost use Rattle.std.specs.Prelude.{◌≡◌};
ghost use Rattle.svgtree.specs.Nodes.{node_of, nodes_of};
ghost use Rattle.fe_light.specs.DiffuseLighting.{diffuse_lighting_of};

use crate::light_source::convert_light_source;
use crate::lighting_color::convert_lighting_color;
use fe::number_or;
use names::aid;
use svgtree::SvgNode;
use svgtree::run::NodeRun;
use tree::DiffuseLighting;

pub fn convert_diffuse_lighting(node: SvgNode<'_>, children: NodeRun<'_>) -> Option<DiffuseLighting>
    ensures { result ≡ diffuse_lighting_of (node_of node.entry) (nodes_of children.entry) }
{
    let light_source = convert_light_source(children)?;
    Some(DiffuseLighting {
        surface_scale: number_or(node, aid::SURFACE_SCALE, 1.0),
        diffuse_constant: number_or(node, aid::DIFFUSE_CONSTANT, 1.0),
        lighting_color: convert_lighting_color(node),
        light_source,
    })
}
