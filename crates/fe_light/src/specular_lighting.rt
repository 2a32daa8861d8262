// feSpecularLighting.
ghost use Rattle.std.specs.Prelude.{◌≡◌};
ghost use Rattle.svgtree.specs.Nodes.{node_of, nodes_of};
ghost use Rattle.fe_light.specs.SpecularLighting.{exponent_in_range, specular_lighting_of};

use crate::light_source::convert_light_source;
use crate::lighting_color::convert_lighting_color;
use fe::number_or;
use names::aid;
use svgtree::SvgNode;
use svgtree::run::NodeRun;
use tree::SpecularLighting;

#[tactic(auto, using(crate::proofs::Exponents::within))]
fn exponent_in_range(x: f32) -> bool
    ensures { result ≡ exponent_in_range x }
{
    (1.0..=128.0).contains(&x)
}

// The source also holds the exponent between 1 and 128, where it is already.
pub fn convert_specular_lighting(
    node: SvgNode<'_>,
    children: NodeRun<'_>,
) -> Option<SpecularLighting>
    ensures { result ≡ specular_lighting_of (node_of node.entry) (nodes_of children.entry) }
{
    let light_source = convert_light_source(children)?;
    let specular_exponent = number_or(node, aid::SPECULAR_EXPONENT, 1.0);
    if !exponent_in_range(specular_exponent) {
        return None;
    }
    Some(SpecularLighting {
        surface_scale: number_or(node, aid::SURFACE_SCALE, 1.0),
        specular_constant: number_or(node, aid::SPECULAR_CONSTANT, 1.0),
        specular_exponent,
        lighting_color: convert_lighting_color(node),
        light_source,
    })
}
