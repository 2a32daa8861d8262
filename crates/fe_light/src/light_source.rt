// feDistantLight, fePointLight and feSpotLight.
ghost use Rattle.std.specs.Prelude.{◌≡◌};
ghost use Rattle.svgtree.specs.Nodes.{node_of, nodes_of};
ghost use Rattle.fe_light.specs.LightSource.{distant_light_of, point_light_of, spot_exponent_of, spot_light_of, light_of, light_source_of};

use fe::number_or;
use names::{aid, eid};
use num::positive;
use svgtree::SvgNode;
use svgtree::run::NodeRun;
use tree::{DistantLight, LightSource, PointLight, SpotLight};

fn distant_light(node: SvgNode<'_>) -> DistantLight
    ensures { result ≡ distant_light_of (node_of node.entry) }
{
    DistantLight {
        azimuth: number_or(node, aid::AZIMUTH, 0.0),
        elevation: number_or(node, aid::ELEVATION, 0.0),
    }
}

fn point_light(node: SvgNode<'_>) -> PointLight
    ensures { result ≡ point_light_of (node_of node.entry) }
{
    PointLight {
        x: number_or(node, aid::X, 0.0),
        y: number_or(node, aid::Y, 0.0),
        z: number_or(node, aid::Z, 0.0),
    }
}

// The source's PositiveF32, or 1.
#[tactic(auto, using(num::proofs::Defaults::positive_or))]
fn spot_exponent(node: SvgNode<'_>) -> f32
    ensures { result ≡ spot_exponent_of (node_of node.entry) }
{
    positive(number_or(node, aid::SPECULAR_EXPONENT, 1.0)).unwrap_or(1.0)
}

fn spot_light(node: SvgNode<'_>) -> SpotLight
    ensures { result ≡ spot_light_of (node_of node.entry) }
{
    SpotLight {
        x: number_or(node, aid::X, 0.0),
        y: number_or(node, aid::Y, 0.0),
        z: number_or(node, aid::Z, 0.0),
        points_at_x: number_or(node, aid::POINTS_AT_X, 0.0),
        points_at_y: number_or(node, aid::POINTS_AT_Y, 0.0),
        points_at_z: number_or(node, aid::POINTS_AT_Z, 0.0),
        specular_exponent: spot_exponent(node),
        limiting_cone_angle: node.attribute(aid::LIMITING_CONE_ANGLE),
    }
}

// The light source that a child is.
#[tactic(auto, unfolding(crate::specs::LightSource::light_of))]
fn light(node: SvgNode<'_>) -> Option<LightSource>
    ensures { result ≡ light_of (node_of node.entry) }
{
    match node.tag_name() {
        eid::FE_DISTANT_LIGHT => Some(LightSource::DistantLight(distant_light(node))),
        eid::FE_POINT_LIGHT => Some(LightSource::PointLight(point_light(node))),
        eid::FE_SPOT_LIGHT => Some(LightSource::SpotLight(spot_light(node))),
        _ => None,
    }
}

// The first light source among the children.
pub(crate) fn convert_light_source(children: NodeRun<'_>) -> Option<LightSource>
    ensures { result ≡ light_source_of (nodes_of children.entry) }
{
    children.nodes().find_map(light)
}
