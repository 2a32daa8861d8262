// feTurbulence: a node's attributes to the fields of its kind, or the refusal that it causes.
#![tactic(auto)]

ghost use Rattle.std.specs.Prelude.{◌≡◌};
ghost use Rattle.names.specs.Ids.{aid_base_frequency};
ghost use Rattle.svgtree.specs.Nodes.{node_of};
ghost use Rattle.svgtree.specs.Readers.{numbers_of};
ghost use Rattle.fe_turbulence.specs.Turbulence.{frequency_from, frequency_of, turbulence_kind_of, turbulence_fields, turbulence_of};

use answer::Refusal;
use fe::pair::{Pair, list_pair};
use fe::{is_word, keyword, number_or};
use names::aid;
use num::{f32_to_i32, octaves};
use svgtree::SvgNode;
use tree::{Turbulence, TurbulenceKind};

fn frequency_from(p: Pair) -> Option<Pair>
    ensures { result ≡ frequency_from p }
{
    if p.signs_clear() {
        p.if_positive()
    } else {
        Some(Pair::ZERO)
    }
}

fn base_frequency(node: SvgNode<'_>) -> Option<Pair>
    ensures { result ≡ frequency_of (numbers_of (node_of node.entry) aid_base_frequency) }
{
    match node.attribute(aid::BASE_FREQUENCY) {
        Some(list) => frequency_from(list_pair(node.bytes, list)),
        None => Some(Pair::ZERO),
    }
}

const KINDS: [(&[u8], TurbulenceKind); 1] = [(b"fractalNoise", TurbulenceKind::FractalNoise)];

#[tactic(auto, unfolding(fe::specs::Keywords::keyword))]
fn turbulence_kind(node: SvgNode<'_>) -> TurbulenceKind
    ensures { result ≡ turbulence_kind_of (node_of node.entry) }
{
    let kind = node.attribute(aid::TYPE);
    keyword(node.bytes, kind, &KINDS, TurbulenceKind::Turbulence)
}

fn turbulence_fields(node: SvgNode<'_>, p: Pair) -> Turbulence
    ensures { result ≡ turbulence_fields (node_of node.entry) p }
{
    Turbulence {
        base_frequency_x: p.x,
        base_frequency_y: p.y,
        num_octaves: octaves(number_or(node, aid::NUM_OCTAVES, 1.0)),
        seed: f32_to_i32(number_or(node, aid::SEED, 0.0)),
        stitch_tiles: is_word(node.bytes, node.attribute(aid::STITCH_TILES), b"stitch"),
        kind: turbulence_kind(node),
    }
}

pub fn convert_turbulence(node: SvgNode<'_>) -> Result<Turbulence, Refusal>
    ensures { result ≡ turbulence_of (node_of node.entry) }
{
    let frequency = base_frequency(node).ok_or(Refusal::BadFrequency)?;
    Ok(turbulence_fields(node, frequency))
}
