// feMorphology: a node's attributes to the fields of its kind, or the refusal that it causes. `scale` is the size of the
// object's box in box units, and else 1 by 1.
#![tactic(auto)]

ghost use Rattle.std.specs.Prelude.{◌≡◌};
ghost use Rattle.names.specs.Ids.{aid_radius};
ghost use Rattle.svgtree.specs.Nodes.{node_of};
ghost use Rattle.svgtree.specs.Readers.{numbers_of};
ghost use Rattle.fe_morphology.specs.Morphology.{morphology_operator_of, one_for_zero, ones_for_zeros, unit_radius, radius_from, radius_of, morphology_of};

use answer::Refusal;
use fe::keyword;
use fe::pair::{Pair, list_pair};
use geom::Size;
use names::aid;
use num::approx_zero_ulps;
use svgtree::SvgNode;
use tree::{Morphology, MorphologyOperator};

const OPERATORS: [(&[u8], MorphologyOperator); 1] = [(b"dilate", MorphologyOperator::Dilate)];

#[tactic(auto, unfolding(fe::specs::Keywords::keyword))]
fn morphology_operator(node: SvgNode<'_>) -> MorphologyOperator
    ensures { result ≡ morphology_operator_of (node_of node.entry) }
{
    let operator = node.attribute(aid::OPERATOR);
    keyword(node.bytes, operator, &OPERATORS, MorphologyOperator::Erode)
}

#[tactic(auto, unfolding(crate::specs::Morphology::one_for_zero))]
fn one_for_zero(x: f32) -> f32
    ensures { result ≡ one_for_zero x }
{
    if approx_zero_ulps(x) { 1.0 } else { x }
}

// A radius near zero becomes 1, as in Chrome and Safari.
fn ones_for_zeros(p: Pair) -> Pair
    ensures { result ≡ ones_for_zeros p }
{
    Pair {
        x: one_for_zero(p.x),
        y: one_for_zero(p.y),
    }
}

// The radius 1 on both axes, scaled.
fn unit_radius(scale: Size) -> Pair
    ensures { result ≡ unit_radius scale }
{
    Pair {
        x: scale.width,
        y: scale.height,
    }
}

// Both radii must have a clear sign; else they are 1.
fn radius_from(p: Pair, scale: Size) -> Option<Pair>
    ensures { result ≡ radius_from p scale }
{
    if p.signs_clear() {
        let scaled = Pair {
            x: p.x * scale.width,
            y: p.y * scale.height,
        };
        return scaled.if_positive();
    }
    Some(unit_radius(scale))
}

fn radius(node: SvgNode<'_>, scale: Size) -> Option<Pair>
    ensures { result ≡ radius_of (numbers_of (node_of node.entry) aid_radius) scale }
{
    match node.attribute(aid::RADIUS) {
        Some(list) => radius_from(ones_for_zeros(list_pair(node.bytes, list)), scale),
        None => Some(unit_radius(scale)),
    }
}

pub fn convert_morphology(node: SvgNode<'_>, scale: Size) -> Result<Morphology, Refusal>
    ensures { result ≡ morphology_of (node_of node.entry) scale }
{
    let operator = morphology_operator(node);
    let radius = radius(node, scale).ok_or(Refusal::Unrepresentable)?;
    Ok(Morphology {
        operator,
        radius_x: radius.x,
        radius_y: radius.y,
    })
}
