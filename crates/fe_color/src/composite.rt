// feComposite.
ghost use Rattle.std.specs.Prelude.{◌≡◌};
ghost use Rattle.svgtree.specs.Nodes.{node_of};
ghost use Rattle.fe_color.specs.Composite.{arithmetic_of, composite_operator_of};

use fe::{is_word, keyword, number_or};
use names::aid;
use svgtree::SvgNode;
use tree::CompositeOperator;

fn arithmetic(node: SvgNode<'_>) -> CompositeOperator
    ensures { result ≡ arithmetic_of (node_of node.entry) }
{
    CompositeOperator::Arithmetic {
        k1: number_or(node, aid::K1, 0.0),
        k2: number_or(node, aid::K2, 0.0),
        k3: number_or(node, aid::K3, 0.0),
        k4: number_or(node, aid::K4, 0.0),
    }
}

// The operators but `over`, and but `arithmetic`, which has numbers.
const OPERATORS: [(&[u8], CompositeOperator); 5] = [
    (b"in", CompositeOperator::In),
    (b"out", CompositeOperator::Out),
    (b"atop", CompositeOperator::Atop),
    (b"xor", CompositeOperator::Xor),
    (b"lighter", CompositeOperator::Lighter),
];

#[tactic(auto, unfolding(fe::specs::Keywords::keyword))]
pub fn convert_composite(node: SvgNode<'_>) -> CompositeOperator
    ensures { result ≡ composite_operator_of (node_of node.entry) }
{
    let operator = node.attribute(aid::OPERATOR);
    if is_word(node.bytes, operator, b"arithmetic") {
        return arithmetic(node);
    }
    keyword(node.bytes, operator, &OPERATORS, CompositeOperator::Over)
}
