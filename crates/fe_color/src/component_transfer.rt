// feComponentTransfer and its children feFuncR, feFuncG, feFuncB and feFuncA.
ghost use Rattle.std.specs.Prelude.{◌≡◌, [], ◌∷◌};
ghost use Rattle.number_list.specs.Lists.{numbers_is};
ghost use Rattle.svgtree.specs.Nodes.{node_of, nodes_of};
ghost use Rattle.tree.specs.Means.{transfer_function_is, component_transfer_is};
ghost use Rattle.fe_color.specs.ComponentTransfer.{table_values_of, linear_of, gamma_of, transfer_function_of, transfer_from, component_transfer_of};
ghost use Rattle.fe_color.specs.Means.{maybe_transfer_function_is, assigned};

use fe::{is_word, number_or};
use names::{aid, eid};
use number_list::{Numbers, no_numbers};
use svgtree::SvgNode;
use svgtree::run::NodeRun;
use tree::{ComponentTransfer, TransferFunction};

// `tableValues`, an empty list where it is absent.
fn table_values(node: SvgNode<'_>) -> Numbers
    ensures { numbers_is node.entry.bytes.now result ≡ table_values_of (node_of node.entry) }
{
    node.attribute(aid::TABLE_VALUES).unwrap_or(no_numbers())
}

fn linear(node: SvgNode<'_>) -> TransferFunction
    ensures { transfer_function_is node.entry.bytes.now result ≡ linear_of (node_of node.entry) }
{
    TransferFunction::Linear {
        slope: number_or(node, aid::SLOPE, 1.0),
        intercept: number_or(node, aid::INTERCEPT, 0.0),
    }
}

fn gamma(node: SvgNode<'_>) -> TransferFunction
    ensures { transfer_function_is node.entry.bytes.now result ≡ gamma_of (node_of node.entry) }
{
    TransferFunction::Gamma {
        amplitude: number_or(node, aid::AMPLITUDE, 1.0),
        exponent: number_or(node, aid::EXPONENT, 1.0),
        offset: number_or(node, aid::OFFSET, 0.0),
    }
}

// No table of `keyword`, as for feColorMatrix: a table would hold each function with its numbers read, though one of them is asked for.
#[tactic(auto, unfolding(fe::specs::Keywords::keyword, crate::specs::ComponentTransfer::transfer_function_of))]
pub fn convert_transfer_function(node: SvgNode<'_>) -> Option<TransferFunction>
    ensures { maybe_transfer_function_is node.entry.bytes.now result ≡ transfer_function_of (node_of node.entry) }
{
    let kind = node.attribute(aid::TYPE);
    if is_word(node.bytes, kind, b"identity") {
        return Some(TransferFunction::Identity);
    }
    if is_word(node.bytes, kind, b"table") {
        return Some(TransferFunction::Table(table_values(node)));
    }
    if is_word(node.bytes, kind, b"discrete") {
        return Some(TransferFunction::Discrete(table_values(node)));
    }
    if is_word(node.bytes, kind, b"linear") {
        return Some(linear(node));
    }
    if is_word(node.bytes, kind, b"gamma") {
        return Some(gamma(node));
    }
    None
}

// The functions once `func` has been given to the channel of a tag.
#[tactic(auto, unfolding(crate::specs::Means::assigned))]
fn assign(kind: ComponentTransfer, tag: u8, func: TransferFunction) -> ComponentTransfer
    ensures { result ≡ assigned kind tag func }
{
    match tag {
        eid::FE_FUNC_R => ComponentTransfer {
            func_r: func,
            ..kind
        },
        eid::FE_FUNC_G => ComponentTransfer {
            func_g: func,
            ..kind
        },
        eid::FE_FUNC_B => ComponentTransfer {
            func_b: func,
            ..kind
        },
        eid::FE_FUNC_A => ComponentTransfer {
            func_a: func,
            ..kind
        },
        _ => kind,
    }
}

// The functions once a child has been looked at: only a readable one changes them.
#[tactic(auto, using(crate::proofs::Transfer::child_yes, crate::proofs::Transfer::child_no))]
fn with_child(kind: ComponentTransfer, child: SvgNode<'_>) -> ComponentTransfer
    ensures { component_transfer_is child.entry.bytes.now result ≡ transfer_from (component_transfer_is child.entry.bytes.now kind) (node_of child.entry ∷ []) }
{
    match convert_transfer_function(child) {
        Some(func) => assign(kind, child.tag_name(), func),
        None => kind,
    }
}

pub fn convert_component_transfer(children: NodeRun<'_>) -> ComponentTransfer
    ensures { component_transfer_is children.entry.bytes.now result ≡ component_transfer_of (nodes_of children.entry) }
{
    let unchanged = ComponentTransfer {
        func_r: TransferFunction::Identity,
        func_g: TransferFunction::Identity,
        func_b: TransferFunction::Identity,
        func_a: TransferFunction::Identity,
    };
    children.nodes().fold(unchanged, with_child)
}
