// feColorMatrix.
ghost use Rattle.std.specs.Prelude.{◌≡◌};
ghost use Rattle.number_list.specs.Lists.{numbers_is};
ghost use Rattle.svgtree.specs.Nodes.{node_of};
ghost use Rattle.svgtree.specs.Means.{maybe_numbers_is};
ghost use Rattle.tree.specs.Means.{color_matrix_kind_is};
ghost use Rattle.fe_color.specs.ColorMatrix.{first_or, saturate_of, hue_rotate_of, matrix_of, color_matrix_kind_of};

use fe::is_word;
use names::aid;
use num::f32_bound;
use number_list::{Numbers, numbers_len};
use svgtree::SvgNode;
use tree::ColorMatrixKind;

fn first_or(s: &[u8], list: Numbers, default: f32) -> f32
    ensures { result ≡ first_or default (numbers_is s.now list) }
{
    list.iter(s).next().unwrap_or(default)
}

fn saturate(s: &[u8], values: Option<Numbers>) -> ColorMatrixKind
    ensures { color_matrix_kind_is s.now result ≡ saturate_of (maybe_numbers_is s.now values) }
{
    match values {
        Some(list) => ColorMatrixKind::Saturate(f32_bound(0.0, first_or(s, list, 1.0), 1.0)),
        None => ColorMatrixKind::Identity,
    }
}

fn hue_rotate(s: &[u8], values: Option<Numbers>) -> ColorMatrixKind
    ensures { color_matrix_kind_is s.now result ≡ hue_rotate_of (maybe_numbers_is s.now values) }
{
    match values {
        Some(list) => ColorMatrixKind::HueRotate(first_or(s, list, 0.0)),
        None => ColorMatrixKind::Identity,
    }
}

fn matrix(s: &[u8], values: Option<Numbers>) -> ColorMatrixKind
    ensures { color_matrix_kind_is s.now result ≡ matrix_of (maybe_numbers_is s.now values) }
{
    match values {
        Some(list) if numbers_len(s, list) == 20 => ColorMatrixKind::Matrix(list),
        _ => ColorMatrixKind::Identity,
    }
}

// No table of `keyword`: each word has a conversion of its own, and a table would hold the answers of them all before one is chosen.
#[tactic(auto, unfolding(fe::specs::Keywords::keyword))]
pub fn convert_color_matrix_kind(node: SvgNode<'_>) -> ColorMatrixKind
    ensures { color_matrix_kind_is node.entry.bytes.now result ≡ color_matrix_kind_of (node_of node.entry) }
{
    let kind = node.attribute(aid::TYPE);
    let values = node.attribute(aid::VALUES);
    if is_word(node.bytes, kind, b"saturate") {
        return saturate(node.bytes, values);
    }
    if is_word(node.bytes, kind, b"hueRotate") {
        return hue_rotate(node.bytes, values);
    }
    if is_word(node.bytes, kind, b"luminanceToAlpha") {
        return ColorMatrixKind::LuminanceToAlpha;
    }
    matrix(node.bytes, values)
}
