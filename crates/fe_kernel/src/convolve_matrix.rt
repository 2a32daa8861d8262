// feConvolveMatrix.
ghost use Rattle.std.specs.Prelude.{◌≡◌, ◌*◌, eqb, length};
ghost use Rattle.number_list.specs.Lists.{numbers_is};
ghost use Rattle.svgtree.specs.Nodes.{node_of};
ghost use Rattle.fe_kernel.specs.ConvolveMatrix.{kernel_matrix_of, edge_mode_of, preserve_alpha_of, convolve_matrix_of};
ghost use Rattle.fe_kernel.specs.Means.{maybe_matrix_is, maybe_convolve_matrix_is};

use crate::divisor::convert_divisor;
use crate::order::{Order, convert_order};
use crate::target::parse_target;
use fe::{is_word, keyword, number_or};
use names::aid;
use num::approx_zero_ulps;
use number_list::{Numbers, numbers_len};
use svgtree::SvgNode;
use tree::{ConvolveMatrix, ConvolveMatrixData, EdgeMode};

// Whether the kernel has a number for each column of each row. The product is exact.
#[tactic(auto, using(crate::proofs::Products::product_fits))]
fn is_filled(s: &[u8], kernel: Numbers, columns: u32, rows: u32) -> bool
    ensures { result ≡ eqb (length (numbers_is s.now kernel)) (columns * rows) }
{
    usize::from(numbers_len(s, kernel)) == columns as usize * rows as usize
}

// The source's `ConvolveMatrixData::new` with its arguments.
fn convert_matrix(node: SvgNode<'_>, kernel: Numbers) -> Option<ConvolveMatrixData>
    ensures { maybe_matrix_is node.entry.bytes.now result ≡ kernel_matrix_of (node_of node.entry) (numbers_is node.entry.bytes.now kernel) }
{
    let Order { columns, rows } = convert_order(node);
    let target_x = parse_target(node.attribute(aid::TARGET_X), columns)?;
    let target_y = parse_target(node.attribute(aid::TARGET_Y), rows)?;
    if !is_filled(node.bytes, kernel, columns, rows) {
        return None;
    }
    Some(ConvolveMatrixData {
        target_x,
        target_y,
        columns,
        rows,
        data: kernel,
    })
}

const EDGE_MODES: [(&[u8], EdgeMode); 2] = [(b"none", EdgeMode::None), (b"wrap", EdgeMode::Wrap)];

#[tactic(auto, unfolding(fe::specs::Keywords::keyword))]
fn convert_edge_mode(node: SvgNode<'_>) -> EdgeMode
    ensures { result ≡ edge_mode_of (node_of node.entry) }
{
    let mode = node.attribute(aid::EDGE_MODE);
    keyword(node.bytes, mode, &EDGE_MODES, EdgeMode::Duplicate)
}

fn convert_preserve_alpha(node: SvgNode<'_>) -> bool
    ensures { result ≡ preserve_alpha_of (node_of node.entry) }
{
    is_word(node.bytes, node.attribute(aid::PRESERVE_ALPHA), b"true")
}

// The source makes the same dummy primitive of every refusal, so their order is free.
pub fn convert_convolve_matrix(node: SvgNode<'_>) -> Option<ConvolveMatrix>
    ensures { maybe_convolve_matrix_is node.entry.bytes.now result ≡ convolve_matrix_of (node_of node.entry) }
{
    let kernel = node.attribute::<Numbers>(aid::KERNEL_MATRIX)?;
    let divisor = convert_divisor(node, kernel);
    if approx_zero_ulps(divisor) {
        return None;
    }
    Some(ConvolveMatrix {
        matrix: convert_matrix(node, kernel)?,
        divisor,
        bias: number_or(node, aid::BIAS, 0.0),
        edge_mode: convert_edge_mode(node),
        preserve_alpha: convert_preserve_alpha(node),
    })
}
