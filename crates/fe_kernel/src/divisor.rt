// The attribute `divisor`.
ghost use Rattle.std.specs.Prelude.{◌≡◌};
ghost use Rattle.number_list.specs.Lists.{numbers_is};
ghost use Rattle.num.specs.Constants.{plus_zero};
ghost use Rattle.svgtree.specs.Nodes.{node_of};
ghost use Rattle.fe_kernel.specs.Divisor.{sum_from, default_divisor, divisor_of};

use fe::number_or;
use names::aid;
use num::{approx_zero_ulps, round_f32};
use number_list::Numbers;
use svgtree::SvgNode;

#[tactic(auto, unfolding(crate::specs::Divisor::sum_from))]
fn sum(s: &[u8], kernel: Numbers) -> f32
    ensures { result ≡ sum_from plus_zero (numbers_is s.now kernel) }
{
    let mut total = 0.0;
    for number in kernel.iter(s) {
        total += number;
    }
    total
}

#[tactic(auto, unfolding(crate::specs::Divisor::default_divisor))]
fn default_divisor(s: &[u8], kernel: Numbers) -> f32
    ensures { result ≡ default_divisor (numbers_is s.now kernel) }
{
    // Rounded, as the source has it, against the loss of precision in the sum.
    let kernel_sum = round_f32(sum(s, kernel) * 1000000.0) / 1000000.0;
    if approx_zero_ulps(kernel_sum) {
        return 1.0;
    }
    kernel_sum
}

pub(crate) fn convert_divisor(node: SvgNode<'_>, kernel: Numbers) -> f32
    ensures { result ≡ divisor_of (node_of node.entry) (numbers_is node.entry.bytes.now kernel) }
{
    number_or(node, aid::DIVISOR, default_divisor(node.bytes, kernel))
}
