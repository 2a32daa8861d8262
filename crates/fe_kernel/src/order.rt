// The attribute `order`.
ghost use Rattle.std.specs.Prelude.{◌≡◌};
ghost use Rattle.svgtree.specs.Means.{try_is};
ghost use Rattle.svgtree.specs.Nodes.{node_of};
ghost use Rattle.fe_kernel.specs.Order.{above_zero, cut_or, both_above, order_of};

use names::aid;
use num::f64_to_i32;
use svgtree::{SvgNode, Tries};

// How many columns and rows a kernel has.
#[derive(Clone, Copy)]
pub struct Order {
    pub columns: u32,
    pub rows: u32,
}

// Where none is given that can be used.
const DEFAULT: Order = Order {
    columns: 3,
    rows: 3,
};

// A number that exceeds 0.
fn above_zero(x: i32) -> Option<u32>
    ensures { result ≡ above_zero x }
{
    u32::try_from(x).ok().filter(|&n| 0 < n)
}

fn cut_or(t: Option<u64>, default: u32) -> Option<u32>
    ensures { result ≡ cut_or (try_is t) default }
{
    match t {
        Some(bits) => above_zero(f64_to_i32(bits)),
        None => Some(default),
    }
}

// The order of two numbers, or of one for both.
fn tried_order(tries: Tries) -> Option<Order>
    ensures { result ≡ both_above (try_is tries.first) (try_is tries.second) }
{
    let columns = cut_or(tries.first, 3)?;
    let rows = cut_or(tries.second, columns)?;
    Some(Order { columns, rows })
}

#[tactic(auto, unfolding(crate::specs::Order::order_in))]
pub(crate) fn convert_order(node: SvgNode<'_>) -> Order
    ensures { result ≡ order_of (node_of node.entry) }
{
    node.attribute::<Tries>(aid::ORDER)
        .and_then(tried_order)
        .unwrap_or(DEFAULT)
}
