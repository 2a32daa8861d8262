// feGaussianBlur, and the attribute `stdDeviation`, which feDropShadow has too.
ghost use Rattle.std.specs.Prelude.{◌≡◌};
ghost use Rattle.svgtree.specs.Means.{try_is, maybe_tries_is};
ghost use Rattle.svgtree.specs.Nodes.{node_of};
ghost use Rattle.fe_blur.specs.GaussianBlur.{numbers_tried, numbers_or_default, deviation, deviations_of, gaussian_blur_of};

use fe::pair::Pair;
use geom::Size;
use names::aid;
use num::{double_narrowed, positive};
use svgtree::{SvgNode, Tries};
use tree::GaussianBlur;

// The numbers that three tries give.
#[tactic(auto, unfolding(num::specs::Means::double_of))]
fn tried_numbers(t: Tries) -> Pair
    ensures { result ≡ numbers_tried (try_is t.first) (try_is t.second) (try_is t.third) }
{
    let (Some(a), None) = (t.first, t.third) else {
        return Pair::ZERO;
    };
    let x = double_narrowed(a);
    Pair {
        x,
        y: t.second.map_or(x, double_narrowed),
    }
}

fn numbers_or_default(t: Option<Tries>, default: f32) -> Pair
    ensures { result ≡ numbers_or_default (maybe_tries_is t) default }
{
    t.map(tried_numbers).unwrap_or(Pair {
        x: default,
        y: default,
    })
}

// Scaled first, compared then.
#[tactic(auto, using(num::proofs::Defaults::positive_or), unfolding(crate::specs::GaussianBlur::deviation))]
fn scaled_deviation(n: f32, scale: f32) -> f32
    ensures { result ≡ deviation n scale }
{
    positive(n * scale).unwrap_or(0.0)
}

// `default` stands for both numbers where the attribute is absent.
pub fn convert_std_dev_attr(node: SvgNode<'_>, scale: Size, default: f32) -> Pair
    ensures { result ≡ deviations_of (node_of node.entry) scale default }
{
    let p = numbers_or_default(node.attribute(aid::STD_DEVIATION), default);
    Pair {
        x: scaled_deviation(p.x, scale.width),
        y: scaled_deviation(p.y, scale.height),
    }
}

pub fn convert_gaussian_blur(node: SvgNode<'_>, scale: Size) -> GaussianBlur
    ensures { result ≡ gaussian_blur_of (node_of node.entry) scale }
{
    let d = convert_std_dev_attr(node, scale, 0.0);
    GaussianBlur {
        std_dev_x: d.x,
        std_dev_y: d.y,
    }
}
