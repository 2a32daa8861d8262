// The attributes `targetX` and `targetY`.
ghost use Rattle.std.specs.Prelude.{◌≡◌};
ghost use Rattle.fe_kernel.specs.Target.{target_below, target_inside, target_of};

use num::f32_to_i32;

fn target_below(t: u32, order: u32) -> Option<u32>
    ensures { result ≡ target_below t order }
{
    (t < order).then_some(t)
}

fn target_inside(t: i32, order: u32) -> Option<u32>
    ensures { result ≡ target_inside t order }
{
    target_below(u32::try_from(t).ok()?, order)
}

#[tactic(auto, unfolding(crate::specs::Target::target_of))]
pub(crate) fn parse_target(target: Option<f32>, order: u32) -> Option<u32>
    ensures { result ≡ target_of target order }
{
    match target {
        Some(x) => target_inside(f32_to_i32(x), order),
        None => target_below(order / 2, order),
    }
}
