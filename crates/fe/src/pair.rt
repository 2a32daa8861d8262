// A number for x and one for y, as `radius`, `baseFrequency` and `stdDeviation` have them.
ghost use Rattle.std.specs.Prelude.{◌≡◌};
ghost use Rattle.number_list.specs.Lists.{numbers_is};
ghost use Rattle.fe.specs.Pairs.{pair_in, signs_clear, if_positive};

use num::{is_positive, is_sign_negative};
use number_list::Numbers;

#[derive(Clone, Copy)]
pub struct Pair {
    pub x: f32,
    pub y: f32,
}

impl Pair {
    pub const ZERO: Pair = Pair { x: 0.0, y: 0.0 };

    #[tactic(auto, unfolding(crate::specs::Pairs::signs_clear))]
    pub fn signs_clear(self) -> bool
        ensures { result ≡ signs_clear self }
    {
        !is_sign_negative(self.x) && !is_sign_negative(self.y)
    }

    #[tactic(auto, unfolding(crate::specs::Pairs::if_positive))]
    pub fn if_positive(self) -> Option<Pair>
        ensures { result ≡ if_positive self }
    {
        (is_positive(self.x) && is_positive(self.y)).then_some(self)
    }
}

// Two numbers, or one for both; 0, 0 for a list of another length.
#[tactic(auto, unfolding(crate::specs::Pairs::pair_in))]
pub fn list_pair(s: &[u8], ns: Numbers) -> Pair
    ensures { result ≡ pair_in (numbers_is s.now ns) }
{
    let mut numbers = ns.iter(s);
    match (numbers.next(), numbers.next(), numbers.next()) {
        (Some(x), None, _) => Pair { x, y: x },
        (Some(x), Some(y), None) => Pair { x, y },
        _ => Pair::ZERO,
    }
}
