// The numbers of a list, one after the other.
ghost use Rattle.std.specs.Prelude.{◌≡◌};
ghost use Rattle.std.specs.Iterator.{YieldsFirst, item_count};
ghost use Rattle.number_list.specs.Lists.{numbers_is, numbers_left};

use crate::{Numbers, next_word};
use bits::get32;
use decimal::window::Window;
use decimal::word_value;
use num::single;

// What is left of a list: its numbers of four bytes each from index i on, or a text. A count and an index, and no Range: `numbers_left` says what is left by
// the two numbers, with a Range it would say the same of its two ends, and only the test and the `+= 1` would go.
#[derive(Clone, Copy)]
pub enum Iter<'a> {
    Packed {
        bytes: &'a [u8],
        at: u32,
        count: u16,
        i: u16,
    },
    Typed(Window<'a>),
}

impl Numbers {
    #[inline(always)]
    #[tactic(auto, using(crate::proofs::Lists::packed_start), unfolding(crate::specs::Lists::numbers_is, crate::specs::Lists::numbers_left))]
    pub fn iter(self, bytes: &[u8]) -> Iter<'_>
        ensures { numbers_left result ≡ numbers_is bytes.now self }
    {
        match self {
            Numbers::Packed { at, count } => Iter::Packed {
                bytes,
                at,
                count,
                i: 0,
            },
            Numbers::Typed { at, len } => Iter::Typed(Window::new(bytes, at, len)),
        }
    }
}

impl<'a> Iterator for Iter<'a> {
    type Item = f32;

    ghost next_gives = { YieldsFirst numbers_left };

    ghost remaining = { item_count numbers_left };

    // Inlined always: out of line it goes through memory, and a kernel of 1,024 numbers takes twice as long.
    #[inline(always)]
    #[tactic(auto, using(crate::proofs::Lists::packed_next, crate::proofs::Lists::packed_end), unfolding(crate::specs::Lists::numbers_left))]
    fn next(&mut self) -> Option<f32> {
        match self {
            Iter::Packed {
                bytes,
                at,
                count,
                i,
            } => {
                if *count <= *i {
                    return None;
                }
                let number = single(get32(bytes, *at as usize + 4 * usize::from(*i)));
                *i += 1;
                Some(number)
            }
            Iter::Typed(text) => {
                let (word, rest) = next_word(*text)?;
                *text = rest;
                Some(word_value(word))
            }
        }
    }
}
