// The bytes in the list of everything but inputs: how each type of value stands there and how many bytes it takes, and the list's pairs.
#![tactic(auto)]

ghost use Rattle.std.specs.Prelude.{◌≡◌, ℕ, List, ◌+◌, ◌*◌, ◌^◌, ◌<◌, length};
ghost use Rattle.bits.specs.Writer.{HasRoom, Writes};
ghost use Rattle.bits.specs.Texts.{text_is};
ghost use Rattle.number_list.specs.Lists.{numbers_is};
ghost use Rattle.tree.specs.Input.{text_bytes};
ghost use Rattle.tree.specs.Scalars.{color_bytes, rect_bytes, option_bytes, numbers_bytes, run_bytes};
ghost use Rattle.tree.specs.Sizes.{option_size, numbers_size, total};
ghost use Rattle.tree.specs.List.{pairs_bytes};
ghost use Rattle.tree.proofs.Lengths.{length_own, length_color, length_rect, length_option};
ghost use Rattle.tree.proofs.Runs.{length_numbers};

use bits::Text;
use bits::writer::Writer;
use geom::Rect;
use number_list::{Numbers, numbers_len};
use tree::Color;

mod fields;

// A value as it stands in the list. Its text or numbers may be places in the sheet's bytes, `s`. Not over `ToBytes`, where every value of a type takes as many
// bytes and needs no other's.
pub trait ToList: Copy + Drop {
    // Its bytes in the list of a sheet with these bytes.
    ghost bytes: { List ℕ → Self → List ℕ };

    // How many they are.
    ghost size: { List ℕ → Self → ℕ };

    // What every size is below.
    ghost bound: { ℕ };

    fn size(self, s: &[u8]) -> u32
        ensures { (result ≡ size s.now self) × (result < bound) };

    fn put_to(self, s: &[u8], out: &mut Writer)
        requires { HasRoom out.old (size s.now self) }
        ensures { Writes out.old (size s.now self) (bytes s.now self) out.new };

    ghost counted: { (s : List ℕ) (v : Self) → length (bytes s v) ≡ size s v };
}

// A text, with its count.
impl ToList for Text {
    ghost bytes = { λ s t. text_bytes (text_is s t) };

    ghost size = { λ _ t. 2 + t.len };

    ghost bound = { 258 };

    ghost counted = { length_own };

    fn size(self, _s: &[u8]) -> u32 {
        2 + u32::from(self.len)
    }

    fn put_to(self, s: &[u8], out: &mut Writer) {
        let n = u16::from(self.len);
        out.put(n);
        out.copy(s, self.at, n);
    }
}

impl ToList for Color {
    ghost bytes = { λ _ v. color_bytes v };

    ghost size = { λ _ _. 3 };

    ghost bound = { 4 };

    ghost counted = { λ _ v. length_color v };

    fn size(self, _s: &[u8]) -> u32 {
        3
    }

    #[tactic(auto, unfolding(tree::specs::Scalars::color_bytes))]
    fn put_to(self, _s: &[u8], out: &mut Writer) {
        out.put(self.red);
        out.put(self.green);
        out.put(self.blue);
    }
}

// The corner and the size, and not the four edges.
impl ToList for Rect {
    ghost bytes = { λ _ v. rect_bytes v };

    ghost size = { λ _ _. 16 };

    ghost bound = { 17 };

    ghost counted = { λ _ v. length_rect v };

    fn size(self, _s: &[u8]) -> u32 {
        16
    }

    #[tactic(auto, unfolding(tree::specs::Scalars::rect_bytes))]
    fn put_to(self, _s: &[u8], out: &mut Writer) {
        out.put(self.x());
        out.put(self.y());
        out.put(self.width());
        out.put(self.height());
    }
}

// A byte, 0 or 1, says whether a number follows.
impl ToList for Option<f32> {
    ghost bytes = { λ _ v. option_bytes v };

    ghost size = { λ _ v. option_size v };

    ghost bound = { 6 };

    ghost counted = { λ _ v. length_option v };

    fn size(self, _s: &[u8]) -> u32 {
        match self {
            None => 1,
            Some(_) => 5,
        }
    }

    #[tactic(auto, unfolding(tree::specs::Scalars::option_bytes))]
    fn put_to(self, _s: &[u8], out: &mut Writer) {
        match self {
            None => out.put(0u8),
            Some(x) => {
                out.put(1u8);
                out.put(x);
            }
        }
    }
}

// Lists of numbers.

// The numbers of a list, one at a time.
fn put_run(s: &[u8], v: Numbers, out: &mut Writer)
    requires { HasRoom out.old (4 * length (numbers_is s.now v)) }
    ensures { Writes out.old (4 * length (numbers_is s.now v)) (run_bytes (numbers_is s.now v)) out.new }
{
    for x in v.iter(s) {
        out.put(x);
    }
}

impl ToList for Numbers {
    ghost bytes = { λ s v. numbers_bytes (numbers_is s v) };

    ghost size = { λ s v. numbers_size (numbers_is s v) };

    ghost bound = { 2 ^ 18 };

    ghost counted = { λ s v. length_numbers (numbers_is s v) };

    fn size(self, s: &[u8]) -> u32 {
        2 + 4 * u32::from(numbers_len(s, self))
    }

    #[tactic(auto, unfolding(tree::specs::Scalars::numbers_bytes))]
    fn put_to(self, s: &[u8], out: &mut Writer) {
        out.put(numbers_len(s, self));
        put_run(s, self, out);
    }
}

// The same for numbers that stand in an array. Not one function over iterators: what it asks, that all that the iterator yields fits, and what each caller owes
// for that are longer than the two loops.
fn put_value_run(v: &[f32], out: &mut Writer)
    requires { HasRoom out.old (4 * length v.now) }
    ensures { Writes out.old (4 * length v.now) (run_bytes v.now) out.new }
{
    for &x in v {
        out.put(x);
    }
}

// No method of `ToList`, which takes every value: a slice may be longer than a count of two bytes can say. `as`, since no From leads from usize to u16; the clause keeps it
// below 65,536.
#[tactic(auto, unfolding(tree::specs::Scalars::numbers_bytes))]
pub fn put_values(v: &[f32], out: &mut Writer)
    requires { (length v.now < 65536) × HasRoom out.old (numbers_size v.now) }
    ensures { Writes out.old (numbers_size v.now) (numbers_bytes v.now) out.new }
{
    out.put(v.len() as u16);
    put_value_run(v, out);
}

// The list's pairs of offset and length, from the records' sizes. The first record begins at `base`.
pub fn put_pairs(sizes: &[u32], base: u32, out: &mut Writer)
    requires { HasRoom out.old (8 * length sizes.now) × (base + total sizes.now < 2 ^ 32) }
    ensures { Writes out.old (8 * length sizes.now) (pairs_bytes base sizes.now) out.new }
{
    let mut start = base;
    for &size in sizes {
        out.put(start);
        out.put(size);
        start += size;
    }
}
