// What the conversions of the filter elements share.
#![tactic(auto)]

ghost use Rattle.std.specs.Prelude.{◌≡◌, map};
ghost use Rattle.bits.specs.Texts.{maybe_text_is};
ghost use Rattle.svgtree.specs.Nodes.{node_of};
ghost use Rattle.fe.specs.Attributes.{number_or, is_word};
ghost use Rattle.fe.specs.Colors.{without_alpha};
ghost use Rattle.fe.specs.Keywords.{keyword};

use bits::{Text, text_is};
use svgtree::SvgNode;

pub mod color_interpolation;
pub mod pair;

// A node's number by its id, or the default.
pub fn number_or(node: SvgNode<'_>, id: u16, default: f32) -> f32
    ensures { result ≡ number_or (node_of node.entry) id default }
{
    node.attribute(id).unwrap_or(default)
}

pub const BLACK: tree::Color = tree::Color {
    red: 0,
    green: 0,
    blue: 0,
};

pub const WHITE: tree::Color = tree::Color {
    red: 255,
    green: 255,
    blue: 255,
};

// A sheet's colour as a list has it. No `From`, since neither type is this crate's.
pub fn without_alpha(c: svgtree::Color) -> tree::Color
    ensures { result ≡ without_alpha c }
{
    tree::Color {
        red: c.red,
        green: c.green,
        blue: c.blue,
    }
}

// Whether a text is there and is the word. The text, and no node and id: feColorMatrix, feComposite and feFunc* ask one text for several words, and look it up once.
pub fn is_word(s: &[u8], t: Option<Text>, w: &[u8]) -> bool
    ensures { result ≡ is_word (maybe_text_is s.now t) w.now }
{
    t.is_some_and(|text| text_is(s, text, w))
}

// The value of the word that a text is; the default where the text is absent or no word of the table.
#[inline]
#[tactic(auto, unfolding(crate::specs::Keywords::keyword))]
pub fn keyword<T: Copy>(s: &[u8], t: Option<Text>, words: &[(&[u8], T)], default: T) -> T
    ensures { result ≡ keyword (map (λ p. (p.0.now, p.1)) words.now) default (maybe_text_is s.now t) }
{
    for &(word, value) in words {
        if is_word(s, t, word) {
            return value;
        }
    }
    default
}
