// A list of numbers as it is typed: walked word by word, its numbers, and whether it is refused. And a list of either kind, four bytes a number or typed.
#![tactic(auto)]

ghost use Rattle.std.specs.Prelude.{◌≡◌, [], ℕ, List, ◌≤◌, length, get_or};
ghost use Rattle.bits.specs.Bytes.{bytes_from};
ghost use Rattle.decimal.specs.Windows.{seen};
ghost use Rattle.num.specs.Constants.{plus_zero};
ghost use Rattle.number_list.specs.Text.{is_space, in_word, parts};
ghost use Rattle.number_list.specs.Outcome.{text_outcome, words_in, typed_numbers};
ghost use Rattle.number_list.specs.Lists.{numbers_from, numbers_is};
ghost use Rattle.number_list.specs.Means.{token_is, TokenWithin, word_and_rest, WordWithin, outcome_check, check_from, end_check, comma_step, word_step, text_step_is, TextStepWithin};

use bits::get32;
use decimal::window::Window;
use decimal::{TextFault, check_word, word_value};
use num::single;
use sheet_fields::size;

pub mod iter;

// What stands before a part of a list.
#[derive(Clone, Copy)]
pub enum Before {
    Start,
    Item,
    Comma,
}

// A part of a text, a comma or a word, and what follows it.
#[derive(Clone, Copy)]
pub enum Token<'a> {
    Comma { rest: Window<'a> },
    Word { word: Window<'a>, rest: Window<'a> },
}

// How far a text is looked through: what comes next, what stands before it, how many items were read, and whether all of them are within the limits.
#[derive(Clone, Copy)]
pub struct Walk<'a> {
    pub rest: Window<'a>,
    pub before: Before,
    pub n: u16,
    pub ok: bool,
}

#[tactic(auto, unfolding(crate::specs::Text::is_space))]
fn is_space(b: u8) -> bool
    ensures { result ≡ is_space b }
{
    b == b' ' || b == b'\t' || b == b'\n' || b == b'\r' // in this order one test of bits; a pattern is three comparisons
}

#[tactic(auto, unfolding(crate::specs::Text::in_word))]
fn in_word(b: u8) -> bool
    ensures { result ≡ in_word b }
{
    !is_space(b) && b != b','
}

// The next part of a text, unless it ends.
#[tactic(auto, using(crate::proofs::Tokens::next_part, decimal::proofs::Windows::seen_length))]
fn next_token(text: Window<'_>) -> Option<Token<'_>>
    ensures { (token_is result ≡ parts (seen text.entry)) × TokenWithin text.entry.len result }
{
    let spaces = text.len_while(is_space);
    let text = text.behind(spaces);
    let first = text.first()?;
    if first == b',' {
        return Some(Token::Comma {
            rest: text.behind(1),
        });
    }
    let len = text.len_while(in_word);
    Some(Token::Word {
        word: text.prefix(len),
        rest: text.behind(len),
    })
}

// The next word of a text, and what follows it; commas are passed over.
#[tactic(auto, unfolding(crate::specs::Outcome::words_in))]
fn next_word(mut text: Window<'_>) -> Option<(Window<'_>, Window<'_>)>
    ensures { (word_and_rest result ≡ words_in (parts (seen text.entry))) × WordWithin text.entry.len result }
{
    while let Some(token) = next_token(text) {
        match token {
            Token::Comma { rest } => text = rest,
            Token::Word { word, rest } => return Some((word, rest)),
        }
    }
    None
}

// How many numbers a text has. Counted over the words, and not by the iterator's `count`, which would work out each number.
fn count_items(mut text: Window<'_>) -> u16
    ensures { result ≡ length (typed_numbers (seen text.entry)) }
{
    let mut n = 0;
    while let Some((_, rest)) = next_word(text) {
        text = rest;
        n += 1;
    }
    n
}

// The number with i others before it, 0 past the last. The words before it are passed over, and only its own number is worked out.
fn item_at(mut text: Window<'_>, i: u16) -> f32
    ensures { result ≡ get_or (typed_numbers (seen text.entry)) i plus_zero }
{
    let mut left = i;
    while let Some((word, rest)) = next_word(text) {
        if left == 0 {
            return word_value(word);
        }
        text = rest;
        left -= 1;
    }
    0.0
}

// ---- whether a text is refused

// The text ends.
fn at_end(walk: Walk<'_>) -> Result<(), TextFault>
    ensures { result ≡ end_check walk.entry.before walk.entry.ok }
{
    match walk.before {
        Before::Start | Before::Item if walk.ok => Ok(()),
        Before::Start | Before::Item => Err(TextFault::OutsideLimits),
        Before::Comma => Err(TextFault::OutsideGrammar),
    }
}

// A comma stands next.
fn at_comma<'a>(walk: Walk<'a>, rest: Window<'a>) -> Result<Option<Walk<'a>>, TextFault>
    ensures { result ≡ comma_step walk.entry.before rest.entry walk.entry.n walk.entry.ok }
{
    match walk.before {
        Before::Item => Ok(Some(Walk {
            rest,
            before: Before::Comma,
            ..walk
        })),
        Before::Start | Before::Comma => Err(TextFault::OutsideGrammar),
    }
}

// A word stands next. One outside the limits refuses the text at its end only, since what follows may be outside the grammar.
fn at_word<'a>(
    walk: Walk<'a>,
    word: Result<(), TextFault>,
    rest: Window<'a>,
) -> Result<Option<Walk<'a>>, TextFault>
    requires { walk.n ≤ 1024 }
    ensures { result ≡ word_step word rest.entry walk.entry.n walk.entry.ok }
{
    if walk.n == size::NUMBERS_MOST {
        return Err(TextFault::OutsideGrammar);
    }
    let ok = match word {
        Ok(()) => walk.ok,
        Err(TextFault::OutsideLimits) => false,
        Err(TextFault::OutsideGrammar) => return Err(TextFault::OutsideGrammar),
    };
    Ok(Some(Walk {
        rest,
        before: Before::Item,
        n: walk.n + 1,
        ok,
    }))
}

// The walk behind the part that stands next, none where the text ends.
fn one_step(walk: Walk<'_>) -> Result<Option<Walk<'_>>, TextFault>
    requires { walk.n ≤ 1024 }
    ensures { (text_step_is result ≡ check_from (seen walk.entry.rest) walk.entry.before walk.entry.n walk.entry.ok) × TextStepWithin walk.entry.rest.len result }
{
    match next_token(walk.rest) {
        None => {
            at_end(walk)?;
            Ok(None)
        }
        Some(Token::Comma { rest }) => at_comma(walk, rest),
        Some(Token::Word { word, rest }) => at_word(walk, check_word(word), rest),
    }
}

// Whether a text of len bytes at a place is read.
#[tactic(auto, using(crate::proofs::Steps::check_start))]
pub fn check_text(s: &[u8], at: u32, len: u16) -> Result<(), TextFault>
    ensures { result ≡ outcome_check (text_outcome (bytes_from s.now at len)) }
{
    let mut walk = Walk {
        rest: Window::new(s, at, len),
        before: Before::Start,
        n: 0,
        ok: true,
    };
    while let Some(next) = one_step(walk)? {
        walk = next;
    }
    Ok(())
}

// ---- lists of numbers in bytes

// A list of numbers: so many of four bytes each from a place on, or a typed text of so many bytes. The sheet's bytes stand beside it, as beside a `Text`.
#[derive(Clone, Copy)]
pub enum Numbers {
    Packed { at: u32, count: u16 },
    Typed { at: u32, len: u16 },
}

// Made by a function, whose clause says the numbers: a caller's proof then needs no case of the enum.

#[tactic(auto, unfolding(crate::specs::Lists::numbers_is))]
pub fn packed(at: u32, count: u16) -> Numbers
    ensures { (s : List ℕ) → numbers_is s result ≡ numbers_from s at count }
{
    Numbers::Packed { at, count }
}

#[tactic(auto, unfolding(crate::specs::Lists::numbers_is))]
pub fn typed(at: u32, len: u16) -> Numbers
    ensures { (s : List ℕ) → numbers_is s result ≡ typed_numbers (bytes_from s at len) }
{
    Numbers::Typed { at, len }
}

// The empty list.
#[tactic(auto, unfolding(crate::specs::Lists::numbers_from))]
pub fn no_numbers() -> Numbers
    ensures { (s : List ℕ) → numbers_is s result ≡ [] }
{
    packed(0, 0)
}

// How many numbers the list has.
#[tactic(auto, using(crate::proofs::Lists::numbers_length), unfolding(crate::specs::Lists::numbers_is))]
pub fn numbers_len(s: &[u8], ns: Numbers) -> u16
    ensures { result ≡ length (numbers_is s.now ns) }
{
    match ns {
        Numbers::Packed { count, .. } => count,
        Numbers::Typed { at, len } => count_items(Window::new(s, at, len)),
    }
}

// The number at i, 0 past the list's end. One of four bytes is read at its place, where the iterator's `nth` would read those before it too.
#[tactic(auto, using(crate::proofs::Lists::packed_at, crate::proofs::Lists::packed_past), unfolding(crate::specs::Lists::numbers_is))]
pub fn number_at(s: &[u8], ns: Numbers, i: u16) -> f32
    ensures { result ≡ get_or (numbers_is s.now ns) i plus_zero }
{
    match ns {
        Numbers::Packed { at, count } => {
            if count <= i {
                return 0.0;
            }
            single(get32(s, at as usize + 4 * usize::from(i)))
        }
        Numbers::Typed { at, len } => item_at(Window::new(s, at, len), i),
    }
}
