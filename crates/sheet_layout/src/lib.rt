// Whether a sheet's bytes are in the layout: refusal 2.
#![tactic(auto)]

ghost use Rattle.std.specs.Prelude.{◌≡◌, map, false, not, cond, ◌&&◌, ◌||◌, ◌+◌, ◌^◌, ◌<◌, length, get_or, eqb, leb};
ghost use Rattle.sheet_fields.specs.Fields.{kind_text, kind_numbers, kind_length, kind_tries, tries_second, tries_third};
ghost use Rattle.svgtree.specs.Parse.{places_of, node_depth, node_tag_at, attribute_count, node_zero_at, count_of, pair_place};
ghost use Rattle.svgtree.specs.Listed.{value_bytes};
ghost use Rattle.svgtree.specs.Nodes.{node_of};
ghost use Rattle.field_tests.specs.Tests.{all};
ghost use Rattle.sheet_layout.specs.Records.{entry_at, entry_of, node_record_at, node_records_from};
ghost use Rattle.sheet_layout.specs.Layout.{header_length_ok, header_lengths_ok, header_ok, touch, try_ok, bytes_ok, word_ok, entry_ok, entries_ok, node_head_ok, node_record_ok, depths_ok, layout_ok};

use bits::{byte, is_utf8, run_is};
use field_tests::{is_zero, marked_ok};
use names::{aid, kind_allowed, tag_ok};
use sheet_fields::kind::ValueKind;
use sheet_fields::{header, marked, node, size, space, tries, unit};
use svgtree::attributes::Attribute;
use svgtree::nodes::{node_count, pair_length, pair_offset, pair_place};
use svgtree::run::NodeRun;
use svgtree::{Found, SvgNode};

// The header. A place's bound, here and below, is there only so that adding a constant to it does not overflow, as in `field_tests`: a type of places would need it again at each
// addition.

#[tactic(auto, unfolding(crate::specs::Layout::header_length_ok))]
fn header_length_ok(s: &[u8], at: usize) -> bool
    requires { at < 256 }
    ensures { result ≡ header_length_ok s.now at }
{
    let first = byte(s, at);
    first <= unit::PERCENT
        || (first == unit::ABSENT && is_zero(s, at + marked::NUMBER, marked::NUMBER_SIZE))
}

// One after the other, as in the definition: a loop over four places would need a lemma to say what this says as it stands.
#[tactic(auto, unfolding(crate::specs::Layout::header_lengths_ok))]
fn header_lengths_ok(s: &[u8]) -> bool
    ensures { result ≡ header_lengths_ok s.now }
{
    header_length_ok(s, header::X)
        && header_length_ok(s, header::Y)
        && header_length_ok(s, header::WIDTH)
        && header_length_ok(s, header::HEIGHT)
}

#[tactic(auto, unfolding(crate::specs::Layout::header_ok))]
fn header_ok(s: &[u8]) -> bool
    ensures { result ≡ header_ok s.now }
{
    byte(s, header::FILTER_UNITS) <= space::ABSENT
        && byte(s, header::PRIMITIVE_UNITS) <= space::ABSENT
        && marked_ok(
            s,
            byte(s, header::BOX_PRESENT),
            header::BOX_X,
            header::BOX_SIZE,
        )
        && byte(s, header::ZERO) == 0
        && header_lengths_ok(s)
}

// Whether the records touch, from the end of the pairs to the end of the sheet. A `for` with a place that moves on: a `try_fold` over it is the same in a closure, with an
// Option to be taken apart behind it.
#[tactic(auto, using(crate::proofs::Following::touching))]
fn records_touch(s: &[u8]) -> bool
    ensures { result ≡ touch (pair_place (count_of s.now)) (length s.now) (node_records_from s.now 0 (count_of s.now)) }
{
    let n = node_count(s);
    let mut at = pair_place(n);
    for i in 0..n {
        if pair_offset(s, i) as usize != at {
            return false;
        }
        at += pair_length(s, i) as usize;
    }
    at == s.len()
}

// Attributes. A value is a place and a length. No slices: a value may reach past the lent bytes, where zeros are read, and no caller has to rule that out.

#[tactic(auto, using(crate::proofs::Runs::value_runs), unfolding(crate::specs::Layout::bytes_ok))]
fn text_ok(s: &[u8], value: Found) -> bool
    ensures { result ≡ bytes_ok kind_text (value_bytes s.now value) }
{
    value.len <= size::TEXT_MOST && is_utf8(s, value.at, value.len)
}

#[tactic(auto, using(crate::proofs::Runs::value_runs), unfolding(crate::specs::Layout::bytes_ok))]
fn numbers_ok(s: &[u8], value: Found) -> bool
    ensures { result ≡ bytes_ok kind_numbers (value_bytes s.now value) }
{
    value.len % size::NUMBER == 0 && value.len / size::NUMBER <= size::NUMBERS_MOST
}

#[tactic(auto, using(crate::proofs::Runs::value_runs), unfolding(crate::specs::Layout::bytes_ok))]
fn length_ok(s: &[u8], value: Found) -> bool
    ensures { result ≡ bytes_ok kind_length (value_bytes s.now value) }
{
    value.len == size::LENGTH && byte(s, value.at as usize) <= unit::PERCENT
}

#[tactic(auto, unfolding(crate::specs::Layout::try_ok))]
fn try_ok(s: &[u8], at: usize) -> bool
    requires { at < 2 ^ 39 }
    ensures { result ≡ try_ok s.now at }
{
    marked_ok(s, byte(s, at), at + marked::NUMBER, marked::NUMBER_SIZE)
}

// Whether a try that succeeded does not follow one that failed.
fn not_after_failed(s: &[u8], at: usize) -> bool
    requires { at < 2 ^ 39 }
    ensures { result ≡ (leb (get_or s.now (at + tries_second) 0) (get_or s.now at 0) && leb (get_or s.now (at + tries_third) 0) (get_or s.now (at + tries_second) 0)) }
{
    let second = byte(s, at + tries::SECOND);
    second <= byte(s, at) && byte(s, at + tries::THIRD) <= second
}

#[tactic(auto, using(crate::proofs::Runs::value_runs), unfolding(crate::specs::Layout::bytes_ok))]
fn tries_ok(s: &[u8], value: Found) -> bool
    ensures { result ≡ bytes_ok kind_tries (value_bytes s.now value) }
{
    let from = value.at as usize;
    value.len == size::TRIES
        && try_ok(s, from)
        && try_ok(s, from + tries::SECOND)
        && try_ok(s, from + tries::THIRD)
        && not_after_failed(s, from)
}

// Whether a value of a kind may have these bytes.
#[tactic(auto, using(crate::proofs::Runs::value_runs), unfolding(crate::specs::Layout::bytes_ok))]
fn bytes_ok(s: &[u8], value: Found) -> bool
    ensures { result ≡ bytes_ok value.kind (value_bytes s.now value) }
{
    // A match: the kinds are a closed set, and each arm tests another thing.
    match ValueKind::try_from(value.kind) {
        Ok(ValueKind::Unreadable) => value.len == 0,
        Ok(ValueKind::Text) => text_ok(s, value),
        Ok(ValueKind::Number) => value.len == size::NUMBER,
        Ok(ValueKind::Numbers) => numbers_ok(s, value),
        Ok(ValueKind::Length) => length_ok(s, value),
        Ok(ValueKind::Color) => value.len == size::COLOR,
        Ok(ValueKind::Tries) => tries_ok(s, value),
        Ok(ValueKind::Typed) => value.len <= size::TYPED_MOST,
        Err(_) => false,
    }
}

// The one text that lighting-color may be. `run_is` takes a length of one byte, and a value's has two: it is compared first.
#[tactic(auto, using(bits::proofs::Sameness::same_run_length), unfolding(crate::specs::Layout::word_ok))]
fn word_ok(s: &[u8], id: u16, value: Found) -> bool
    ensures { result ≡ word_ok id value.kind (value_bytes s.now value) }
{
    id != aid::LIGHTING_COLOR
        || !value.is(ValueKind::Text)
        || (value.len == 12 && run_is(s, value.at as usize, 12, b"currentColor"))
}

#[tactic(auto, unfolding(crate::specs::Layout::entry_ok))]
fn entry_ok(s: &[u8], depth: u8, attribute: Attribute) -> bool
    ensures { result ≡ entry_ok depth (entry_of s.now attribute) }
{
    attribute.zero == 0
        && kind_allowed(depth, attribute.id, attribute.value.kind)
        && bytes_ok(s, attribute.value)
        && word_ok(s, attribute.id, attribute.value)
}

// The attributes of a node whose record has `size` bytes; `low` is the least id that the next may have. One walk for the order, the entries and the end: `is_sorted_by` and
// `all` would each read every attribute again.
#[tactic(auto, using(crate::proofs::Entries::looping), unfolding(svgtree::specs::Parse::node_from))]
fn entries_ok(node: SvgNode<'_>, size: u32) -> bool
    ensures { result ≡ entries_ok (node_of node.entry).depth size (map (entry_at node.entry.bytes.now) (places_of node.entry.bytes.now node.entry.at)) }
{
    let depth = node.depth();
    let start = usize::from(node.at);
    let mut end = start + node::ATTRIBUTES;
    let mut low = 0;
    for attribute in node.attributes() {
        if usize::from(attribute.id) < low {
            return false;
        }
        if !entry_ok(node.bytes, depth, attribute) {
            return false;
        }
        low = usize::from(attribute.id) + 1;
        end = attribute.value.end();
    }
    end == start + size as usize
}

// Nodes.

fn count_ok(node: SvgNode<'_>, count: u8) -> bool
    ensures { result ≡ (not (eqb (node_of node.entry).tag 0) || eqb count 0) }
{
    node.has_tag() || count == 0
}

#[tactic(auto, unfolding(crate::specs::Layout::node_head_ok, svgtree::specs::Parse::node_from))]
fn head_ok(node: SvgNode<'_>) -> bool
    ensures { result ≡ node_head_ok (node_depth node.entry.bytes.now node.entry.at) (node_tag_at node.entry.bytes.now node.entry.at) (attribute_count node.entry.bytes.now node.entry.at) (node_zero_at node.entry.bytes.now node.entry.at) }
{
    let at = usize::from(node.at);
    node.depth() <= 1
        && tag_ok(node.tag_name())
        && count_ok(node, byte(node.bytes, at + node::ATTRIBUTE_COUNT))
        && byte(node.bytes, at + node::ZERO) == 0
}

#[tactic(auto, unfolding(crate::specs::Layout::node_record_ok, crate::specs::Records::node_record_at, svgtree::specs::Parse::node_from))]
fn record_ok(s: &[u8], i: u16) -> bool
    ensures { result ≡ node_record_ok (node_record_at s.now i) }
{
    let node = SvgNode::get(s, i);
    head_ok(node) && entries_ok(node, pair_length(s, i))
}

fn records_ok(s: &[u8]) -> bool
    ensures { result ≡ all node_record_ok (node_records_from s.now 0 (count_of s.now)) }
{
    // By number: a record's length stands in its pair, and not in the node.
    (0..node_count(s)).all(|i| record_ok(s, i))
}

// Whether a node of this depth may follow; `tagged` says whether the last node of depth 0 has a tag.
fn depth_ok(depth: u8, tagged: bool) -> bool
    ensures { result ≡ (eqb depth 0 || tagged) }
{
    depth == 0 || tagged
}

fn tagged_after(node: SvgNode<'_>, tagged: bool) -> bool
    ensures { result ≡ cond (eqb (node_of node.entry).depth 0) (not (eqb (node_of node.entry).tag 0)) tagged }
{
    if node.depth() == 0 {
        node.has_tag()
    } else {
        tagged
    }
}

// A `for`, as in `records_touch`: what is kept from node to node is one bool.
#[tactic(auto, using(crate::proofs::Following::deepening), unfolding(svgtree::specs::Parse::node_from))]
fn depths_ok(s: &[u8]) -> bool
    ensures { result ≡ depths_ok false (node_records_from s.now 0 (count_of s.now)) }
{
    let mut tagged = false;
    for node in NodeRun::of_sheet(s).nodes() {
        if !depth_ok(node.depth(), tagged) {
            return false;
        }
        tagged = tagged_after(node, tagged);
    }
    true
}

// Whether the bytes are in the layout.
#[tactic(auto, unfolding(crate::specs::Layout::layout_ok))]
pub fn layout_ok(s: &[u8]) -> bool
    ensures { result ≡ layout_ok s.now }
{
    header_ok(s) && records_touch(s) && records_ok(s) && depths_ok(s)
}
