// Which bytes are a list in the layout, in either form. Each `after_` function passes one part of the layout at the front of some bytes and gives the bytes
// that are left; each `read_` function gives its value too. Bytes that are outside the layout leave nothing: None.
#![tactic(auto, unfolding(list_read::specs::Layout::layout_of))]

ghost use Rattle.std.specs.Prelude.{◌≡◌, ◌+◌, ◌*◌, ◌≤◌, ◌<◌, ◌^◌, ◌/◌, length, option_copied, IfSome};
ghost use Rattle.list_read.specs.Read.{read16, read_below};
ghost use Rattle.list_read.specs.Layout.{exactly, counted, byte_below, any_bytes, f32s, vec, option, color_matrix_kind, transfer_function, composite_operator, light_source, layout_of};
ghost use Rattle.list_layout.specs.After.{got_of, after_bytes, after_item, after_field, after_kind_fields, after_text, after_reference, after_input, after_inputs, after_kind_inputs, ended, record_in_layout, records_in_layout, counted_in_layout, in_layout};
ghost use Rattle.tree.specs.Places.{kind_name_place};

use list_read::ListForm;
use tree::KindName;

// The items of the layout: bytes of any value, numbers, a byte below a bound, a Vec of numbers, an Option of a number.

#[tactic(auto, using(crate::proofs::Walking::part_is, crate::proofs::Walking::any_is))]
fn after_bytes(s: &[u8], n: usize) -> Option<&[u8]>
    ensures run { option_copied result ≡ after_bytes n (Some s.now) }
    ensures any { option_copied result ≡ after_item (any_bytes n) (Some s.now) }
{
    s.get(n..)
}

#[tactic(auto, using(crate::proofs::Walking::f32s_are))]
fn after_numbers(s: &[u8], n: u16) -> Option<&[u8]>
    ensures { option_copied result ≡ after_item (f32s n) (Some s.now) }
{
    after_bytes(s, 4 * usize::from(n))
}

#[tactic(auto, using(crate::proofs::Walking::read16_short, crate::proofs::Walking::read16_is))]
fn read16(s: &[u8]) -> Option<(u16, &[u8])>
    ensures { got_of result ≡ read16 s.now }
{
    let (number, s) = s.split_first_chunk::<2>()?;
    Some((u16::from_le_bytes(*number), s))
}

#[tactic(auto, unfolding(list_read::specs::Read::read_below))]
fn read_below(s: &[u8], bound: u8) -> Option<(u8, &[u8])>
    ensures value { got_of result ≡ read_below bound s.now }
    ensures below { IfSome result (λ read. read.0 < bound) }
{
    match s {
        [b, s @ ..] if *b < bound => Some((*b, s)),
        _ => None,
    }
}

// A fieldless enum or a bool, by how many cases it has: only whether the byte is the place of one is asked, so none is made.
#[tactic(auto, unfolding(list_read::specs::Layout::walk_item))]
fn after_byte_below(s: &[u8], bound: u8) -> Option<&[u8]>
    ensures { option_copied result ≡ after_item (byte_below bound) (Some s.now) }
{
    let (_, s) = read_below(s, bound)?;
    Some(s)
}

#[tactic(auto, unfolding(list_read::specs::Layout::walk_item))]
fn after_vec(s: &[u8], low: u16, high: u16) -> Option<&[u8]>
    ensures { option_copied result ≡ after_item (vec low high) (Some s.now) }
{
    let (n, s) = read16(s)?;
    if !(low..=high).contains(&n) {
        return None;
    }
    after_numbers(s, n)
}

#[tactic(auto, unfolding(list_read::specs::Layout::walk_item))]
fn after_option(s: &[u8]) -> Option<&[u8]>
    ensures { option_copied result ≡ after_item option (Some s.now) }
{
    let (n, s) = read_below(s, 2)?;
    after_numbers(s, u16::from(n))
}

// The enums whose cases hold numbers, by the place of the case. An enum decoded from the place would be no plainer: it would name each place a second time, in
// a match as long as this one, and its error could not come, since `read_below` has refused the places behind the last.

#[tactic(auto, using(crate::proofs::Walking::no_case))]
fn after_color_matrix_kind(s: &[u8]) -> Option<&[u8]>
    ensures { option_copied result ≡ after_field color_matrix_kind (Some s.now) }
{
    let (k, s) = read_below(s, 4)?;
    match k {
        0 => after_vec(s, 20, 20), // Matrix
        1 | 2 => after_numbers(s, 1), // Saturate, HueRotate
        _ => Some(s), // LuminanceToAlpha
    }
}

#[tactic(auto, using(crate::proofs::Walking::no_case))]
fn after_transfer_function(s: &[u8]) -> Option<&[u8]>
    ensures { option_copied result ≡ after_field transfer_function (Some s.now) }
{
    let (k, s) = read_below(s, 5)?;
    match k {
        0 => Some(s), // Identity
        1 | 2 => after_vec(s, 0, 1024), // Table, Discrete
        3 => after_numbers(s, 2), // Linear
        _ => after_numbers(s, 3), // Gamma
    }
}

#[tactic(auto, using(crate::proofs::Walking::no_case))]
fn after_composite_operator(s: &[u8]) -> Option<&[u8]>
    ensures { option_copied result ≡ after_field composite_operator (Some s.now) }
{
    let (k, s) = read_below(s, 7)?;
    match k {
        6 => after_numbers(s, 4), // Arithmetic
        _ => Some(s),
    }
}

#[tactic(auto, using(crate::proofs::Walking::no_case))]
fn after_light_source(s: &[u8]) -> Option<&[u8]>
    ensures { option_copied result ≡ after_field light_source (Some s.now) }
{
    let (k, s) = read_below(s, 3)?;
    match k {
        0 => after_numbers(s, 2), // DistantLight
        1 => after_numbers(s, 3), // PointLight
        _ => {
            // SpotLight
            let s = after_numbers(s, 7)?;
            after_option(s)
        }
    }
}

// The fields of each kind, after its inputs.

fn after_component_transfer(s: &[u8]) -> Option<&[u8]>
    ensures { option_copied result ≡ after_kind_fields (layout_of (kind_name_place KindName.ComponentTransfer)) (Some s.now) }
{
    let s = after_transfer_function(s)?;
    let s = after_transfer_function(s)?;
    let s = after_transfer_function(s)?;
    after_transfer_function(s)
}

fn after_convolve_matrix(s: &[u8]) -> Option<&[u8]>
    ensures { option_copied result ≡ after_kind_fields (layout_of (kind_name_place KindName.ConvolveMatrix)) (Some s.now) }
{
    let s = after_bytes(s, 16)?;
    let s = after_vec(s, 0, 1024)?;
    let s = after_numbers(s, 2)?;
    let s = after_byte_below(s, 3)?;
    after_byte_below(s, 2)
}

fn after_displacement_map(s: &[u8]) -> Option<&[u8]>
    ensures { option_copied result ≡ after_kind_fields (layout_of (kind_name_place KindName.DisplacementMap)) (Some s.now) }
{
    let s = after_numbers(s, 1)?;
    let s = after_byte_below(s, 4)?;
    after_byte_below(s, 4)
}

fn after_drop_shadow(s: &[u8]) -> Option<&[u8]>
    ensures { option_copied result ≡ after_kind_fields (layout_of (kind_name_place KindName.DropShadow)) (Some s.now) }
{
    let s = after_numbers(s, 4)?;
    let s = after_bytes(s, 3)?;
    after_numbers(s, 1)
}

fn after_flood(s: &[u8]) -> Option<&[u8]>
    ensures { option_copied result ≡ after_kind_fields (layout_of (kind_name_place KindName.Flood)) (Some s.now) }
{
    let s = after_bytes(s, 3)?;
    after_numbers(s, 1)
}

fn after_morphology(s: &[u8]) -> Option<&[u8]>
    ensures { option_copied result ≡ after_kind_fields (layout_of (kind_name_place KindName.Morphology)) (Some s.now) }
{
    let s = after_byte_below(s, 2)?;
    after_numbers(s, 2)
}

fn after_turbulence(s: &[u8]) -> Option<&[u8]>
    ensures { option_copied result ≡ after_kind_fields (layout_of (kind_name_place KindName.Turbulence)) (Some s.now) }
{
    let s = after_numbers(s, 2)?;
    let s = after_bytes(s, 8)?;
    let s = after_byte_below(s, 2)?;
    after_byte_below(s, 2)
}

// A colour and a light source, behind n numbers.
fn after_lighting(s: &[u8], n: u16) -> Option<&[u8]>
    ensures { option_copied result ≡ after_field light_source (after_item (any_bytes 3) (after_item (f32s n) (Some s.now))) }
{
    let s = after_numbers(s, n)?;
    let s = after_bytes(s, 3)?;
    after_light_source(s)
}

// A match, and no table of the layouts as data: the kinds are a closed set, and data would need an interpreter, which is the walk that `layout_of` is given in
// specs/ once more.
fn after_fields(s: &[u8], kind: KindName) -> Option<&[u8]>
    ensures { option_copied result ≡ after_kind_fields (layout_of (kind_name_place kind)) (Some s.now) }
{
    match kind {
        KindName::Blend => after_byte_below(s, 16),
        KindName::ColorMatrix => after_color_matrix_kind(s),
        KindName::ComponentTransfer => after_component_transfer(s),
        KindName::Composite => after_composite_operator(s),
        KindName::ConvolveMatrix => after_convolve_matrix(s),
        KindName::DiffuseLighting => after_lighting(s, 2),
        KindName::DisplacementMap => after_displacement_map(s),
        KindName::DropShadow => after_drop_shadow(s),
        KindName::Flood => after_flood(s),
        KindName::GaussianBlur | KindName::Offset => after_numbers(s, 2),
        KindName::Merge | KindName::Tile => Some(s),
        KindName::Morphology => after_morphology(s),
        KindName::SpecularLighting => after_lighting(s, 3),
        KindName::Turbulence => after_turbulence(s),
    }
}

// A text of at most 255 bytes, which are UTF-8.
#[tactic(auto, unfolding(list_read::specs::Read::read_text), using(crate::proofs::Walking::text_parts))]
fn after_text(s: &[u8]) -> Option<&[u8]>
    ensures { option_copied result ≡ after_text (Some s.now) }
{
    let (n, s) = read16(s)?;
    if 255 < n {
        return None;
    }
    let (text, s) = s.split_at_checked(usize::from(n))?;
    bits::is_utf8(text, 0, n).then_some(s)
}

fn after_reference(s: &[u8], form: ListForm) -> Option<&[u8]>
    ensures { option_copied result ≡ after_reference form (Some s.now) }
{
    match form {
        ListForm::One => after_text(s),
        ListForm::Two => after_bytes(s, 2),
    }
}

// By the place of the case, for the reason that stands at the enums whose cases hold numbers. `form` goes down from `in_layout` to `after_reference`, which alone asks it: a
// struct of it and the bytes would be taken apart and made again at each part that is passed.
#[tactic(auto, unfolding(list_read::specs::Records::read_input))]
fn after_input(s: &[u8], form: ListForm) -> Option<&[u8]>
    ensures { option_copied result ≡ after_input form (Some s.now) }
{
    let (k, s) = read_below(s, 3)?;
    match k {
        0 | 1 => Some(s), // SourceGraphic, SourceAlpha
        _ => after_reference(s, form),
    }
}

// A for: a try_fold is the same in a closure, and its clause speaks of a run of calls where the loop has one invariant.
fn after_inputs(s: &[u8], n: u16, form: ListForm) -> Option<&[u8]>
    ensures { option_copied result ≡ after_inputs form (exactly n) (Some s.now) }
{
    let mut s = s;
    for _ in 0..n {
        s = after_input(s, form)?;
    }
    Some(s)
}

// The inputs of a merge.
#[tactic(auto, unfolding(list_read::specs::Records::read_inputs))]
fn after_merge_inputs(s: &[u8], form: ListForm) -> Option<&[u8]>
    ensures { option_copied result ≡ after_inputs form counted (Some s.now) }
{
    let (n, s) = read16(s)?;
    if 511 < n {
        return None;
    }
    after_inputs(s, n, form)
}

// A match, as in `after_fields`: a table of how many inputs a kind has would need a mark for a merge, which has a count of its own.
fn after_kind_inputs(s: &[u8], kind: KindName, form: ListForm) -> Option<&[u8]>
    ensures { option_copied result ≡ after_kind_inputs form (layout_of (kind_name_place kind)) (Some s.now) }
{
    match kind {
        KindName::Flood | KindName::Turbulence => after_inputs(s, 0, form),
        KindName::Blend | KindName::Composite | KindName::DisplacementMap => after_inputs(
            s, 2, form,
        ),
        KindName::Merge => after_merge_inputs(s, form),
        _ => after_inputs(s, 1, form),
    }
}

// The parts of a record, which have to end where it does.
#[tactic(auto, using(crate::proofs::Recording::record_parts))]
fn after_record(s: &[u8], form: ListForm) -> Option<&[u8]>
    ensures { ended (option_copied result) ≡ record_in_layout form s.now }
{
    let s = after_bytes(s, 16)?;
    let s = after_byte_below(s, 2)?;
    let s = after_text(s)?;
    let (place, s) = s.split_first()?;
    let Ok(kind) = KindName::try_from(*place) else {
        return None;
    };
    let s = after_kind_inputs(s, kind, form)?;
    after_fields(s, kind)
}

// Whether some bytes are a record in the layout.
fn record_in_layout(s: &[u8], form: ListForm) -> bool
    ensures { result ≡ record_in_layout form s.now }
{
    after_record(s, form).is_some_and(|left| left.is_empty())
}

// Whether some bytes are records in the layout, of which the first stands at the offset `first`; the pairs are their offsets and lengths. No offset overflows,
// since `first` is small. A `for`, with two places that move on together: a `try_fold` would put them in a pair and take it apart in each step, with an Option to be taken
// apart behind it. `get32`, though a pair has all its bytes: what is said of a pair is said by `le32`.
#[tactic(auto, using(crate::proofs::Listing::paired_steps))]
fn records_in_layout(pairs: &[u8], records: &[u8], first: usize, form: ListForm) -> bool
    requires { first ≤ 4100 }
    ensures { result ≡ records_in_layout form (length pairs.now / 8) first pairs.now records.now }
{
    let mut at = first;
    let mut left = records;
    for pair in pairs.chunks_exact(8) {
        if bits::get32(pair, 0) as usize != at {
            return false;
        }
        let size = bits::get32(pair, 4) as usize;
        let Some((record, behind)) = left.split_at_checked(size) else {
            return false;
        };
        if !record_in_layout(record, form) {
            return false;
        }
        at += size;
        left = behind;
    }
    left.is_empty()
}

// Whether some bytes, which stand behind `before` others, are a count, pairs and records in the layout.
#[tactic(auto, unfolding(crate::specs::After::counted_in_layout, list_read::specs::Lists::read_counted), using(crate::proofs::Listing::pairs_in))]
fn counted_in_layout(s: &[u8], before: usize, form: ListForm) -> bool
    requires { before ≤ 2 }
    ensures { result ≡ counted_in_layout form before s.now }
{
    let Some((n, s)) = read16(s) else {
        return false;
    };
    if 512 < n {
        return false;
    }
    let size = 8 * usize::from(n);
    match s.split_at_checked(size) {
        Some((pairs, records)) => records_in_layout(pairs, records, before + 2 + size, form),
        None => false,
    }
}

// Whether some bytes are a list in the layout. No such list has more than 84,535,300 bytes.
#[tactic(auto, using(crate::proofs::Listing::openings, crate::proofs::Listing::list_large, crate::proofs::Listing::all_bytes))]
pub fn in_layout(s: &[u8], form: ListForm) -> bool
    ensures { result ≡ in_layout form s.now }
{
    // No list has so many bytes, so nothing of them is walked.
    if 100_000_000 < s.len() {
        return false;
    }
    match form {
        ListForm::One => counted_in_layout(s, 0, form),
        ListForm::Two => match s {
            [255, 255, s @ ..] => counted_in_layout(s, 2, form),
            _ => false,
        },
    }
}
