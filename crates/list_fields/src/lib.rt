// The parts of a kind: which kind it is, its inputs, and its other fields, their size and their bytes. No results' names occur here.
#![tactic(auto)]

ghost use Rattle.std.specs.Prelude.{◌≡◌, ℕ, List, ◌+◌, ◌^◌, ◌≤◌, ◌<◌, length};
ghost use Rattle.bits.specs.Writer.{HasRoom, Writes};
ghost use Rattle.tree.specs.Places.{kind_name_place, kind_place};
ghost use Rattle.child.specs.Means.{kind_is};
ghost use Rattle.list_fields.specs.Means.{fields_in, InputsOf};

use bits::Text;
use bits::writer::Writer;
use child::{Kind, Merge};
use list_values::ToList;
use tree::KindName;

// A kind's inputs, as they stand in the sheet: none, one, two, or those of a merge's nodes.
#[derive(Clone, Copy)]
pub enum Inputs {
    Nothing,
    One(Option<Text>),
    Two(Option<Text>, Option<Text>),
    Merge(Merge),
}

// A kind without its fields. A match, since an enum whose variants hold fields has no `as`.
pub fn kind_name(kind: Kind) -> KindName
    ensures { (s : List ℕ) → kind_name_place result ≡ kind_place (kind_is s kind) }
{
    match kind {
        Kind::Blend(_) => KindName::Blend,
        Kind::ColorMatrix(_) => KindName::ColorMatrix,
        Kind::ComponentTransfer(_) => KindName::ComponentTransfer,
        Kind::Composite(_) => KindName::Composite,
        Kind::ConvolveMatrix(_) => KindName::ConvolveMatrix,
        Kind::DiffuseLighting(_) => KindName::DiffuseLighting,
        Kind::DisplacementMap(_) => KindName::DisplacementMap,
        Kind::DropShadow(_) => KindName::DropShadow,
        Kind::Flood(_) => KindName::Flood,
        Kind::GaussianBlur(_) => KindName::GaussianBlur,
        Kind::Merge(_) => KindName::Merge,
        Kind::Morphology(_) => KindName::Morphology,
        Kind::Offset(_) => KindName::Offset,
        Kind::SpecularLighting(_) => KindName::SpecularLighting,
        Kind::Tile(_) => KindName::Tile,
        Kind::Turbulence(_) => KindName::Turbulence,
    }
}

// An arm for each kind, since `v` has a type of its own in each.
pub fn inputs_of(kind: Kind) -> Inputs
    ensures { InputsOf kind result }
{
    match kind {
        Kind::Blend(v) => Inputs::Two(v.input1, v.input2),
        Kind::ColorMatrix(v) => Inputs::One(v.input),
        Kind::ComponentTransfer(v) => Inputs::One(v.input),
        Kind::Composite(v) => Inputs::Two(v.input1, v.input2),
        Kind::ConvolveMatrix(v) => Inputs::One(v.input),
        Kind::DiffuseLighting(v) => Inputs::One(v.input),
        Kind::DisplacementMap(v) => Inputs::Two(v.input1, v.input2),
        Kind::DropShadow(v) => Inputs::One(v.input),
        Kind::Flood(_) => Inputs::Nothing,
        Kind::GaussianBlur(v) => Inputs::One(v.input),
        Kind::Merge(v) => Inputs::Merge(v),
        Kind::Morphology(v) => Inputs::One(v.input),
        Kind::Offset(v) => Inputs::One(v.input),
        Kind::SpecularLighting(v) => Inputs::One(v.input),
        Kind::Tile(v) => Inputs::One(v.input),
        Kind::Turbulence(_) => Inputs::Nothing,
    }
}

// How many bytes a kind's other fields are. A match here and in `put_fields`, and no table of functions: the fields of each kind are of a type of their own. No `dyn ToList`
// either: its methods take self by value, and Blend, Merge and Tile have none.
#[tactic(auto, using(crate::proofs::Sizes::sizes))]
pub fn fields_size(s: &[u8], kind: Kind) -> u32
    ensures { (result ≡ length (fields_in s.now kind)) × (result < 2 ^ 21) }
{
    match kind {
        Kind::Blend(_) => 1,
        Kind::ColorMatrix(v) => v.fields.size(s),
        Kind::ComponentTransfer(v) => v.fields.size(s),
        Kind::Composite(v) => v.fields.size(s),
        Kind::ConvolveMatrix(v) => v.fields.size(s),
        Kind::DiffuseLighting(v) => v.fields.size(s),
        Kind::DisplacementMap(v) => v.fields.size(s),
        Kind::DropShadow(v) => v.fields.size(s),
        Kind::Flood(v) => v.size(s),
        Kind::GaussianBlur(v) => v.fields.size(s),
        Kind::Merge(_) => 0,
        Kind::Morphology(v) => v.fields.size(s),
        Kind::Offset(v) => v.fields.size(s),
        Kind::SpecularLighting(v) => v.fields.size(s),
        Kind::Tile(_) => 0,
        Kind::Turbulence(v) => v.size(s),
    }
}

// A match and no table of functions: the fields of each kind are of a type of their own.
#[tactic(auto, using(crate::proofs::Sizes::sizes))]
pub fn put_fields(s: &[u8], kind: Kind, out: &mut Writer)
    requires { HasRoom out.old (length (fields_in s.now kind)) }
    ensures { Writes out.old (length (fields_in s.now kind)) (fields_in s.now kind) out.new }
{
    match kind {
        Kind::Blend(v) => out.put(u8::from(v.fields)),
        Kind::ColorMatrix(v) => v.fields.put_to(s, out),
        Kind::ComponentTransfer(v) => v.fields.put_to(s, out),
        Kind::Composite(v) => v.fields.put_to(s, out),
        Kind::ConvolveMatrix(v) => v.fields.put_to(s, out),
        Kind::DiffuseLighting(v) => v.fields.put_to(s, out),
        Kind::DisplacementMap(v) => v.fields.put_to(s, out),
        Kind::DropShadow(v) => v.fields.put_to(s, out),
        Kind::Flood(v) => v.put_to(s, out),
        Kind::GaussianBlur(v) => v.fields.put_to(s, out),
        Kind::Merge(_) => {}
        Kind::Morphology(v) => v.fields.put_to(s, out),
        Kind::Offset(v) => v.fields.put_to(s, out),
        Kind::SpecularLighting(v) => v.fields.put_to(s, out),
        Kind::Tile(_) => {}
        Kind::Turbulence(v) => v.put_to(s, out),
    }
}
