// A filter's child as it is read: its subregion, its own result, and its kind with the inputs as they stand in the sheet. Names and references are
// worked out later, from the children that count.
#![tactic(auto)]

ghost use Rattle.std.specs.Prelude.{◌≤◌};
ghost use Rattle.child.specs.Merges.{merge_end};

use bits::Text;
use geom::Rect;
use tree::{
    BlendMode, ColorInterpolation, ColorMatrixKind, ComponentTransfer, CompositeOperator,
    ConvolveMatrix, DiffuseLighting, DisplacementMap, DropShadow, Flood, GaussianBlur, Morphology,
    Offset, SpecularLighting, Turbulence,
};

// The structs of tree/filter.rs, by how many inputs they have: each input is a text or its absence, and the other fields are of a type of their own, `()` for Tile,
// which has none. Two structs, and no one over `[Option<Text>; N]`: the source names the inputs, `input1` and `input2`, and an array would be taken apart by index where they are read.

#[derive(Clone, Copy)]
pub struct OneInput<T> {
    pub input: Option<Text>,
    pub fields: T,
}

#[derive(Clone, Copy)]
pub struct TwoInputs<T> {
    pub input1: Option<Text>,
    pub input2: Option<Text>,
    pub fields: T,
}

// The inputs are those of `count` nodes from node number `first` on. In place of the source's Vec, since there is no heap; no `NodeRun`, since a child holds no bytes of the sheet.
#[derive(Clone, Copy)]
pub struct Merge {
    pub first: u16,
    pub count: u16,
}

// A sheet makes no Image.
#[derive(Clone, Copy)]
pub enum Kind {
    Blend(TwoInputs<BlendMode>),
    ColorMatrix(OneInput<ColorMatrixKind>),
    ComponentTransfer(OneInput<ComponentTransfer>),
    Composite(TwoInputs<CompositeOperator>),
    ConvolveMatrix(OneInput<ConvolveMatrix>),
    DiffuseLighting(OneInput<DiffuseLighting>),
    DisplacementMap(TwoInputs<DisplacementMap>),
    DropShadow(OneInput<DropShadow>),
    Flood(Flood),
    GaussianBlur(OneInput<GaussianBlur>),
    Merge(Merge),
    Morphology(OneInput<Morphology>),
    Offset(OneInput<Offset>),
    SpecularLighting(OneInput<SpecularLighting>),
    Tile(OneInput<()>),
    Turbulence(Turbulence),
}

// A sheet has 512 nodes at most, and a Merge reads its inputs from some of them (`few`): so a record's size has a bound.
// The kind stands where nothing is left open before it: a copy of it then takes as many bytes at a time as the processor can hand on.
#[derive(Clone, Copy)]
pub struct Child {
    pub rect: Rect,
    pub kind: Kind,
    pub color_interpolation: ColorInterpolation,
    pub result: Option<Text>,
    pub ghost few: { merge_end kind ≤ 512 },
}
