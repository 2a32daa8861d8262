// The layout of a sheet in numbers: where its fields stand, how many bytes they have, and what stands for a kind and for a unit. Each has the
// number of the same name in specs/Fields.antt or specs/BoxFields.antt: the contracts of the functions that use it say so.
#![tactic(auto)]

pub mod kind;

// The part before the nodes. Its offsets are from the start of the sheet.
pub mod header {
    pub const FILTER_UNITS: usize = 0;

    pub const PRIMITIVE_UNITS: usize = 1;

    pub const BOX_PRESENT: usize = 2;

    pub const ZERO: usize = 3;

    pub const BOX_X: usize = 4;

    pub const BOX_Y: usize = 8;

    pub const BOX_WIDTH: usize = 12;

    pub const BOX_HEIGHT: usize = 16;

    pub const BOX_SIZE: u8 = 16;

    pub const VIEW_BOX_WIDTH: usize = 20;

    pub const VIEW_BOX_HEIGHT: usize = 24;

    pub const DPI: usize = 28;

    pub const FONT_SIZE: usize = 32;

    pub const X: usize = 36;

    pub const Y: usize = 45;

    pub const WIDTH: usize = 54;

    pub const HEIGHT: usize = 63;

    pub const NODE_COUNT: usize = 72;

    pub const PAIRS: usize = 74;
}

// A node's offset and length. The offset comes first.
pub mod pair {
    pub const LENGTH: usize = 4;

    pub const SIZE: usize = 8;
}

// A node begins with its depth.
pub mod node {
    pub const TAG: usize = 1;

    pub const ATTRIBUTE_COUNT: usize = 2;

    pub const ZERO: usize = 3;

    pub const FONT_SIZE: usize = 4;

    pub const ATTRIBUTES: usize = 8;
}

// An attribute begins with its id.
pub mod attribute {
    pub const KIND: usize = 2;

    pub const ZERO: usize = 3;

    pub const LENGTH: usize = 4;

    pub const VALUE: usize = 6;
}

// How many bytes a value has. Texts, lists of numbers and typed lists have at most so many bytes, numbers and bytes.
pub mod size {
    pub const TEXT_MOST: u16 = 255;

    pub const NUMBER: u16 = 4;

    pub const NUMBERS_MOST: u16 = 1024;

    pub const LENGTH: u16 = 9;

    pub const COLOR: u16 = 4;

    pub const TRIES: u16 = 27;

    pub const TYPED_MOST: u16 = 4096;
}

// A length begins with its unit, a try with its mark; behind it stands an f64.
pub mod marked {
    pub const NUMBER: usize = 1;

    pub const NUMBER_SIZE: u8 = 8;
}

// The first of three tries comes first.
pub mod tries {
    pub const SECOND: usize = 9;

    pub const THIRD: usize = 18;
}

// The space that filterUnits and primitiveUnits name. Constants, and no discriminants as `ValueKind` has: svgtree's `Units` has two spaces, and each other byte says that
// they are absent, so the layout's test and the reader both need the bytes by name.
pub mod space {
    pub const USER_SPACE_ON_USE: u8 = 0;

    pub const OBJECT_BOUNDING_BOX: u8 = 1;

    pub const ABSENT: u8 = 2;
}

// svgtypes' units of a length. Constants, and no discriminants as `ValueKind` has: svgtree's `LengthUnit` is given for every byte (any other is None), and the header's absent
// unit is no unit, so the layout's test and the reader both need the bytes by name.
pub mod unit {
    pub const EM: u8 = 1;

    pub const EX: u8 = 2;

    pub const PX: u8 = 3;

    pub const IN: u8 = 4;

    pub const CM: u8 = 5;

    pub const MM: u8 = 6;

    pub const PT: u8 = 7;

    pub const PC: u8 = 8;

    pub const PERCENT: u8 = 9;

    // Of an absent length of the header.
    pub const ABSENT: u8 = 255;
}
