// Element names in use, as the tag byte of a node: 1 + the place in the source's `EId`, counted from 0. Tag 0 is a node without a name.
// Constants, and no enum: `tag_name` promises the byte as it stands, also in a sheet that was not checked, which may have any byte there. An `Option<EId>` would
// say less: the bytes that name nothing would all be one value, and with them the bytes that a checked sheet can't have.
ghost use Rattle.std.specs.Prelude.{◌≡◌, get_or};
ghost use Rattle.names.specs.InUse.{elements_in_use};

pub const FE_BLEND: u8 = 6;

pub const FE_COLOR_MATRIX: u8 = 7;

pub const FE_COMPONENT_TRANSFER: u8 = 8;

pub const FE_COMPOSITE: u8 = 9;

pub const FE_CONVOLVE_MATRIX: u8 = 10;

pub const FE_DIFFUSE_LIGHTING: u8 = 11;

pub const FE_DISPLACEMENT_MAP: u8 = 12;

pub const FE_DISTANT_LIGHT: u8 = 13;

pub const FE_DROP_SHADOW: u8 = 14;

pub const FE_FLOOD: u8 = 15;

pub const FE_FUNC_A: u8 = 16;

pub const FE_FUNC_B: u8 = 17;

pub const FE_FUNC_G: u8 = 18;

pub const FE_FUNC_R: u8 = 19;

pub const FE_GAUSSIAN_BLUR: u8 = 20;

pub const FE_IMAGE: u8 = 21;

pub const FE_MERGE: u8 = 22;

pub const FE_MORPHOLOGY: u8 = 24;

pub const FE_OFFSET: u8 = 25;

pub const FE_POINT_LIGHT: u8 = 26;

pub const FE_SPECULAR_LIGHTING: u8 = 27;

pub const FE_SPOT_LIGHT: u8 = 28;

pub const FE_TILE: u8 = 29;

pub const FE_TURBULENCE: u8 = 30;

// How many names `EId` declares, which is also the largest tag byte.
pub const COUNT: u8 = 53;

// The constants above, one by one: each has the number of the same name in specs/ (theorem `elements_agree`).
pub const IN_USE: [u8; 25] = [
    FE_BLEND,
    FE_COLOR_MATRIX,
    FE_COMPONENT_TRANSFER,
    FE_COMPOSITE,
    FE_CONVOLVE_MATRIX,
    FE_DIFFUSE_LIGHTING,
    FE_DISPLACEMENT_MAP,
    FE_DISTANT_LIGHT,
    FE_DROP_SHADOW,
    FE_FLOOD,
    FE_FUNC_A,
    FE_FUNC_B,
    FE_FUNC_G,
    FE_FUNC_R,
    FE_GAUSSIAN_BLUR,
    FE_IMAGE,
    FE_MERGE,
    FE_MORPHOLOGY,
    FE_OFFSET,
    FE_POINT_LIGHT,
    FE_SPECULAR_LIGHTING,
    FE_SPOT_LIGHT,
    FE_TILE,
    FE_TURBULENCE,
    COUNT,
];

// The i-th of the constants above, 0 past the last: what ties each of them to the number of the same name in specs/.
#[tactic(auto, using(crate::specs::InUse::elements_agree))]
pub fn in_use(i: usize) -> u8
    ensures { result ≡ get_or elements_in_use i 0 }
{
    IN_USE.get(i).copied().unwrap_or(0)
}
