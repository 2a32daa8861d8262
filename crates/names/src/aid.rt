// Attribute names in use, as the id of an attribute: the place in the source's `AId`, counted from 0. Constants, and no enum: a sheet may have any id,
// and its readers take any, so an enum would be a narrower type of theirs.
ghost use Rattle.std.specs.Prelude.{◌≡◌, get_or};
ghost use Rattle.names.specs.InUse.{attributes_in_use};

pub const AMPLITUDE: u16 = 1;

pub const AZIMUTH: u16 = 2;

pub const BASE_FREQUENCY: u16 = 4;

pub const BIAS: u16 = 6;

pub const COLOR: u16 = 12;

pub const COLOR_INTERPOLATION_FILTERS: u16 = 14;

pub const DIFFUSE_CONSTANT: u16 = 20;

pub const DIVISOR: u16 = 23;

pub const DX: u16 = 25;

pub const DY: u16 = 26;

pub const EDGE_MODE: u16 = 27;

pub const ELEVATION: u16 = 28;

pub const EXPONENT: u16 = 30;

pub const FLOOD_COLOR: u16 = 36;

pub const FLOOD_OPACITY: u16 = 37;

pub const HEIGHT: u16 = 63;

pub const IN: u16 = 67;

pub const IN2: u16 = 68;

pub const INTERCEPT: u16 = 70;

pub const K1: u16 = 72;

pub const K2: u16 = 73;

pub const K3: u16 = 74;

pub const K4: u16 = 75;

pub const KERNEL_MATRIX: u16 = 76;

pub const LIGHTING_COLOR: u16 = 81;

pub const LIMITING_CONE_ANGLE: u16 = 82;

pub const MODE: u16 = 109;

pub const NUM_OCTAVES: u16 = 110;

pub const OFFSET: u16 = 111;

pub const OPERATOR: u16 = 113;

pub const ORDER: u16 = 114;

pub const POINTS_AT_X: u16 = 124;

pub const POINTS_AT_Y: u16 = 125;

pub const POINTS_AT_Z: u16 = 126;

pub const PRESERVE_ALPHA: u16 = 127;

pub const RADIUS: u16 = 131;

pub const RESULT: u16 = 136;

pub const SCALE: u16 = 140;

pub const SEED: u16 = 141;

pub const SLOPE: u16 = 149;

pub const SPECULAR_CONSTANT: u16 = 151;

pub const SPECULAR_EXPONENT: u16 = 152;

pub const STD_DEVIATION: u16 = 155;

pub const STITCH_TILES: u16 = 156;

pub const SURFACE_SCALE: u16 = 168;

pub const TABLE_VALUES: u16 = 170;

pub const TARGET_X: u16 = 171;

pub const TARGET_Y: u16 = 172;

pub const TYPE: u16 = 191;

pub const VALUES: u16 = 194;

pub const WIDTH: u16 = 199;

pub const X: u16 = 202;

pub const X_CHANNEL_SELECTOR: u16 = 205;

pub const Y: u16 = 206;

pub const Y_CHANNEL_SELECTOR: u16 = 209;

pub const Z: u16 = 210;

// How many names `AId` declares.
pub const COUNT: u16 = 211;

// The constants above, one by one: each has the number of the same name in specs/ (theorem `attributes_agree`).
pub const IN_USE: [u16; 57] = [
    AMPLITUDE,
    AZIMUTH,
    BASE_FREQUENCY,
    BIAS,
    COLOR,
    COLOR_INTERPOLATION_FILTERS,
    DIFFUSE_CONSTANT,
    DIVISOR,
    DX,
    DY,
    EDGE_MODE,
    ELEVATION,
    EXPONENT,
    FLOOD_COLOR,
    FLOOD_OPACITY,
    HEIGHT,
    IN,
    IN2,
    INTERCEPT,
    K1,
    K2,
    K3,
    K4,
    KERNEL_MATRIX,
    LIGHTING_COLOR,
    LIMITING_CONE_ANGLE,
    MODE,
    NUM_OCTAVES,
    OFFSET,
    OPERATOR,
    ORDER,
    POINTS_AT_X,
    POINTS_AT_Y,
    POINTS_AT_Z,
    PRESERVE_ALPHA,
    RADIUS,
    RESULT,
    SCALE,
    SEED,
    SLOPE,
    SPECULAR_CONSTANT,
    SPECULAR_EXPONENT,
    STD_DEVIATION,
    STITCH_TILES,
    SURFACE_SCALE,
    TABLE_VALUES,
    TARGET_X,
    TARGET_Y,
    TYPE,
    VALUES,
    WIDTH,
    X,
    X_CHANNEL_SELECTOR,
    Y,
    Y_CHANNEL_SELECTOR,
    Z,
    COUNT,
];

// The i-th of the constants above, 0 past the last: what ties each of them to the number of the same name in specs/.
#[tactic(auto, using(crate::specs::InUse::attributes_agree))]
pub fn in_use(i: usize) -> u16
    ensures { result ≡ get_or attributes_in_use i 0 }
{
    IN_USE.get(i).copied().unwrap_or(0)
}
