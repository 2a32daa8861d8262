// The filter primitive's types.
// Where the source has a Vec or a String, a value holds a place in the lent bytes, since there is no heap, and no slice, since it may reach past their end, where zeros
// are read. A kind's inputs are not held here: in
// each struct of the source they come first, so a kind is its place, its inputs, and the fields that these types hold.
#![tactic(auto)]

ghost use Rattle.std.specs.Prelude.{◌≡◌};
ghost use Rattle.tree.specs.Places.{color_interpolation_place, blend_mode_place, edge_mode_place, color_channel_place, morphology_operator_place, turbulence_kind_place, kind_name_place, NamedAt};

use number_list::Numbers;

// The types of tree/mod.rs.

#[derive(Clone, Copy)]
pub struct Color {
    pub red: u8,
    pub green: u8,
    pub blue: u8,
}

// PlusLighter, the source's last one, is left out: the attribute `mode` never gives it.
#[derive(Clone, Copy)]
pub enum BlendMode {
    Normal,
    Multiply,
    Screen,
    Overlay,
    Darken,
    Lighten,
    ColorDodge,
    ColorBurn,
    HardLight,
    SoftLight,
    Difference,
    Exclusion,
    Hue,
    Saturation,
    Color,
    Luminosity,
}

// The types of tree/filter.rs.

#[derive(Clone, Copy)]
pub enum ColorInterpolation {
    SRGB,
    LinearRGB,
}

// Identity is the source's default, a matrix of 20 numbers that stands in no lent bytes.
#[derive(Clone, Copy)]
pub enum ColorMatrixKind {
    Matrix(Numbers),
    Identity,
    Saturate(f32),
    HueRotate(f32),
    LuminanceToAlpha,
}

#[derive(Clone, Copy)]
pub enum TransferFunction {
    Identity,
    Table(Numbers),
    Discrete(Numbers),
    Linear {
        slope: f32,
        intercept: f32,
    },
    Gamma {
        amplitude: f32,
        exponent: f32,
        offset: f32,
    },
}

#[derive(Clone, Copy)]
pub struct ComponentTransfer {
    pub func_r: TransferFunction,
    pub func_g: TransferFunction,
    pub func_b: TransferFunction,
    pub func_a: TransferFunction,
}

#[derive(Clone, Copy)]
pub enum CompositeOperator {
    Over,
    In,
    Out,
    Atop,
    Xor,
    Lighter,
    Arithmetic { k1: f32, k2: f32, k3: f32, k4: f32 },
}

#[derive(Clone, Copy)]
pub struct ConvolveMatrixData {
    pub target_x: u32,
    pub target_y: u32,
    pub columns: u32,
    pub rows: u32,
    pub data: Numbers,
}

#[derive(Clone, Copy)]
pub enum EdgeMode {
    None,
    Duplicate,
    Wrap,
}

#[derive(Clone, Copy)]
pub struct ConvolveMatrix {
    pub matrix: ConvolveMatrixData,
    pub divisor: f32,
    pub bias: f32,
    pub edge_mode: EdgeMode,
    pub preserve_alpha: bool,
}

#[derive(Clone, Copy)]
pub enum ColorChannel {
    R,
    G,
    B,
    A,
}

#[derive(Clone, Copy)]
pub struct DisplacementMap {
    pub scale: f32,
    pub x_channel_selector: ColorChannel,
    pub y_channel_selector: ColorChannel,
}

#[derive(Clone, Copy)]
pub struct DropShadow {
    pub dx: f32,
    pub dy: f32,
    pub std_dev_x: f32,
    pub std_dev_y: f32,
    pub color: Color,
    pub opacity: f32,
}

#[derive(Clone, Copy)]
pub struct Flood {
    pub color: Color,
    pub opacity: f32,
}

#[derive(Clone, Copy)]
pub struct GaussianBlur {
    pub std_dev_x: f32,
    pub std_dev_y: f32,
}

#[derive(Clone, Copy)]
pub struct DistantLight {
    pub azimuth: f32,
    pub elevation: f32,
}

#[derive(Clone, Copy)]
pub struct PointLight {
    pub x: f32,
    pub y: f32,
    pub z: f32,
}

#[derive(Clone, Copy)]
pub struct SpotLight {
    pub x: f32,
    pub y: f32,
    pub z: f32,
    pub points_at_x: f32,
    pub points_at_y: f32,
    pub points_at_z: f32,
    pub specular_exponent: f32,
    pub limiting_cone_angle: Option<f32>,
}

#[derive(Clone, Copy)]
pub enum LightSource {
    DistantLight(DistantLight),
    PointLight(PointLight),
    SpotLight(SpotLight),
}

#[derive(Clone, Copy)]
pub struct DiffuseLighting {
    pub surface_scale: f32,
    pub diffuse_constant: f32,
    pub lighting_color: Color,
    pub light_source: LightSource,
}

#[derive(Clone, Copy)]
pub struct SpecularLighting {
    pub surface_scale: f32,
    pub specular_constant: f32,
    pub specular_exponent: f32,
    pub lighting_color: Color,
    pub light_source: LightSource,
}

#[derive(Clone, Copy)]
pub enum MorphologyOperator {
    Erode,
    Dilate,
}

#[derive(Clone, Copy)]
pub struct Morphology {
    pub operator: MorphologyOperator,
    pub radius_x: f32,
    pub radius_y: f32,
}

#[derive(Clone, Copy)]
pub struct Offset {
    pub dx: f32,
    pub dy: f32,
}

#[derive(Clone, Copy)]
pub enum TurbulenceKind {
    FractalNoise,
    Turbulence,
}

#[derive(Clone, Copy)]
pub struct Turbulence {
    pub base_frequency_x: f32,
    pub base_frequency_y: f32,
    pub num_octaves: u32,
    pub seed: i32,
    pub stitch_tiles: bool,
    pub kind: TurbulenceKind,
}

// `Kind` without its fields: the name of each kind that a list can hold, at its place in the declaration. Image, which would stand at 10, is left out: no
// sheet makes one.
#[derive(Clone, Copy)]
pub enum KindName {
    Blend,
    ColorMatrix,
    ComponentTransfer,
    Composite,
    ConvolveMatrix,
    DiffuseLighting,
    DisplacementMap,
    DropShadow,
    Flood,
    GaussianBlur,
    Merge = 11,
    Morphology,
    Offset,
    SpecularLighting,
    Tile,
    Turbulence,
}

// A byte that is the place of no such kind. A type of its own beside `sheet_fields`' `UnknownKind`: that is a byte of a sheet, this one a place in a list.
#[derive(Clone, Copy)]
pub struct UnknownKind(pub u8);

impl TryFrom<u8> for KindName {
    type Error = UnknownKind;

    ghost try_from_gives = { NamedAt };

    fn try_from(place: u8) -> Result<KindName, UnknownKind> {
        match place {
            0 => Ok(KindName::Blend),
            1 => Ok(KindName::ColorMatrix),
            2 => Ok(KindName::ComponentTransfer),
            3 => Ok(KindName::Composite),
            4 => Ok(KindName::ConvolveMatrix),
            5 => Ok(KindName::DiffuseLighting),
            6 => Ok(KindName::DisplacementMap),
            7 => Ok(KindName::DropShadow),
            8 => Ok(KindName::Flood),
            9 => Ok(KindName::GaussianBlur),
            11 => Ok(KindName::Merge),
            12 => Ok(KindName::Morphology),
            13 => Ok(KindName::Offset),
            14 => Ok(KindName::SpecularLighting),
            15 => Ok(KindName::Tile),
            16 => Ok(KindName::Turbulence),
            10 | 17..=255 => Err(UnknownKind(place)), // 10 is Image
        }
    }
}

// An enum whose variants hold nothing, as its variant's place in the declaration.

impl From<KindName> for u8 {
    ghost from_gives = { λ name place. place ≡ kind_name_place name };

    #[inline]
    fn from(name: KindName) -> u8 {
        name as u8
    }
}

impl From<BlendMode> for u8 {
    ghost from_gives = { λ mode place. place ≡ blend_mode_place mode };

    fn from(mode: BlendMode) -> u8 {
        mode as u8
    }
}

impl From<ColorInterpolation> for u8 {
    ghost from_gives = { λ space place. place ≡ color_interpolation_place space };

    fn from(space: ColorInterpolation) -> u8 {
        space as u8
    }
}

impl From<EdgeMode> for u8 {
    ghost from_gives = { λ edge place. place ≡ edge_mode_place edge };

    fn from(edge: EdgeMode) -> u8 {
        edge as u8
    }
}

impl From<ColorChannel> for u8 {
    ghost from_gives = { λ channel place. place ≡ color_channel_place channel };

    fn from(channel: ColorChannel) -> u8 {
        channel as u8
    }
}

impl From<MorphologyOperator> for u8 {
    ghost from_gives = { λ operator place. place ≡ morphology_operator_place operator };

    fn from(operator: MorphologyOperator) -> u8 {
        operator as u8
    }
}

impl From<TurbulenceKind> for u8 {
    ghost from_gives = { λ kind place. place ≡ turbulence_kind_place kind };

    fn from(kind: TurbulenceKind) -> u8 {
        kind as u8
    }
}
