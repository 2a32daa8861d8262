// Prints the constants of `names` as tools/names.py prints the numbers that it counts in the crate's source. The stored output is the script's:
//     python3 tools/names.py src/parser/svgtree/names.rs > crates/names_list/stdout
#![tactic(auto)]

use names::{aid, eid};
use std::fmt::Display;
use std::io;

// In the source's order.
const ELEMENTS: [(&str, u8); 24] = [
    ("FeBlend", eid::FE_BLEND),
    ("FeColorMatrix", eid::FE_COLOR_MATRIX),
    ("FeComponentTransfer", eid::FE_COMPONENT_TRANSFER),
    ("FeComposite", eid::FE_COMPOSITE),
    ("FeConvolveMatrix", eid::FE_CONVOLVE_MATRIX),
    ("FeDiffuseLighting", eid::FE_DIFFUSE_LIGHTING),
    ("FeDisplacementMap", eid::FE_DISPLACEMENT_MAP),
    ("FeDistantLight", eid::FE_DISTANT_LIGHT),
    ("FeDropShadow", eid::FE_DROP_SHADOW),
    ("FeFlood", eid::FE_FLOOD),
    ("FeFuncA", eid::FE_FUNC_A),
    ("FeFuncB", eid::FE_FUNC_B),
    ("FeFuncG", eid::FE_FUNC_G),
    ("FeFuncR", eid::FE_FUNC_R),
    ("FeGaussianBlur", eid::FE_GAUSSIAN_BLUR),
    ("FeImage", eid::FE_IMAGE),
    ("FeMerge", eid::FE_MERGE),
    ("FeMorphology", eid::FE_MORPHOLOGY),
    ("FeOffset", eid::FE_OFFSET),
    ("FePointLight", eid::FE_POINT_LIGHT),
    ("FeSpecularLighting", eid::FE_SPECULAR_LIGHTING),
    ("FeSpotLight", eid::FE_SPOT_LIGHT),
    ("FeTile", eid::FE_TILE),
    ("FeTurbulence", eid::FE_TURBULENCE),
];

const ATTRIBUTES: [(&str, u16); 56] = [
    ("Amplitude", aid::AMPLITUDE),
    ("Azimuth", aid::AZIMUTH),
    ("BaseFrequency", aid::BASE_FREQUENCY),
    ("Bias", aid::BIAS),
    ("Color", aid::COLOR),
    (
        "ColorInterpolationFilters",
        aid::COLOR_INTERPOLATION_FILTERS,
    ),
    ("DiffuseConstant", aid::DIFFUSE_CONSTANT),
    ("Divisor", aid::DIVISOR),
    ("Dx", aid::DX),
    ("Dy", aid::DY),
    ("EdgeMode", aid::EDGE_MODE),
    ("Elevation", aid::ELEVATION),
    ("Exponent", aid::EXPONENT),
    ("FloodColor", aid::FLOOD_COLOR),
    ("FloodOpacity", aid::FLOOD_OPACITY),
    ("Height", aid::HEIGHT),
    ("In", aid::IN),
    ("In2", aid::IN2),
    ("Intercept", aid::INTERCEPT),
    ("K1", aid::K1),
    ("K2", aid::K2),
    ("K3", aid::K3),
    ("K4", aid::K4),
    ("KernelMatrix", aid::KERNEL_MATRIX),
    ("LightingColor", aid::LIGHTING_COLOR),
    ("LimitingConeAngle", aid::LIMITING_CONE_ANGLE),
    ("Mode", aid::MODE),
    ("NumOctaves", aid::NUM_OCTAVES),
    ("Offset", aid::OFFSET),
    ("Operator", aid::OPERATOR),
    ("Order", aid::ORDER),
    ("PointsAtX", aid::POINTS_AT_X),
    ("PointsAtY", aid::POINTS_AT_Y),
    ("PointsAtZ", aid::POINTS_AT_Z),
    ("PreserveAlpha", aid::PRESERVE_ALPHA),
    ("Radius", aid::RADIUS),
    ("Result", aid::RESULT),
    ("Scale", aid::SCALE),
    ("Seed", aid::SEED),
    ("Slope", aid::SLOPE),
    ("SpecularConstant", aid::SPECULAR_CONSTANT),
    ("SpecularExponent", aid::SPECULAR_EXPONENT),
    ("StdDeviation", aid::STD_DEVIATION),
    ("StitchTiles", aid::STITCH_TILES),
    ("SurfaceScale", aid::SURFACE_SCALE),
    ("TableValues", aid::TABLE_VALUES),
    ("TargetX", aid::TARGET_X),
    ("TargetY", aid::TARGET_Y),
    ("Type", aid::TYPE),
    ("Values", aid::VALUES),
    ("Width", aid::WIDTH),
    ("X", aid::X),
    ("XChannelSelector", aid::X_CHANNEL_SELECTOR),
    ("Y", aid::Y),
    ("YChannelSelector", aid::Y_CHANNEL_SELECTOR),
    ("Z", aid::Z),
];

fn print_names<T: Display + Drop>(
    rt: &impl Print,
    kind: &str,
    count: T,
    names: &[(&str, T)],
) -> io::Result<()> {
    println!(rt; "{kind} {count}")?;
    for (name, number) in names {
        println!(rt; "{kind}::{name} {number}")?;
    }
    Ok(())
}

fn main(rt: HostRuntime) -> io::Result<()> {
    print_names(&rt, "EId", eid::COUNT, &ELEMENTS)?;
    print_names(&rt, "AId", aid::COUNT, &ATTRIBUTES)
}
