// The fields of each kind, without its inputs: as they stand in the list, and how many bytes they take.
ghost use Rattle.std.specs.Prelude.{◌≡◌, ◌+◌, ◌^◌};
ghost use Rattle.bits.specs.Writer.{HasRoom, Writes};
ghost use Rattle.tree.specs.Fields.{composite_operator_bytes, triple_bytes, distant_light_bytes, point_light_bytes, spot_light_bytes, light_source_bytes, color_matrix_kind_bytes, transfer_function_bytes, component_transfer_bytes, convolve_matrix_data_bytes, convolve_matrix_bytes, diffuse_lighting_bytes, displacement_map_bytes, drop_shadow_bytes, flood_bytes, gaussian_blur_bytes, morphology_bytes, offset_bytes, specular_lighting_bytes, turbulence_bytes};
ghost use Rattle.tree.specs.Sizes.{color_matrix_kind_size, transfer_function_size, component_transfer_size, composite_operator_size, convolve_matrix_data_size, convolve_matrix_size, spot_light_size, light_source_size, diffuse_lighting_size, specular_lighting_size};
ghost use Rattle.tree.specs.Means.{color_matrix_kind_is, transfer_function_is, component_transfer_is, convolve_matrix_data_is, convolve_matrix_is};
ghost use Rattle.tree.proofs.Lengths.{length-color_matrix_kind, length-transfer_function, length_component_transfer, length-composite_operator, length_convolve_matrix_data, length_convolve_matrix, length_distant_light, length_point_light, length_spot_light, length-light_source, length_diffuse_lighting, length_specular_lighting, length_displacement_map, length-drop_shadow, length_flood, length_gaussian_blur, length_morphology, length_offset, length_turbulence};

use crate::{ToList, put_values};
use bits::writer::Writer;
use tree::{
    ColorMatrixKind, ComponentTransfer, CompositeOperator, ConvolveMatrix, ConvolveMatrixData,
    DiffuseLighting, DisplacementMap, DistantLight, DropShadow, Flood, GaussianBlur, LightSource,
    Morphology, Offset, PointLight, SpecularLighting, SpotLight, TransferFunction, Turbulence,
};

// The matrix that changes nothing.
const IDENTITY: [f32; 20] = [
    1.0, 0.0, 0.0, 0.0, 0.0, 0.0, 1.0, 0.0, 0.0, 0.0, 0.0, 0.0, 1.0, 0.0, 0.0, 0.0, 0.0, 0.0, 1.0,
    0.0,
];

// Fields that are enums. Each case's place is written out, since an enum whose variants hold fields has no `as`.

impl ToList for CompositeOperator {
    ghost bytes = { λ _ v. composite_operator_bytes v };

    ghost size = { λ _ v. composite_operator_size v };

    ghost bound = { 18 };

    ghost counted = { λ _ v. length-composite_operator v };

    fn size(self, _s: &[u8]) -> u32 {
        match self {
            CompositeOperator::Arithmetic { .. } => 17,
            _ => 1,
        }
    }

    #[tactic(auto, unfolding(tree::specs::Fields::composite_operator_bytes))]
    fn put_to(self, _s: &[u8], out: &mut Writer) {
        match self {
            CompositeOperator::Over => out.put(0u8),
            CompositeOperator::In => out.put(1u8),
            CompositeOperator::Out => out.put(2u8),
            CompositeOperator::Atop => out.put(3u8),
            CompositeOperator::Xor => out.put(4u8),
            CompositeOperator::Lighter => out.put(5u8),
            CompositeOperator::Arithmetic { k1, k2, k3, k4 } => {
                out.put(6u8);
                out.put(k1);
                out.put(k2);
                out.put(k3);
                out.put(k4);
            }
        }
    }
}

impl ToList for ColorMatrixKind {
    ghost bytes = { λ s v. color_matrix_kind_bytes (color_matrix_kind_is s v) };

    ghost size = { λ s v. color_matrix_kind_size (color_matrix_kind_is s v) };

    ghost bound = { 2 ^ 19 };

    ghost counted = { λ s v. length-color_matrix_kind (color_matrix_kind_is s v) };

    #[tactic(auto, unfolding(tree::specs::Kinds::identity_matrix))]
    fn size(self, s: &[u8]) -> u32 {
        match self {
            ColorMatrixKind::Matrix(ns) => 1 + ns.size(s),
            ColorMatrixKind::Identity => 83,
            ColorMatrixKind::Saturate(_) | ColorMatrixKind::HueRotate(_) => 5,
            ColorMatrixKind::LuminanceToAlpha => 1,
        }
    }

    #[tactic(auto, unfolding(tree::specs::Kinds::identity_matrix, tree::specs::Fields::color_matrix_kind_bytes))]
    fn put_to(self, s: &[u8], out: &mut Writer) {
        match self {
            ColorMatrixKind::Matrix(ns) => {
                out.put(0u8);
                ns.put_to(s, out);
            }
            ColorMatrixKind::Identity => {
                out.put(0u8);
                put_values(&IDENTITY, out);
            }
            ColorMatrixKind::Saturate(x) => {
                out.put(1u8);
                out.put(x);
            }
            ColorMatrixKind::HueRotate(x) => {
                out.put(2u8);
                out.put(x);
            }
            ColorMatrixKind::LuminanceToAlpha => out.put(3u8),
        }
    }
}

impl ToList for TransferFunction {
    ghost bytes = { λ s v. transfer_function_bytes (transfer_function_is s v) };

    ghost size = { λ s v. transfer_function_size (transfer_function_is s v) };

    ghost bound = { 2 ^ 19 };

    ghost counted = { λ s v. length-transfer_function (transfer_function_is s v) };

    fn size(self, s: &[u8]) -> u32 {
        match self {
            TransferFunction::Identity => 1,
            TransferFunction::Table(ns) | TransferFunction::Discrete(ns) => 1 + ns.size(s),
            TransferFunction::Linear { .. } => 9,
            TransferFunction::Gamma { .. } => 13,
        }
    }

    #[tactic(auto, unfolding(tree::specs::Fields::transfer_function_bytes))]
    fn put_to(self, s: &[u8], out: &mut Writer) {
        match self {
            TransferFunction::Identity => out.put(0u8),
            TransferFunction::Table(ns) => {
                out.put(1u8);
                ns.put_to(s, out);
            }
            TransferFunction::Discrete(ns) => {
                out.put(2u8);
                ns.put_to(s, out);
            }
            TransferFunction::Linear { slope, intercept } => {
                out.put(3u8);
                out.put(slope);
                out.put(intercept);
            }
            TransferFunction::Gamma {
                amplitude,
                exponent,
                offset,
            } => {
                out.put(4u8);
                out.put(amplitude);
                out.put(exponent);
                out.put(offset);
            }
        }
    }
}

// Light sources.

#[tactic(auto, unfolding(tree::specs::Fields::triple_bytes))]
fn put_triple(x: f32, y: f32, z: f32, out: &mut Writer)
    requires { HasRoom out.old 12 }
    ensures { Writes out.old 12 (triple_bytes x y z) out.new }
{
    out.put(x);
    out.put(y);
    out.put(z);
}

// A block for each type of the source. Those of two numbers differ only in the type, its fields' names and its definition: a macro writes no ghost members, and a generic
// struct would not be the source's.
impl ToList for DistantLight {
    ghost bytes = { λ _ v. distant_light_bytes v };

    ghost size = { λ _ _. 8 };

    ghost bound = { 9 };

    ghost counted = { λ _ v. length_distant_light v };

    fn size(self, _s: &[u8]) -> u32 {
        8
    }

    #[tactic(auto, unfolding(tree::specs::Fields::distant_light_bytes))]
    fn put_to(self, _s: &[u8], out: &mut Writer) {
        out.put(self.azimuth);
        out.put(self.elevation);
    }
}

impl ToList for PointLight {
    ghost bytes = { λ _ v. point_light_bytes v };

    ghost size = { λ _ _. 12 };

    ghost bound = { 13 };

    ghost counted = { λ _ v. length_point_light v };

    fn size(self, _s: &[u8]) -> u32 {
        12
    }

    #[tactic(auto, unfolding(tree::specs::Fields::point_light_bytes))]
    fn put_to(self, _s: &[u8], out: &mut Writer) {
        put_triple(self.x, self.y, self.z, out);
    }
}

impl ToList for SpotLight {
    ghost bytes = { λ _ v. spot_light_bytes v };

    ghost size = { λ _ v. spot_light_size v };

    ghost bound = { 34 };

    ghost counted = { λ _ v. length_spot_light v };

    fn size(self, s: &[u8]) -> u32 {
        28 + self.limiting_cone_angle.size(s)
    }

    fn put_to(self, s: &[u8], out: &mut Writer) {
        put_triple(self.x, self.y, self.z, out);
        put_triple(self.points_at_x, self.points_at_y, self.points_at_z, out);
        out.put(self.specular_exponent);
        self.limiting_cone_angle.put_to(s, out);
    }
}

// A light by its place, and its fields.
impl ToList for LightSource {
    ghost bytes = { λ _ v. light_source_bytes v };

    ghost size = { λ _ v. light_source_size v };

    ghost bound = { 35 };

    ghost counted = { λ _ v. length-light_source v };

    fn size(self, s: &[u8]) -> u32 {
        match self {
            LightSource::DistantLight(l) => 1 + l.size(s),
            LightSource::PointLight(l) => 1 + l.size(s),
            LightSource::SpotLight(l) => 1 + l.size(s),
        }
    }

    #[tactic(auto, unfolding(tree::specs::Fields::light_source_bytes))]
    fn put_to(self, s: &[u8], out: &mut Writer) {
        match self {
            LightSource::DistantLight(l) => {
                out.put(0u8);
                l.put_to(s, out);
            }
            LightSource::PointLight(l) => {
                out.put(1u8);
                l.put_to(s, out);
            }
            LightSource::SpotLight(l) => {
                out.put(2u8);
                l.put_to(s, out);
            }
        }
    }
}

// The fields of each kind, without its inputs.

impl ToList for ComponentTransfer {
    ghost bytes = { λ s v. component_transfer_bytes (component_transfer_is s v) };

    ghost size = { λ s v. component_transfer_size (component_transfer_is s v) };

    ghost bound = { 2 ^ 21 };

    ghost counted = { λ s v. length_component_transfer (component_transfer_is s v) };

    fn size(self, s: &[u8]) -> u32 {
        self.func_r.size(s) + self.func_g.size(s) + self.func_b.size(s) + self.func_a.size(s)
    }

    #[tactic(auto, unfolding(tree::specs::Fields::component_transfer_bytes))]
    fn put_to(self, s: &[u8], out: &mut Writer) {
        self.func_r.put_to(s, out);
        self.func_g.put_to(s, out);
        self.func_b.put_to(s, out);
        self.func_a.put_to(s, out);
    }
}

impl ToList for ConvolveMatrixData {
    ghost bytes = { λ s v. convolve_matrix_data_bytes (convolve_matrix_data_is s v) };

    ghost size = { λ s v. convolve_matrix_data_size (convolve_matrix_data_is s v) };

    ghost bound = { 2 ^ 18 + 16 };

    ghost counted = { λ s v. length_convolve_matrix_data (convolve_matrix_data_is s v) };

    fn size(self, s: &[u8]) -> u32 {
        16 + self.data.size(s)
    }

    fn put_to(self, s: &[u8], out: &mut Writer) {
        out.put(self.target_x);
        out.put(self.target_y);
        out.put(self.columns);
        out.put(self.rows);
        self.data.put_to(s, out);
    }
}

impl ToList for ConvolveMatrix {
    ghost bytes = { λ s v. convolve_matrix_bytes (convolve_matrix_is s v) };

    ghost size = { λ s v. convolve_matrix_size (convolve_matrix_is s v) };

    ghost bound = { 2 ^ 19 };

    ghost counted = { λ s v. length_convolve_matrix (convolve_matrix_is s v) };

    fn size(self, s: &[u8]) -> u32 {
        self.matrix.size(s) + 10
    }

    fn put_to(self, s: &[u8], out: &mut Writer) {
        self.matrix.put_to(s, out);
        out.put(self.divisor);
        out.put(self.bias);
        out.put(u8::from(self.edge_mode));
        out.put(u8::from(self.preserve_alpha));
    }
}

impl ToList for DiffuseLighting {
    ghost bytes = { λ _ v. diffuse_lighting_bytes v };

    ghost size = { λ _ v. diffuse_lighting_size v };

    ghost bound = { 46 };

    ghost counted = { λ _ v. length_diffuse_lighting v };

    fn size(self, s: &[u8]) -> u32 {
        11 + self.light_source.size(s)
    }

    fn put_to(self, s: &[u8], out: &mut Writer) {
        out.put(self.surface_scale);
        out.put(self.diffuse_constant);
        self.lighting_color.put_to(s, out);
        self.light_source.put_to(s, out);
    }
}

impl ToList for DisplacementMap {
    ghost bytes = { λ _ v. displacement_map_bytes v };

    ghost size = { λ _ _. 6 };

    ghost bound = { 7 };

    ghost counted = { λ _ v. length_displacement_map v };

    fn size(self, _s: &[u8]) -> u32 {
        6
    }

    #[tactic(auto, unfolding(tree::specs::Fields::displacement_map_bytes))]
    fn put_to(self, _s: &[u8], out: &mut Writer) {
        out.put(self.scale);
        out.put(u8::from(self.x_channel_selector));
        out.put(u8::from(self.y_channel_selector));
    }
}

impl ToList for DropShadow {
    ghost bytes = { λ _ v. drop_shadow_bytes v };

    ghost size = { λ _ _. 23 };

    ghost bound = { 24 };

    ghost counted = { λ _ v. length-drop_shadow v };

    fn size(self, _s: &[u8]) -> u32 {
        23
    }

    #[tactic(auto, unfolding(tree::specs::Fields::drop_shadow_bytes))]
    fn put_to(self, s: &[u8], out: &mut Writer) {
        out.put(self.dx);
        out.put(self.dy);
        out.put(self.std_dev_x);
        out.put(self.std_dev_y);
        self.color.put_to(s, out);
        out.put(self.opacity);
    }
}

impl ToList for Flood {
    ghost bytes = { λ _ v. flood_bytes v };

    ghost size = { λ _ _. 7 };

    ghost bound = { 8 };

    ghost counted = { λ _ v. length_flood v };

    fn size(self, _s: &[u8]) -> u32 {
        7
    }

    #[tactic(auto, unfolding(tree::specs::Fields::flood_bytes))]
    fn put_to(self, s: &[u8], out: &mut Writer) {
        self.color.put_to(s, out);
        out.put(self.opacity);
    }
}

impl ToList for GaussianBlur {
    ghost bytes = { λ _ v. gaussian_blur_bytes v };

    ghost size = { λ _ _. 8 };

    ghost bound = { 9 };

    ghost counted = { λ _ v. length_gaussian_blur v };

    fn size(self, _s: &[u8]) -> u32 {
        8
    }

    #[tactic(auto, unfolding(tree::specs::Fields::gaussian_blur_bytes))]
    fn put_to(self, _s: &[u8], out: &mut Writer) {
        out.put(self.std_dev_x);
        out.put(self.std_dev_y);
    }
}

impl ToList for Morphology {
    ghost bytes = { λ _ v. morphology_bytes v };

    ghost size = { λ _ _. 9 };

    ghost bound = { 10 };

    ghost counted = { λ _ v. length_morphology v };

    fn size(self, _s: &[u8]) -> u32 {
        9
    }

    #[tactic(auto, unfolding(tree::specs::Fields::morphology_bytes))]
    fn put_to(self, _s: &[u8], out: &mut Writer) {
        out.put(u8::from(self.operator));
        out.put(self.radius_x);
        out.put(self.radius_y);
    }
}

impl ToList for Offset {
    ghost bytes = { λ _ v. offset_bytes v };

    ghost size = { λ _ _. 8 };

    ghost bound = { 9 };

    ghost counted = { λ _ v. length_offset v };

    fn size(self, _s: &[u8]) -> u32 {
        8
    }

    #[tactic(auto, unfolding(tree::specs::Fields::offset_bytes))]
    fn put_to(self, _s: &[u8], out: &mut Writer) {
        out.put(self.dx);
        out.put(self.dy);
    }
}

impl ToList for SpecularLighting {
    ghost bytes = { λ _ v. specular_lighting_bytes v };

    ghost size = { λ _ v. specular_lighting_size v };

    ghost bound = { 50 };

    ghost counted = { λ _ v. length_specular_lighting v };

    fn size(self, s: &[u8]) -> u32 {
        15 + self.light_source.size(s)
    }

    fn put_to(self, s: &[u8], out: &mut Writer) {
        out.put(self.surface_scale);
        out.put(self.specular_constant);
        out.put(self.specular_exponent);
        self.lighting_color.put_to(s, out);
        self.light_source.put_to(s, out);
    }
}

impl ToList for Turbulence {
    ghost bytes = { λ _ v. turbulence_bytes v };

    ghost size = { λ _ _. 18 };

    ghost bound = { 19 };

    ghost counted = { λ _ v. length_turbulence v };

    fn size(self, _s: &[u8]) -> u32 {
        18
    }

    fn put_to(self, _s: &[u8], out: &mut Writer) {
        out.put(self.base_frequency_x);
        out.put(self.base_frequency_y);
        out.put(self.num_octaves);
        out.put(self.seed.cast_unsigned());
        out.put(u8::from(self.stitch_tiles));
        out.put(u8::from(self.kind));
    }
}
