// The ten shorthand filter functions: the bytes of a function record to those of one kind. `convert_blur_function` and
// `convert_drop_shadow_function` are the functions of that name in parser/filter.rs; the eight of one amount are in `function_amounts`.
#![tactic(auto)]

ghost use Rattle.std.specs.Prelude.{◌≡◌, ℕ, List, [], ◌∷◌, ◌++◌, ◌+◌, ◌<◌, length, true, false, MatchResult, Err, Ok, Result};
ghost use Rattle.answer.specs.Outcomes.{answer_of};
ghost use Rattle.bits.specs.Writer.{HasRoom, Writes};
ghost use Rattle.field_tests.specs.Tests.{all, double_ok};
ghost use Rattle.tree.specs.Input.{SourceGraphic, input_bytes};
ghost use Rattle.tree.specs.Kinds as spec;
ghost use Rattle.tree.specs.Fields.{transfer_function_bytes};
ghost use Rattle.tree.specs.Places.{kind_name_place};
ghost use Rattle.tree.specs.List.{kind_bytes};
ghost use Rattle.tree.specs.declared.TransferFunction.TheVariants.{Identity};
ghost use Rattle.functions.specs.Records.{record_argument, given_length_at, flagged_color, given_shadow, function_by, function_record};
ghost use Rattle.functions.specs.Functions.{on_colors, on_alpha, function_state, user_length, deviation_of, function_blur, color_or, function_shadow, function_kind};
ghost use Rattle.functions.specs.Refusals.{size_by, shadow_ok, arguments_ok, function_layout_ok, function_numbers, function_numbers_ok, function_refusal};
ghost use Rattle.functions.specs.Call.{ConvertedFunction};
ghost use Rattle.functions.specs.Names.{code_by, Decodes};

use answer::Refusal;
use bits::writer::Writer;
use bits::{byte, get32, get64};
use fe_flood::split_alpha;
use field_tests::{
    is_double_at, is_positive_at, is_valid_length_at, is_view_box_length_at, marked_ok,
};
use filter_function::FilterFunction;
use function_amounts::{
    convert_brightness_function, convert_contrast_function, convert_grayscale_function,
    convert_hue_rotate_function, convert_invert_function, convert_opacity_function,
    convert_saturate_function, convert_sepia_function, positive_or_zero,
};
use geom::Size;
use list_values::{ToList, put_values};
use names::aid;
use num::single;
use sheet_fields::{marked, size as value_size, unit};
use svgtree::values::{color_from, length_from};
use svgtree::{Color, Units};
use tree::{
    ColorMatrixKind, ComponentTransfer, DropShadow, GaussianBlur, KindName, TransferFunction,
};
use units::{LengthContext, State};

mod filter_function;

// Where the fields of a record stand.
mod field {
    pub const VIEW_BOX_WIDTH: usize = 0;

    pub const DPI: usize = 4;

    pub const FONT_SIZE: usize = 8;

    pub const CODE: usize = 12;

    // The one argument of every function but drop-shadow, a number or a length.
    pub const ARGUMENT: usize = 13;

    // The arguments of drop-shadow.
    pub const COLOR_FLAG: usize = 13;

    pub const COLOR: usize = 14;

    pub const COLOR_SIZE: u8 = 4;

    pub const FALLBACK: usize = 18;

    pub const DX: usize = 22;

    pub const DY: usize = 31;

    pub const STD_DEVIATION: usize = 40;
}

// How many bytes the parts of a function's kind have.
mod size {
    // The kind's place, and SourceGraphic's.
    pub const HEAD: usize = 2;

    // The place of an enum's case, which is all of Identity.
    pub const CASE: usize = 1;

    pub const COUNT: usize = 2;

    pub const NUMBER: usize = 4;

    pub const COLOR: usize = 3;

    pub const MATRIX: usize = CASE + COUNT + 20 * NUMBER;

    pub const TABLE: usize = CASE + COUNT + 2 * NUMBER;

    pub const LINEAR: usize = CASE + 2 * NUMBER;
}

// The functions, each at the place that is its code.
#[derive(Clone, Copy)]
enum FunctionName {
    Grayscale,
    Sepia,
    Saturate,
    HueRotate,
    Invert,
    Opacity,
    Brightness,
    Contrast,
    Blur,
    DropShadow,
}

// By hand, since no conversion leads from a place to its variant.
impl TryFrom<u8> for FunctionName {
    type Error = Refusal;

    ghost try_from_gives = { Decodes };

    fn try_from(code: u8) -> Result<Self, Refusal> {
        match code {
            0 => Ok(FunctionName::Grayscale),
            1 => Ok(FunctionName::Sepia),
            2 => Ok(FunctionName::Saturate),
            3 => Ok(FunctionName::HueRotate),
            4 => Ok(FunctionName::Invert),
            5 => Ok(FunctionName::Opacity),
            6 => Ok(FunctionName::Brightness),
            7 => Ok(FunctionName::Contrast),
            8 => Ok(FunctionName::Blur),
            9 => Ok(FunctionName::DropShadow),
            _ => Err(Refusal::Malformed),
        }
    }
}

// Lengths and colours of a record.

#[tactic(auto, unfolding(num::specs::Means::single_of))]
fn state_of(s: &[u8]) -> State
    ensures { result ≡ function_state (function_record s.now) }
{
    let width = single(get32(s, field::VIEW_BOX_WIDTH));
    State {
        view_box: Size {
            width,
            height: width,
        },
        dpi: single(get32(s, field::DPI)),
    }
}

#[tactic(auto, unfolding(num::specs::Means::single_of, svgtree::specs::Readers::length_in, crate::specs::Functions::user_length))]
fn user_length(s: &[u8], at: usize) -> f32
    requires { at < 256 }
    ensures { result ≡ user_length (function_record s.now) (given_length_at s.now at) }
{
    let length = length_from(s, at);
    let lengths = LengthContext {
        units: Units::UserSpaceOnUse,
        state: state_of(s),
        font_size: single(get32(s, field::FONT_SIZE)),
    };
    lengths.convert_length(length, aid::DX)
}

fn std_deviation(s: &[u8], at: usize) -> f32
    requires { at < 256 }
    ensures { result ≡ deviation_of (function_record s.now) (given_length_at s.now at) }
{
    positive_or_zero(user_length(s, at))
}

pub fn convert_blur_function(s: &[u8]) -> GaussianBlur
    ensures { result ≡ function_blur (function_record s.now) (given_length_at s.now record_argument) }
{
    let std_dev = std_deviation(s, field::ARGUMENT);
    GaussianBlur {
        std_dev_x: std_dev,
        std_dev_y: std_dev,
    }
}

#[tactic(auto, unfolding(crate::specs::Records::flagged_color))]
fn shadow_color(s: &[u8]) -> Color
    ensures { result ≡ color_or (flagged_color s.now) (given_shadow s.now).fallback }
{
    if byte(s, field::COLOR_FLAG) == 1 {
        return color_from(s, field::COLOR);
    }
    color_from(s, field::FALLBACK)
}

pub fn convert_drop_shadow_function(s: &[u8]) -> DropShadow
    ensures { result ≡ function_shadow (function_record s.now) (given_shadow s.now) }
{
    let c = split_alpha(shadow_color(s));
    let dx = user_length(s, field::DX);
    let dy = user_length(s, field::DY);
    let std_dev = std_deviation(s, field::STD_DEVIATION);
    DropShadow {
        dx,
        dy,
        std_dev_x: std_dev,
        std_dev_y: std_dev,
        color: c.color,
        opacity: c.opacity,
    }
}

// Writers. Each kind is its place, SourceGraphic as its input, and its other fields: `put_fields` takes those that are a value of `ToList`. `put_matrix` and the
// three of tables have numbers in an array, which is no such value (see `put_values`), and no generic function that takes the writer of the fields: its clauses would have
// to name those of the closure, and be longer than the two calls. The places of an enum's cases are written out, since an enum whose variants hold fields has no `as`:
// 0 is SourceGraphic, Matrix and the transfer function Identity, 1 is Table. A clause gives an array's size as its number, as `kind_size` of proofs/ does for all ten;
// the code has the sums in `size`.

#[tactic(auto, unfolding(tree::specs::Input::input_bytes))]
fn put_head(kind: KindName, out: &mut Writer)
    requires { HasRoom out.old 2 }
    ensures { Writes out.old 2 ((kind_name_place kind ∷ []) ++ input_bytes SourceGraphic) out.new }
{
    out.put(u8::from(kind));
    out.put(0u8);
}

fn put_fields<T: ToList>(s: &[u8], kind: KindName, fields: T, out: &mut Writer)
    requires { HasRoom out.old (2 + T.size s.now fields) }
    ensures { Writes out.old (2 + T.size s.now fields) ((kind_name_place kind ∷ []) ++ input_bytes SourceGraphic ++ T.bytes s.now fields) out.new }
{
    put_head(kind, out);
    fields.put_to(s, out);
}

// The numbers of Matrix stand beside the enum's place.
#[tactic(auto, unfolding(tree::specs::List::kind_bytes, tree::specs::Fields::color_matrix_kind_bytes))]
fn put_matrix(matrix: [f32; 20], out: &mut Writer)
    requires { HasRoom out.old 85 }
    ensures { Writes out.old 85 (kind_bytes (spec.ColorMatrix SourceGraphic (spec.Matrix matrix))) out.new }
{
    put_head(KindName::ColorMatrix, out);
    out.put(0u8);
    put_values(&matrix, out);
}

// So do the numbers of Table.
#[tactic(auto, unfolding(tree::specs::Fields::transfer_function_bytes))]
fn put_table(table: [f32; 2], out: &mut Writer)
    requires { HasRoom out.old 11 }
    ensures { Writes out.old 11 (transfer_function_bytes (spec.Table table)) out.new }
{
    out.put(1u8);
    put_values(&table, out);
}

#[tactic(auto, unfolding(tree::specs::List::kind_bytes, tree::specs::Fields::component_transfer_bytes, tree::specs::Fields::transfer_function_bytes))]
fn put_table_on_colors(table: [f32; 2], out: &mut Writer)
    requires { HasRoom out.old 36 }
    ensures { Writes out.old 36 (kind_bytes (spec.ComponentTransfer SourceGraphic (on_colors (spec.Table table)))) out.new }
{
    put_head(KindName::ComponentTransfer, out);
    put_table(table, out);
    put_table(table, out);
    put_table(table, out);
    out.put(0u8);
}

#[tactic(auto, unfolding(tree::specs::List::kind_bytes, tree::specs::Fields::component_transfer_bytes, tree::specs::Fields::transfer_function_bytes))]
fn put_table_on_alpha(table: [f32; 2], out: &mut Writer)
    requires { HasRoom out.old 16 }
    ensures { Writes out.old 16 (kind_bytes (spec.ComponentTransfer SourceGraphic (on_alpha (spec.Table table)))) out.new }
{
    put_head(KindName::ComponentTransfer, out);
    out.put(0u8);
    out.put(0u8);
    out.put(0u8);
    put_table(table, out);
}

fn on_colors(f: TransferFunction) -> ComponentTransfer
    ensures red { result.func_r ≡ f }
    ensures green { result.func_g ≡ f }
    ensures blue { result.func_b ≡ f }
    ensures alpha { result.func_a ≡ Identity }
{
    ComponentTransfer {
        func_r: f,
        func_g: f,
        func_b: f,
        func_a: TransferFunction::Identity,
    }
}

// Refusals.

#[tactic(auto, unfolding(crate::specs::Refusals::size_by))]
fn record_size(name: FunctionName) -> usize
    ensures { result ≡ size_by (code_by name) }
{
    match name {
        FunctionName::Blur => field::ARGUMENT + usize::from(value_size::LENGTH),
        FunctionName::DropShadow => field::STD_DEVIATION + usize::from(value_size::LENGTH),
        _ => field::ARGUMENT + usize::from(marked::NUMBER_SIZE),
    }
}

#[tactic(auto, unfolding(crate::specs::Refusals::shadow_ok))]
fn shadow_ok(s: &[u8]) -> bool
    ensures { result ≡ shadow_ok s.now }
{
    marked_ok(
        s,
        byte(s, field::COLOR_FLAG),
        field::COLOR,
        field::COLOR_SIZE,
    ) && byte(s, field::DX) <= unit::PERCENT
        && byte(s, field::DY) <= unit::PERCENT
        && byte(s, field::STD_DEVIATION) <= unit::PERCENT
}

#[tactic(auto, unfolding(crate::specs::Refusals::arguments_ok))]
fn arguments_ok(s: &[u8], name: FunctionName) -> bool
    ensures { result ≡ arguments_ok (code_by name) s.now }
{
    match name {
        FunctionName::Blur => byte(s, field::ARGUMENT) <= unit::PERCENT,
        FunctionName::DropShadow => shadow_ok(s),
        _ => true,
    }
}

// Every f64 of a record.
#[tactic(auto, using(crate::proofs::Laws::last_true), unfolding(crate::specs::Records::function_by, crate::specs::Records::of_amount, field_tests::specs::Tests::all))]
fn function_numbers_ok(s: &[u8], name: FunctionName) -> bool
    ensures { result ≡ all double_ok (function_numbers (function_by (code_by name) s.now)) }
{
    match name {
        FunctionName::Blur => is_double_at(s, field::ARGUMENT + marked::NUMBER),
        FunctionName::DropShadow => {
            is_double_at(s, field::DX + marked::NUMBER)
                && is_double_at(s, field::DY + marked::NUMBER)
                && is_double_at(s, field::STD_DEVIATION + marked::NUMBER)
        }
        _ => is_double_at(s, field::ARGUMENT),
    }
}

impl<'a> FilterFunction<'a> {
    // Of a record whose bytes are in the layout.
    #[tactic(auto, unfolding(crate::specs::Refusals::function_layout_ok))]
    fn parse(bytes: &'a [u8]) -> Result<FilterFunction<'a>, Refusal>
        ensures { MatchResult result (λ function. (function.bytes ≡ bytes.entry) × (function_layout_ok bytes.now ≡ true)) (λ why. (why ≡ Refusal.Malformed) × (function_layout_ok bytes.now ≡ false)) }
    {
        let name = FunctionName::try_from(byte(bytes, field::CODE))?;
        if bytes.len() == record_size(name) && arguments_ok(bytes, name) {
            return Ok(FilterFunction { bytes, name });
        }
        Err(Refusal::Malformed)
    }

    #[tactic(auto, unfolding(crate::specs::Refusals::function_numbers_ok))]
    fn numbers_ok(self) -> bool
        ensures { result ≡ function_numbers_ok (function_record self.entry.bytes.now) }
    {
        is_view_box_length_at(self.bytes, field::VIEW_BOX_WIDTH)
            && is_valid_length_at(self.bytes, field::DPI)
            && is_positive_at(self.bytes, field::FONT_SIZE)
            && function_numbers_ok(self.bytes, self.name)
    }

    // How many bytes the kind has.
    #[tactic(auto, using(crate::proofs::Lengths::size_of_record), unfolding(crate::specs::Records::function_by, crate::specs::Records::of_amount))]
    fn kind_size(self) -> usize
        ensures { result ≡ length (kind_bytes (function_kind (function_record self.entry.bytes.now))) }
    {
        match self.name {
            FunctionName::Grayscale | FunctionName::Sepia => size::HEAD + size::MATRIX,
            FunctionName::Saturate | FunctionName::HueRotate => {
                size::HEAD + size::CASE + size::NUMBER
            }
            FunctionName::Invert => size::HEAD + 3 * size::TABLE + size::CASE,
            FunctionName::Opacity => size::HEAD + 3 * size::CASE + size::TABLE,
            FunctionName::Brightness | FunctionName::Contrast => {
                size::HEAD + 3 * size::LINEAR + size::CASE
            }
            FunctionName::Blur => size::HEAD + 2 * size::NUMBER,
            FunctionName::DropShadow => size::HEAD + 5 * size::NUMBER + size::COLOR,
        }
    }

    // A match and no table of functions: each name's function gives a type of its own.
    #[tactic(auto, using(crate::proofs::Lengths::size_of_record), unfolding(crate::specs::Records::function_by, crate::specs::Records::of_amount))]
    fn put_kind(self, out: &mut Writer)
        requires { HasRoom out.old (length (kind_bytes (function_kind (function_record self.bytes.now)))) }
        ensures { Writes out.old (length (kind_bytes (function_kind (function_record self.entry.bytes.now)))) (kind_bytes (function_kind (function_record self.entry.bytes.now))) out.new }
    {
        let s = self.bytes;
        let amount = get64(s, field::ARGUMENT);
        match self.name {
            FunctionName::Grayscale => put_matrix(convert_grayscale_function(amount), out),
            FunctionName::Sepia => put_matrix(convert_sepia_function(amount), out),
            FunctionName::Saturate => {
                let fields = ColorMatrixKind::Saturate(convert_saturate_function(amount));
                put_fields(s, KindName::ColorMatrix, fields, out)
            }
            FunctionName::HueRotate => {
                let fields = ColorMatrixKind::HueRotate(convert_hue_rotate_function(amount));
                put_fields(s, KindName::ColorMatrix, fields, out)
            }
            FunctionName::Invert => put_table_on_colors(convert_invert_function(amount), out),
            FunctionName::Opacity => put_table_on_alpha(convert_opacity_function(amount), out),
            FunctionName::Brightness => {
                let fields = on_colors(convert_brightness_function(amount));
                put_fields(s, KindName::ComponentTransfer, fields, out)
            }
            FunctionName::Contrast => {
                let fields = on_colors(convert_contrast_function(amount));
                put_fields(s, KindName::ComponentTransfer, fields, out)
            }
            FunctionName::Blur => {
                put_fields(s, KindName::GaussianBlur, convert_blur_function(s), out)
            }
            FunctionName::DropShadow => {
                put_fields(
                    s,
                    KindName::DropShadow,
                    convert_drop_shadow_function(s),
                    out,
                )
            }
        }
    }
}

// The whole call.

// The function of a record, or the first of 2 and 3.
#[tactic(auto, unfolding(crate::specs::Refusals::function_refusal))]
fn tested_function(s: &[u8]) -> Result<FilterFunction<'_>, Refusal>
    ensures { MatchResult result (λ function. (function.bytes ≡ s.entry) × (function_refusal s.now ≡ (Ok tt))) (λ why. function_refusal s.now ≡ Err why) }
{
    let function = FilterFunction::parse(s)?;
    if function.numbers_ok() {
        return Ok(function);
    }
    Err(Refusal::BadNumber)
}

// The length of a record's kind, or why there is none: any bytes and any output.
pub fn convert_function(record: &[u8], out: &mut [u8]) -> Result<usize, Refusal>
    ensures { ConvertedFunction «record».now out.old (answer_of result) out.new }
{
    let function = tested_function(record)?;
    let size = function.kind_size();
    if out.len() < size {
        return Err(Refusal::ShortOutput);
    }
    function.put_kind(&mut Writer::new(out));
    Ok(size)
}
