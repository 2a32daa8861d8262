// The functions of one amount: the numbers of their matrices, tables and transfer functions. `convert_grayscale_function` and its seven siblings are the
// functions of that name in parser/filter.rs. An f64 argument is given by its bits, as the record and C have it, so that no function needs an f64 that may be NaN: `narrow`
// takes bits. A Vec of numbers is an array, as there is no heap.
#![tactic(auto)]

ghost use Rattle.std.specs.Prelude.{◌≡◌};
ghost use Rattle.std.specs.Float.{binary64};
ghost use Rattle.std.specs.Float.Ieee.{of_bits};
ghost use Rattle.num.specs.Constants.{plus_zero as zero};
ghost use Rattle.num.specs.Narrowed.{as_f32};
ghost use Rattle.tree.specs.declared.TransferFunction.TheVariants.{Linear};
ghost use Rattle.function_amounts.specs.Amounts.{held, positive_or_zero, grayscale_matrix, sepia_matrix, invert_table, opacity_table, contrast_intercept};

use num::{double_narrowed, positive};
use std::num::f64_from_bits_with_nan;
use tree::TransferFunction;

// Amounts.

// The crate's `amount.min(1.0) as f32`: held in f64, narrowed then. `f64::min` takes a NaN to 1; here a NaN is read as 0.
fn held_at_one(amount: u64) -> f32
    ensures { result ≡ held (of_bits binary64 amount) }
{
    if 1.0 < f64_from_bits_with_nan(amount) {
        1.0
    } else {
        double_narrowed(amount)
    }
}

// The crate's `PositiveF32::new(x).unwrap_or(PositiveF32::ZERO)`.
#[tactic(auto, using(num::proofs::Defaults::positive_or), unfolding(crate::specs::Amounts::positive_or_zero))]
pub fn positive_or_zero(x: f32) -> f32
    ensures { result ≡ positive_or_zero x }
{
    positive(x).unwrap_or(0.0)
}

// Colour matrices. Each is written out, as the paper and the source have it: what the two have in common is where the zeros stand.

pub fn convert_grayscale_function(amount: u64) -> [f32; 20]
    ensures { result ≡ grayscale_matrix (held (of_bits binary64 amount)) }
{
    let rest = 1.0 - held_at_one(amount);
    [
        0.2126 + 0.7874 * rest,
        0.7152 - 0.7152 * rest,
        0.0722 - 0.0722 * rest,
        0.0,
        0.0,
        0.2126 - 0.2126 * rest,
        0.7152 + 0.2848 * rest,
        0.0722 - 0.0722 * rest,
        0.0,
        0.0,
        0.2126 - 0.2126 * rest,
        0.7152 - 0.7152 * rest,
        0.0722 + 0.9278 * rest,
        0.0,
        0.0,
        0.0,
        0.0,
        0.0,
        1.0,
        0.0,
    ]
}

pub fn convert_sepia_function(amount: u64) -> [f32; 20]
    ensures { result ≡ sepia_matrix (held (of_bits binary64 amount)) }
{
    let rest = 1.0 - held_at_one(amount);
    [
        0.393 + 0.607 * rest,
        0.769 - 0.769 * rest,
        0.189 - 0.189 * rest,
        0.0,
        0.0,
        0.349 - 0.349 * rest,
        0.686 + 0.314 * rest,
        0.168 - 0.168 * rest,
        0.0,
        0.0,
        0.272 - 0.272 * rest,
        0.534 - 0.534 * rest,
        0.131 + 0.869 * rest,
        0.0,
        0.0,
        0.0,
        0.0,
        0.0,
        1.0,
        0.0,
    ]
}

#[tactic(auto, unfolding(num::specs::Means::double_of))]
pub fn convert_saturate_function(amount: u64) -> f32
    ensures { result ≡ positive_or_zero (as_f32 (of_bits binary64 amount)) }
{
    positive_or_zero(double_narrowed(amount))
}

#[tactic(auto, unfolding(num::specs::Means::double_of))]
pub fn convert_hue_rotate_function(degrees: u64) -> f32
    ensures { result ≡ as_f32 (of_bits binary64 degrees) }
{
    double_narrowed(degrees)
}

// Transfer functions: one for each name in filter.rs. Invert and opacity share no number but the amount, and brightness and contrast no more than the slope:
// one form for two would take the rest as arguments, and be no shorter than either.

#[tactic(auto, unfolding(crate::specs::Amounts::invert_table))]
pub fn convert_invert_function(amount: u64) -> [f32; 2]
    ensures { result ≡ invert_table (held (of_bits binary64 amount)) }
{
    let held = held_at_one(amount);
    [held, 1.0 - held]
}

#[tactic(auto, unfolding(crate::specs::Amounts::opacity_table))]
pub fn convert_opacity_function(amount: u64) -> [f32; 2]
    ensures { result ≡ opacity_table (held (of_bits binary64 amount)) }
{
    [0.0, held_at_one(amount)]
}

#[tactic(auto, unfolding(num::specs::Means::double_of))]
pub fn convert_brightness_function(amount: u64) -> TransferFunction
    ensures { result ≡ Linear (as_f32 (of_bits binary64 amount)) zero }
{
    TransferFunction::Linear {
        slope: double_narrowed(amount),
        intercept: 0.0,
    }
}

pub fn convert_contrast_function(amount: u64) -> TransferFunction
    ensures { result ≡ Linear (as_f32 (of_bits binary64 amount)) (contrast_intercept (as_f32 (of_bits binary64 amount))) }
{
    let slope = double_narrowed(amount);
    TransferFunction::Linear {
        slope,
        intercept: -(0.5 * slope) + 0.5,
    }
}
