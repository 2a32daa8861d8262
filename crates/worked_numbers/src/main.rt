// Runs worked numbers through the compiled functions of `num` and prints one line a result: the function, its argument's bits in hex,
// and the answer. The answers of the stored `stdout` are the harness's (its command `numbers`): Rust's `as f32`, `as i32`, `f32::round`, `is_finite` and
// `is_sign_negative`, and for octaves a second implementation in Rust; every NaN is printed as 7fc00000.
#![tactic(auto)]

use number_list::{Numbers, packed};
use std::num::{f32_from_bits_with_nan as of_bits, f32_to_bits_with_nan};
use std::{fmt, io};

// A number's bits, or that it is none.
#[derive(Clone, Copy)]
struct Shown(Option<f32>);

impl fmt::Display for Shown {
    fn fmt<W: fmt::Write>(&self, f: &mut fmt::Formatter<W>) -> fmt::Result {
        match self.0 {
            Some(x) => write!(f, "{:08x}", f32_to_bits_with_nan(x)),
            None => f.write_str("not"),
        }
    }
}

// ---- f64 bits

const DOUBLES: [u64; 48] = [
    // 1.1; ties between two f32, to the even one below and above; a neighbour of a tie on each side
    0x3ff1_9999_9999_999a,
    0x3ff0_0000_1000_0000,
    0x3ff0_0000_3000_0000,
    0x3ff0_0000_0fff_ffff,
    0x3ff0_0000_1000_0001,
    0xbff0_0000_1000_0000,
    0xbff0_0000_3000_0000,
    // a carry into the exponent
    0x3fff_ffff_f000_0000,
    // the smallest normal f32, what rounds up to it, subnormals with ties, half the smallest, its neighbours
    0x3810_0000_0000_0000,
    0x380f_ffff_f000_0000,
    0x380f_ffff_dfff_ffff,
    0x36b8_0000_0000_0000,
    0x36b4_0000_0000_0000,
    0x36a0_0000_0000_0000,
    0x3690_0000_0000_0000,
    0x3690_0000_0000_0001,
    0x368f_ffff_ffff_ffff,
    0xb690_0000_0000_0001,
    0xb690_0000_0000_0000,
    // zeros and the smallest f64
    0x0000_0000_0000_0000,
    0x8000_0000_0000_0000,
    0x0000_0000_0000_0001,
    0x8000_0000_0000_0001,
    // the largest f32, the tie above it, its neighbours, the largest f64
    0x47ef_ffff_e000_0000,
    0x47ef_ffff_efff_ffff,
    0x47ef_ffff_f000_0000,
    0xc7ef_ffff_f000_0000,
    0xc7ef_ffff_efff_ffff,
    0x47f0_0000_0000_0000,
    0x7fef_ffff_ffff_ffff,
    // infinities and NaNs
    0x7ff0_0000_0000_0000,
    0xfff0_0000_0000_0000,
    0x7ff0_0000_0000_0001,
    0xfff8_0000_0000_0000,
    0x7fff_ffff_ffff_ffff,
    // around 1, -1.9, 2 ^ 31 and its neighbours with either sign, 3,000,000,000
    0x3fef_ffff_ffff_ffff,
    0xbffe_6666_6666_6666,
    0x41df_ffff_ffc0_0000,
    0x41df_ffff_ffff_ffff,
    0x41e0_0000_0000_0000,
    0x41e6_5a0b_c000_0000,
    0xc1df_ffff_ffff_ffff,
    0xc1e0_0000_0000_0000,
    0xc1e0_0000_001f_ffff,
    0xc1e0_0000_0020_0000,
    // 2 ^ 33 and the f64 below it, 2 ^ 52
    0x41ff_ffff_ffff_ffff,
    0x4200_0000_0000_0000,
    0x4330_0000_0000_0000,
];

fn double_lines(rt: &impl Print, bits: u64) -> io::Result<()> {
    let narrowed = num::narrow(bits);
    println!(rt; "narrow {bits:016x} {narrowed:08x}")?;
    let cut = num::f64_to_i32(bits);
    println!(rt; "f64_to_i32 {bits:016x} {cut}")?;
    let number = Shown(num::take_number(bits));
    let single = f32_to_bits_with_nan(num::double_narrowed(bits));
    println!(rt; "take_number {bits:016x} {number} {single:08x}")
}

fn doubles(rt: &impl Print) -> io::Result<()> {
    for bits in DOUBLES {
        double_lines(rt, bits)?;
    }
    Ok(())
}

// ---- f32 bits

const SINGLES: [u32; 56] = [
    // zeros, the patterns 1 to 5, negative subnormals, the largest subnormal, the smallest normal
    0x0000_0000,
    0x8000_0000,
    0x0000_0001,
    0x0000_0004,
    0x0000_0005,
    0x8000_0001,
    0x8000_0004,
    0x007f_ffff,
    0x0080_0000,
    // below a half, a half, above it; with either sign
    0x3eff_ffff,
    0x3f00_0000,
    0x3f00_0001,
    0xbeff_ffff,
    0xbf00_0000,
    0xbf00_0001,
    // 1, 1.5 and 2.5 and their neighbours, 3.5, -2.5, -1.5, -1.9, -1
    0x3f7f_ffff,
    0x3f80_0000,
    0x3fc0_0000,
    0x3fbf_ffff,
    0x4020_0000,
    0x401f_ffff,
    0x4060_0000,
    0xc020_0000,
    0xbfc0_0000,
    0xbff3_3333,
    0xbf80_0000,
    // halves near 2 ^ 22 and 2 ^ 23
    0x4aff_ffff,
    0x4aff_fffe,
    0x4a80_0001,
    0x4b00_0000,
    0x4b00_0001,
    0xcaff_ffff,
    // 2 ^ 24, 2 ^ 31 and its neighbours, 3,000,000,000, with either sign
    0x4b80_0000,
    0x4eff_ffff,
    0x4f00_0000,
    0x4f00_0001,
    0x4f32_d05e,
    0xceff_ffff,
    0xcf00_0000,
    0xcf00_0001,
    0xcf32_d05e,
    // 2 ^ 32 and its neighbours, 2 ^ 33
    0x4f7f_ffff,
    0x4f80_0000,
    0x4f80_0001,
    0x4fff_ffff,
    0x5000_0000,
    // the largest numbers, the infinities
    0x7f7f_ffff,
    0xff7f_ffff,
    0x7f80_0000,
    0xff80_0000,
    // NaNs
    0x7fc0_0000,
    0x7f80_0001,
    0xffc0_0000,
    0xff80_0001,
    0x7fff_ffff,
    0xffff_ffff,
];

fn octaves_line(rt: &impl Print, bits: u32) -> io::Result<()> {
    let octaves = num::octaves(of_bits(bits));
    println!(rt; "octaves {bits:08x} {octaves}")
}

fn tests_line(rt: &impl Print, bits: u32) -> io::Result<()> {
    let x = of_bits(bits);
    let near_zero = num::approx_zero_ulps(x);
    let finite = num::is_finite(x);
    let positive = num::is_positive(x);
    let sign = num::is_sign_negative(x);
    println!(rt; "tests {bits:08x} {near_zero} {finite} {positive} {sign}")
}

fn single_lines(rt: &impl Print, bits: u32) -> io::Result<()> {
    let x = of_bits(bits);
    let cut = num::f32_to_i32(x);
    println!(rt; "f32_to_i32 {bits:08x} {cut}")?;
    let rounded = f32_to_bits_with_nan(num::round_f32(x));
    println!(rt; "round_f32 {bits:08x} {rounded:08x}")?;
    octaves_line(rt, bits)?;
    let number = Shown(num::take_single(bits));
    let single = f32_to_bits_with_nan(num::single(bits));
    println!(rt; "take_single {bits:08x} {number} {single:08x}")?;
    tests_line(rt, bits)
}

fn singles(rt: &impl Print) -> io::Result<()> {
    for bits in SINGLES {
        single_lines(rt, bits)?;
    }
    Ok(())
}

// ---- octaves

const HALVES: [u32; 23] = [
    // the smallest subnormal
    0x0000_0001,
    // 0.5, 1.5, 2.5, 3.5, each between the f32 on either side
    0x3eff_ffff,
    0x3f00_0000,
    0x3f00_0001,
    0x3fbf_ffff,
    0x3fc0_0000,
    0x3fc0_0001,
    0x401f_ffff,
    0x4020_0000,
    0x4020_0001,
    0x405f_ffff,
    0x4060_0000,
    0x4060_0001,
    // halves on both sides of 2 ^ 22; the last two, and 8,388,608, from which on every f32 is whole
    0x4a7f_fffe,
    0x4a80_0001,
    0x4aff_fffd,
    0x4aff_fffe,
    0x4aff_ffff,
    0x4b00_0000,
    0x4b00_0001,
    // 2 ^ 32 between the f32 on either side
    0x4f7f_ffff,
    0x4f80_0000,
    0x4f80_0001,
];

// With the sign clear, and with it set.
fn halves(rt: &impl Print) -> io::Result<()> {
    for bits in HALVES {
        octaves_line(rt, bits)?;
        octaves_line(rt, bits | 0x8000_0000)?;
    }
    Ok(())
}

// ---- bounds

const BOUNDED: [u32; 14] = [
    0x3f80_0000,
    0x3f7f_ffff,
    0x3f80_0001,
    0x4300_0000,
    0x42ff_ffff,
    0x4300_0001,
    0x4000_0000,
    0x0000_0000,
    0x8000_0000,
    0xbf80_0000,
    0x7f80_0000,
    0xff80_0000,
    0x7fc0_0000,
    0xffc0_0000,
];

fn bound_line(rt: &impl Print, min: u32, val: u32, max: u32) -> io::Result<()> {
    let bounded = f32_to_bits_with_nan(num::f32_bound(of_bits(min), of_bits(val), of_bits(max)));
    println!(rt; "f32_bound {min:08x} {val:08x} {max:08x} {bounded:08x}")
}

// Each value between 1 and 128, then between -0 and 1.
fn bounds(rt: &impl Print) -> io::Result<()> {
    for bits in BOUNDED {
        bound_line(rt, 0x3f80_0000, bits, 0x4300_0000)?;
        bound_line(rt, 0x8000_0000, bits, 0x3f80_0000)?;
    }
    Ok(())
}

// ---- lists

// 1, an infinity, -2 and two bytes of a fourth.
const LIST: [u8; 14] = [0, 0, 128, 63, 0, 0, 128, 127, 0, 0, 0, 192, 0, 64];

// The list's length and the number at each place, zero past its end.
fn list_lines(rt: &impl Print, list: Numbers) -> io::Result<()> {
    let length = number_list::numbers_len(&LIST, list);
    let mut left = list.iter(&LIST);
    for _ in 0..6 {
        let number = f32_to_bits_with_nan(left.next().unwrap_or(0.0));
        println!(rt; "number_at {length} {number:08x}")?;
    }
    Ok(())
}

fn lists(rt: &impl Print) -> io::Result<()> {
    list_lines(rt, packed(0, 5))?;
    list_lines(rt, packed(8, 1))?;
    list_lines(rt, packed(u32::MAX, 2))
}

fn main(rt: HostRuntime) -> io::Result<()> {
    doubles(&rt)?;
    singles(&rt)?;
    halves(&rt)?;
    bounds(&rt)?;
    lists(&rt)
}
