//! Vectors: their differences from a predictor (7.3.8.9), and what they come to (8.5.3.2.1).
ghost use Rattle.std.specs.Prelude.{◌≡◌, ◌<◌, ◌≤◌, ◌+◌, ◌*◌, ◌^◌, nat_abs, pos, ◌+ℤ◌, ◌*ℤ◌, IfSome};
ghost use Rattle.h265_model.specs.Residual as residual;
ghost use Rattle.h265_model.specs.Motion as motion;
ghost use Rattle.h265_model.specs.Motion.{greater1_if, size_read, part_read, difference_read, vector_read};
ghost use Rattle.cabac_dec.specs.State.{IsOpen, Answers};
ghost use Rattle.unit_read.specs.Vectors.{whole_of};

use cabac_dec::{Decoder, Place};
use h265_model::Vector;
use h265_model::syntax_elements::{ABS_MVD_GREATER0_FLAG, ABS_MVD_GREATER1_FLAG, MVP_L0_FLAG};
use residual_read::read_exp_golomb;

// Reads abs_mvd_greater1_flag, where the part isn't 0.
fn read_greater1(decoder: &mut Decoder, greater0: bool) -> Option<bool>
    requires open { IsOpen decoder.old }
    ensures value { Answers result (greater1_if greater0 decoder.old) decoder.new }
    ensures open { IfSome result (λ _. IsOpen decoder.new) }
{
    if !greater0 {
        return Some(false);
    }
    decoder.bin(Place::Context(ABS_MVD_GREATER1_FLAG))
}

// Reads how far a part is from 0, where it isn't 0.
fn read_size(decoder: &mut Decoder, greater1: bool) -> Option<u32>
    requires open { IsOpen decoder.old }
    ensures value { Answers result (size_read greater1 decoder.old) decoder.new }
    ensures open { IfSome result (λ _. IsOpen decoder.new) }
    ensures few { IfSome result (λ size. size < 2097154) }
{
    if !greater1 {
        return Some(1);
    }
    let rest = read_exp_golomb(decoder, 1)?;
    Some(rest + 2)
}

// A number by its size.
fn signed(negative: bool, size: u32) -> i32
    requires few { size < 2097154 }
    ensures value { result ≡ residual.signed negative size }
    ensures few { nat_abs result < 2097154 }
{
    let value = size as i32;
    if negative { -value } else { value }
}

// Reads a part of a difference by its two flags.
fn read_part(decoder: &mut Decoder, greater0: bool, greater1: bool) -> Option<i32>
    requires open { IsOpen decoder.old }
    ensures value { Answers result (part_read greater0 greater1 decoder.old) decoder.new }
    ensures open { IfSome result (λ _. IsOpen decoder.new) }
    ensures few { IfSome result (λ part. nat_abs part < 2097154) }
{
    if !greater0 {
        return Some(0);
    }
    let size = read_size(decoder, greater1)?;
    let negative = decoder.bin(Place::Bypass)?;
    Some(signed(negative, size))
}

// Reads a difference, in quarters of a sample.
fn read_difference(decoder: &mut Decoder) -> Option<Vector>
    requires open { IsOpen decoder.old }
    ensures value { Answers result (difference_read decoder.old) decoder.new }
    ensures open { IfSome result (λ _. IsOpen decoder.new) }
{
    let x_greater0 = decoder.bin(Place::Context(ABS_MVD_GREATER0_FLAG))?;
    let y_greater0 = decoder.bin(Place::Context(ABS_MVD_GREATER0_FLAG))?;
    let x_greater1 = read_greater1(decoder, x_greater0)?;
    let y_greater1 = read_greater1(decoder, y_greater0)?;
    let x = read_part(decoder, x_greater0, x_greater1)?;
    let y = read_part(decoder, y_greater0, y_greater1)?;
    Some(Vector { x, y })
}

// The 16 lowest digits of a number.
fn low_16(value: i64) -> u32
    ensures value { result ≡ motion.low_16 value }
    ensures few { result < 65536 }
{
    if value >= 0 {
        (value as u64 % 65536) as u32
    } else {
        65535 - (-(value + 1) as u64 % 65536) as u32
    }
}

// A quarter of the signed number with these 16 digits, where it is a multiple of 4.
fn quarter(low: u32) -> Option<i32>
    requires few { low < 65536 }
    ensures { result ≡ motion.quarter (motion.signed_16 low) }
{
    if low % 4 != 0 {
        return None;
    }
    if low < 32768 {
        Some((low / 4) as i32)
    } else {
        Some(-(((65536 - low) / 4) as i32))
    }
}

// A coordinate of a vector in quarters of a sample, before it is cut to 16 digits.
fn in_quarters(predictor: i32, difference: i32) -> i64
    ensures { result ≡ pos 4 *ℤ predictor +ℤ difference }
{
    4 * i64::from(predictor) + i64::from(difference)
}

// A coordinate of the vector with this predictor and this difference, where it is in whole samples.
fn whole_part(predictor: i32, difference: i32) -> Option<i32>
    ensures { result ≡ motion.whole_part predictor difference }
{
    quarter(low_16(in_quarters(predictor, difference)))
}

// The vector with this predictor and this difference.
fn whole_vector(predictor: Vector, difference: Vector) -> Option<Vector>
    ensures { result ≡ whole_of predictor difference }
{
    let x = whole_part(predictor.x, difference.x)?;
    let y = whole_part(predictor.y, difference.y)?;
    Some(Vector { x, y })
}

// The predictor that mvp_l0_flag names.
fn named(second: bool, predictors: (Vector, Vector)) -> Vector
    ensures { result ≡ motion.predictor second predictors }
{
    if second { predictors.1 } else { predictors.0 }
}

/// Reads a vector by its two predictors: the difference and mvp_l0_flag (7.3.8.6).
pub(crate) fn read_vector(decoder: &mut Decoder, predictors: (Vector, Vector)) -> Option<Vector>
    requires open { IsOpen decoder.old }
    ensures value { Answers result (vector_read predictors decoder.old) decoder.new }
    ensures open { IfSome result (λ _. IsOpen decoder.new) }
{
    let difference = read_difference(decoder)?;
    let second = decoder.bin(Place::Context(MVP_L0_FLAG))?;
    whole_vector(named(second, predictors), difference)
}
