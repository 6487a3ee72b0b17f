//! Vector differences (7.3.8.9).
ghost use Rattle.std.specs.Prelude.{◌≡◌, ◌≤◌, ◌∷◌, [], nat_abs, nat_lt, pos, ◌*ℤ◌, ◌-ℤ◌};
ghost use Rattle.h265_model.specs.Plain.{context_bin};
ghost use Rattle.h265_model.specs.SyntaxElements.{abs_mvd_greater0_flag};
ghost use Rattle.h265_model.specs.Motion as motion;
ghost use Rattle.h265_model.specs.Motion.{greater1_of, part_items, difference_items};
ghost use Rattle.h265_model.specs.Residual as residual;
ghost use Rattle.bin_items.specs.Growth.{IsOpen, Takes, Writes};
ghost use Rattle.motion_code.specs.Moves.{IsShort};
ghost use Rattle.motion_code.specs.Parts.{rest_items, sign_items, greater0_items, part_flags, both_parts, IsCodable};

use crate::flag::{write_bypass, write_flag};
use bin_items::{BinSink, NoMemory, write_eg};
use h265_model::Vector;
use h265_model::syntax_elements::{ABS_MVD_GREATER0_FLAG, ABS_MVD_GREATER1_FLAG};

// A part of a difference, in quarters of a sample.
fn part_of(vector: i32, predictor: i32) -> i32
    requires vector { nat_abs vector ≤ 4095 }
    requires predictor { nat_abs predictor ≤ 4095 }
    ensures value { result ≡ pos 4 *ℤ vector -ℤ pos 4 *ℤ predictor }
    ensures few { nat_abs result ≤ 32760 }
{
    4 * vector - 4 * predictor
}

/// The difference of a vector from a predictor, in quarters of a sample (7.4.9.9).
pub(crate) fn difference_of(vector: Vector, predictor: Vector) -> Vector
    requires vector { IsShort vector }
    requires predictor { IsShort predictor }
    ensures value { result ≡ motion.difference vector predictor }
    ensures codable { IsCodable result }
{
    Vector {
        x: part_of(vector.x, predictor.x),
        y: part_of(vector.y, predictor.y),
    }
}

/// The sum of the sizes of a difference's parts.
pub(crate) fn size_of(difference: Vector) -> u32
    requires codable { IsCodable difference }
    ensures { result ≡ motion.size_of difference }
{
    difference.x.unsigned_abs() + difference.y.unsigned_abs()
}

// Writes abs_mvd_greater0_flag of both parts.
fn write_greater0<S: BinSink>(sink: &mut S, difference: Vector) -> Result<(), NoMemory>
    requires codable { IsCodable difference }
    requires not_ended { IsOpen (S.phase sink.old) }
    ensures taken { Writes (greater0_items difference) (S.stands_for sink.old) (S.stands_for sink.new) result }
    ensures not_ended { IsOpen (S.phase sink.new) }
{
    let x = difference.x.unsigned_abs();
    let y = difference.y.unsigned_abs();
    write_flag(sink, x > 0, ABS_MVD_GREATER0_FLAG)?;
    write_flag(sink, y > 0, ABS_MVD_GREATER0_FLAG)
}

// Writes abs_mvd_greater1_flag of a part, where it isn't 0.
fn write_greater1<S: BinSink>(sink: &mut S, part: i32) -> Result<(), NoMemory>
    requires codable { nat_abs part ≤ 32760 }
    requires not_ended { IsOpen (S.phase sink.old) }
    ensures taken { Writes (greater1_of (nat_abs part)) (S.stands_for sink.old) (S.stands_for sink.new) result }
    ensures not_ended { IsOpen (S.phase sink.new) }
{
    let size = part.unsigned_abs();
    if size == 0 {
        return Ok(());
    }
    write_flag(sink, size > 1, ABS_MVD_GREATER1_FLAG)
}

// Writes abs_mvd_minus2, where the size is above 1.
fn write_rest<S: BinSink>(sink: &mut S, size: u32) -> Result<(), NoMemory>
    requires few { size ≤ 32760 }
    requires not_ended { IsOpen (S.phase sink.old) }
    ensures taken { Writes (rest_items size) (S.stands_for sink.old) (S.stands_for sink.new) result }
    ensures not_ended { IsOpen (S.phase sink.new) }
{
    if size < 2 {
        return Ok(());
    }
    write_eg(sink, size - 2, 1, 0)
}

// Writes mvd_sign_flag, where the size is above 0.
fn write_sign<S: BinSink>(sink: &mut S, size: u32, negative: bool) -> Result<(), NoMemory>
    requires not_ended { IsOpen (S.phase sink.old) }
    ensures taken { Writes (sign_items size negative) (S.stands_for sink.old) (S.stands_for sink.new) result }
    ensures not_ended { IsOpen (S.phase sink.new) }
{
    if size == 0 {
        return Ok(());
    }
    write_bypass(sink, negative)
}

// Whether a part is below 0.
fn is_negative(part: i32) -> bool
    ensures { result ≡ residual.is_negative part }
{
    part < 0
}

// Writes what is left of a part after its flags: its size from 2 on, and its sign.
fn write_part<S: BinSink>(sink: &mut S, part: i32) -> Result<(), NoMemory>
    requires codable { nat_abs part ≤ 32760 }
    requires not_ended { IsOpen (S.phase sink.old) }
    ensures taken { Writes (part_items part) (S.stands_for sink.old) (S.stands_for sink.new) result }
    ensures not_ended { IsOpen (S.phase sink.new) }
{
    let size = part.unsigned_abs();
    write_rest(sink, size)?;
    write_sign(sink, size, is_negative(part))
}

// Writes abs_mvd_greater1_flag of both parts.
fn write_part_flags<S: BinSink>(sink: &mut S, difference: Vector) -> Result<(), NoMemory>
    requires codable { IsCodable difference }
    requires not_ended { IsOpen (S.phase sink.old) }
    ensures taken { Writes (part_flags difference) (S.stands_for sink.old) (S.stands_for sink.new) result }
    ensures not_ended { IsOpen (S.phase sink.new) }
{
    write_greater1(sink, difference.x)?;
    write_greater1(sink, difference.y)
}

// Writes what is left of both parts.
fn write_parts<S: BinSink>(sink: &mut S, difference: Vector) -> Result<(), NoMemory>
    requires codable { IsCodable difference }
    requires not_ended { IsOpen (S.phase sink.old) }
    ensures taken { Writes (both_parts difference) (S.stands_for sink.old) (S.stands_for sink.new) result }
    ensures not_ended { IsOpen (S.phase sink.new) }
{
    write_part(sink, difference.x)?;
    write_part(sink, difference.y)
}

/// Writes a difference in quarters of a sample (7.3.8.9).
pub(crate) fn write_difference<S: BinSink>(sink: &mut S, difference: Vector) -> Result<(), NoMemory>
    requires codable { IsCodable difference }
    requires not_ended { IsOpen (S.phase sink.old) }
    ensures taken { Writes (difference_items difference) (S.stands_for sink.old) (S.stands_for sink.new) result }
    ensures not_ended { IsOpen (S.phase sink.new) }
{
    write_greater0(sink, difference)?;
    write_part_flags(sink, difference)?;
    write_parts(sink, difference)
}
