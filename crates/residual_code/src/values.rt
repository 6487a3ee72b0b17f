//! The sizes and signs of a sub-block's levels other than 0, in the order of coding.
ghost use Rattle.std.specs.Prelude.{◌≡◌, ◌<◌, ◌≤◌, ◌==◌, if◌then◌else◌, length, map, nat_abs, nat_le, nat_lt, ◌+◌, [], ◌-◌, is_some, IfSome, IfNone};
ghost use Rattle.h265_model.specs.Plain.{bypass_bin};
ghost use Rattle.h265_model.specs.Binarise.{fl, remaining, bypass_bins};
ghost use Rattle.h265_model.specs.Residual.{has_flag, greater1_flags, greater2_of, greater1_items, greater2_items, is_negative, rest_items, known_of, value_items, nonzero, AreLevels};
ghost use Rattle.h265_model.specs.Residual as residual;
ghost use Rattle.residual_code.specs.Parts.{least_of};
ghost use Rattle.bin_items.specs.Growth.{IsOpen, Writes};

use crate::remaining::CODES;
use bin_items::{Bin, BinSink, NoMemory, Place};
use scan_orders::{greater1_context, greater2_context};

/// How many levels of a sub-block have coeff_abs_level_greater1_flag.
const FLAGGED: usize = 8;

/// The size of the first level above 1 among those with coeff_abs_level_greater1_flag.
pub(crate) fn first_large(values: &[i16]) -> Option<u16>
    ensures flag { is_some result ≡ has_flag (greater1_flags 8 (map nat_abs values.now)) }
    ensures size { IfSome result (λ size. nat_lt 2 size ≡ greater2_of 8 (map nat_abs values.now)) }
{
    for i in 0..values.len().min(FLAGGED) {
        let size = values[i].unsigned_abs();
        if size > 1 {
            return Some(size);
        }
    }
    None
}

// Writes coeff_abs_level_greater1_flag of the first eight levels.
fn write_greater1<S: BinSink>(
    sink: &mut S,
    component: u32,
    set: u32,
    values: &[i16],
) -> Result<(), NoMemory>
    requires component { component < 3 }
    requires set { set < (if component == 0 then 4 else 2) }
    requires not_ended { IsOpen (S.phase sink.old) }
    ensures taken { Writes (greater1_items component set 1 (greater1_flags 8 (map nat_abs values.now))) (S.stands_for sink.old) (S.stands_for sink.new) result }
    ensures not_ended { IsOpen (S.phase sink.new) }
{
    let mut counter = 1;
    for i in 0..values.len().min(FLAGGED) {
        let flag = values[i].unsigned_abs() > 1;
        sink.bin(Bin {
            value: flag,
            place: Place::Context(greater1_context(component, set, counter)),
        })?;
        counter = counted(counter, flag);
    }
    Ok(())
}

// The counter after a flag: 0 from the first flag of 1 on.
#[inline(always)]
fn counted(counter: u32, flag: bool) -> u32
    requires { counter ≤ 8 }
    ensures value { result ≡ residual.counted counter flag }
    ensures high { result ≤ counter + 1 }
{
    if flag || counter == 0 { 0 } else { counter + 1 }
}

// Writes coeff_abs_level_greater2_flag, if a level is above 1 among those with greater1 flags.
#[inline(always)]
fn write_greater2<S: BinSink>(
    sink: &mut S,
    component: u32,
    set: u32,
    values: &[i16],
    large: Option<u16>,
) -> Result<(), NoMemory>
    requires component { component < 3 }
    requires set { set < (if component == 0 then 4 else 2) }
    requires flag { is_some large ≡ has_flag (greater1_flags 8 (map nat_abs values.now)) }
    requires size { IfSome large (λ size. nat_lt 2 size ≡ greater2_of 8 (map nat_abs values.now)) }
    requires not_ended { IsOpen (S.phase sink.old) }
    ensures taken { let sizes = map nat_abs values.now in Writes (greater2_items component set (greater1_flags 8 sizes) (greater2_of 8 sizes)) (S.stands_for sink.old) (S.stands_for sink.new) result }
    ensures not_ended { IsOpen (S.phase sink.new) }
{
    let _of = values;
    match large {
        None => Ok(()),
        Some(size) => sink.bin(Bin {
            value: size > 2,
            place: Place::Context(greater2_context(component, set)),
        }),
    }
}

// Writes the signs: 1 for a negative level.
fn write_signs<S: BinSink>(sink: &mut S, values: &[i16]) -> Result<(), NoMemory>
    requires many { length values.now ≤ 16 }
    requires not_ended { IsOpen (S.phase sink.old) }
    ensures taken { Writes (map (λ v. bypass_bin (is_negative v)) values.now) (S.stands_for sink.old) (S.stands_for sink.new) result }
    ensures not_ended { IsOpen (S.phase sink.new) }
{
    sink.bypass(sign_bits(values), values.len() as u32)
}

// The signs as digits, the first level's the most significant: 1 for a negative level.
fn sign_bits(values: &[i16]) -> u32
    requires { length values.now ≤ 16 }
    ensures { fl (length values.now) result ≡ map is_negative values.now }
{
    let mut bits = 0;
    for value in values {
        bits = 2 * bits + u32::from(*value < 0);
    }
    bits
}

// Writes coeff_abs_level_remaining with a Rice parameter of at most 4 (9.3.3.11), of a value of at most 255.
#[inline(always)]
fn write_remaining<S: BinSink>(sink: &mut S, rice: u32, value: u32) -> Result<(), NoMemory>
    requires rice { rice ≤ 4 }
    requires value { value ≤ 255 }
    requires not_ended { IsOpen (S.phase sink.old) }
    ensures taken { Writes (bypass_bins (remaining rice value)) (S.stands_for sink.old) (S.stands_for sink.new) result }
    ensures not_ended { IsOpen (S.phase sink.new) }
{
    let (code, count) = remaining_code(rice, value);
    sink.bypass(code, count)
}

// The digits of that code as a number, and how many there are: ones, a zero, and some low digits.
#[inline(always)]
fn remaining_code(rice: u32, value: u32) -> (u32, u32)
    requires rice { rice ≤ 4 }
    requires value { value ≤ 255 }
    ensures digits { fl result.1 result.0 ≡ remaining rice value }
    ensures few { result.1 ≤ 32 }
{
    let entry = CODES[(256 * rice + value) as usize];
    (entry >> 8, entry & 255)
}

// The least size of the level with this number whose rest is coded, where `seen` says whether an earlier one was above 1.
#[inline(always)]
fn least(i: usize, seen: bool) -> u32
    ensures { result ≡ least_of (8 - i) seen }
{
    if i >= FLAGGED {
        1
    } else if seen {
        2
    } else {
        3
    }
}

// The Rice parameter after a level of this size, by the least size whose rest is coded.
#[inline(always)]
fn rice_after(rice: u32, size: u32, base: u32) -> u32
    requires { rice ≤ 4 }
    ensures value { result ≡ (if nat_le base size then residual.rice_after rice size else rice) }
    ensures high { result ≤ 4 }
{
    if size >= base && size > 3 << rice {
        (rice + 1).min(4)
    } else {
        rice
    }
}

// Writes what a size is above the least one whose rest is coded, if it is.
#[inline(always)]
fn write_rest<S: BinSink>(sink: &mut S, rice: u32, size: u32, base: u32) -> Result<(), NoMemory>
    requires rice { rice ≤ 4 }
    requires size { size ≤ 255 }
    requires not_ended { IsOpen (S.phase sink.old) }
    ensures taken { Writes (if nat_le base size then bypass_bins (remaining rice (size - base)) else []) (S.stands_for sink.old) (S.stands_for sink.new) result }
    ensures not_ended { IsOpen (S.phase sink.new) }
{
    if size < base {
        return Ok(());
    }
    write_remaining(sink, rice, size - base)
}

// Writes the sizes as far as the flags don't tell them.
fn write_rests<S: BinSink>(sink: &mut S, values: &[i16]) -> Result<(), NoMemory>
    requires bounds { AreLevels values.now }
    requires nonzero { nonzero values.now ≡ values.now }
    requires not_ended { IsOpen (S.phase sink.old) }
    ensures taken { let sizes = map nat_abs values.now in Writes (rest_items 0 (known_of (length values.now) (greater1_flags 8 sizes) (greater2_of 8 sizes)) sizes) (S.stands_for sink.old) (S.stands_for sink.new) result }
    ensures not_ended { IsOpen (S.phase sink.new) }
{
    let mut rice = 0;
    let mut seen = false;
    for i in 0..values.len() {
        let size = u32::from(values[i].unsigned_abs());
        let base = least(i, seen);
        write_rest(sink, rice, size, base)?;
        rice = rice_after(rice, size, base);
        seen |= size > 1;
    }
    Ok(())
}

/// Writes the levels other than 0 of a sub-block: their flags in a set of contexts, their signs, and what is left of their sizes. `large` is
/// what `first_large` says of them.
pub(crate) fn write_values<S: BinSink>(
    sink: &mut S,
    component: u32,
    set: u32,
    values: &[i16],
    large: Option<u16>,
) -> Result<(), NoMemory>
    requires component { component < 3 }
    requires set { set < (if component == 0 then 4 else 2) }
    requires many { length values.now ≤ 16 }
    requires bounds { AreLevels values.now }
    requires nonzero { nonzero values.now ≡ values.now }
    requires flag { is_some large ≡ has_flag (greater1_flags 8 (map nat_abs values.now)) }
    requires size { IfSome large (λ size. nat_lt 2 size ≡ greater2_of 8 (map nat_abs values.now)) }
    requires not_ended { IsOpen (S.phase sink.old) }
    ensures taken { Writes (value_items component set values.now) (S.stands_for sink.old) (S.stands_for sink.new) result }
    ensures not_ended { IsOpen (S.phase sink.new) }
{
    write_greater1(sink, component, set, values)?;
    write_greater2(sink, component, set, values, large)?;
    write_signs(sink, values)?;
    write_rests(sink, values)
}
