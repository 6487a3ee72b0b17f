//! The sizes and signs of a sub-block's levels other than 0, in the order of coding.
ghost use Rattle.std.specs.Prelude.{◌≡◌, ◌<◌, ◌≤◌, ◌+◌, ◌*◌, ◌-◌, ◌^◌, ◌==◌, if◌then◌else◌, min, IfSome, length, false, true, replicate, ◌++◌, [], nat_lt, ◌||◌, ◌/◌, ◌%◌, Some};
ghost use Rattle.h265_model.specs.Bits.{u};
ghost use Rattle.h265_model.specs.Binarise.{tr_read, fl_read, remaining_read, eg_read};
ghost use Rattle.h265_model.specs.Residual as residual;
ghost use Rattle.cabac_dec.specs.State.{IsOpen, Answers, Shows};
ghost use Rattle.residual_read.specs.Parts.{ones_read, escape_read, four_from, size_read, known_as, next_known, Gives, GivesWith, levels_at, second_read, values_with};
ghost use Rattle.residual_read.specs.Parts as parts;

use arrayvec::ArrayVec;
use cabac_dec::{Decoder, Place};
use scan_orders::{greater1_context, greater2_context};

// Reads coeff_abs_level_greater1_flag of so many levels, as digits.
fn read_ones(decoder: &mut Decoder, component: u32, set: u32, many: u32) -> Option<u32>
    requires open { IsOpen decoder.old }
    requires component { component < 3 }
    requires set { set < (if component == 0 then 4 else 2) }
    requires many { many ≤ 8 }
    ensures value { Answers result (ones_read component set 1 0 many decoder.old) decoder.new }
    ensures open { IfSome result (λ _. IsOpen decoder.new) }
    ensures below { IfSome result (λ ones. ones < 2 ^ many) }
{
    let mut ones = 0;
    let mut counter = 1;
    for i in 0..many {
        let flag = decoder.bin(Place::Context(greater1_context(component, set, counter)))?;
        ones = 2 * ones + u32::from(flag);
        counter = counted(counter, flag);
    }
    Some(ones)
}

// The counter after a flag: 0 from the first flag of 1 on.
#[inline(always)]
fn counted(counter: u32, flag: bool) -> u32
    requires { counter ≤ 8 }
    ensures value { result ≡ residual.counted counter flag }
    ensures high { result ≤ counter + 1 }
{
    if flag || counter == 0 { 0 } else { counter + 1 }
}

// Reads ones, at most four, and the zero after fewer.
fn read_prefix(decoder: &mut Decoder) -> Option<u32>
    requires open { IsOpen decoder.old }
    ensures value { Answers result (four_from 0 4 decoder.old) decoder.new }
    ensures open { IfSome result (λ _. IsOpen decoder.new) }
    ensures most { IfSome result (λ ones. ones ≤ 4) }
{
    let mut ones = 0;
    while ones < 4 {
        if !decoder.bin(Place::Bypass)? {
            return Some(ones);
        }
        ones += 1;
    }
    Some(ones)
}

// Reads EGk (9.3.3.3).
pub(crate) fn read_escape(decoder: &mut Decoder, k: u32) -> Option<u32>
    requires open { IsOpen decoder.old }
    requires few { k ≤ 5 }
    ensures value { Answers result (escape_read 0 15 k decoder.old) decoder.new }
    ensures low { IfSome result (λ rest. rest < 2097152) }
    ensures open { IfSome result (λ _. IsOpen decoder.new) }
{
    let mut sum = 0;
    for ones in 0..15 {
        if !decoder.bin(Place::Bypass)? {
            let low = decoder.bypass(k + ones)?;
            return Some(sum + low);
        }
        sum += 1 << (k + ones);
    }
    if decoder.bin(Place::Bypass)? {
        return None;
    }
    let low = decoder.bypass(k + 15)?;
    Some(sum + low)
}

// How many ones are in front of 20 digits.
#[inline(always)]
fn ones_before(digits: u32) -> u32
    requires { digits < 1048576 }
    ensures most { result ≤ 20 }
    ensures front { result < 20 → digits / 2 ^ (19 - result) + 2 ≡ 2 * 2 ^ result }
{
    (2 * (1048575 - digits) + 1).leading_zeros() - 11
}

// The least rest whose prefix has so many ones, in units of 2 to the Rice parameter.
#[inline(always)]
fn least_rest(ones: u32) -> u32
    requires { ones ≤ 11 }
    ensures value { result ≡ parts.least_rest ones }
    ensures low { result ≤ 258 }
{
    if ones < 4 {
        ones
    } else {
        2 + (1 << (ones - 3))
    }
}

// Reads coeff_abs_level_remaining, whose code has so many ones in front and at most 20 bins, from those that come.
#[inline(always)]
fn read_code(decoder: &mut Decoder, rice: u32, digits: u32, ones: u32) -> u32
    requires open { IsOpen decoder.old }
    requires rice { rice ≤ 4 }
    requires known { Shows (Some digits) (fl_read 20 decoder.old) }
    requires few { 2 * ones + rice ≤ 22 }
    requires front { digits / 2 ^ (19 - ones) + 2 ≡ 2 * 2 ^ ones }
    ensures value { remaining_read rice decoder.old ≡ Some (result, decoder.new) }
    ensures open { IsOpen decoder.new }
    ensures low { result < 4194304 }
{
    let low = rice + ones.saturating_sub(3);
    let code = decoder.skip(ones + 1 + low, 20, digits);
    (least_rest(ones) << rice) + code % (1 << low)
}

// Reads coeff_abs_level_remaining (9.3.3.11): where 20 bins are there and its code has no more, they are looked at together.
#[inline(always)]
fn read_remaining(decoder: &mut Decoder, rice: u32) -> Option<u32>
    requires open { IsOpen decoder.old }
    requires rice { rice ≤ 4 }
    ensures value { Answers result (remaining_read rice decoder.old) decoder.new }
    ensures open { IfSome result (λ _. IsOpen decoder.new) }
    ensures low { IfSome result (λ rest. rest < 4194304) }
{
    let Some(digits) = decoder.peek(20) else {
        return read_bins(decoder, rice);
    };
    let ones = ones_before(digits);
    if 2 * ones + rice > 22 {
        return read_bins(decoder, rice);
    }
    Some(read_code(decoder, rice, digits, ones))
}

// Reads coeff_abs_level_remaining bin by bin.
fn read_bins(decoder: &mut Decoder, rice: u32) -> Option<u32>
    requires open { IsOpen decoder.old }
    requires rice { rice ≤ 4 }
    ensures value { Answers result (remaining_read rice decoder.old) decoder.new }
    ensures open { IfSome result (λ _. IsOpen decoder.new) }
    ensures low { IfSome result (λ rest. rest < 4194304) }
{
    let ones = read_prefix(decoder)?;
    if ones < 4 {
        let low = decoder.bypass(rice)?;
        return Some((ones << rice) + low);
    }
    let rest = read_escape(decoder, rice + 1)?;
    Some((4 << rice) + rest)
}

// Reads the size of a level of which the flags say `base`, and whether more is coded. It is at most 255.
fn read_size(decoder: &mut Decoder, rice: u32, base: u32, more: bool) -> Option<u32>
    requires open { IsOpen decoder.old }
    requires rice { rice ≤ 4 }
    requires base { base ≤ 3 }
    ensures value { Answers result (size_read rice (known_as base more) decoder.old) decoder.new }
    ensures open { IfSome result (λ _. IsOpen decoder.new) }
    ensures low { IfSome result (λ size. size ≤ 255) }
    ensures high { IfSome result (λ size. base ≤ size) }
{
    if !more {
        return Some(base);
    }
    let size = base + read_remaining(decoder, rice)?;
    if size > 255 {
        return None;
    }
    Some(size)
}

// What the flags say of the next level: its least size, and whether more is coded. `left` levels have greater1 flags, the last digits of `ones`, and
// `seen` says whether an earlier one was 1.
#[inline(always)]
fn known(ones: u32, left: u32, greater2: bool, seen: bool) -> (u32, bool)
    requires few { left ≤ 8 }
    ensures value { known_as result.0 result.1 ≡ next_known seen greater2 left ones }
    ensures low { result.0 ≤ 3 }
{
    if left == 0 {
        return (1, true);
    }
    let flag = ones >> (left - 1) & 1 == 1;
    known_one(flag, greater2, seen)
}

#[inline(always)]
fn known_one(flag: bool, greater2: bool, seen: bool) -> (u32, bool)
    ensures value { known_as result.0 result.1 ≡ parts.known_one seen greater2 flag }
    ensures low { result.0 ≤ 3 }
{
    if !flag {
        (1, false)
    } else if seen {
        (2, true)
    } else {
        (2 + u32::from(greater2), greater2)
    }
}

// The Rice parameter after a level of this size, of which more was coded or not (9.3.3.11).
#[inline(always)]
fn rice_after(rice: u32, size: u32, more: bool) -> u32
    requires rice { rice ≤ 4 }
    ensures value { result ≡ (if more then residual.rice_after rice size else rice) }
    ensures low { result ≤ 4 }
{
    if more && size > 3 << rice {
        (rice + 1).min(4)
    } else {
        rice
    }
}

// Whether a flag was 1, up to this level.
#[inline(always)]
fn seen_after(seen: bool, base: u32) -> bool
    ensures { result ≡ (seen || nat_lt 1 base) }
{
    seen || base > 1
}

#[inline(always)]
pub(crate) fn bit(digits: u32, at: u32) -> bool
    requires { at < 32 }
    ensures { result ≡ (digits / 2 ^ at % 2 == 1) }
{
    digits >> at & 1 == 1
}

#[inline(always)]
fn less(left: u32) -> u32
    ensures { result ≡ left - 1 }
{
    if left == 0 { 0 } else { left - 1 }
}

#[inline(always)]
fn signed(negative: bool, size: u32) -> i16
    requires { size ≤ 255 }
    ensures { result ≡ residual.signed negative size }
{
    let size = size as i16;
    if negative { -size } else { size }
}

// Reads the sizes of so many levels, of which `ones` has the greater1 flags and `signs` the signs, and adds the levels.
fn read_levels(
    decoder: &mut Decoder,
    ones: u32,
    greater2: bool,
    signs: u32,
    many: u32,
    values: &mut ArrayVec<i16, 16>,
) -> Option<()>
    requires open { IsOpen decoder.old }
    requires room { length values.old.items + many ≤ 16 }
    ensures value { Gives result values.new.items (levels_at 0 false greater2 ones (min many 8) many signs values.old.items decoder.old) decoder.new }
    ensures open { IfSome result (λ _. IsOpen decoder.new) }
{
    let mut left = many.min(8);
    let mut rice = 0;
    let mut seen = false;
    for i in 0..many {
        let (base, more) = known(ones, left, greater2, seen);
        let size = read_size(decoder, rice, base, more)?;
        let negative = bit(signs, many - (i + 1));
        values.push(signed(negative, size));
        rice = rice_after(rice, size, more);
        seen = seen_after(seen, base);
        left = less(left);
    }
    Some(())
}

// Reads coeff_abs_level_greater2_flag, if a greater1 flag is 1.
#[inline(always)]
fn read_second(decoder: &mut Decoder, component: u32, set: u32, ones: u32) -> Option<bool>
    requires open { IsOpen decoder.old }
    requires component { component < 3 }
    requires set { set < (if component == 0 then 4 else 2) }
    ensures value { Answers result (second_read component set ones decoder.old) decoder.new }
    ensures open { IfSome result (λ _. IsOpen decoder.new) }
{
    if ones == 0 {
        return Some(false);
    }
    decoder.bin(Place::Context(greater2_context(component, set)))
}

/// Reads so many levels other than 0 of a sub-block: their flags in a set of contexts, their signs, and what is left of their sizes. It gives the
/// greater1 flags as digits.
pub(crate) fn read_values(
    decoder: &mut Decoder,
    component: u32,
    set: u32,
    many: u32,
    values: &mut ArrayVec<i16, 16>,
) -> Option<u32>
    requires open { IsOpen decoder.old }
    requires component { component < 3 }
    requires set { set < (if component == 0 then 4 else 2) }
    requires many { many ≤ 16 }
    requires none { values.old.items ≡ [] }
    ensures value { GivesWith result values.new.items (values_with component set many decoder.old) decoder.new }
    ensures open { IfSome result (λ _. IsOpen decoder.new) }
{
    let ones = read_ones(decoder, component, set, many.min(8))?;
    let greater2 = read_second(decoder, component, set, ones)?;
    let signs = decoder.bypass(many)?;
    read_levels(decoder, ones, greater2, signs, many, values)?;
    Some(ones)
}
