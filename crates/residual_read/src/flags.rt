//! Which levels of a sub-block are other than 0.
ghost use Rattle.std.specs.Prelude.{◌≡◌, ◌<◌, ◌≤◌, ◌+◌, ◌*◌, ◌-◌, ◌^◌, IfSome, if◌then◌else◌, not, ◌==◌, true};
ghost use Rattle.h265_model.specs.declared.Place.TheVariants as places_;
ghost use Rattle.h265_model.specs.Engine.{bin, give};
ghost use Rattle.h265_model.specs.SyntaxElements.{sig_coeff_flag};
ghost use Rattle.h265_model.specs.Residual as residual;
ghost use Rattle.h265_model.specs.Residual.{sig_at, is_implied, place_at};
ghost use Rattle.cabac_dec.specs.State.{IsOpen, Answers};
ghost use Rattle.residual_read.specs.Parts.{IsShape, IsSubBlock, shape_of, sub_of, mask_read};

use crate::shape::{Shape, SubBlock};
use cabac_dec::{Decoder, Place};
use h265_model::syntax_elements::SIG_COEFF_FLAG;
use scan_orders::{places, sig_context};

/// Reads sig_coeff_flag of the first `top` levels of a sub-block, the last of them first, as digits after those of `mask`. The flag of the first
/// level isn't coded where it must be 1: where `inner` holds, and no flag was 1.
pub(crate) fn read_flags(
    decoder: &mut Decoder,
    shape: Shape,
    sub: SubBlock,
    inner: bool,
    mask: u32,
    top: u32,
) -> Option<u32>
    requires open { IsOpen decoder.old }
    requires shape { IsShape shape }
    requires sub { IsSubBlock shape sub }
    requires few { top ≤ 16 }
    requires room { (mask + 1) * 2 ^ top ≤ 65536 }
    ensures value { Answers result (mask_read (shape_of shape) (sub_of sub) inner mask top decoder.old) decoder.new }
    ensures open { IfSome result (λ _. IsOpen decoder.new) }
    ensures below { IfSome result (λ mask. mask < 65536) }
{
    let start = sig_start(shape, sub);
    let mut left = top;
    let mut flags = mask;
    while left > 1 {
        left -= 1;
        let flag = read_later(decoder, shape, sub, inner, flags, start, left)?;
        flags = 2 * flags + u32::from(flag);
    }
    read_first(decoder, shape, sub, inner, flags, left)
}

// The part of sigCtx that a place gives, by its number: 16 numbers for each pair of flags of the sub-blocks below and on the right, and that for
// each scan (9.3.4.2.5).
static WITHIN: [u8; 192] = [
    2, 1, 1, 1, 1, 1, 0, 0, 0, 0, 0, 0, 0, 0, 0, 0, 2, 1, 2, 0, 1, 2, 0, 0, 1, 2, 0, 0, 1, 0, 0, 0,
    2, 2, 1, 2, 1, 0, 2, 1, 0, 0, 1, 0, 0, 0, 0, 0, 2, 2, 2, 2, 2, 2, 2, 2, 2, 2, 2, 2, 2, 2, 2, 2,
    2, 1, 1, 0, 1, 1, 0, 0, 1, 0, 0, 0, 0, 0, 0, 0, 2, 2, 2, 2, 1, 1, 1, 1, 0, 0, 0, 0, 0, 0, 0, 0,
    2, 1, 0, 0, 2, 1, 0, 0, 2, 1, 0, 0, 2, 1, 0, 0, 2, 2, 2, 2, 2, 2, 2, 2, 2, 2, 2, 2, 2, 2, 2, 2,
    2, 1, 1, 0, 1, 1, 0, 0, 1, 0, 0, 0, 0, 0, 0, 0, 2, 1, 0, 0, 2, 1, 0, 0, 2, 1, 0, 0, 2, 1, 0, 0,
    2, 2, 2, 2, 1, 1, 1, 1, 0, 0, 0, 0, 0, 0, 0, 0, 2, 2, 2, 2, 2, 2, 2, 2, 2, 2, 2, 2, 2, 2, 2, 2,
];

#[inline(always)]
fn within(scan: u32, sub: SubBlock, number: u32) -> u32
    requires scan { scan < 3 }
    requires number { number < 16 }
    ensures { result ≡ residual.sig_within sub.right sub.below (place_at (residual.scan scan 2) number).0 (place_at (residual.scan scan 2) number).1 }
{
    let flags = 2 * u32::from(sub.below) + u32::from(sub.right);
    u32::from(WITHIN[(64 * scan + 16 * flags + number) as usize])
}

// The part of a sub-block's contexts that no place in it changes.
#[inline(always)]
fn sig_start(shape: Shape, sub: SubBlock) -> u32
    requires shape { IsShape shape }
    requires sub { IsSubBlock shape sub }
    ensures { result ≡ (if shape.component == 0 then sig_coeff_flag else sig_coeff_flag + 27) + residual.sig_added shape.component shape.log2 shape.scan (sub.x + sub.y == 0) }
{
    let first = sub.x + sub.y == 0;
    if shape.component == 0 {
        SIG_COEFF_FLAG + added(shape, first)
    } else {
        SIG_COEFF_FLAG + 27 + added(shape, first)
    }
}

#[inline(always)]
fn added(shape: Shape, first: bool) -> u32
    ensures { result ≡ residual.sig_added shape.component shape.log2 shape.scan first }
{
    if shape.component > 0 {
        return if shape.log2 == 3 { 9 } else { 12 };
    }
    let side = if shape.log2 != 3 {
        21
    } else if shape.scan == 0 {
        9
    } else {
        15
    };
    if first { side } else { 3 + side }
}

// Reads sig_coeff_flag of a level that isn't the first.
#[inline(always)]
fn read_later(
    decoder: &mut Decoder,
    shape: Shape,
    sub: SubBlock,
    inner: bool,
    flags: u32,
    start: u32,
    number: u32,
) -> Option<bool>
    requires open { IsOpen decoder.old }
    requires shape { IsShape shape }
    requires sub { IsSubBlock shape sub }
    requires later { 0 < number }
    requires number { number < 16 }
    requires start { start ≡ (if shape.component == 0 then sig_coeff_flag else sig_coeff_flag + 27) + residual.sig_added shape.component shape.log2 shape.scan (sub.x + sub.y == 0) }
    ensures value { Answers result ((if is_implied inner (not (flags == 0)) number then give true else bin (places_.Context (sig_at (shape_of shape) (sub_of sub) number))) decoder.old) decoder.new }
    ensures open { IfSome result (λ _. IsOpen decoder.new) }
{
    let _known = (inner, flags);
    decoder.bin(Place::Context(start + within(shape.scan, sub, number)))
}

// Gives the flags behind that of the first level, if it is left.
#[inline(always)]
fn read_first(
    decoder: &mut Decoder,
    shape: Shape,
    sub: SubBlock,
    inner: bool,
    flags: u32,
    left: u32,
) -> Option<u32>
    requires open { IsOpen decoder.old }
    requires shape { IsShape shape }
    requires sub { IsSubBlock shape sub }
    requires few { left ≤ 1 }
    requires room { (flags + 1) * 2 ^ left ≤ 65536 }
    ensures value { Answers result (mask_read (shape_of shape) (sub_of sub) inner flags left decoder.old) decoder.new }
    ensures open { IfSome result (λ _. IsOpen decoder.new) }
    ensures below { IfSome result (λ mask. mask < 65536) }
{
    if left == 0 {
        return Some(flags);
    }
    let flag = next_flag(decoder, shape, sub, inner, flags, 0)?;
    Some(2 * flags + u32::from(flag))
}

// Gives sig_coeff_flag of the level with this number, behind those flags: it isn't coded where it must be 1.
#[inline(always)]
fn next_flag(
    decoder: &mut Decoder,
    shape: Shape,
    sub: SubBlock,
    inner: bool,
    flags: u32,
    number: u32,
) -> Option<bool>
    requires open { IsOpen decoder.old }
    requires shape { IsShape shape }
    requires sub { IsSubBlock shape sub }
    requires number { number < 16 }
    ensures value { Answers result ((if is_implied inner (not (flags == 0)) number then give true else bin (places_.Context (sig_at (shape_of shape) (sub_of sub) number))) decoder.old) decoder.new }
    ensures open { IfSome result (λ _. IsOpen decoder.new) }
{
    if is_implied(inner, flags, number) {
        return Some(true);
    }
    read_flag(decoder, shape, sub, number)
}

// Whether a flag must be 1.
#[inline(always)]
fn is_implied(inner: bool, flags: u32, number: u32) -> bool
    ensures { result ≡ residual.is_implied inner (not (flags == 0)) number }
{
    inner && flags == 0 && number == 0
}

// Reads sig_coeff_flag of the level with this number.
#[inline(always)]
fn read_flag(decoder: &mut Decoder, shape: Shape, sub: SubBlock, number: u32) -> Option<bool>
    requires open { IsOpen decoder.old }
    requires shape { IsShape shape }
    requires sub { IsSubBlock shape sub }
    requires number { number < 16 }
    ensures value { Answers result (bin (places_.Context (sig_at (shape_of shape) (sub_of sub) number)) decoder.old) decoder.new }
    ensures open { IfSome result (λ _. IsOpen decoder.new) }
{
    let place = places(shape.scan, 2)[number as usize];
    let context = sig_context(
        shape.component,
        shape.log2,
        shape.scan,
        sub.x,
        sub.y,
        u32::from(place.0),
        u32::from(place.1),
        sub.right,
        sub.below,
    );
    decoder.bin(Place::Context(context))
}
