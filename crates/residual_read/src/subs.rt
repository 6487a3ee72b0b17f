//! Sub-blocks, the last of the scan first.
ghost use Rattle.std.specs.Prelude.{◌≡◌, if◌then◌else◌, ◌<◌, ◌≤◌, ◌+◌, ◌*◌, ◌-◌, ◌^◌, List, Bool, IfSome, not, ◌==◌};
ghost use Rattle.h265_model.specs.Residual.{sub_at};
ghost use Rattle.cabac_dec.specs.State.{IsOpen, Answers};
ghost use Rattle.residual_read.specs.Parts.{IsShape, IsSubBlock, shape_of, sub_of, sub_count, set_number, sub_with, coded_read, inner_with, subs_with, Gives, GivesBoth};
ghost use Rattle.residual_read.specs.Going.{Steps};
ghost use Rattle.scan_orders.specs.Marks.{AreMarks, mark_place};

use crate::flags::read_flags;
use crate::lay::lay;
use crate::shape::{Shape, SubBlock};
use crate::values::read_values;
use arrayvec::ArrayVec;
use bin_items::Block;
use cabac_dec::{Decoder, Place};
use scan_orders::{places, sub_block_context};

/// The flags of coded sub-blocks by their places, in rows of 9: a column on the right and a row below stay false.
pub(crate) type Marks = [bool; 81];

// Where the flag of a sub-block stands.
#[inline(always)]
pub(crate) fn mark_of(x: u32, y: u32) -> usize
    requires x { x < 9 }
    requires y { y < 9 }
    ensures { result ≡ mark_place x y }
{
    (9 * y + x) as usize
}

/// The sub-block with this number, where the later ones are marked.
pub(crate) fn sub_block(shape: Shape, number: u32, marks: &Marks) -> SubBlock
    requires shape { IsShape shape }
    requires number { number < sub_count shape }
    ensures place { IsSubBlock shape result }
    ensures number { result.number ≡ number }
    ensures known { (flags : List Bool) → AreMarks (shape_of shape) (number + 1) flags marks.now → sub_of result ≡ sub_at (shape_of shape) number flags }
{
    let (x, y) = places(shape.scan, shape.log2 - 2)[number as usize];
    let (x, y) = (u32::from(x), u32::from(y));
    SubBlock {
        number,
        x,
        y,
        right: marks[mark_of(x + 1, y)],
        below: marks[mark_of(x, y + 1)],
    }
}

// The set of contexts of a sub-block's greater1 flags (9.3.4.2.6).
#[inline(always)]
fn set_of(component: u32, number: u32, ended: bool) -> u32
    requires component { component < 3 }
    ensures value { result ≡ set_number component number ended }
    ensures low { result < (if component == 0 then 4 else 2) }
{
    let later = component == 0 && number != 0;
    2 * u32::from(later) + u32::from(ended)
}

// Whether the counter of greater1 flags ended at 0 in the latest sub-block with levels, of those before and one with these flags.
#[inline(always)]
fn ended_after(ended: bool, mask: u32, ones: u32) -> bool
    ensures { result ≡ (if mask == 0 then ended else not (ones == 0)) }
{
    if mask == 0 { ended } else { ones != 0 }
}

/// Reads the levels of a sub-block, of which the flags in `mask` are known and `top` more come, and puts them in their places. It gives whether the
/// counter of greater1 flags ended at 0 in the latest sub-block with levels.
pub(crate) fn read_levels_of(
    decoder: &mut Decoder,
    shape: Shape,
    sub: SubBlock,
    inner: bool,
    ended: bool,
    mask: u32,
    top: u32,
    out: &mut Block,
) -> Option<bool>
    requires open { IsOpen decoder.old }
    requires shape { IsShape shape }
    requires sub { IsSubBlock shape sub }
    requires side { out.old.log2 ≡ shape.log2 }
    requires few { top ≤ 16 }
    requires room { (mask + 1) * 2 ^ top ≤ 65536 }
    ensures value { GivesBoth result out.new.levels (sub_with (shape_of shape) (sub_of sub) (sub.x, sub.y) inner ended mask top out.old.levels decoder.old) decoder.new }
    ensures open { IfSome result (λ _. IsOpen decoder.new) }
    ensures side { out.new.log2 ≡ out.old.log2 }
{
    let mask = read_flags(decoder, shape, sub, inner, mask, top)?;
    let many = mask.count_ones().min(16);
    let set = set_of(shape.component, sub.number, ended);
    let mut values = ArrayVec::new();
    let ones = read_values(decoder, shape.component, set, many, &mut values)?;
    lay(out, shape.scan, sub, mask, values.as_slice());
    Some(ended_after(ended, mask, ones))
}

// Reads coded_sub_block_flag of a sub-block before the last one: that of the first one isn't coded.
#[inline(always)]
fn read_coded(decoder: &mut Decoder, shape: Shape, sub: SubBlock) -> Option<bool>
    requires open { IsOpen decoder.old }
    requires shape { IsShape shape }
    ensures value { Answers result (coded_read (shape_of shape) (sub_of sub) decoder.old) decoder.new }
    ensures open { IfSome result (λ _. IsOpen decoder.new) }
{
    if sub.number == 0 {
        return Some(true);
    }
    decoder.bin(Place::Context(sub_block_context(shape.component, sub.right, sub.below)))
}

// Reads the levels of a sub-block before the last one, if it is coded.
#[inline(always)]
fn read_inner(
    decoder: &mut Decoder,
    shape: Shape,
    sub: SubBlock,
    coded: bool,
    ended: bool,
    out: &mut Block,
) -> Option<bool>
    requires open { IsOpen decoder.old }
    requires shape { IsShape shape }
    requires sub { IsSubBlock shape sub }
    requires side { out.old.log2 ≡ shape.log2 }
    ensures value { GivesBoth result out.new.levels (inner_with (shape_of shape) (sub_of sub) (sub.x, sub.y) coded ended out.old.levels decoder.old) decoder.new }
    ensures open { IfSome result (λ _. IsOpen decoder.new) }
    ensures side { out.new.log2 ≡ out.old.log2 }
{
    if !coded {
        return Some(ended);
    }
    read_levels_of(decoder, shape, sub, sub.number != 0, ended, 0, 16, out)
}

// Reads a sub-block before the last one.
fn read_sub(
    decoder: &mut Decoder,
    shape: Shape,
    number: u32,
    marks: &mut Marks,
    ended: bool,
    out: &mut Block,
) -> Option<bool>
    requires open { IsOpen decoder.old }
    requires shape { IsShape shape }
    requires number { number < sub_count shape }
    requires side { out.old.log2 ≡ shape.log2 }
    ensures value { (flags : List Bool) → AreMarks (shape_of shape) (number + 1) flags marks.old → Steps (shape_of shape) flags ended number out.old.levels decoder.old result marks.new out.new.levels decoder.new }
    ensures open { IfSome result (λ _. IsOpen decoder.new) }
    ensures side { out.new.log2 ≡ out.old.log2 }
{
    let sub = sub_block(shape, number, marks);
    let coded = read_coded(decoder, shape, sub)?;
    marks[mark_of(sub.x, sub.y)] = coded;
    read_inner(decoder, shape, sub, coded, ended, out)
}

/// Reads the sub-blocks before this number, the last of them first, and puts their levels in their places.
pub(crate) fn read_subs(
    decoder: &mut Decoder,
    shape: Shape,
    number: u32,
    marks: &mut Marks,
    ended: bool,
    out: &mut Block,
) -> Option<()>
    requires open { IsOpen decoder.old }
    requires shape { IsShape shape }
    requires number { number < sub_count shape }
    requires side { out.old.log2 ≡ shape.log2 }
    ensures value { (flags : List Bool) → AreMarks (shape_of shape) number flags marks.old → Gives result out.new.levels (subs_with (shape_of shape) flags ended number out.old.levels decoder.old) decoder.new }
    ensures open { IfSome result (λ _. IsOpen decoder.new) }
    ensures side { out.new.log2 ≡ out.old.log2 }
{
    let mut left = number;
    let mut last = ended;
    while left > 0 {
        left -= 1;
        last = read_sub(decoder, shape, left, marks, last, out)?;
    }
    Some(())
}
