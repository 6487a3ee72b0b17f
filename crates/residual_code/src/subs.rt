//! Sub-blocks, the last of the scan first.
ghost use Rattle.std.specs.Prelude.{◌≡◌, ℕ, if◌then◌else◌, ◌<◌, ◌≤◌, ◌+◌, ◌*◌, ◌-◌, ◌^◌, ◌++◌, ◌∷◌, List, Bool, length, map, nat_abs, is_some, OnOk};
ghost use Rattle.h265_model.specs.Residual.{sub_at, sig_items, value_items, set_of, nonzero, ended_at_zero, sub_items, AreLevels, has_flag, greater1_flags};
ghost use Rattle.bin_items.specs.Growth.{IsOpen, Writes};
ghost use Rattle.residual_code.specs.Parts.{IsShape, IsSubBlock, shape_of, sub_of, sub_count, tile_levels, sub_levels, has_members, down, coded_at, flag_part, level_part, sub_part, set_number};
ghost use Rattle.scan_orders.specs.Marks.{AreMarks, mark_place};

use crate::flags::write_flags;
use crate::shape::{Shape, SubBlock};
use crate::tile::{is_empty, load};
use crate::values::{first_large, write_values};
use arrayvec::ArrayVec;
use bin_items::{Bin, BinSink, NoMemory, Place};
use scan_orders::{places, sub_block_context};

/// The flags of coded sub-blocks by their places, in rows of 9: a column on the right and a row below stay false.
pub(crate) type Marks = [bool; 81];

// Where the flag of a sub-block stands.
#[inline(always)]
pub(crate) fn mark_of(x: u32, y: u32) -> usize
    requires x { x < 9 }
    requires y { y < 9 }
    ensures { result ≡ mark_place x y }
{
    (9 * y + x) as usize
}

/// The sub-block with this number, where the later ones are marked.
pub(crate) fn sub_block(shape: Shape, number: u32, marks: &Marks) -> SubBlock
    requires shape { IsShape shape }
    requires number { number < sub_count shape }
    ensures place { IsSubBlock shape result }
    ensures number { result.number ≡ number }
    ensures known { (flags : List Bool) → AreMarks (shape_of shape) (number + 1) flags marks.now → sub_of result ≡ sub_at (shape_of shape) number flags }
{
    let (x, y) = places(shape.scan, shape.log2 - 2)[number as usize];
    let (x, y) = (u32::from(x), u32::from(y));
    SubBlock {
        number,
        x,
        y,
        right: marks[mark_of(x + 1, y)],
        below: marks[mark_of(x, y + 1)],
    }
}

/// Writes the flags of the first `top` levels of a sub-block, and its levels other than 0, of which `values` has those past the first `top`. It says
/// in `ended` whether the counter of greater1 flags ended at 0 in the latest sub-block with levels.
pub(crate) fn write_levels<S: BinSink>(
    sink: &mut S,
    shape: Shape,
    sub: SubBlock,
    tile: &[i16; 16],
    top: usize,
    inner: bool,
    values: &mut ArrayVec<i16, 16>,
    ended: &mut bool,
) -> Result<(), NoMemory>
    requires shape { IsShape shape }
    requires sub { IsSubBlock shape sub }
    requires bounds { AreLevels tile.now }
    requires room { length values.old.items + top ≤ 16 }
    requires value_bounds { AreLevels values.old.items }
    requires nonzero { nonzero values.old.items ≡ values.old.items }
    requires not_ended { IsOpen (S.phase sink.old) }
    ensures taken { let levels = tile_levels shape.scan tile.now top in Writes (sig_items (shape_of shape) (sub_of sub) inner (has_members values.old.items) levels ++ value_items shape.component (set_of (shape_of shape) sub.number ended.old) (values.old.items ++ nonzero levels)) (S.stands_for sink.old) (S.stands_for sink.new) result }
    ensures ended { OnOk result (ended.new ≡ ended_at_zero ended.old (values.old.items ++ nonzero (tile_levels shape.scan tile.now top))) }
    ensures not_ended { IsOpen (S.phase sink.new) }
{
    write_flags(sink, shape, sub, tile, top, inner, values)?;
    let set = set_of(shape.component, sub.number, *ended);
    let large = first_large(values.as_slice());
    *ended = ended_after(*ended, values.as_slice(), large);
    write_values(sink, shape.component, set, values.as_slice(), large)
}

// Whether the counter of greater1 flags ended at 0 in the latest sub-block with levels, of those before and this one.
#[inline(always)]
fn ended_after(before: bool, values: &[i16], large: Option<u16>) -> bool
    requires { is_some large ≡ has_flag (greater1_flags 8 (map nat_abs values.now)) }
    ensures { result ≡ ended_at_zero before values.now }
{
    if values.is_empty() {
        before
    } else {
        large.is_some()
    }
}

// The set of contexts of a sub-block's greater1 flags (9.3.4.2.6).
#[inline(always)]
fn set_of(component: u32, number: u32, ended: bool) -> u32
    ensures value { result ≡ set_number component number ended }
    ensures low { result < 4 }
    ensures colour { 0 < component → result < 2 }
{
    let later = component == 0 && number != 0;
    2 * u32::from(later) + u32::from(ended)
}

// Writes a sub-block before the last one.
fn write_sub<S: BinSink>(
    sink: &mut S,
    shape: Shape,
    levels: &[i16],
    number: u32,
    marks: &mut Marks,
    ended: &mut bool,
) -> Result<(), NoMemory>
    requires shape { IsShape shape }
    requires long { length levels.now ≡ 2 ^ shape.log2 * 2 ^ shape.log2 }
    requires bounds { AreLevels levels.now }
    requires number { number < sub_count shape }
    requires not_ended { IsOpen (S.phase sink.old) }
    ensures taken { (flags : List Bool) → AreMarks (shape_of shape) (number + 1) flags marks.old → Writes (sub_part (shape_of shape) (sub_at (shape_of shape) number flags) ended.old (sub_levels (shape_of shape) levels.now number)) (S.stands_for sink.old) (S.stands_for sink.new) result }
    ensures marks { (flags : List Bool) → AreMarks (shape_of shape) (number + 1) flags marks.old → OnOk result (AreMarks (shape_of shape) number (coded_at number (sub_levels (shape_of shape) levels.now number) ∷ flags) marks.new) }
    ensures ended { OnOk result (ended.new ≡ ended_at_zero ended.old (nonzero (sub_levels (shape_of shape) levels.now number))) }
    ensures not_ended { IsOpen (S.phase sink.new) }
{
    let sub = sub_block(shape, number, marks);
    let tile = load(levels, shape, sub.x, sub.y);
    let coded = is_coded(number, &tile);
    write_coded(sink, shape, sub, coded)?;
    marks[mark_of(sub.x, sub.y)] = coded;
    write_inner(sink, shape, sub, &tile, coded, ended)
}

// Whether a sub-block before the last one is coded: the first one is.
#[inline(always)]
fn is_coded(number: u32, tile: &[i16; 16]) -> bool
    ensures { (kind : ℕ) → result ≡ coded_at number (tile_levels kind tile.now 16) }
{
    number == 0 || !is_empty(tile)
}

// Writes coded_sub_block_flag of a sub-block before the last one, if it isn't the first one.
#[inline(always)]
fn write_coded<S: BinSink>(
    sink: &mut S,
    shape: Shape,
    sub: SubBlock,
    coded: bool,
) -> Result<(), NoMemory>
    requires shape { IsShape shape }
    requires not_ended { IsOpen (S.phase sink.old) }
    ensures taken { Writes (flag_part (shape_of shape) (sub_of sub) coded) (S.stands_for sink.old) (S.stands_for sink.new) result }
    ensures not_ended { IsOpen (S.phase sink.new) }
{
    if sub.number == 0 {
        return Ok(());
    }
    sink.bin(Bin {
        value: coded,
        place: Place::Context(sub_block_context(shape.component, sub.right, sub.below)),
    })
}

// Writes the levels of a sub-block before the last one, if it is coded.
#[inline(always)]
fn write_inner<S: BinSink>(
    sink: &mut S,
    shape: Shape,
    sub: SubBlock,
    tile: &[i16; 16],
    coded: bool,
    ended: &mut bool,
) -> Result<(), NoMemory>
    requires shape { IsShape shape }
    requires sub { IsSubBlock shape sub }
    requires bounds { AreLevels tile.now }
    requires not_ended { IsOpen (S.phase sink.old) }
    ensures taken { Writes (level_part (shape_of shape) (sub_of sub) coded ended.old (tile_levels shape.scan tile.now 16)) (S.stands_for sink.old) (S.stands_for sink.new) result }
    ensures ended { OnOk result (ended.new ≡ (if coded then ended_at_zero ended.old (nonzero (tile_levels shape.scan tile.now 16)) else ended.old)) }
    ensures not_ended { IsOpen (S.phase sink.new) }
{
    if !coded {
        return Ok(());
    }
    let mut values = ArrayVec::new();
    let inner = sub.number != 0;
    write_levels(sink, shape, sub, tile, 16, inner, &mut values, ended)
}

/// Writes the sub-blocks before this number, the last of them first.
pub(crate) fn write_subs<S: BinSink>(
    sink: &mut S,
    shape: Shape,
    levels: &[i16],
    number: u32,
    marks: &mut Marks,
    ended: &mut bool,
) -> Result<(), NoMemory>
    requires shape { IsShape shape }
    requires long { length levels.now ≡ 2 ^ shape.log2 * 2 ^ shape.log2 }
    requires bounds { AreLevels levels.now }
    requires number { number < sub_count shape }
    requires not_ended { IsOpen (S.phase sink.old) }
    ensures taken { (flags : List Bool) → AreMarks (shape_of shape) number flags marks.old → Writes (sub_items (shape_of shape) flags ended.old (down (sub_levels (shape_of shape) levels.now) number)) (S.stands_for sink.old) (S.stands_for sink.new) result }
    ensures not_ended { IsOpen (S.phase sink.new) }
{
    let mut left = number;
    while left > 0 {
        left -= 1;
        write_sub(sink, shape, levels, left, marks, ended)?;
    }
    Ok(())
}
