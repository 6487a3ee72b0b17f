//! Which levels of a sub-block are other than 0.
ghost use Rattle.std.specs.Prelude.{◌≡◌, ◌<◌, ◌≤◌, ◌++◌, ◌+◌, OnOk, length, [], ◌∷◌, if◌then◌else◌};
ghost use Rattle.h265_model.specs.Plain.{context_bin};
ghost use Rattle.h265_model.specs.Residual as residual;
ghost use Rattle.h265_model.specs.Residual.{sig_items, sig_context, nonzero, place_at, scan};
ghost use Rattle.bin_items.specs.Growth.{IsOpen, Writes};
ghost use Rattle.residual_code.specs.Parts.{IsShape, IsSubBlock, shape_of, sub_of, tile_at, tile_levels, has_members, sig_part};

use crate::shape::{Shape, SubBlock};
use crate::tile::{is_level, level_at};
use arrayvec::ArrayVec;
use bin_items::{Bin, BinSink, NoMemory, Place};
use scan_orders::{places, sig_context};

/// Writes sig_coeff_flag of the first `top` levels of a sub-block, the last of them first, and adds those other than 0 to `values`. The flag of the
/// first level isn't written where it must be 1: where `inner` holds, and no level was other than 0.
pub(crate) fn write_flags<S: BinSink>(
    sink: &mut S,
    shape: Shape,
    sub: SubBlock,
    tile: &[i16; 16],
    top: usize,
    inner: bool,
    values: &mut ArrayVec<i16, 16>,
) -> Result<(), NoMemory>
    requires shape { IsShape shape }
    requires sub { IsSubBlock shape sub }
    requires not_ended { IsOpen (S.phase sink.old) }
    requires room { length values.old.items + top ≤ 16 }
    ensures taken { Writes (sig_items (shape_of shape) (sub_of sub) inner (has_members values.old.items) (tile_levels shape.scan tile.now top)) (S.stands_for sink.old) (S.stands_for sink.new) result }
    ensures values { OnOk result (values.new.items ≡ values.old.items ++ nonzero (tile_levels shape.scan tile.now top)) }
    ensures not_ended { IsOpen (S.phase sink.new) }
{
    let mut left = top;
    while left > 0 {
        left -= 1;
        write_flag(sink, shape, sub, tile, left, inner, values)?;
    }
    Ok(())
}

// Writes sig_coeff_flag of the level with this number, and adds the level to `values` where it isn't 0.
#[inline(always)]
fn write_flag<S: BinSink>(
    sink: &mut S,
    shape: Shape,
    sub: SubBlock,
    tile: &[i16; 16],
    number: usize,
    inner: bool,
    values: &mut ArrayVec<i16, 16>,
) -> Result<(), NoMemory>
    requires shape { IsShape shape }
    requires sub { IsSubBlock shape sub }
    requires number { number < 16 }
    requires not_ended { IsOpen (S.phase sink.old) }
    requires room { length values.old.items < 16 }
    ensures taken { let level = tile_at tile.now (place_at (scan shape.scan 2) number) in Writes (sig_part (shape_of shape) (sub_of sub) inner (has_members values.old.items) number level) (S.stands_for sink.old) (S.stands_for sink.new) result }
    ensures values { OnOk result (values.new.items ≡ values.old.items ++ nonzero (tile_at tile.now (place_at (scan shape.scan 2) number) ∷ [])) }
    ensures not_ended { IsOpen (S.phase sink.new) }
{
    let place = places(shape.scan, 2)[number];
    let level = level_at(tile, place);
    let implied = is_implied(inner, !values.is_empty(), number);
    write_bin(sink, shape, sub, place, is_level(level), implied)?;
    add(values, level);
    Ok(())
}

// Adds a level that isn't 0. It writes each one, and takes a 0 back, which needs no branch.
#[inline(always)]
fn add(values: &mut ArrayVec<i16, 16>, level: i16)
    requires { length values.old.items < 16 }
    ensures { values.new.items ≡ values.old.items ++ nonzero (level ∷ []) }
{
    values.push(level);
    if level == 0 {
        values.pop();
    }
}

// Whether a flag must be 1.
#[inline(always)]
fn is_implied(inner: bool, found: bool, number: usize) -> bool
    ensures { result ≡ residual.is_implied inner found number }
{
    inner && !found && number == 0
}

// Writes sig_coeff_flag of a place of a sub-block, unless it must be 1.
#[inline(always)]
fn write_bin<S: BinSink>(
    sink: &mut S,
    shape: Shape,
    sub: SubBlock,
    place: (u8, u8),
    flag: bool,
    implied: bool,
) -> Result<(), NoMemory>
    requires shape { IsShape shape }
    requires sub { IsSubBlock shape sub }
    requires column { place.0 < 4 }
    requires row { place.1 < 4 }
    requires not_ended { IsOpen (S.phase sink.old) }
    ensures taken { Writes (if implied then [] else context_bin flag (sig_context shape.component shape.log2 shape.scan sub.x sub.y place.0 place.1 sub.right sub.below) ∷ []) (S.stands_for sink.old) (S.stands_for sink.new) result }
    ensures not_ended { IsOpen (S.phase sink.new) }
{
    if implied {
        return Ok(());
    }
    let context = sig_context(
        shape.component,
        shape.log2,
        shape.scan,
        sub.x,
        sub.y,
        u32::from(place.0),
        u32::from(place.1),
        sub.right,
        sub.below,
    );
    sink.bin(Bin {
        value: flag,
        place: Place::Context(context),
    })
}
