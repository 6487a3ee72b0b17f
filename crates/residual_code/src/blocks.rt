//! Whole blocks.
ghost use Rattle.std.specs.Prelude.{◌≡◌, ◌<◌, ◌≤◌, ◌+◌, ◌*◌, ◌-◌, ◌^◌, ◌∷◌, [], length, IsTrue};
ghost use Rattle.h265_model.specs.Residual as residual;
ghost use Rattle.h265_model.specs.Residual.{sub_at, from_last, without_leading_zeros, residual_items, place_at, AreLevels};
ghost use Rattle.bin_items.specs.Growth.{IsOpen, Writes};
ghost use Rattle.residual_code.specs.Parts.{IsShape, IsSubBlock, shape_of, sub_of, sub_count, sub_tile, tile_at, tile_levels, sub_levels, down};

use crate::last::write_last;
use crate::shape::{Shape, SubBlock};
use crate::subs::{mark_of, write_levels, write_subs};
use crate::tile::{is_empty, is_level, level_at, load};
use arrayvec::ArrayVec;
use bin_items::{BinSink, Block, NoMemory};
use scan_orders::places;

// Whether one of these levels isn't 0. It looks at all of them, which goes many at a time.
fn any_level(levels: &[i16]) -> bool
    ensures { result ≡ residual.cbf levels.now }
{
    let mut some = false;
    for level in levels {
        some |= is_level(*level);
    }
    some
}

/// Whether a level isn't 0 (7.4.9.8, cbf_luma, cbf_cb and cbf_cr).
pub fn cbf(block: &Block) -> bool
    ensures { result ≡ residual.cbf block.now.levels }
{
    let levels = block.as_slice();
    for part in 0..levels.len() / 64 {
        if any_level(&levels[64 * part..64 * part + 64]) {
            return true;
        }
    }
    any_level(&levels[levels.len() / 64 * 64..])
}

// The last sub-block with a level other than 0, and its levels in rows.
fn last_sub(shape: Shape, levels: &[i16]) -> (SubBlock, [i16; 16])
    requires shape { IsShape shape }
    requires long { length levels.now ≡ 2 ^ shape.log2 * 2 ^ shape.log2 }
    requires some { IsTrue (residual.cbf levels.now) }
    ensures place { IsSubBlock shape result.0 }
    ensures known { sub_of result.0 ≡ sub_at (shape_of shape) result.0.number [] }
    ensures tile { result.1 ≡ sub_tile (shape_of shape) levels.now (result.0.x, result.0.y) }
    ensures some { IsTrue (residual.cbf (tile_levels shape.scan result.1 16)) }
    ensures items { residual_items (shape_of shape) levels.now ≡ from_last (shape_of shape) (without_leading_zeros (tile_levels shape.scan result.1 16)) (down (sub_levels (shape_of shape) levels.now) result.0.number) }
{
    let order = places(shape.scan, shape.log2 - 2);
    let mut left = order.len();
    while left > 0 {
        left -= 1;
        let (x, y) = (u32::from(order[left].0), u32::from(order[left].1));
        let tile = load(levels, shape, x, y);
        if !is_empty(&tile) {
            let sub = SubBlock {
                number: left as u32,
                x,
                y,
                right: false,
                below: false,
            };
            return (sub, tile);
        }
    }
    unreachable!()
}

// The number of the last level other than 0 in a sub-block, in the order of the scan.
fn last_level(tile: &[i16; 16], scan: u32) -> usize
    requires scan { scan < 3 }
    requires some { IsTrue (residual.cbf (tile_levels scan tile.now 16)) }
    ensures within { result < 16 }
    ensures last { without_leading_zeros (tile_levels scan tile.now 16) ≡ tile_at tile.now (place_at (residual.scan scan 2) result) ∷ tile_levels scan tile.now result }
{
    let order = places(scan, 2);
    let mut left = 16;
    while left > 0 {
        left -= 1;
        if is_level(level_at(tile, order[left])) {
            return left;
        }
    }
    unreachable!()
}

// Writes the last sub-block with a level, and those before it.
fn write_from<S: BinSink>(
    sink: &mut S,
    shape: Shape,
    levels: &[i16],
    sub: SubBlock,
    tile: &[i16; 16],
) -> Result<(), NoMemory>
    requires shape { IsShape shape }
    requires long { length levels.now ≡ 2 ^ shape.log2 * 2 ^ shape.log2 }
    requires bounds { AreLevels levels.now }
    requires tile_bounds { AreLevels tile.now }
    requires place { IsSubBlock shape sub }
    requires known { sub_of sub ≡ sub_at (shape_of shape) sub.number [] }
    requires some { IsTrue (residual.cbf (tile_levels shape.scan tile.now 16)) }
    requires not_ended { IsOpen (S.phase sink.old) }
    ensures taken { Writes (from_last (shape_of shape) (without_leading_zeros (tile_levels shape.scan tile.now 16)) (down (sub_levels (shape_of shape) levels.now) sub.number)) (S.stands_for sink.old) (S.stands_for sink.new) result }
    ensures not_ended { IsOpen (S.phase sink.new) }
{
    let last = last_level(tile, shape.scan);
    let place = places(shape.scan, 2)[last];
    write_last(
        sink,
        shape,
        (
            4 * sub.x + u32::from(place.0),
            4 * sub.y + u32::from(place.1),
        ),
    )?;
    let mut values = ArrayVec::new();
    values.push(level_at(tile, place));
    let mut ended = false;
    write_levels(sink, shape, sub, tile, last, false, &mut values, &mut ended)?;
    let mut marks = [false; 81];
    marks[mark_of(sub.x, sub.y)] = true;
    write_subs(sink, shape, levels, sub.number, &mut marks, &mut ended)
}

/// Writes a block with a level other than 0 (7.3.8.11): the place of the last one, which of those before it aren't 0, and the signs and sizes. The
/// levels are from -255 to 255, the component is 0, 1 or 2, and so is the scan.
///
/// After `NoMemory` a front of these bins was taken.
pub fn write_residual<S: BinSink>(
    sink: &mut S,
    block: &Block,
    component: u32,
    scan: u32,
) -> Result<(), NoMemory>
    requires component { component < 3 }
    requires scan { scan < 3 }
    requires bounds { AreLevels block.now.levels }
    requires some { IsTrue (residual.cbf block.now.levels) }
    requires not_ended { IsOpen (S.phase sink.old) }
    ensures taken { Writes (residual_items (residual.shape component block.now.log2 scan) block.now.levels) (S.stands_for sink.old) (S.stands_for sink.new) result }
    ensures not_ended { IsOpen (S.phase sink.new) }
{
    let shape = Shape {
        component,
        log2: block.log2(),
        scan,
    };
    let levels = block.as_slice();
    let (sub, tile) = last_sub(shape, levels);
    write_from(sink, shape, levels, sub, &tile)
}
