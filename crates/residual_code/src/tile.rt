//! The 16 levels of a sub-block.
ghost use Rattle.std.specs.Prelude.{◌≡◌, ℕ, ◌<◌, ◌≤◌, ◌*◌, ◌^◌, ◌-◌, length, not};
ghost use Rattle.h265_model.specs.Residual.{cbf, is_zero};
ghost use Rattle.residual_code.specs.Parts.{IsShape, shape_of, sub_tile, tile_at, tile_levels};

use crate::shape::Shape;

/// The levels of the sub-block that is number `x` from the left and `y` from the top, in rows.
#[inline(always)]
pub(crate) fn load(levels: &[i16], shape: Shape, x: u32, y: u32) -> [i16; 16]
    requires shape { IsShape shape }
    requires x { x < 2 ^ (shape.log2 - 2) }
    requires y { y < 2 ^ (shape.log2 - 2) }
    requires long { length levels.now ≡ 2 ^ shape.log2 * 2 ^ shape.log2 }
    ensures { result ≡ sub_tile (shape_of shape) levels.now (x, y) }
{
    let mut tile = [0; 16];
    for row in 0..4 {
        let at = (((4 * y + row) << shape.log2) + 4 * x) as usize;
        let to = 4 * row as usize;
        tile[to..to + 4].copy_from_slice(&levels[at..at + 4]);
    }
    tile
}

/// The level at a column and a row of a sub-block.
#[inline(always)]
pub(crate) fn level_at(tile: &[i16; 16], place: (u8, u8)) -> i16
    requires column { place.0 < 4 }
    requires row { place.1 < 4 }
    ensures { result ≡ tile_at tile.now place }
{
    tile[4 * place.1 as usize + place.0 as usize]
}

/// Whether a level isn't 0.
#[inline(always)]
pub(crate) fn is_level(level: i16) -> bool
    ensures { result ≡ not (is_zero level) }
{
    level != 0
}

/// Whether all 16 levels are 0.
#[inline(always)]
pub(crate) fn is_empty(tile: &[i16; 16]) -> bool
    ensures { (kind : ℕ) → result ≡ not (cbf (tile_levels kind tile.now 16)) }
{
    let mut some = false;
    for level in tile {
        some |= is_level(*level);
    }
    !some
}
