//! One flag a tile of 32 by 32 samples, in rows from the top left.
ghost use Rattle.std.specs.Prelude.{◌≡◌, ℕ, ◌+◌, ◌*◌, ◌/◌, ◌%◌, ◌<◌, ◌≤◌, ◌||◌, ◌^◌, length, slice_index_or, false, IfOk};
ghost use Rattle.h265_model.specs.Plain.{ctus, below};
ghost use Rattle.recorder_model.specs.Desk.{meets_tile};
ghost use Rattle.h265_model.specs.Tiles.{tile_count};
ghost use Rattle.desk_surface.specs.Damage.{is_between, raised};

use h265_model::{NoMemory, Rect};
use px_plane::{Clip, Size};
use std::alloc::Global;

/// Raises the flags of the tiles from column `left` to before `right`, in the rows from `top` to before `bottom`.
fn raise_between(
    flags: &mut [bool],
    across: usize,
    left: usize,
    right: usize,
    top: usize,
    bottom: usize,
)
    requires some { 0 < across }
    requires columns { (left ≤ right) × (right ≤ across) }
    requires rows { top ≤ bottom }
    requires whole { bottom * across ≤ length flags.old }
    ensures length { length flags.new ≡ length flags.old }
    ensures raised { (t : ℕ) → t < length flags.old → slice_index_or flags.new t false ≡ (slice_index_or flags.old t false || is_between left right top bottom (t % across) (t / across)) }
{
    for row in top..bottom {
        let at = row * across;
        flags[at + left..at + right].fill(true);
    }
}

/// Raises the flags of the tiles in which a rectangle has a place of the desktop.
pub(crate) fn raise(flags: &mut [bool], size: Size, rect: Rect)
    requires { length flags.old ≡ tile_count size }
    ensures length { length flags.new ≡ length flags.old }
    ensures raised { (t : ℕ) → t < tile_count size → slice_index_or flags.new t false ≡ (slice_index_or flags.old t false || meets_tile size t rect) }
{
    let across = ((size.w() + 31) / 32) as usize;
    if let Some(part) = rect.clip(size) {
        let right = (part.x + part.w - 1) / 32 + 1;
        let bottom = (part.y + part.h - 1) / 32 + 1;
        raise_between(
            flags,
            across,
            (part.x / 32) as usize,
            right as usize,
            (part.y / 32) as usize,
            bottom as usize,
        );
    }
}

/// The tiles whose flags are raised, ascending.
pub(crate) fn raised(alloc: Global, flags: &[bool]) -> Result<Vec<u32>, NoMemory>
    requires { length flags.now < 2 ^ 32 }
    ensures { IfOk result (λ tiles. tiles.items ≡ raised flags.now (length flags.now)) }
{
    let mut tiles = Vec::new(alloc);
    for tile in 0..flags.len() {
        if flags[tile] {
            tiles.push(tile as u32)?;
        }
    }
    Ok(tiles)
}
