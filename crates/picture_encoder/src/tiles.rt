//! The tiles of a picture that a job lists.
ghost use Rattle.std.specs.Prelude.{◌≡◌, ◌<◌, ◌≤◌, length, IfOk};
ghost use Rattle.std.specs.List.{All};
ghost use Rattle.h265_model.specs.Tiles.{tile_count};
ghost use Rattle.picture_encoder.specs.Planning.{AreFlagged, raised};

use h265_model::NoMemory;
use px_plane::Size;
use std::alloc::Global;

/// For each tile of a picture of this size, whether it is listed.
pub(crate) fn flags_of(alloc: Global, size: Size, tiles: &[u32]) -> Result<Vec<bool>, NoMemory>
    requires { All (λ t. t < tile_count size) tiles.now }
    ensures long { IfOk result (λ flags. length flags.items ≡ tile_count size) }
    ensures few { IfOk result (λ flags. raised flags.items ≤ length tiles.now) }
    ensures listed { IfOk result (λ flags. AreFlagged flags.items tiles.now) }
{
    let count = (size.w() + 31) / 32 * ((size.h() + 31) / 32);
    let mut flags = vec![in alloc; false; count as usize]?;
    for tile in tiles {
        flags[*tile as usize] = true;
    }
    Ok(flags)
}
