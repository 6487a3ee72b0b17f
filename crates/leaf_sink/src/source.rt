//! Where a unit is copied from.
ghost use Rattle.std.specs.Prelude.{◌≡◌, ◌<◌, ◌≤◌, ◌^◌};
ghost use Rattle.h265_model.specs.Plain.{coded};
ghost use Rattle.h265_model.specs.Motion as motion;

use h265_model::{CodingBlock, Vector};
use px_plane::Size;

// Along one axis: whether `n` places from a place on are in a picture of this side after they were moved.
#[inline(always)]
fn reaches(limit: u32, n: u32, at: u32, by: i32) -> bool
    requires limit { limit ≤ 4096 }
    requires n { n ≤ 32 }
    requires at { at < 4096 }
    ensures { result ≡ motion.reaches limit n at by }
{
    if by < 0 {
        let back = by.unsigned_abs();
        back <= at && at - back + n <= limit
    } else {
        let on = by as u32;
        on <= limit && at + on + n <= limit
    }
}

// A side rounded up to a multiple of 8.
fn coded_side(side: u32) -> u32
    requires { side ≤ 4096 }
    ensures value { result ≡ coded side }
    ensures bound { result ≤ 4096 }
{
    (side + 7) / 8 * 8
}

/// Whether the block that a vector names lies wholly in the coded picture, for the block of side 2^log2 at (x, y).
#[tactic(auto, unfolding(h265_model::specs::Motion::has_source))]
pub fn has_source(size: Size, block: CodingBlock, vector: Vector) -> bool
    requires low { 3 ≤ block.log2 }
    requires high { block.log2 ≤ 5 }
    requires across { block.x < coded size.w }
    requires down { block.y < coded size.h }
    ensures { result ≡ motion.has_source size block vector }
{
    let n = match block.log2 {
        3 => 8,
        4 => 16,
        _ => 32,
    };
    reaches(coded_side(size.w()), n, block.x, vector.x)
        && reaches(coded_side(size.h()), n, block.y, vector.y)
}
