//! The first neighbour that is there, in the order of search (8.4.4.2.2).
ghost use Rattle.std.specs.Prelude.{◌≡◌, ℕ, ◌+◌, ◌*◌, ◌-◌, ◌%◌, ◌<◌, ◌≤◌};
ghost use Rattle.h265_model.specs.Plain.{coded, side};
ghost use Rattle.h265_model.specs.Predict.{neighbours, first_seen};
ghost use Rattle.px_plane.specs.Planes.{picture_of};
ghost use Rattle.intra_refs.specs.Neighbours.{neighbour, IsFound};

use crate::available::is_available;
use crate::samples::side_of;
use crate::segment::{has_above, has_left};
use h265_model::CodingBlock;
use px_plane::Picture;

// The first of those on the left.
fn first_left(picture: &Picture, component: u32, block: CodingBlock) -> Option<u8>
    requires component { component < 3 }
    requires x { block.x < 4096 }
    requires y { block.y < 4096 }
    requires whole_x { block.x % 8 ≡ 0 }
    requires whole_y { block.y % 8 ≡ 0 }
    requires low { 3 ≤ block.log2 }
    requires high { block.log2 ≤ 5 }
    ensures { IsFound result (neighbour picture.now.size (picture_of picture.now) component block) 0 (2 * side block) }
{
    let n = side_of(block.log2);
    for part in 0..n / 4 {
        let row = block.y + (2 * n - 8 * (part + 1));
        if has_left(picture, component, block.x, block.y, row) {
            return Some(picture.sample(component, block.x - 1, row + 7));
        }
    }
    None
}

/// The neighbour before the block in both directions.
pub(crate) fn corner(picture: &Picture, component: u32, block: CodingBlock) -> Option<u8>
    requires component { component < 3 }
    requires x { block.x < 4096 }
    requires y { block.y < 4096 }
    requires whole_x { block.x % 8 ≡ 0 }
    requires whole_y { block.y % 8 ≡ 0 }
    ensures { result ≡ neighbour picture.now.size (picture_of picture.now) component block (2 * side block) }
{
    let (x, y) = (block.x, block.y);
    if x > 0 && y > 0 && is_available(picture.size(), x, y, x - 1, y - 1) {
        Some(picture.sample(component, x - 1, y - 1))
    } else {
        None
    }
}

// The first of those above.
fn first_above(picture: &Picture, component: u32, block: CodingBlock) -> Option<u8>
    requires component { component < 3 }
    requires x { block.x < 4096 }
    requires y { block.y < 4096 }
    requires whole_x { block.x % 8 ≡ 0 }
    requires whole_y { block.y % 8 ≡ 0 }
    requires low { 3 ≤ block.log2 }
    requires high { block.log2 ≤ 5 }
    ensures { IsFound result (neighbour picture.now.size (picture_of picture.now) component block) (2 * side block + 1) (2 * side block) }
{
    let n = side_of(block.log2);
    for part in 0..n / 4 {
        let column = block.x + 8 * part;
        if has_above(picture, component, block.x, block.y, column) {
            return Some(picture.sample(component, column, block.y - 1));
        }
    }
    None
}

/// The sample that stands in where no neighbour comes before.
pub(crate) fn first_sample(picture: &Picture, component: u32, block: CodingBlock) -> u8
    requires component { component < 3 }
    requires x { block.x < 4096 }
    requires y { block.y < 4096 }
    requires whole_x { block.x % 8 ≡ 0 }
    requires whole_y { block.y % 8 ≡ 0 }
    requires low { 3 ≤ block.log2 }
    requires high { block.log2 ≤ 5 }
    ensures { result ≡ first_seen (neighbours picture.now.size (picture_of picture.now) component block) }
{
    if let Some(sample) = first_left(picture, component, block) {
        return sample;
    }
    if let Some(sample) = corner(picture, component, block) {
        return sample;
    }
    if let Some(sample) = first_above(picture, component, block) {
        return sample;
    }
    128
}
