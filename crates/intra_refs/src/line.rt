//! The line of reference samples round a block.
ghost use Rattle.std.specs.Prelude.{◌≡◌, ℕ, ◌+◌, ◌*◌, ◌-◌, ◌%◌, ◌<◌, ◌≤◌, ◌^◌, length, slice_index};
ghost use Rattle.h265_model.specs.Plain.{coded, side};
ghost use Rattle.h265_model.specs.Predict as model;
ghost use Rattle.px_plane.specs.Planes.{picture_of};
ghost use Rattle.intra_refs.specs.Neighbours.{neighbour, carried, value_or, IsFilled};

use crate::samples::{Refs, side_of};
use crate::search::{corner, first_sample};
use crate::segment::{fill_above, fill_left};
use crate::smooth::smooth;
use h265_model::CodingBlock;
use px_plane::Picture;

// Fills the left side, from its lower end up, and gives what is carried to the corner.
fn fill_left_side(
    picture: &Picture,
    component: u32,
    block: CodingBlock,
    first: u8,
    line: &mut [u8],
) -> u8
    requires component { component < 3 }
    requires x { block.x < 4096 }
    requires y { block.y < 4096 }
    requires whole_x { block.x % 8 ≡ 0 }
    requires whole_y { block.y % 8 ≡ 0 }
    requires low { 3 ≤ block.log2 }
    requires high { block.log2 ≤ 5 }
    requires line { length line.old ≡ 2 * side block }
    ensures filled { IsFilled line.new first (neighbour picture.now.size (picture_of picture.now) component block) (2 * side block) }
    ensures carried { result ≡ carried first (neighbour picture.now.size (picture_of picture.now) component block) (2 * side block) }
{
    let n = side_of(block.log2);
    let mut before = first;
    for part in 0..n / 4 {
        let row = block.y + (2 * n - 8 * (part + 1));
        let at = 8 * part as usize;
        before = fill_left(
            picture,
            component,
            block.x,
            block.y,
            row,
            before,
            &mut line[at..at + 8],
        );
    }
    before
}

// Fills the row above.
fn fill_row_above(picture: &Picture, component: u32, block: CodingBlock, first: u8, line: &mut [u8])
    requires component { component < 3 }
    requires x { block.x < 4096 }
    requires y { block.y < 4096 }
    requires whole_x { block.x % 8 ≡ 0 }
    requires whole_y { block.y % 8 ≡ 0 }
    requires low { 3 ≤ block.log2 }
    requires high { block.log2 ≤ 5 }
    requires line { length line.old ≡ 2 * side block }
    ensures { IsFilled line.new first (λ i. neighbour picture.now.size (picture_of picture.now) component block (2 * side block + 1 + i)) (2 * side block) }
{
    let n = side_of(block.log2);
    let mut before = first;
    for part in 0..n / 4 {
        let column = block.x + 8 * part;
        let at = 8 * part as usize;
        before = fill_above(
            picture,
            component,
            block.x,
            block.y,
            column,
            before,
            &mut line[at..at + 8],
        );
    }
}

// Fills a whole line.
fn fill_line(picture: &Picture, component: u32, block: CodingBlock, line: &mut [u8])
    requires component { component < 3 }
    requires x { block.x < 4096 }
    requires y { block.y < 4096 }
    requires whole_x { block.x % 8 ≡ 0 }
    requires whole_y { block.y % 8 ≡ 0 }
    requires low { 3 ≤ block.log2 }
    requires high { block.log2 ≤ 5 }
    requires line { length line.old ≡ 4 * side block + 1 }
    ensures { line.new ≡ model.substituted (model.neighbours picture.now.size (picture_of picture.now) component block) }
{
    let n = side_of(block.log2);
    let first = first_sample(picture, component, block);
    let at = 2 * n as usize;
    let below = fill_left_side(picture, component, block, first, &mut line[..at]);
    let before = corner(picture, component, block).unwrap_or(below);
    line[at] = before;
    fill_row_above(picture, component, block, before, &mut line[at + 1..]);
}

/// The reference samples of a block of a component (0 for G, 1 for B, 2 for R), not smoothed:
/// the neighbours that are coded before it, and in place of a missing one the one before it (8.4.4.2.2).
pub fn refs(picture: &Picture, component: u32, block: CodingBlock) -> Refs
    requires component { component < 3 }
    requires low { 3 ≤ block.log2 }
    requires high { block.log2 ≤ 5 }
    requires whole_x { block.x % side block ≡ 0 }
    requires whole_y { block.y % side block ≡ 0 }
    requires across { block.x + side block ≤ coded picture.now.size.w }
    requires down { block.y + side block ≤ coded picture.now.size.h }
    ensures samples { result.samples ≡ model.substituted (model.neighbours picture.now.size (picture_of picture.now) component block) }
    ensures side { result.log2 ≡ block.log2 }
{
    let n = side_of(block.log2);
    let _size = picture.size();
    let mut line = [0u8; 129];
    fill_line(picture, component, block, &mut line[..(4 * n + 1) as usize]);
    Refs::of(block.log2, line)
}

/// The samples smoothed: each but the two ends with its neighbours (8.4.4.2.3).
pub fn filter(refs: &Refs) -> Refs
    ensures samples { result.samples ≡ model.smoothed refs.now.samples }
    ensures side { result.log2 ≡ refs.now.log2 }
{
    let samples = refs.samples();
    let mut line = [0u8; 129];
    smooth(samples, &mut line[..samples.len()]);
    Refs::of(refs.log2(), line)
}

/// Whether an intra mode (0 to 34) takes smoothed samples at this side (8.4.4.2.3).
pub fn filtered(mode: u32, log2: u32) -> bool
    requires mode { mode < 35 }
    requires low { 3 ≤ log2 }
    requires high { log2 ≤ 5 }
    ensures { result ≡ model.is_filtered mode log2 }
{
    let threshold = match log2 {
        3 => 7,
        4 => 1,
        _ => 0,
    };
    mode != 1 && mode.abs_diff(26).min(mode.abs_diff(10)) > threshold
}
