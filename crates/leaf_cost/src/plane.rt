//! One component of a block, with its reference samples.
ghost use Rattle.std.specs.Prelude.{◌≡◌, ◌+◌, ◌*◌, ◌%◌, ◌<◌, ◌≤◌, ◌^◌, length, take, sum_by};
ghost use Rattle.h265_model.specs.Plain.{coded, leaf_with, side};
ghost use Rattle.h265_model.specs.Predict.{square};
ghost use Rattle.h265_model.specs.Choice.{level_cost};
ghost use Rattle.h265_model.specs.Tree.{levels_in};
ghost use Rattle.h265_model.specs.declared.leaf.Kind.TheVariants.{Intra};
ghost use Rattle.px_plane.specs.Planes.{picture_of};
ghost use Rattle.leaf_cost.specs.Costs.{IsPlaneBlock, IsSided, block_levels};

use crate::cost::run_cost;
use h265_model::CodingBlock;
use intra_predict::predict;
use intra_refs::{Refs, filter, filtered, refs};
use px_plane::Picture;

/// The samples of one component of a block, in rows without gaps, and its reference samples, plain and smoothed.
#[derive(Drop)]
pub(crate) struct PlaneBlock {
    pub component: u32,
    pub samples: [u8; 1024],
    pub plain: Refs,
    pub smoothed: Refs,
}

/// The side of a block.
pub(crate) fn side_of(log2: u32) -> u32
    requires low { 3 ≤ log2 }
    requires high { log2 ≤ 5 }
    ensures value { result ≡ 2 ^ log2 }
    ensures least { 8 ≤ result }
    ensures most { result ≤ 32 }
{
    match log2 {
        3 => 8,
        4 => 16,
        _ => 32,
    }
}

// The samples of a block, in rows.
fn copy_block(picture: &Picture, component: u32, x: u32, y: u32, n: u32, out: &mut [u8])
    requires component { component < 3 }
    requires n { n ≤ 32 }
    requires across { x + n ≤ coded picture.now.size.w }
    requires down { y + n ≤ coded picture.now.size.h }
    requires near { y ≤ 4096 }
    requires block { length out.old ≡ n * n }
    ensures { out.new ≡ square n (λ i j. picture_of picture.now component (x + i) (y + j)) }
{
    for j in 0..n {
        let at = (j * n) as usize;
        out[at..at + n as usize].copy_from_slice(picture.row(component, x, y + j, n));
    }
}

/// One component of a block.
pub(crate) fn plane_block(picture: &Picture, component: u32, block: CodingBlock) -> PlaneBlock
    requires component { component < 3 }
    requires low { 3 ≤ block.log2 }
    requires high { block.log2 ≤ 5 }
    requires whole_x { block.x % side block ≡ 0 }
    requires whole_y { block.y % side block ≡ 0 }
    requires across { block.x + side block ≤ coded picture.now.size.w }
    requires down { block.y + side block ≤ coded picture.now.size.h }
    ensures { IsPlaneBlock result picture.now.size (picture_of picture.now) component block }
{
    let n = side_of(block.log2);
    let _size = picture.size();
    let mut samples = [0u8; 1024];
    copy_block(
        picture,
        component,
        block.x,
        block.y,
        n,
        &mut samples[..(n * n) as usize],
    );
    let plain = refs(picture, component, block);
    let smoothed = filter(&plain);
    PlaneBlock {
        component,
        samples,
        plain,
        smoothed,
    }
}

/// What the levels of this component cost under a mode.
pub(crate) fn plane_cost(block: &PlaneBlock, mode: u32, log2: u32, scratch: &mut [u8]) -> u16
    requires mode { mode < 35 }
    requires low { 3 ≤ log2 }
    requires high { log2 ≤ 5 }
    requires block { IsSided block.now log2 }
    requires scratch { length scratch.old ≡ 1024 }
    ensures value { result ≡ sum_by level_cost (block_levels block.now mode log2) }
    ensures bound { result ≤ 17408 }
{
    let n = side_of(log2);
    let count = (n * n) as usize;
    let guess = &mut scratch[..count];
    if filtered(mode, log2) {
        predict(mode, block.component, &block.smoothed, guess);
    } else {
        predict(mode, block.component, &block.plain, guess);
    }
    run_cost(&block.samples[..count], guess)
}
