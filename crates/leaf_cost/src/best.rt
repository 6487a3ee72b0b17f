//! The cheapest of some intra modes.
ghost use Rattle.std.specs.Prelude.{◌≡◌, ℕ, ◌+◌, ◌*◌, ◌%◌, ◌<◌, ◌≤◌, ◌^◌, length, Option};
ghost use Rattle.std.specs.List.{All};
ghost use Rattle.h265_model.specs.Plain.{coded, leaf_with, side};
ghost use Rattle.h265_model.specs.Choice.{intra_cost};
ghost use Rattle.h265_model.specs.declared.leaf.Kind.TheVariants.{Intra};
ghost use Rattle.px_plane.specs.Planes.{picture_of};
ghost use Rattle.leaf_cost.specs.Costs.{AreSided, block_cost, IsBelow, IsBest};

use crate::plane::{PlaneBlock, plane_block, plane_cost};
use h265_model::{CodingBlock, Kind};
use px_plane::Picture;

/// What is coded of a block, and what that costs.
#[derive(Clone, Copy, Debug, PartialEq, Eq)]
pub struct Best {
    pub cost: u32,
    pub kind: Kind,
}

// The three components of a block.
#[derive(Drop)]
pub(crate) struct LeafBlock {
    pub g: PlaneBlock,
    pub b: PlaneBlock,
    pub r: PlaneBlock,
}

// The cost of a mode, where it is below `limit`; what can't be is given up after a component.
fn mode_cost(block: &LeafBlock, mode: u32, log2: u32, limit: u32, scratch: &mut [u8]) -> Option<u32>
    requires mode { mode < 35 }
    requires low { 3 ≤ log2 }
    requires high { log2 ≤ 5 }
    requires block { AreSided block.now log2 }
    requires scratch { length scratch.old ≡ 1024 }
    ensures { IsBelow result limit (block_cost block.now mode log2) }
{
    let mut cost = 8;
    if cost >= limit {
        return None;
    }
    cost += u32::from(plane_cost(&block.g, mode, log2, scratch));
    if cost >= limit {
        return None;
    }
    cost += u32::from(plane_cost(&block.b, mode, log2, scratch));
    if cost >= limit {
        return None;
    }
    cost += u32::from(plane_cost(&block.r, mode, log2, scratch));
    if cost < limit { Some(cost) } else { None }
}

// The cheapest of these modes, where it costs less than `limit`.
fn best_of(block: &LeafBlock, log2: u32, modes: &[u32], limit: u32) -> Option<Best>
    requires modes { All (λ mode. mode < 35) modes.now }
    requires low { 3 ≤ log2 }
    requires high { log2 ≤ 5 }
    requires block { AreSided block.now log2 }
    ensures { IsBest result limit (λ mode. block_cost block.now mode log2) modes.now }
{
    let mut scratch = [0u8; 1024];
    let mut best = None;
    let mut bound = limit;
    for i in 0..modes.len() {
        if let Some(cost) = mode_cost(block, modes[i], log2, bound, &mut scratch) {
            bound = cost;
            best = Some(Best {
                cost,
                kind: Kind::Intra(modes[i]),
            });
        }
    }
    best
}

/// The cheapest of these modes for a block, the first of equal ones, where it costs less than `limit` by the choice rule.
pub fn best_mode(picture: &Picture, block: CodingBlock, modes: &[u32], limit: u32) -> Option<Best>
    requires modes { All (λ mode. mode < 35) modes.now }
    requires low { 3 ≤ block.log2 }
    requires high { block.log2 ≤ 5 }
    requires whole_x { block.x % side block ≡ 0 }
    requires whole_y { block.y % side block ≡ 0 }
    requires across { block.x + side block ≤ coded picture.now.size.w }
    requires down { block.y + side block ≤ coded picture.now.size.h }
    ensures { IsBest result limit (λ mode. intra_cost picture.now.size (picture_of picture.now) (leaf_with block (Intra mode))) modes.now }
{
    if limit <= 8 || modes.is_empty() {
        return None;
    }
    let planes = LeafBlock {
        g: plane_block(picture, 0, block),
        b: plane_block(picture, 1, block),
        r: plane_block(picture, 2, block),
    };
    best_of(&planes, block.log2, modes, limit)
}
