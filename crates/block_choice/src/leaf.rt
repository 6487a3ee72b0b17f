//! The cheapest coding unit of a whole block.
ghost use Rattle.std.specs.Prelude.{◌≡◌, ℕ, ◌+◌, ◌*◌, ◌-◌, ◌/◌, ◌%◌, ◌<◌, ◌≤◌, ◌^◌, map, true};
ghost use Rattle.h265_model.specs.Plain.{coded, leaf_with, side};
ghost use Rattle.h265_model.specs.Choice.{best_of, one_leaf, pcm_cost, leaf_plan, modes_of};
ghost use Rattle.h265_model.specs.Tree.{is_whole};
ghost use Rattle.h265_model.specs.declared.leaf.Kind.TheVariants.{Pcm};
ghost use Rattle.px_plane.specs.Planes.{picture_of};
ghost use Rattle.block_choice.specs.Plans.{IsTask, IsPlace, intra_plans, IsLeafPlan, IsWholeLeaf, before_of};

use crate::copies::is_copied;
use crate::modes::modes_for;
use h265_model::{CodingBlock, Kind};
use leaf_cost::{Best, best_mode};
use px_plane::Picture;

/// The coding tree unit at (x, y) of a picture, and the picture before it, where there is one.
#[derive(Drop)]
pub(crate) struct Task<'a> {
    pub last: &'a Picture,
    pub has_last: bool,
    pub current: &'a Picture,
    pub effort: u32,
    pub x: u32,
    pub y: u32,
    pub copies: [bool; 16],
}

/// The side of a block.
pub(crate) fn side_of(log2: u32) -> u32
    requires low { 3 ≤ log2 }
    requires high { log2 ≤ 5 }
    ensures value { result ≡ 2 ^ log2 }
    ensures least { 8 ≤ result }
    ensures most { result ≤ 32 }
{
    match log2 {
        3 => 8,
        4 => 16,
        _ => 32,
    }
}

/// The cheapest coding unit of a block of the coded picture but a skip, where it costs less than `limit`: one of the
/// modes that the effort (0 to 2) names, or samples.
pub fn coded_leaf(now: &Picture, effort: u32, block: CodingBlock, limit: u32) -> Option<Best>
    requires effort { effort ≤ 2 }
    requires low { 3 ≤ block.log2 }
    requires high { block.log2 ≤ 5 }
    requires whole_x { block.x % side block ≡ 0 }
    requires whole_y { block.y % side block ≡ 0 }
    requires across { block.x + side block ≤ coded now.now.size.w }
    requires down { block.y + side block ≤ coded now.now.size.h }
    ensures { IsLeafPlan result limit block
        (best_of (intra_plans now.now.size (picture_of now.now) block (modes_of effort)) (one_leaf (pcm_cost block.log2) (leaf_with block Pcm))) }
{
    let n = side_of(block.log2);
    let pcm = 24 + 24 * n * n;
    if let Some(best) = best_mode(now, block, modes_for(effort), limit.min(pcm + 1)) {
        return Some(best);
    }
    if pcm < limit {
        return Some(Best {
            cost: pcm,
            kind: Kind::Pcm,
        });
    }
    None
}

/// The cheapest coding unit of a block, where the block lies wholly in the coded picture and it costs less than `limit`.
pub(crate) fn whole_leaf(task: &Task, block: CodingBlock, limit: u32) -> Option<Best>
    requires task { IsTask task.now }
    requires low { 3 ≤ block.log2 }
    requires high { block.log2 ≤ 5 }
    requires place { IsPlace task.now block }
    ensures { IsWholeLeaf result limit block (is_whole task.now.current.now.size (side block) block.x block.y)
        (leaf_plan (before_of task.now) (picture_of task.now.current.now) task.now.current.now.size task.now.effort block) }
{
    let (x, y) = (block.x, block.y);
    let n = side_of(block.log2);
    let size = task.current.size();
    if x + n > (size.w() + 7) / 8 * 8 || y + n > (size.h() + 7) / 8 * 8 {
        return None;
    }
    let (i, j) = (((x - task.x) / 8) as usize, ((y - task.y) / 8) as usize);
    if is_copied(&task.copies, i, j, (n / 8) as usize) {
        return if limit > 1 {
            Some(Best {
                cost: 1,
                kind: Kind::Skip,
            })
        } else {
            None
        };
    }
    coded_leaf(task.current, task.effort, block, limit)
}
