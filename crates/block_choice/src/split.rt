//! The cheapest coding units of a block: one, or those of its quarters.
ghost use Rattle.std.specs.Prelude.{◌≡◌, ℕ, ◌+◌, ◌*◌, ◌^◌, ◌<◌, ◌≤◌};
ghost use Rattle.arrayvec.specs.ArrayVec.{array_vec_len};
ghost use Rattle.h265_model.specs.Plain.{block_at};
ghost use Rattle.h265_model.specs.Choice.{plan, split_plan};
ghost use Rattle.h265_model.specs.Predict.{is_inside};
ghost use Rattle.px_plane.specs.Planes.{picture_of};
ghost use Rattle.block_choice.specs.Plans.{IsTask, IsPlace, IsPlanned, before_of};

use crate::leaf::{Task, side_of, whole_leaf};
use bin_items::Leaves;
use h265_model::{CodingBlock, Leaf};

// Whether a place is in the coded picture.
fn is_inside(task: &Task, x: u32, y: u32) -> bool
    ensures { result ≡ is_inside task.now.current.now.size x y }
{
    let size = task.current.size();
    x < (size.w() + 7) / 8 * 8 && y < (size.h() + 7) / 8 * 8
}

// Adds the coding units of the four quarters, each of depth `depth`, where they cost less than `limit` with the split; else it adds none.
#[cycle(tree)]
fn plan_split(
    task: &Task,
    depth: u32,
    x: u32,
    y: u32,
    limit: u32,
    leaves: &mut Leaves,
) -> Option<u32>
    requires task { IsTask task.now }
    requires depth { depth ≤ 1 }
    requires place { IsPlace task.now (block_at x y (3 + (depth + 1))) }
    requires room { array_vec_len leaves.old + 4 * 4 ^ depth ≤ 16 }
    ensures planned { IsPlanned result limit
        (split_plan (plan (before_of task.now) (picture_of task.now.current.now) task.now.current.now.size task.now.effort depth) (2 ^ (3 + depth)) x y)
        leaves.old.items leaves.new.items }
    ensures few { array_vec_len leaves.new ≤ array_vec_len leaves.old + 4 * 4 ^ depth }
{
    let half = side_of(3 + depth);
    let mark = leaves.len();
    let mut cost = 1;
    for quarter in 0..4u32 {
        let (left, top) = (x + quarter % 2 * half, y + quarter / 2 * half);
        match plan_block(task, depth, left, top, limit.saturating_sub(cost), leaves) {
            Some(part) => cost += part,
            None => {
                leaves.truncate(mark);
                return None;
            }
        }
    }
    Some(cost)
}

/// Adds the coding units of the block of side 2^(3 + depth) at (x, y) where they cost less than `limit`, and gives their cost; else it adds none.
#[cycle(tree)]
pub(crate) fn plan_block(
    task: &Task,
    depth: u32,
    x: u32,
    y: u32,
    limit: u32,
    leaves: &mut Leaves,
) -> Option<u32>
    requires task { IsTask task.now }
    requires depth { depth ≤ 2 }
    requires place { IsPlace task.now (block_at x y (3 + depth)) }
    requires room { array_vec_len leaves.old + 4 ^ depth ≤ 16 }
    ensures planned { IsPlanned result limit
        (plan (before_of task.now) (picture_of task.now.current.now) task.now.current.now.size task.now.effort depth x y)
        leaves.old.items leaves.new.items }
    ensures few { array_vec_len leaves.new ≤ array_vec_len leaves.old + 4 ^ depth }
{
    if !is_inside(task, x, y) {
        return if limit > 0 { Some(0) } else { None };
    }
    let block = CodingBlock {
        x,
        y,
        log2: 3 + depth,
    };
    let leaf = whole_leaf(task, block, limit);
    let bound = match leaf {
        Some(best) => best.cost,
        None => limit,
    };
    if depth > 0 {
        if let Some(cost) = plan_split(task, depth - 1, x, y, bound, leaves) {
            return Some(cost);
        }
    }
    let best = leaf?;
    leaves.push(Leaf {
        block,
        kind: best.kind,
    });
    Some(best.cost)
}
