//! The cheapest coding units of a block: one, or those of its quarters.
ghost use Rattle.std.specs.Prelude.{◌≡◌, ℕ, ◌+◌, ◌*◌, ◌^◌, ◌<◌, ◌≤◌, List, length, IfSome, IfNone};
ghost use Rattle.h265_model.specs.Plain.{block_at, side};
ghost use Rattle.h265_model.specs.Predict as predict;
ghost use Rattle.h265_model.specs.Tree.{is_whole};
ghost use Rattle.h265_model.specs.Motion.{Moving, coded_after};
ghost use Rattle.motion_grid.specs.Cells.{HasMotion};
ghost use Rattle.motion_search.specs.Planned.{IsTrial, IsPlace, IsWholeUnit, IsPlanned, Grows};
ghost use Rattle.motion_search.specs.Planned.{plan_of, split_of, unit_of};

use chosen_units::ChosenUnits;
use h265_model::CodingBlock;
use px_plane::Size;
use unit_choice::{PlannedUnit, UnitChoice};

// The side of a block.
fn side_of(log2: u32) -> u32
    requires low { 3 ≤ log2 }
    requires high { log2 ≤ 5 }
    ensures value { result ≡ 2 ^ log2 }
    ensures least { 8 ≤ result }
    ensures most { result ≤ 32 }
{
    match log2 {
        3 => 8,
        4 => 16,
        _ => 32,
    }
}

// Whether a place is in the coded picture.
fn is_inside(size: Size, x: u32, y: u32) -> bool
    ensures { result ≡ predict.is_inside size x y }
{
    x < (size.w() + 7) / 8 * 8 && y < (size.h() + 7) / 8 * 8
}

/// Whether a block of this side is wholly in the coded picture.
pub(crate) fn is_whole(size: Size, n: u32, x: u32, y: u32) -> bool
    requires x { x < 8192 }
    requires y { y < 8192 }
    requires side { n ≤ 32 }
    ensures { result ≡ is_whole size n x y }
{
    x + n <= (size.w() + 7) / 8 * 8 && y + n <= (size.h() + 7) / 8 * 8
}

// The cheapest coding unit of a block, where the block lies wholly in the coded picture and it costs less than `limit`.
fn whole_unit(
    choice: &mut UnitChoice,
    chosen: &ChosenUnits,
    size: Size,
    block: CodingBlock,
    limit: u32,
) -> Option<PlannedUnit>
    requires trial { IsTrial choice.old }
    requires size { size ≡ choice.old.search.current.size }
    requires low { 3 ≤ block.log2 }
    requires high { block.log2 ≤ 5 }
    requires place { IsPlace choice.old.search block }
    requires across { block.x < 4096 }
    requires down { block.y < 4096 }
    ensures same { choice.new ≡ choice.old }
    ensures planned { (before : List Moving) → HasMotion chosen.now.motion before
        → IsWholeUnit result limit (is_whole choice.old.search.current.size (side block) block.x block.y)
        (unit_of choice.old block (coded_after before chosen.now.units)) }
    ensures below { IfSome result (λ planned. planned.cost < limit) }
    ensures block { IfSome result (λ planned. planned.unit.block ≡ block) }
{
    if !is_whole(size, side_of(block.log2), block.x, block.y) {
        return None;
    }
    let merge = chosen.merge_vector(block);
    let planned = choice.best_unit(merge, block);
    if planned.cost < limit {
        Some(planned)
    } else {
        None
    }
}

// Adds the coding units of the four quarters, each of depth `depth`, where they cost less than `limit` with the split;
// else it adds none.
#[cycle(tree)]
fn plan_split(
    choice: &mut UnitChoice,
    chosen: &mut ChosenUnits,
    size: Size,
    depth: u32,
    x: u32,
    y: u32,
    limit: u32,
) -> Option<u32>
    requires trial { IsTrial choice.old }
    requires size { size ≡ choice.old.search.current.size }
    requires depth { depth ≤ 1 }
    requires place { IsPlace choice.old.search (block_at x y (3 + (depth + 1))) }
    requires room { length chosen.old.units + 4 * 4 ^ depth ≤ 16 }
    ensures same { choice.new ≡ choice.old }
    ensures planned { IsPlanned result limit (split_of choice.old depth (2 ^ (3 + depth)) x y) chosen.old chosen.new }
    ensures below { IfSome result (λ cost. cost < limit) }
    ensures none { IfNone result (chosen.new.units ≡ chosen.old.units) }
    ensures grows { Grows chosen.old chosen.new (4 * 4 ^ depth) }
{
    let half = side_of(3 + depth);
    let mark = chosen.len();
    let mut cost = 1;
    for quarter in 0..4u32 {
        let (left, top) = (x + quarter % 2 * half, y + quarter / 2 * half);
        match plan_block(
            choice,
            chosen,
            size,
            depth,
            left,
            top,
            limit.saturating_sub(cost),
        ) {
            Some(part) => cost += part,
            None => {
                chosen.truncate(mark);
                return None;
            }
        }
    }
    Some(cost)
}

/// Adds the coding units of the block of side 2^(3 + depth) at (x, y) where they cost less than `limit`, and gives
/// their cost; else it adds none.
#[cycle(tree)]
pub(crate) fn plan_block(
    choice: &mut UnitChoice,
    chosen: &mut ChosenUnits,
    size: Size,
    depth: u32,
    x: u32,
    y: u32,
    limit: u32,
) -> Option<u32>
    requires trial { IsTrial choice.old }
    requires size { size ≡ choice.old.search.current.size }
    requires depth { depth ≤ 2 }
    requires place { IsPlace choice.old.search (block_at x y (3 + depth)) }
    requires room { length chosen.old.units + 4 ^ depth ≤ 16 }
    ensures same { choice.new ≡ choice.old }
    ensures planned { IsPlanned result limit (plan_of choice.old depth x y) chosen.old chosen.new }
    ensures below { IfSome result (λ cost. cost < limit) }
    ensures none { IfNone result (chosen.new.units ≡ chosen.old.units) }
    ensures grows { Grows chosen.old chosen.new (4 ^ depth) }
{
    if !is_inside(size, x, y) {
        return if limit > 0 { Some(0) } else { None };
    }
    // Each unit costs at least 1.
    if limit <= 1 {
        return None;
    }
    let block = CodingBlock {
        x,
        y,
        log2: 3 + depth,
    };
    let unit = whole_unit(choice, chosen, size, block, limit);
    let bound = match unit {
        Some(planned) => planned.cost,
        None => limit,
    };
    if depth > 0 {
        if let Some(cost) = plan_split(choice, chosen, size, depth - 1, x, y, bound) {
            return Some(cost);
        }
    }
    let planned = unit?;
    chosen.push(planned.unit);
    Some(planned.cost)
}
