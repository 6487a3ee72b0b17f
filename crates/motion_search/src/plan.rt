//! The choice for one coding tree unit.
ghost use Rattle.std.specs.Prelude.{◌≡◌, ◌<◌, ◌≤◌, ◌%◌, ◌+◌, false, true, List};
ghost use Rattle.h265_model.specs.Plain.{coded};
ghost use Rattle.h265_model.specs.Tiles.{tile_count};
ghost use Rattle.h265_model.specs.Tree.{is_whole, IsLawfulTree};
ghost use Rattle.h265_model.specs.Motion as moving;
ghost use Rattle.h265_model.specs.Motion.{Moving, no_motion};
ghost use Rattle.h265_model.specs.MotionChoice.{moved_choice, plan};
ghost use Rattle.h265_model.specs.declared.leaf.SliceKind.TheVariants.{P};
ghost use Rattle.px_plane.specs.Planes.{picture_of};
ghost use Rattle.block_choice.specs.Plans.{IsSameTree};
ghost use Rattle.motion_grid.specs.Cells.{HasMotion};
ghost use Rattle.motion_code.specs.Moves.{MayAllStand, coded_leaves};

use crate::tree::{is_whole, plan_block};
use chosen_units::{ChosenUnits, MoveLeaves};
use h265_model::{CodingBlock, MoveKind, MoveLeaf};
use motion_grid::MotionGrid;
use px_plane::{Picture, Size};
use unit_choice::UnitChoice;

// Whether the coding tree unit at (x, y) is a block of the coded picture whose merge vector is that of no motion.
fn stands_still(motion: &MotionGrid, size: Size, block: CodingBlock) -> bool
    requires size { size ≡ motion.now.size }
    requires side { block.log2 ≡ 5 }
    requires across { block.x < 4096 }
    requires down { block.y < 4096 }
    ensures whole { result ≡ true → is_whole size 32 block.x block.y ≡ true }
    ensures merge { result ≡ true → (units : List Moving) → HasMotion motion.now units
        → moving.merge units block ≡ no_motion }
{
    if !is_whole(size, 32, block.x, block.y) {
        return false;
    }
    let merge = motion.merge(block);
    merge.x == 0 && merge.y == 0
}

// The units of least cost of the coding tree unit at (x, y).
fn search_unit(
    before: &Picture,
    now: &Picture,
    motion: &MotionGrid,
    effort: u32,
    x: u32,
    y: u32,
) -> MoveLeaves
    requires effort { effort ≤ 2 }
    requires before { before.now.size ≡ now.now.size }
    requires motion { motion.now.size ≡ now.now.size }
    requires x { x < 4096 }
    requires y { y < 4096 }
    requires whole_x { x % 32 ≡ 0 }
    requires whole_y { y % 32 ≡ 0 }
    ensures { (units : List Moving) → HasMotion motion.now units
        → result ≡ (plan (picture_of before.now) (picture_of now.now) now.now.size effort 2 x y units).units }
{
    let mut choice = UnitChoice::new(before, now, effort, x, y);
    let mut chosen = ChosenUnits::new(motion);
    let _cost = plan_block(&mut choice, &mut chosen, now.size(), 2, x, y, u32::MAX);
    chosen.leaves()
}

/// The coding units of a coding tree unit after the picture `before`, by the choice rule: those of least cost, after
/// the units that `motion` stands for. They are a lawful tree, and may stand in a P slice.
///
/// `effort` (0 to 2) names the modes that are tried. Where `touched` is false the coding tree unit is the same in both
/// pictures: then it is one skip, and nothing is compared, where it lies wholly in the picture and its merge vector is
/// zero.
pub fn plan_moves(
    before: &Picture,
    now: &Picture,
    motion: &MotionGrid,
    effort: u32,
    ctu: u32,
    touched: bool,
) -> MoveLeaves
    requires effort { effort ≤ 2 }
    requires ctu { ctu < tile_count now.now.size }
    requires before { before.now.size ≡ now.now.size }
    requires motion { motion.now.size ≡ now.now.size }
    requires untouched { touched ≡ false → IsSameTree (picture_of before.now) (picture_of now.now) now.now.size ctu }
    ensures planned { (units : List Moving) → HasMotion motion.now units
        → result ≡ moved_choice (picture_of before.now) (picture_of now.now) now.now.size effort units ctu }
    ensures tree { (units : List Moving) → HasMotion motion.now units
        → IsLawfulTree now.now.size ctu (coded_leaves result) }
    ensures allowed { (units : List Moving) → HasMotion motion.now units → MayAllStand P result }
{
    let size = now.size();
    let across = (size.w() + 31) / 32;
    let (x, y) = (ctu % across * 32, ctu / across * 32);
    let block = CodingBlock { x, y, log2: 5 };
    if !touched && stands_still(motion, size, block) {
        let mut leaves = MoveLeaves::new();
        leaves.push(MoveLeaf {
            block,
            kind: MoveKind::Skip,
        });
        return leaves;
    }
    search_unit(before, now, motion, effort, x, y)
}
