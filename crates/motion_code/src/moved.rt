//! Moved coding units (7.3.8.5, 7.3.8.6).
ghost use Rattle.std.specs.Prelude.{◌≡◌, ◌≤◌, ◌∷◌, ◌++◌, [], List, OnOk};
ghost use Rattle.h265_model.specs.declared.leaf.Kind.TheVariants.{Pcm};
ghost use Rattle.h265_model.specs.declared.moves.MoveKind.TheVariants as moves;
ghost use Rattle.h265_model.specs.Plain.{leaf_with};
ghost use Rattle.h265_model.specs.Motion as moving;
ghost use Rattle.h265_model.specs.Motion.{Moving, leaves, as_coded, move_items, predictors as the_predictors};
ghost use Rattle.h265_model.specs.MotionChoice.{unit_at};
ghost use Rattle.h265_model.specs.Tree.{moved_unit};
ghost use Rattle.bin_items.specs.Growth.{IsOpen, Writes};
ghost use Rattle.pu_code.specs.Cells.{IsUnit, StandsFor};
ghost use Rattle.motion_grid.specs.Cells.{HasMotion};
ghost use Rattle.motion_code.specs.Moves.{IsShort, HasShort, AreKept};
ghost use Rattle.motion_code.specs.Parts.{moved_front, moved_end};

use crate::difference::{difference_of, size_of, write_difference};
use crate::flag::write_flag;
use bin_items::{BinSink, Kind, Leaf, NoMemory};
use coding_tree::Grid;
use h265_model::syntax_elements::{
    CU_TRANSQUANT_BYPASS_FLAG, MERGE_FLAG, MVP_L0_FLAG, PART_MODE, PRED_MODE_FLAG, RQT_ROOT_CBF,
};
use h265_model::{CodingBlock, Vector};
use motion_grid::MotionGrid;

// Whether mvp_l0_flag names the second predictor: the one with the lesser difference, the first where they are alike.
fn second_is_nearer(vector: Vector, predictors: (Vector, Vector)) -> bool
    requires vector { IsShort vector }
    requires first { IsShort predictors.0 }
    requires second { IsShort predictors.1 }
    ensures { result ≡ moving.second_is_nearer vector predictors }
{
    let first = size_of(difference_of(vector, predictors.0));
    let second = size_of(difference_of(vector, predictors.1));
    second < first
}

// The predictor that mvp_l0_flag names.
fn named(second: bool, predictors: (Vector, Vector)) -> Vector
    requires first { IsShort predictors.0 }
    requires second { IsShort predictors.1 }
    ensures value { result ≡ moving.predictor second predictors }
    ensures short { IsShort result }
{
    if second { predictors.1 } else { predictors.0 }
}

// Writes mvp_l0_flag and rqt_root_cbf.
fn write_end<S: BinSink>(sink: &mut S, second: bool) -> Result<(), NoMemory>
    requires not_ended { IsOpen (S.phase sink.old) }
    ensures taken { Writes (moved_end second) (S.stands_for sink.old) (S.stands_for sink.new) result }
    ensures not_ended { IsOpen (S.phase sink.new) }
{
    write_flag(sink, second, MVP_L0_FLAG)?;
    write_flag(sink, false, RQT_ROOT_CBF)
}

// Writes merge_flag, the difference, mvp_l0_flag and rqt_root_cbf.
fn write_vector<S: BinSink>(
    sink: &mut S,
    vector: Vector,
    predictors: (Vector, Vector),
) -> Result<(), NoMemory>
    requires vector { IsShort vector }
    requires first { IsShort predictors.0 }
    requires second { IsShort predictors.1 }
    requires not_ended { IsOpen (S.phase sink.old) }
    ensures taken { Writes (move_items vector predictors) (S.stands_for sink.old) (S.stands_for sink.new) result }
    ensures not_ended { IsOpen (S.phase sink.new) }
{
    let second = second_is_nearer(vector, predictors);
    write_flag(sink, false, MERGE_FLAG)?;
    write_difference(sink, difference_of(vector, named(second, predictors)))?;
    write_end(sink, second)
}

// Writes a moved unit up to part_mode.
fn write_front<S: BinSink>(sink: &mut S, grid: &Grid, block: CodingBlock) -> Result<(), NoMemory>
    requires unit { IsUnit grid.now.size (leaf_with block Pcm) }
    requires not_ended { IsOpen (S.phase sink.old) }
    ensures taken { (before : List Moving) → StandsFor grid.now (leaves before) → Writes (moved_front before block) (S.stands_for sink.old) (S.stands_for sink.new) result }
    ensures not_ended { IsOpen (S.phase sink.new) }
{
    let context = grid.skip_context(block.x, block.y);
    write_flag(sink, true, CU_TRANSQUANT_BYPASS_FLAG)?;
    write_flag(sink, false, context)?;
    write_flag(sink, false, PRED_MODE_FLAG)?;
    write_flag(sink, true, PART_MODE)
}

// The two predictors of a block, which are short as the vectors of the units before are.
fn predictors_of(motion: &MotionGrid, block: CodingBlock) -> (Vector, Vector)
    requires unit { IsUnit motion.now.size (leaf_with block Pcm) }
    requires short { HasShort motion.now }
    ensures value { (before : List Moving) → HasMotion motion.now before → result ≡ the_predictors before block }
    ensures first { IsShort result.0 }
    ensures second { IsShort result.1 }
{
    motion.predictors(block)
}

/// Writes a coding unit of a P slice that is moved by this vector (7.3.8.5, 7.3.8.6 and 7.3.8.9), and then sets it in both grids.
///
/// It lies in the coded picture of the grids' size, at multiples of its side, which is 8, 16 or 32. Its vector and those in the grid have at most 4095
/// samples each way. mvp_l0_flag names the predictor whose difference has the lesser sum of sizes. After `NoMemory` a front of its bins was taken, and
/// it may or may not be set.
pub fn write_move<S: BinSink>(
    sink: &mut S,
    grid: &mut Grid,
    motion: &mut MotionGrid,
    block: CodingBlock,
    vector: Vector,
) -> Result<(), NoMemory>
    requires unit { IsUnit grid.old.size (leaf_with block Pcm) }
    requires size { motion.old.size ≡ grid.old.size }
    requires vector { IsShort vector }
    requires short { HasShort motion.old }
    requires not_ended { IsOpen (S.phase sink.old) }
    ensures taken { (before : List Moving) → AreKept grid.old motion.old before
        → Writes (moved_unit before (unit_at block (moves.Move vector)) vector) (S.stands_for sink.old) (S.stands_for sink.new) result }
    ensures not_ended { IsOpen (S.phase sink.new) }
    ensures set { OnOk result ((before : List Moving) → AreKept grid.old motion.old before
        → AreKept grid.new motion.new (before ++ as_coded before (unit_at block (moves.Move vector)) ∷ [])) }
    ensures short { HasShort motion.new }
    ensures grid { grid.new.size ≡ grid.old.size }
    ensures motion { motion.new.size ≡ motion.old.size }
{
    let predictors = predictors_of(motion, block);
    write_front(sink, grid, block)?;
    write_vector(sink, vector, predictors)?;
    grid.set(Leaf {
        block,
        kind: Kind::Pcm,
    });
    motion.set(block, Some(vector));
    Ok(())
}
