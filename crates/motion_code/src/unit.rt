//! Coding units, moved or not (7.3.8.5).
ghost use Rattle.std.specs.Prelude.{◌≡◌, ◌∷◌, ◌++◌, [], List, OnOk, IfSome};
ghost use Rattle.h265_model.specs.Motion.{Moving, leaf_as_coded, kind_as_coded, kind_vector, as_coded, merge};
ghost use Rattle.h265_model.specs.Tree.{move_unit, still_unit};
ghost use Rattle.bin_items.specs.Growth.{IsOpen, Writes};
ghost use Rattle.pu_code.specs.Cells.{IsUnit};
ghost use Rattle.motion_grid.specs.Cells.{HasMotion};
ghost use Rattle.motion_code.specs.Moves.{IsShort, HasShort, AreKept, MayStand, flagged_items};

use crate::moved::write_move;
use bin_items::{BinSink, Kind, Leaf, NoMemory};
use coding_tree::{Grid, LevelSource, write_leaf, write_split_flags};
use h265_model::{MoveKind, MoveLeaf, SliceKind, Vector};
use motion_grid::MotionGrid;
use px_plane::Size;

// What a unit is for splits, skips and candidates: a moved one counts as samples.
fn kind_of(kind: MoveKind) -> Kind
    ensures { result ≡ kind_as_coded kind }
{
    match kind {
        MoveKind::Skip => Kind::Skip,
        MoveKind::Move(_) => Kind::Pcm,
        MoveKind::Pcm => Kind::Pcm,
        MoveKind::Intra(mode) => Kind::Intra(mode),
    }
}

// A unit as splits, skips and candidates look at it.
fn leaf_of(unit: MoveLeaf) -> Leaf
    ensures { result ≡ leaf_as_coded unit }
{
    Leaf {
        block: unit.block,
        kind: kind_of(unit.kind),
    }
}

// The vector by which a unit is copied, if it is: the merge vector of a skip.
fn vector_of(motion: &MotionGrid, kind: SliceKind, unit: MoveLeaf) -> Option<Vector>
    requires unit { IsUnit motion.now.size (leaf_as_coded unit) }
    requires allowed { MayStand kind unit.kind }
    requires short { HasShort motion.now }
    ensures value { (before : List Moving) → HasMotion motion.now before → result ≡ kind_vector (merge before unit.block) unit.kind }
    ensures short { IfSome result IsShort }
{
    match unit.kind {
        MoveKind::Skip => Some(motion.merge(unit.block)),
        MoveKind::Move(vector) => Some(vector),
        MoveKind::Pcm => None,
        MoveKind::Intra(_) => None,
    }
}

// Writes a unit as where no blocks move, and then sets it in both grids.
fn write_still<S: BinSink, V: LevelSource>(
    sink: &mut S,
    kind: SliceKind,
    grid: &mut Grid,
    motion: &mut MotionGrid,
    unit: MoveLeaf,
    source: &mut V,
) -> Result<(), NoMemory>
    requires unit { IsUnit grid.old.size (leaf_as_coded unit) }
    requires size { motion.old.size ≡ grid.old.size }
    requires allowed { MayStand kind unit.kind }
    requires short { HasShort motion.old }
    requires not_ended { IsOpen (S.phase sink.old) }
    ensures taken { (before : List Moving) → AreKept grid.old motion.old before
        → Writes (still_unit kind (V.source source.old) before unit) (S.stands_for sink.old) (S.stands_for sink.new) result }
    ensures not_ended { OnOk result (IsOpen (S.phase sink.new)) }
    ensures set { OnOk result ((before : List Moving) → AreKept grid.old motion.old before → AreKept grid.new motion.new (before ++ as_coded before unit ∷ [])) }
    ensures short { HasShort motion.new }
    ensures grid { grid.new.size ≡ grid.old.size }
    ensures motion { motion.new.size ≡ motion.old.size }
    ensures source { V.source source.new ≡ V.source source.old }
{
    write_leaf(sink, kind, grid, leaf_of(unit), source)?;
    let vector = vector_of(motion, kind, unit);
    motion.set(unit.block, vector);
    Ok(())
}

// Writes a unit, and then sets it in both grids.
fn write_bare<S: BinSink, V: LevelSource>(
    sink: &mut S,
    kind: SliceKind,
    grid: &mut Grid,
    motion: &mut MotionGrid,
    unit: MoveLeaf,
    source: &mut V,
) -> Result<(), NoMemory>
    requires unit { IsUnit grid.old.size (leaf_as_coded unit) }
    requires size { motion.old.size ≡ grid.old.size }
    requires allowed { MayStand kind unit.kind }
    requires short { HasShort motion.old }
    requires not_ended { IsOpen (S.phase sink.old) }
    ensures taken { (before : List Moving) → AreKept grid.old motion.old before
        → Writes (move_unit kind (V.source source.old) before unit) (S.stands_for sink.old) (S.stands_for sink.new) result }
    ensures not_ended { OnOk result (IsOpen (S.phase sink.new)) }
    ensures set { OnOk result ((before : List Moving) → AreKept grid.old motion.old before → AreKept grid.new motion.new (before ++ as_coded before unit ∷ [])) }
    ensures short { HasShort motion.new }
    ensures grid { grid.new.size ≡ grid.old.size }
    ensures motion { motion.new.size ≡ motion.old.size }
    ensures source { V.source source.new ≡ V.source source.old }
{
    match unit.kind {
        MoveKind::Move(vector) => write_move(sink, grid, motion, unit.block, vector),
        _ => write_still(sink, kind, grid, motion, unit, source),
    }
}

/// Writes a unit with the flags of the blocks that begin with it, and then sets it in both grids.
pub(crate) fn write_unit<S: BinSink, V: LevelSource>(
    sink: &mut S,
    kind: SliceKind,
    grid: &mut Grid,
    motion: &mut MotionGrid,
    size: Size,
    unit: MoveLeaf,
    source: &mut V,
) -> Result<(), NoMemory>
    requires size { grid.old.size ≡ size }
    requires motion { motion.old.size ≡ size }
    requires unit { IsUnit size (leaf_as_coded unit) }
    requires allowed { MayStand kind unit.kind }
    requires short { HasShort motion.old }
    requires not_ended { IsOpen (S.phase sink.old) }
    ensures taken { (before : List Moving) → AreKept grid.old motion.old before
        → Writes (flagged_items kind size (V.source source.old) before unit) (S.stands_for sink.old) (S.stands_for sink.new) result }
    ensures not_ended { OnOk result (IsOpen (S.phase sink.new)) }
    ensures set { OnOk result ((before : List Moving) → AreKept grid.old motion.old before → AreKept grid.new motion.new (before ++ as_coded before unit ∷ [])) }
    ensures short { HasShort motion.new }
    ensures size { grid.new.size ≡ size }
    ensures motion { motion.new.size ≡ size }
    ensures source { V.source source.new ≡ V.source source.old }
{
    write_split_flags(sink, grid, size, leaf_of(unit))?;
    write_bare(sink, kind, grid, motion, unit, source)
}
