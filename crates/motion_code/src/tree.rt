//! Coding tree units (7.3.8.2).
ghost use Rattle.std.specs.Prelude.{◌≡◌, ◌<◌, List, OnOk};
ghost use Rattle.h265_model.specs.Tiles.{tile_count};
ghost use Rattle.h265_model.specs.Motion.{Moving, coded_after};
ghost use Rattle.h265_model.specs.Tree.{moving, move_unit, ctu_items, IsLawfulTree};
ghost use Rattle.bin_items.specs.Growth.{IsOpen, Writes};
ghost use Rattle.motion_code.specs.Moves.{HasShort, AreKept, MayAllStand, coded_leaves};

use crate::unit::write_unit;
use bin_items::{BinSink, NoMemory};
use coding_tree::{Grid, LevelSource};
use h265_model::{MoveLeaf, SliceKind};
use motion_grid::MotionGrid;
use px_plane::Size;

/// Writes a coding tree unit where blocks may move, with the source's levels and samples (7.3.8.2), and sets its coding units in both grids.
///
/// `ctu` is its number in the picture of this size, which is the grids', in rows from the top. The `units` are those of its coding tree, in coding order.
/// An I slice has no copies. Vectors, also those in the grid, have at most 4095 samples each way. After `NoMemory` a front of the bins and samples was
/// taken, and some of the units may be set.
pub fn write_ctu_moves<S: BinSink, V: LevelSource>(
    sink: &mut S,
    kind: SliceKind,
    grid: &mut Grid,
    motion: &mut MotionGrid,
    size: Size,
    ctu: u32,
    units: &[MoveLeaf],
    source: &mut V,
) -> Result<(), NoMemory>
    requires size { grid.old.size ≡ size }
    requires motion { motion.old.size ≡ size }
    requires ctu { ctu < tile_count size }
    requires tree { IsLawfulTree size ctu (coded_leaves units.now) }
    requires allowed { MayAllStand kind units.now }
    requires short { HasShort motion.old }
    requires not_ended { IsOpen (S.phase sink.old) }
    ensures taken { (before : List Moving) → AreKept grid.old motion.old before
        → Writes (ctu_items (moving (move_unit kind (V.source source.old))) size before units.now ctu) (S.stands_for sink.old) (S.stands_for sink.new) result }
    ensures not_ended { OnOk result (IsOpen (S.phase sink.new)) }
    ensures set { OnOk result ((before : List Moving) → AreKept grid.old motion.old before → AreKept grid.new motion.new (coded_after before units.now)) }
    ensures short { HasShort motion.new }
    ensures size { grid.new.size ≡ size }
    ensures motion { motion.new.size ≡ size }
    ensures source { V.source source.new ≡ V.source source.old }
{
    for unit in units {
        write_unit(sink, kind, grid, motion, size, *unit, source)?;
    }
    Ok(())
}
