//! Coding tree units.
ghost use Rattle.std.specs.Prelude.{◌≡◌, ◌<◌, List, IfSome};
ghost use Rattle.h265_model.specs.Plain.{ctu_x, ctu_y};
ghost use Rattle.h265_model.specs.Tiles.{tile_count};
ghost use Rattle.h265_model.specs.Motion.{Moving};
ghost use Rattle.h265_model.specs.Tree.{ctu_read};
ghost use Rattle.cabac_dec.specs.State.{IsOpen};
ghost use Rattle.unit_read.specs.Units.{Reads, AreKept, AreTaken};

use crate::block::read_block;
use cabac_dec::Decoder;
use h265_model::SliceKind;
use leaf_sink::LeafSink;
use motion_grid::MotionGrid;
use pu_code::Grid;
use px_plane::Size;

/// Reads a coding tree unit (7.3.8.2) by its number in the picture of this size, which is that of the grids and of the sink, in rows from the top. Its units
/// are handed to the sink and set in both grids.
///
/// Where the grids stand for the units before, it answers nothing exactly where no coding tree unit is read after these.
pub fn read_ctu<S: LeafSink>(
    decoder: &mut Decoder,
    kind: SliceKind,
    size: Size,
    grid: &mut Grid,
    motion: &mut MotionGrid,
    ctu: u32,
    sink: &mut S,
) -> Option<()>
    requires open { IsOpen decoder.old }
    requires grid { grid.old.size ≡ size }
    requires motion { motion.old.size ≡ size }
    requires size { (S.last sink.old).size ≡ size }
    requires ctu { ctu < tile_count size }
    ensures read { (before : List Moving) → AreKept grid.old motion.old before → Reads result (ctu_read kind size before ctu decoder.old) decoder.new
        (AreTaken (S.stands_for sink.old) (S.stands_for sink.new) size (ctu_x size ctu) (ctu_y size ctu) grid.new motion.new before) }
    ensures open { IfSome result (λ _. IsOpen decoder.new) }
    ensures grid { grid.new.size ≡ size }
    ensures motion { motion.new.size ≡ size }
    ensures last { S.last sink.new ≡ S.last sink.old }
{
    let across = (size.w() + 31) / 32;
    let _tall = size.h();
    read_block(
        decoder,
        kind,
        size,
        grid,
        motion,
        2,
        ctu % across * 32,
        ctu / across * 32,
        sink,
    )
}
