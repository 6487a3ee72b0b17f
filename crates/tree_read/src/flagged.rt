//! Coding tree units with the flag behind them.
ghost use Rattle.std.specs.Prelude.{◌≡◌, ◌<◌, List, IfSome};
ghost use Rattle.std.specs.Bool.{beq};
ghost use Rattle.h265_model.specs.declared.Place.TheVariants as places;
ghost use Rattle.h265_model.specs.Plain.{ctu_x, ctu_y};
ghost use Rattle.h265_model.specs.Tiles.{tile_count};
ghost use Rattle.h265_model.specs.Motion.{Moving};
ghost use Rattle.cabac_dec.specs.State.{IsOpen, IsOpenAfter};
ghost use Rattle.unit_read.specs.Units.{AreKept, AreTaken};
ghost use Rattle.tree_read.specs.Rows.{flagged_read, ReadsCtu};

use crate::ctu::read_ctu;
use cabac_dec::{Contexts, Decoder, Place};
use h265_model::SliceKind;
use leaf_sink::LeafSink;
use motion_grid::MotionGrid;
use pu_code::Grid;
use px_plane::Size;

// Whether two flags are the same.
fn is_same(first: bool, second: bool) -> bool
    ensures { result ≡ beq first second }
{
    first == second
}

/// Reads a coding tree unit and the end_of_slice_segment_flag behind it, which has to be `ends` (7.3.8.1), and gives the contexts between the two.
///
/// Where the grids stand for the units before, it answers nothing exactly where these aren't read. After a flag of 1 the decoder has ended.
pub fn read_flagged<S: LeafSink>(
    decoder: &mut Decoder,
    kind: SliceKind,
    size: Size,
    grid: &mut Grid,
    motion: &mut MotionGrid,
    ctu: u32,
    ends: bool,
    sink: &mut S,
) -> Option<Contexts>
    requires open { IsOpen decoder.old }
    requires grid { grid.old.size ≡ size }
    requires motion { motion.old.size ≡ size }
    requires size { (S.last sink.old).size ≡ size }
    requires ctu { ctu < tile_count size }
    ensures read { (before : List Moving) → AreKept grid.old motion.old before → ReadsCtu result (flagged_read kind size before ctu ends decoder.old) decoder.new
        (AreTaken (S.stands_for sink.old) (S.stands_for sink.new) size (ctu_x size ctu) (ctu_y size ctu) grid.new motion.new before) }
    ensures after { IfSome result (λ _. IsOpenAfter places.Terminate ends decoder.new) }
    ensures grid { grid.new.size ≡ size }
    ensures motion { motion.new.size ≡ size }
    ensures last { S.last sink.new ≡ S.last sink.old }
{
    read_ctu(decoder, kind, size, grid, motion, ctu, sink)?;
    let contexts = decoder.contexts();
    let flag = decoder.bin(Place::Terminate)?;
    if !is_same(flag, ends) {
        return None;
    }
    Some(contexts)
}
