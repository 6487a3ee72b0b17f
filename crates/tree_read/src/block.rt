//! Blocks of a coding tree.
ghost use Rattle.std.specs.Prelude.{◌≡◌, ◌<◌, ◌≤◌, ◌+◌, ◌%◌, ◌/◌, ◌^◌, List, IfSome};
ghost use Rattle.h265_model.specs.Plain.{ctus};
ghost use Rattle.h265_model.specs.Motion.{Moving};
ghost use Rattle.h265_model.specs.Tree.{tree_read};
ghost use Rattle.cabac_dec.specs.State.{IsOpen};
ghost use Rattle.unit_read.specs.Units.{Reads, AreKept, AreTaken};

use crate::split::{is_inside, read_split, side};
use cabac_dec::Decoder;
use h265_model::{CodingBlock, SliceKind};
use leaf_sink::LeafSink;
use motion_grid::MotionGrid;
use pu_code::Grid;
use px_plane::Size;
use unit_read::read_unit;

/// Reads the block of side 2^(3 + `depth`) at (x, y), where that is in the picture (7.3.8.4), and hands its units to the sink.
pub(crate) fn read_block<S: LeafSink>(
    decoder: &mut Decoder,
    kind: SliceKind,
    size: Size,
    grid: &mut Grid,
    motion: &mut MotionGrid,
    depth: u32,
    x: u32,
    y: u32,
    sink: &mut S,
) -> Option<()>
    requires open { IsOpen decoder.old }
    requires grid { grid.old.size ≡ size }
    requires motion { motion.old.size ≡ size }
    requires size { (S.last sink.old).size ≡ size }
    requires few { depth < 3 }
    requires column { x % 2 ^ (3 + depth) ≡ 0 }
    requires row { y % 2 ^ (3 + depth) ≡ 0 }
    requires across { x / 32 < ctus size.w }
    requires down { y / 32 < ctus size.h }
    ensures read { (before : List Moving) → AreKept grid.old motion.old before → Reads result (tree_read kind size depth x y before decoder.old) decoder.new
        (AreTaken (S.stands_for sink.old) (S.stands_for sink.new) size x y grid.new motion.new before) }
    ensures open { IfSome result (λ _. IsOpen decoder.new) }
    ensures grid { grid.new.size ≡ size }
    ensures motion { motion.new.size ≡ size }
    ensures last { S.last sink.new ≡ S.last sink.old }
{
    if !is_inside(size, x, y) {
        return Some(());
    }
    if !read_split(decoder, size, grid, depth, x, y)? {
        let block = CodingBlock {
            x,
            y,
            log2: 3 + depth,
        };
        return read_unit(decoder, kind, size, grid, motion, block, sink);
    }
    let half = side(depth - 1);
    read_block(decoder, kind, size, grid, motion, depth - 1, x, y, sink)?;
    read_block(
        decoder,
        kind,
        size,
        grid,
        motion,
        depth - 1,
        x + half,
        y,
        sink,
    )?;
    read_block(
        decoder,
        kind,
        size,
        grid,
        motion,
        depth - 1,
        x,
        y + half,
        sink,
    )?;
    read_block(
        decoder,
        kind,
        size,
        grid,
        motion,
        depth - 1,
        x + half,
        y + half,
        sink,
    )?;
    Some(())
}
