//! Coding units.
ghost use Rattle.std.specs.Prelude.{◌≡◌, ◌<◌, ◌≤◌, ◌+◌, ◌%◌, ◌^◌, List, IfSome};
ghost use Rattle.h265_model.specs.declared.leaf.SliceKind.TheVariants.{P};
ghost use Rattle.h265_model.specs.Plain.{coded};
ghost use Rattle.h265_model.specs.Motion.{Moving, leaves};
ghost use Rattle.h265_model.specs.Tree.{IsMode, coded_read, coding_unit_read};
ghost use Rattle.pu_code.specs.Cells.{StandsFor};
ghost use Rattle.motion_grid.specs.Cells.{HasMotion};
ghost use Rattle.cabac_dec.specs.State.{IsOpen};
ghost use Rattle.unit_read.specs.Units.{Hands, Takes, placed_after, rest_read, Reads, AreKept, AreTaken};

use crate::content::read_own;
use crate::copies::{read_moved, take_copied};
use crate::flags::{expect, read_skip_flag};
use crate::kept::Kept;
use bin_items::Leaf;
use cabac_dec::{Decoder, Place};
use h265_model::syntax_elements::{CU_TRANSQUANT_BYPASS_FLAG, PRED_MODE_FLAG};
use h265_model::{CodingBlock, SliceKind};
use leaf_sink::LeafSink;
use motion_grid::MotionGrid;
use pu_code::Grid;
use px_plane::Size;

// Reads a unit of a P slice that isn't skipped, and hands it to the sink.
fn read_inter<S: LeafSink>(
    decoder: &mut Decoder,
    size: Size,
    grid: &Grid,
    motion: &MotionGrid,
    block: CodingBlock,
    sink: &mut S,
) -> Option<Kept>
    requires open { IsOpen decoder.old }
    requires grid { grid.now.size ≡ size }
    requires motion { motion.now.size ≡ size }
    requires size { (S.last sink.old).size ≡ size }
    requires low { 3 ≤ block.log2 }
    requires high { block.log2 ≤ 5 }
    requires column { block.x % 2 ^ block.log2 ≡ 0 }
    requires row { block.y % 2 ^ block.log2 ≡ 0 }
    requires across { block.x + 2 ^ block.log2 ≤ coded size.w }
    requires down { block.y + 2 ^ block.log2 ≤ coded size.h }
    ensures value { (before : List Moving) → StandsFor grid.now (leaves before) → HasMotion motion.now before
        → Hands result (placed_after (coded_read P before block) size block decoder.old) decoder.new (Takes (S.stands_for sink.old) (S.stands_for sink.new) size block) }
    ensures open { IfSome result (λ _. IsOpen decoder.new) }
    ensures mode { IfSome result (λ kept. IsMode kept.kind) }
    ensures last { S.last sink.new ≡ S.last sink.old }
{
    if decoder.bin(Place::Context(PRED_MODE_FLAG))? {
        read_own(decoder, size, grid, block, sink)
    } else {
        read_moved(decoder, size, motion, block, sink)
    }
}

// Reads a unit that isn't skipped, and hands it to the sink.
fn read_coded<S: LeafSink>(
    decoder: &mut Decoder,
    kind: SliceKind,
    size: Size,
    grid: &Grid,
    motion: &MotionGrid,
    block: CodingBlock,
    sink: &mut S,
) -> Option<Kept>
    requires open { IsOpen decoder.old }
    requires grid { grid.now.size ≡ size }
    requires motion { motion.now.size ≡ size }
    requires size { (S.last sink.old).size ≡ size }
    requires low { 3 ≤ block.log2 }
    requires high { block.log2 ≤ 5 }
    requires column { block.x % 2 ^ block.log2 ≡ 0 }
    requires row { block.y % 2 ^ block.log2 ≡ 0 }
    requires across { block.x + 2 ^ block.log2 ≤ coded size.w }
    requires down { block.y + 2 ^ block.log2 ≤ coded size.h }
    ensures value { (before : List Moving) → StandsFor grid.now (leaves before) → HasMotion motion.now before
        → Hands result (placed_after (coded_read kind before block) size block decoder.old) decoder.new (Takes (S.stands_for sink.old) (S.stands_for sink.new) size block) }
    ensures open { IfSome result (λ _. IsOpen decoder.new) }
    ensures mode { IfSome result (λ kept. IsMode kept.kind) }
    ensures last { S.last sink.new ≡ S.last sink.old }
{
    match kind {
        SliceKind::I => read_own(decoder, size, grid, block, sink),
        SliceKind::P => read_inter(decoder, size, grid, motion, block, sink),
    }
}

// Reads what follows cu_transquant_bypass_flag, and hands the unit to the sink.
fn read_rest<S: LeafSink>(
    decoder: &mut Decoder,
    kind: SliceKind,
    size: Size,
    grid: &Grid,
    motion: &MotionGrid,
    block: CodingBlock,
    sink: &mut S,
) -> Option<Kept>
    requires open { IsOpen decoder.old }
    requires grid { grid.now.size ≡ size }
    requires motion { motion.now.size ≡ size }
    requires size { (S.last sink.old).size ≡ size }
    requires low { 3 ≤ block.log2 }
    requires high { block.log2 ≤ 5 }
    requires column { block.x % 2 ^ block.log2 ≡ 0 }
    requires row { block.y % 2 ^ block.log2 ≡ 0 }
    requires across { block.x + 2 ^ block.log2 ≤ coded size.w }
    requires down { block.y + 2 ^ block.log2 ≤ coded size.h }
    ensures value { (before : List Moving) → StandsFor grid.now (leaves before) → HasMotion motion.now before
        → Hands result (rest_read kind size before block decoder.old) decoder.new (Takes (S.stands_for sink.old) (S.stands_for sink.new) size block) }
    ensures open { IfSome result (λ _. IsOpen decoder.new) }
    ensures mode { IfSome result (λ kept. IsMode kept.kind) }
    ensures last { S.last sink.new ≡ S.last sink.old }
{
    if read_skip_flag(decoder, kind, grid, block.x, block.y)? {
        return take_copied(size, block, motion.merge(block), sink);
    }
    read_coded(decoder, kind, size, grid, motion, block, sink)
}

/// Reads a coding unit of side 2^log2 at (x, y) (7.3.8.5), hands it to the sink, and sets it in both grids.
///
/// It lies in the coded picture of this size, which is that of the grids and of the sink, at multiples of its side, which is 8, 16 or 32. Where the grids
/// stand for the units before, it answers nothing exactly where no unit is read after these: the bins end, a flag or a mode isn't one that occurs, a level
/// isn't from -255 to 255, or a copy's source isn't in the picture.
pub fn read_unit<S: LeafSink>(
    decoder: &mut Decoder,
    kind: SliceKind,
    size: Size,
    grid: &mut Grid,
    motion: &mut MotionGrid,
    block: CodingBlock,
    sink: &mut S,
) -> Option<()>
    requires open { IsOpen decoder.old }
    requires grid { grid.old.size ≡ size }
    requires motion { motion.old.size ≡ size }
    requires size { (S.last sink.old).size ≡ size }
    requires low { 3 ≤ block.log2 }
    requires high { block.log2 ≤ 5 }
    requires column { block.x % 2 ^ block.log2 ≡ 0 }
    requires row { block.y % 2 ^ block.log2 ≡ 0 }
    requires across { block.x + 2 ^ block.log2 ≤ coded size.w }
    requires down { block.y + 2 ^ block.log2 ≤ coded size.h }
    ensures read { (before : List Moving) → AreKept grid.old motion.old before → Reads result (coding_unit_read kind size before block decoder.old) decoder.new
        (AreTaken (S.stands_for sink.old) (S.stands_for sink.new) size block.x block.y grid.new motion.new before) }
    ensures open { IfSome result (λ _. IsOpen decoder.new) }
    ensures grid { grid.new.size ≡ size }
    ensures motion { motion.new.size ≡ size }
    ensures last { S.last sink.new ≡ S.last sink.old }
{
    expect(decoder, CU_TRANSQUANT_BYPASS_FLAG, true)?;
    let kept = read_rest(decoder, kind, size, grid, motion, block, sink)?;
    grid.set(Leaf {
        block,
        kind: kept.kind,
    });
    motion.set(block, kept.vector);
    Some(())
}
