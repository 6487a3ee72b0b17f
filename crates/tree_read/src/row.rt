//! Rows of coding tree units.
ghost use Rattle.std.specs.Prelude.{◌≡◌, ◌<◌, ◌*◌, ◌==◌, ℕ, Bool, List, Some, IfSome, if◌then◌else◌};
ghost use Rattle.h265_model.specs.declared.Place.TheVariants as places;
ghost use Rattle.h265_model.specs.Plain.{ctus};
ghost use Rattle.h265_model.specs.Motion.{Moving};
ghost use Rattle.h265_model.specs.Tree.{ctus_read};
ghost use Rattle.h265_model.specs.Slice.{segment_row_read, slice_row_read};
ghost use Rattle.cabac_dec.specs.State.{IsOpen, IsOpenAfter, IsEnded};
ghost use Rattle.unit_read.specs.Units.{AreKept, AreTaken};
ghost use Rattle.tree_read.specs.Rows.{ReadsRow, AreEnds, ends_at};

use crate::flagged::read_flagged;
use cabac_dec::{Contexts, Decoder, Place};
use h265_model::SliceKind;
use leaf_sink::LeafSink;
use motion_grid::MotionGrid;
use pu_code::Grid;
use px_plane::Size;

// The flag behind coding tree unit `i` of a row of `across`, where the last one's is `last`.
fn flag_at(last: bool, i: u32, across: u32) -> bool
    requires few { i < across }
    ensures { result ≡ ends_at last across i }
{
    last && i + 1 == across
}

// What a row hands on after coding tree unit `i`: the contexts after the second one.
fn handed_after(handed: Option<Contexts>, i: u32, contexts: Contexts) -> Option<Contexts>
    ensures { result ≡ (if i == 1 then Some contexts else handed) }
{
    if i == 1 { Some(contexts) } else { handed }
}

// Reads the coding tree units of a row, whose last end_of_slice_segment_flag has to be `last`, and gives the contexts after the second one, where it has so
// many.
fn read_units<S: LeafSink>(
    decoder: &mut Decoder,
    kind: SliceKind,
    size: Size,
    grid: &mut Grid,
    motion: &mut MotionGrid,
    row: u32,
    last: bool,
    sink: &mut S,
) -> Option<Option<Contexts>>
    requires open { IsOpen decoder.old }
    requires grid { grid.old.size ≡ size }
    requires motion { motion.old.size ≡ size }
    requires size { (S.last sink.old).size ≡ size }
    requires row { row < ctus size.h }
    ensures read { (ends : ℕ → Bool) (before : List Moving) → AreEnds size row last ends → AreKept grid.old motion.old before → ReadsRow result (ctus_read kind size ends (ctus size.w) (row * ctus size.w) before decoder.old) decoder.new
        (AreTaken (S.stands_for sink.old) (S.stands_for sink.new) size 0 (row * 32) grid.new motion.new before) }
    ensures after { IfSome result (λ _. IsOpenAfter places.Terminate last decoder.new) }
    ensures grid { grid.new.size ≡ size }
    ensures motion { motion.new.size ≡ size }
    ensures last { S.last sink.new ≡ S.last sink.old }
{
    let across = (size.w() + 31) / 32;
    let mut handed = None;
    for i in 0..across {
        let ends = flag_at(last, i, across);
        let contexts = read_flagged(
            decoder,
            kind,
            size,
            grid,
            motion,
            row * across + i,
            ends,
            sink,
        )?;
        handed = handed_after(handed, i, contexts);
    }
    Some(handed)
}

/// Reads a row of coding tree units that is a segment of its own (7.3.8.1), and gives the contexts after its second one, where it has so many.
pub fn read_segment_row<S: LeafSink>(
    decoder: &mut Decoder,
    kind: SliceKind,
    size: Size,
    grid: &mut Grid,
    motion: &mut MotionGrid,
    row: u32,
    sink: &mut S,
) -> Option<Option<Contexts>>
    requires open { IsOpen decoder.old }
    requires grid { grid.old.size ≡ size }
    requires motion { motion.old.size ≡ size }
    requires size { (S.last sink.old).size ≡ size }
    requires row { row < ctus size.h }
    ensures read { (before : List Moving) → AreKept grid.old motion.old before → ReadsRow result (segment_row_read kind size row before decoder.old) decoder.new
        (AreTaken (S.stands_for sink.old) (S.stands_for sink.new) size 0 (row * 32) grid.new motion.new before) }
    ensures ended { IfSome result (λ _. IsEnded decoder.new) }
    ensures grid { grid.new.size ≡ size }
    ensures motion { motion.new.size ≡ size }
    ensures last { S.last sink.new ≡ S.last sink.old }
{
    read_units(decoder, kind, size, grid, motion, row, true, sink)
}

/// Reads a row of a slice that is one segment (7.3.8.1), and gives the contexts after its second coding tree unit, where it has so many.
pub fn read_row<S: LeafSink>(
    decoder: &mut Decoder,
    kind: SliceKind,
    size: Size,
    grid: &mut Grid,
    motion: &mut MotionGrid,
    row: u32,
    sink: &mut S,
) -> Option<Option<Contexts>>
    requires open { IsOpen decoder.old }
    requires grid { grid.old.size ≡ size }
    requires motion { motion.old.size ≡ size }
    requires size { (S.last sink.old).size ≡ size }
    requires row { row < ctus size.h }
    ensures read { (before : List Moving) → AreKept grid.old motion.old before → ReadsRow result (slice_row_read kind size row before decoder.old) decoder.new
        (AreTaken (S.stands_for sink.old) (S.stands_for sink.new) size 0 (row * 32) grid.new motion.new before) }
    ensures ended { IfSome result (λ _. IsEnded decoder.new) }
    ensures grid { grid.new.size ≡ size }
    ensures motion { motion.new.size ≡ size }
    ensures last { S.last sink.new ≡ S.last sink.old }
{
    let is_last = row + 1 == (size.h() + 31) / 32;
    let handed = read_units(decoder, kind, size, grid, motion, row, is_last, sink)?;
    if is_last {
        return Some(handed);
    }
    if !decoder.bin(Place::Terminate)? {
        return None;
    }
    Some(handed)
}
