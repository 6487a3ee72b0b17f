//! Rows of coding tree units, from their bytes.
ghost use Rattle.std.specs.Prelude.{◌≡◌, ◌<◌, ℕ, List};
ghost use Rattle.h265_model.specs.Plain.{ctus};
ghost use Rattle.h265_model.specs.Contexts.{row_start};
ghost use Rattle.h265_model.specs.Engine.{is_done};
ghost use Rattle.h265_model.specs.Motion.{Moving};
ghost use Rattle.h265_model.specs.Slice.{row_of_bytes, slice_row_read, segment_read};
ghost use Rattle.cabac_dec.specs.State.{IsEnded};
ghost use Rattle.unit_read.specs.Units.{AreKept};
ghost use Rattle.slice_read.specs.Slices.{IsHanded, ReadsRowOf, IsRowTaken};

use cabac_dec::{Contexts, Decoder};
use h265_model::SliceKind;
use leaf_sink::LeafSink;
use motion_grid::MotionGrid;
use pu_code::Grid;
use px_plane::Size;
use tree_read::{read_row, read_segment_row};

// The contexts that a row starts from: those of the row above, in a picture of two coding tree units across or more (9.3.1).
fn contexts_at(kind: SliceKind, size: Size, row: u32, handed: Option<Contexts>) -> Contexts
    ensures { (above : List ℕ) → IsHanded size row handed above → result ≡ row_start kind (ctus size.w) row above }
{
    let across = (size.w() + 31) / 32;
    if row == 0 {
        return Contexts::start(kind);
    }
    if across < 2 {
        return Contexts::start(kind);
    }
    match handed {
        Some(contexts) => contexts,
        None => Contexts::start(kind),
    }
}

// Whether nothing but the stop bit and its zeros is left behind a row (7.3.2.10).
fn is_at_end(decoder: &mut Decoder) -> bool
    requires { IsEnded decoder.old }
    ensures { result ≡ is_done decoder.old }
{
    decoder.end().is_some()
}

/// Reads a row of a slice that is one segment from its bytes, after what the row above handed on, and gives what it hands on itself (7.3.8.1, 9.3.1).
pub(crate) fn read_slice_row<S: LeafSink>(
    kind: SliceKind,
    size: Size,
    grid: &mut Grid,
    motion: &mut MotionGrid,
    row: u32,
    handed: Option<Contexts>,
    bytes: &[u8],
    sink: &mut S,
) -> Option<Option<Contexts>>
    requires grid { grid.old.size ≡ size }
    requires motion { motion.old.size ≡ size }
    requires size { (S.last sink.old).size ≡ size }
    requires row { row < ctus size.h }
    ensures read { (before : List Moving) (above : List ℕ) → IsHanded size row handed above → AreKept grid.old motion.old before
        → ReadsRowOf result (row_of_bytes (slice_row_read kind size row before) (row_start kind (ctus size.w) row above) bytes.now) size row
        (IsRowTaken (S.stands_for sink.old) (S.stands_for sink.new) size row grid.new motion.new before) }
    ensures grid { grid.new.size ≡ size }
    ensures motion { motion.new.size ≡ size }
    ensures last { S.last sink.new ≡ S.last sink.old }
{
    let contexts = contexts_at(kind, size, row, handed);
    let mut decoder = Decoder::new(bytes, contexts)?;
    let handed_on = read_row(&mut decoder, kind, size, grid, motion, row, sink)?;
    if !is_at_end(&mut decoder) {
        return None;
    }
    Some(handed_on)
}

/// Reads the data of a row that is a slice segment (7.3.8.1) from its bytes, after what the row above handed on, and gives what it hands on itself: the contexts
/// after its second coding tree unit, where it has so many. Its units are handed to the sink and set in both grids. What is handed on counts in the rows below
/// the first one alone, in a picture of two coding tree units across or more (9.3.1).
///
/// Where the grids stand for the units before, it answers nothing exactly where no segment is read after these.
pub fn read_segment<S: LeafSink>(
    kind: SliceKind,
    size: Size,
    grid: &mut Grid,
    motion: &mut MotionGrid,
    row: u32,
    handed: Option<Contexts>,
    bytes: &[u8],
    sink: &mut S,
) -> Option<Option<Contexts>>
    requires grid { grid.old.size ≡ size }
    requires motion { motion.old.size ≡ size }
    requires size { (S.last sink.old).size ≡ size }
    requires row { row < ctus size.h }
    ensures read { (before : List Moving) (above : List ℕ) → IsHanded size row handed above → AreKept grid.old motion.old before
        → ReadsRowOf result (segment_read kind size row before above bytes.now) size row
        (IsRowTaken (S.stands_for sink.old) (S.stands_for sink.new) size row grid.new motion.new before) }
    ensures grid { grid.new.size ≡ size }
    ensures motion { motion.new.size ≡ size }
    ensures last { S.last sink.new ≡ S.last sink.old }
{
    let contexts = contexts_at(kind, size, row, handed);
    let mut decoder = Decoder::new(bytes, contexts)?;
    let stored = read_segment_row(&mut decoder, kind, size, grid, motion, row, sink)?;
    if !is_at_end(&mut decoder) {
        return None;
    }
    Some(stored)
}
