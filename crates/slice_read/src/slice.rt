//! A picture's slice that is one segment.
ghost use Rattle.std.specs.Prelude.{◌≡◌, ◌+◌, [], length};
ghost use Rattle.h265_model.specs.Plain.{ctus};
ghost use Rattle.h265_model.specs.Slice.{slice_read};
ghost use Rattle.unit_read.specs.Units.{AreKept};
ghost use Rattle.slice_read.specs.Slices.{ReadsSlice, IsSliceTaken};

use crate::cut::cut;
use crate::row::read_slice_row;
use h265_model::SliceKind;
use leaf_sink::LeafSink;
use motion_grid::MotionGrid;
use pu_code::Grid;
use px_plane::Size;

/// Reads the data of a slice that is one segment (7.3.8.1) from its bytes without emulation prevention, cut by the offsets of its head: that of each row but the
/// last, in bytes with emulation prevention (entry_point_offset_minus1 + 1, 7.4.7.1). Its units are handed to the sink and set in both grids.
///
/// Where the grids stand for no unit, it answers nothing exactly where no slice is read.
pub fn read_slice<S: LeafSink>(
    kind: SliceKind,
    size: Size,
    grid: &mut Grid,
    motion: &mut MotionGrid,
    offsets: &[u32],
    bytes: &[u8],
    sink: &mut S,
) -> Option<()>
    requires grid { grid.old.size ≡ size }
    requires motion { motion.old.size ≡ size }
    requires size { (S.last sink.old).size ≡ size }
    requires many { length offsets.now + 1 ≡ ctus size.h }
    ensures read { AreKept grid.old motion.old [] → ReadsSlice result (slice_read kind size offsets.now bytes.now)
        (IsSliceTaken (S.stands_for sink.old) (S.stands_for sink.new) grid.new motion.new) }
    ensures grid { grid.new.size ≡ size }
    ensures motion { motion.new.size ≡ size }
    ensures last { S.last sink.new ≡ S.last sink.old }
{
    let last = (size.h() + 31) / 32 - 1;
    let mut handed = None;
    let mut rest = bytes;
    for row in 0..last {
        let at = cut(rest, offsets[row as usize])?;
        let front = &rest[..at];
        handed = read_slice_row(kind, size, grid, motion, row, handed, front, sink)?;
        rest = &rest[at..];
    }
    read_slice_row(kind, size, grid, motion, last, handed, rest, sink)?;
    Some(())
}
