//! A picture of one slice.
ghost use Rattle.std.specs.Prelude.{◌≡◌, ◌<◌, IfOk, IfSome};
ghost use Rattle.h265_model.specs.Decode.{slice_step, is_next};
ghost use Rattle.h265_model.specs.Stream.{slice_kind};
ghost use Rattle.px_plane.specs.Planes.{Planes};
ghost use Rattle.stream_decode.specs.Steps.{ReadsSlicePicture, last_of, between};

use canvas::Canvas;
use h265_model::{NoMemory, SliceKind};
use motion_grid::MotionGrid;
use pu_code::Grid;
use slice_head::{HeadError, read_head};
use slice_read::read_slice;
use std::alloc::Global;

/// The kind of a picture's slice: an IDR picture's has no motion (7.4.7.1).
pub(crate) fn slice_kind(idr: bool) -> SliceKind
    ensures { result ≡ slice_kind idr }
{
    if idr { SliceKind::I } else { SliceKind::P }
}

/// Whether this is the order count of the next picture, after the last one's (8.3.1).
pub(crate) fn is_next(idr: bool, order: Option<u32>, poc: u32) -> bool
    requires { IfSome order (λ before. before < 256) }
    ensures { (planes : Planes) → result ≡ is_next idr (last_of order planes) poc }
{
    if idr {
        return poc == 0;
    }
    match order {
        None => false,
        Some(before) => poc == (before + 1) % 256,
    }
}

/// Reads a picture of one slice from the bytes of its NAL unit, and keeps it as the last picture: answers its order count, or nothing where
/// it isn't the next picture (7.3.2.9, 8.1.3). In that case, and after `NoMemory`, the last picture is as before.
pub(crate) fn read_slice_picture(
    alloc: Global,
    idr: bool,
    order: Option<u32>,
    motion: &mut MotionGrid,
    canvas: &mut Canvas,
    rbsp: &[u8],
) -> Result<Option<u32>, NoMemory>
    requires order { IfSome order (λ before. before < 256) }
    requires motion { motion.old.size ≡ canvas.old.last.size }
    ensures read { ReadsSlicePicture result (slice_step canvas.old.last.size idr (between (last_of order canvas.old.last)) rbsp.now) canvas.old canvas.new }
    ensures low { IfOk result (λ found. IfSome found (λ poc. poc < 256)) }
    ensures motion { motion.new.size ≡ motion.old.size }
    ensures size { canvas.new.last.size ≡ canvas.old.last.size }
{
    let size = canvas.last().size();
    let rows = (size.h() + 31) / 32;
    let (head, start) = match read_head(alloc, rbsp, idr, rows) {
        Ok(found) => found,
        Err(HeadError::BadHead { .. }) => return Ok(None),
        Err(HeadError::NoMemory) => return Err(NoMemory),
    };
    let poc = head.poc;
    if !is_next(idr, order, poc) {
        return Ok(None);
    }
    let mut grid = Grid::new(alloc, size)?;
    motion.clear();
    canvas.begin();
    let data = &rbsp[start as usize..];
    match read_slice(
        slice_kind(idr),
        size,
        &mut grid,
        motion,
        head.offsets.as_slice(),
        data,
        canvas,
    ) {
        None => Ok(None),
        Some(()) => {
            canvas.keep();
            Ok(Some(poc))
        }
    }
}
