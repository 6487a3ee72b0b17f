//! The next picture, whatever NAL units it has.
ghost use Rattle.std.specs.Prelude.{◌≡◌, ◌≢◌, ◌<◌, true, false, Some, IfOk, IfSome, MatchOption};
ghost use Rattle.h265_model.specs.Stream.{nal_header};
ghost use Rattle.annexb.specs.Walks.{first_header};
ghost use Rattle.stream_decode.specs.Steps.{ReadsPicture, last_of};

use crate::DecodeError;
use crate::cursor::Cursor;
use crate::picture::read_slice_picture;
use crate::segments::read_segments_picture;
use canvas::Canvas;
use motion_grid::MotionGrid;
use std::alloc::Global;

/// Whether a NAL unit with this header is one of an IDR picture (`true`) or of another one (`false`), if it is one of a
/// picture at all (7.4.2.2).
pub(crate) fn idr_of(header: [u8; 2]) -> Option<bool>
    ensures { MatchOption result ((header ≢ nal_header true) × (header ≢ nal_header false)) (λ idr. header ≡ nal_header idr) }
{
    if header == [0x28, 1] {
        return Some(true);
    }
    if header == [0x02, 1] {
        return Some(false);
    }
    None
}

/// Reads the next picture from its NAL units, in one slice or with a segment for each row, and keeps it as the last
/// picture: answers its order count. The first NAL unit has the header of an IDR picture where `idr` is true, else that of
/// another one. `rbsp` is room for the payload of one, and its old bytes go.
///
/// `BadStream` names the NAL unit that fails or is missing. After that, and after `NoMemory`, the last picture is as
/// before.
pub(crate) fn read_picture(
    alloc: Global,
    segments: bool,
    idr: bool,
    order: Option<u32>,
    motion: &mut MotionGrid,
    canvas: &mut Canvas,
    cursor: &mut Cursor<'_>,
    rbsp: &mut Vec<u8>,
) -> Result<u32, DecodeError>
    requires order { IfSome order (λ before. before < 256) }
    requires motion { motion.old.size ≡ canvas.old.last.size }
    requires header { first_header cursor.old.list ≡ Some (nal_header idr) }
    ensures read { ReadsPicture result canvas.old.last.size segments (last_of order canvas.old.last) cursor.old cursor.new canvas.old canvas.new }
    ensures low { IfOk result (λ poc. poc < 256) }
    ensures motion { motion.new.size ≡ motion.old.size }
    ensures size { canvas.new.last.size ≡ canvas.old.last.size }
{
    if segments {
        return read_segments_picture(alloc, idr, order, motion, canvas, cursor, rbsp);
    }
    let at = cursor.number();
    cursor.next(rbsp)?;
    match read_slice_picture(alloc, idr, order, motion, canvas, rbsp)? {
        Some(poc) => Ok(poc),
        None => Err(DecodeError::BadStream { at }),
    }
}
