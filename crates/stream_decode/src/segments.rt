//! A picture of a slice segment for each row of coding tree units.
ghost use Rattle.std.specs.Prelude.{◌≡◌, ◌<◌, ◌≤◌, ◌+◌, true, Some, IfOk, IfSome, length};
ghost use Rattle.h265_model.specs.Plain.{ctus};
ghost use Rattle.h265_model.specs.Stream.{nal_header};
ghost use Rattle.annexb.specs.Walks.{first_header};
ghost use Rattle.px_plane.specs.Planes.{Planes};
ghost use Rattle.stream_decode.specs.Steps.{ReadsPicture, last_of};
ghost use Rattle.stream_decode.specs.Rows.{OpensRow, ReadsRow};

use crate::DecodeError;
use crate::cursor::Cursor;
use crate::picture::{is_next, slice_kind};
use cabac_dec::Contexts;
use canvas::Canvas;
use motion_grid::MotionGrid;
use pu_code::Grid;
use px_plane::Size;
use slice_head::read_segment_head;
use slice_read::read_segment;
use std::alloc::Global;

// What is known of a picture before its first segment: its kind and size, and the order count of the last one, if there
// was one.
#[derive(Drop)]
struct Page {
    idr: bool,
    size: Size,
    order: Option<u32>,
}

// What is known after some rows: the picture's order count, once one is read, and what the last row handed on.
#[derive(Clone, Copy)]
struct Begun {
    poc: u32,
    handed: Option<Contexts>,
}

// Reads the header of the segment of a row: answers the order count of the picture, which the header of the first row
// has, and where the segment's data begin. Answers nothing where it isn't the header of the next segment (7.3.6.1).
fn open_row(page: &Page, row: u32, poc: u32, rbsp: &[u8]) -> Option<(u32, usize)>
    requires order { IfSome page.now.order (λ before. before < 256) }
    requires row { row < ctus page.now.size.h }
    requires low { poc < 256 }
    ensures opened { (planes : Planes) → OpensRow result page.now.size page.now.idr (last_of page.now.order planes) row poc rbsp.now }
    ensures low { IfSome result (λ found. found.0 < 256) }
    ensures within { IfSome result (λ found. found.1 ≤ length rbsp.now) }
{
    let across = (page.size.w() + 31) / 32;
    let rows = (page.size.h() + 31) / 32;
    let Ok((found, start)) = read_segment_head(rbsp, page.idr, row * across, across * rows) else {
        return None;
    };
    if row > 0 {
        return Some((poc, start as usize));
    }
    if !is_next(page.idr, page.order, found) {
        return None;
    }
    Some((found, start as usize))
}

// Reads the segment of a row from the bytes of its NAL unit, after those above, and draws it. Answers nothing where it
// isn't the next one (7.3.2.9).
fn read_row(
    page: &Page,
    row: u32,
    begun: Begun,
    grid: &mut Grid,
    motion: &mut MotionGrid,
    canvas: &mut Canvas,
    rbsp: &[u8],
) -> Option<Begun>
    requires order { IfSome page.now.order (λ before. before < 256) }
    requires row { row < ctus page.now.size.h }
    requires low { begun.poc < 256 }
    requires grid { grid.old.size ≡ page.now.size }
    requires motion { motion.old.size ≡ page.now.size }
    requires size { canvas.old.last.size ≡ page.now.size }
    ensures read { (planes : Planes) → ReadsRow result page.now.size page.now.idr (last_of page.now.order planes) row begun grid.old motion.old canvas.old grid.new motion.new canvas.new rbsp.now }
    ensures low { IfSome result (λ found. found.poc < 256) }
    ensures grid { grid.new.size ≡ page.now.size }
    ensures motion { motion.new.size ≡ page.now.size }
    ensures last { canvas.new.last ≡ canvas.old.last }
{
    let (poc, start) = open_row(page, row, begun.poc, rbsp)?;
    let data = &rbsp[start..];
    let (kind, size, above) = (slice_kind(page.idr), page.size, begun.handed);
    let handed = read_segment(kind, size, grid, motion, row, above, data, canvas)?;
    Some(Begun { poc, handed })
}

/// Reads a picture of a segment for each row of coding tree units from the next NAL units, and keeps it as the last picture: answers its order count
/// (7.3.2.9, 7.4.2.4.5, 8.1.3). All of them have the header of the first, which is that of an IDR picture where `idr` is true. `rbsp` is room for
/// the payload of one, and its old bytes go.
///
/// `BadStream` names the NAL unit that fails or is missing. After that, and after `NoMemory`, the last picture is as before.
pub(crate) fn read_segments_picture(
    alloc: Global,
    idr: bool,
    order: Option<u32>,
    motion: &mut MotionGrid,
    canvas: &mut Canvas,
    cursor: &mut Cursor<'_>,
    rbsp: &mut Vec<u8>,
) -> Result<u32, DecodeError>
    requires order { IfSome order (λ before. before < 256) }
    requires motion { motion.old.size ≡ canvas.old.last.size }
    requires header { first_header cursor.old.list ≡ Some (nal_header idr) }
    ensures read { ReadsPicture result canvas.old.last.size true (last_of order canvas.old.last) cursor.old cursor.new canvas.old canvas.new }
    ensures low { IfOk result (λ poc. poc < 256) }
    ensures motion { motion.new.size ≡ motion.old.size }
    ensures size { canvas.new.last.size ≡ canvas.old.last.size }
{
    let size = canvas.last().size();
    let page = Page { idr, size, order };
    let header = cursor.header();
    let mut grid = Grid::new(alloc, size)?;
    motion.clear();
    canvas.begin();
    let mut begun = Begun {
        poc: 0,
        handed: None,
    };
    for row in 0..(size.h() + 31) / 32 {
        let at = cursor.number();
        if cursor.header() != header {
            return Err(DecodeError::BadStream { at });
        }
        cursor.next(rbsp)?;
        match read_row(&page, row, begun, &mut grid, motion, canvas, rbsp) {
            None => return Err(DecodeError::BadStream { at }),
            Some(next) => begun = next,
        }
    }
    canvas.keep();
    Ok(begun.poc)
}
