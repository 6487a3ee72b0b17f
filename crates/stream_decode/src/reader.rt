//! A stream that is read.
ghost use Rattle.std.specs.Prelude.{◌≡◌, ◌<◌, ◌^◌, length};
ghost use Rattle.stream_decode.specs.Readings.{reading_of};
ghost use Rattle.stream_decode.specs.Answers.{Opens, ReadsOn};

use crate::DecodeError;
use crate::cursor::Cursor;
use crate::hash::pass_hash;
use crate::sets::read_sets;
use crate::whole::{idr_of, read_picture};
use canvas::Canvas;
use motion_grid::MotionGrid;
use px_plane::{Picture, Size};
use std::alloc::Global;
use std::marker::Model;

/// A stream whose pictures are read one after another (8.1.1). It borrows the stream's bytes.
#[derive(Debug, Drop)]
pub struct Reader<'a> {
    alloc: Global,
    size: Size,
    segments: bool,
    cursor: Cursor<'a>,
    // slice_pic_order_cnt_lsb of the last picture, if there was one.
    order: Option<u32>,
    canvas: Canvas,
    motion: MotionGrid,
    // The payload of the NAL unit that is read.
    rbsp: Vec<u8>,
}

impl<'a> Model for Reader<'a> {
    ghost use Rattle.std.specs.Prelude.{◌≡◌, ◌<◌, IfSome};
    ghost use Rattle.stream_decode.specs.Readings.{Reading, reading};
    ghost use Rattle.stream_decode.specs.Steps.{rest, between, last_of};

    ghost Value = { Reading };

    ghost view = { λ r. reading r.size (rest r.size r.segments (between (last_of r.order r.canvas.last)) r.cursor) r.canvas.last };

    ghost invariant = { λ r. (r.canvas.last.size ≡ r.size) × (r.motion.size ≡ r.size) × IfSome r.order (λ poc. poc < 256) };
}

impl<'a> Reader<'a> {
    /// Opens a stream: its NAL units and parameter sets are checked, and no picture is read yet.
    ///
    /// It needs fewer than 2^32 bytes.
    ///
    /// # Errors
    ///
    /// `BadStream` with the number of the place in the byte stream that is no NAL unit, of NAL units where there are fewer
    /// than three, or of the parameter set that fails; `NoMemory`.
    pub fn new(alloc: Global, bytes: &'a [u8]) -> Result<Reader<'a>, DecodeError>
        requires { length bytes.now < 2 ^ 32 }
        ensures { Opens (reading_of bytes.now) result }
    {
        let mut cursor = Cursor::new(bytes)?;
        let params = read_sets(alloc, &mut cursor)?;
        let size = params.size;
        Ok(Reader {
            alloc,
            size,
            segments: params.segments,
            cursor,
            order: None,
            canvas: Canvas::new(alloc, size)?,
            motion: MotionGrid::new(alloc, size)?,
            rbsp: Vec::new(alloc),
        })
    }

    /// The size of all pictures, without what only fills up their coding units.
    pub fn size(&self) -> Size
        ensures { result ≡ self.now.size }
    {
        self.size
    }

    /// The last picture that was read. It is black before the first.
    pub fn picture(&self) -> &Picture
        ensures picture { result.now ≡ self.now.picture }
        ensures size { result.now.size ≡ self.now.size }
    {
        self.canvas.last()
    }

    /// Reads the next picture, with its hash if it has one, and answers whether there was one.
    ///
    /// # Errors
    ///
    /// `BadStream` with the number of the NAL unit that fails, or of all of them where the stream ends within a picture;
    /// `NoMemory`. In both cases nothing has changed, and so a stream that failed fails again.
    pub fn next(&mut self) -> Result<bool, DecodeError>
        ensures { ReadsOn result self.old self.new }
    {
        let mut cursor = self.cursor.twin();
        let Some(header) = cursor.header() else {
            return Ok(false);
        };
        let Some(idr) = idr_of(header) else {
            return Err(DecodeError::BadStream {
                at: cursor.number(),
            });
        };
        let Reader {
            alloc,
            segments,
            order,
            canvas,
            motion,
            rbsp,
            ..
        } = self;
        let poc = read_picture(
            *alloc,
            *segments,
            idr,
            *order,
            motion,
            canvas,
            &mut cursor,
            rbsp,
        )?;
        if let Err(error) = pass_hash(*alloc, canvas.last(), &mut cursor, rbsp) {
            canvas.keep();
            return Err(error);
        }
        self.cursor = cursor;
        self.order = Some(poc);
        Ok(true)
    }
}
