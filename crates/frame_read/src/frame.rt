//! Whole frames.
ghost use Rattle.std.specs.Prelude.{◌≡◌, Some, Ok, true, IfOk, IfSome};
ghost use Rattle.frame_read.specs.Answers.{HasFrameCause};
ghost use Rattle.frame_read.specs.Listed.{ReadsFirst, ReadsFrame};
ghost use Rattle.frame_read.specs.Pixels.{IsClean};

use crate::{FrameError, Source, read_head, read_pixels};
use px_plane::Picture;
use std::alloc::Global;

/// Takes the next frame, which must have the size of a picture, and puts it into the picture. `false` comes exactly where there
/// are no bytes to come.
///
/// # Errors
///
/// As those of `read_head` and `read_pixels`.
pub fn read_frame<S: Source>(
    alloc: Global,
    source: &mut S,
    picture: &mut Picture,
) -> Result<bool, FrameError>
    ensures size { picture.new.size ≡ picture.old.size }
    ensures bytes { ReadsFrame (Some picture.old.size) (S.left source.old) (S.left source.new) picture.new result }
    ensures clean { result ≡ Ok true → IsClean picture.old → IsClean picture.new }
    ensures cause { HasFrameCause (S.faults source.old) (S.faults source.new) result }
{
    match read_head(source, Some(picture.size()))? {
        None => Ok(false),
        Some(_) => {
            read_pixels(alloc, source, picture)?;
            Ok(true)
        }
    }
}

/// Takes the first frame. `None` comes exactly where there are no bytes to come.
///
/// # Errors
///
/// As those of `read_head` and `read_pixels`.
pub fn read_first<S: Source>(alloc: Global, source: &mut S) -> Result<Option<Picture>, FrameError>
    ensures bytes { ReadsFirst (S.left source.old) (S.left source.new) result }
    ensures clean { IfOk result (λ first. IfSome first IsClean) }
    ensures cause { HasFrameCause (S.faults source.old) (S.faults source.new) result }
{
    let Some(size) = read_head(source, None)? else {
        return Ok(None);
    };
    let mut picture = Picture::black(alloc, size)?;
    read_pixels(alloc, source, &mut picture)?;
    Ok(Some(picture))
}
