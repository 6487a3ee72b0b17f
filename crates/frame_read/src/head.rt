//! The head of a frame.
ghost use Rattle.std.specs.Prelude.{◌≡◌, ◌∷◌};
ghost use Rattle.frame_read.specs.Answers.{ReadsBy, HasFrameCause};
ghost use Rattle.frame_read.specs.Heads.{next_head, head_of, magic_of, gap_of, size_of};

use crate::number::{is_white, read_number, take_byte};
use crate::{Flaw, FrameError, HeadNumber, Source};
use px_plane::Size;

// The three bytes, of which the first was taken, that begin a head. Tells whether they end in a comment.
fn read_magic<S: Source>(source: &mut S, first: u8) -> Result<bool, FrameError>
    ensures bytes { ReadsBy (λ rest. magic_of (first ∷ rest)) (S.left source.old) (S.left source.new) result }
    ensures cause { HasFrameCause (S.faults source.old) (S.faults source.new) result }
{
    if first != b'P' {
        return Err(FrameError::from(Flaw::NotP6));
    }
    match take_byte(source)? {
        None => Err(FrameError::from(Flaw::Truncated)),
        Some(b'6') => read_gap(source),
        Some(_) => Err(FrameError::from(Flaw::NotP6)),
    }
}

// The byte behind `P6`. Tells whether it begins a comment.
fn read_gap<S: Source>(source: &mut S) -> Result<bool, FrameError>
    ensures bytes { ReadsBy gap_of (S.left source.old) (S.left source.new) result }
    ensures cause { HasFrameCause (S.faults source.old) (S.faults source.new) result }
{
    match take_byte(source)? {
        None => Err(FrameError::from(Flaw::Truncated)),
        Some(b'#') => Ok(true),
        Some(byte) if is_white(byte) => Ok(false),
        Some(_) => Err(FrameError::from(Flaw::NotP6)),
    }
}

// The size that the numbers of a head give, where frames of some size may have come before.
fn judge(like: Option<Size>, w: u32, h: u32, maximum: u32) -> Result<Size, Flaw>
    ensures { result ≡ size_of like w h maximum }
{
    if maximum != 255 {
        return Err(Flaw::OtherMaximum { maximum });
    }
    let Some(size) = Size::new(w, h) else {
        return Err(Flaw::NoSize { w, h });
    };
    match like {
        Some(other) if other != size => Err(Flaw::AnotherSize { w, h }),
        _ => Ok(size),
    }
}

// A head whose first byte was taken.
fn read_rest<S: Source>(source: &mut S, first: u8, like: Option<Size>) -> Result<Size, FrameError>
    ensures bytes { ReadsBy (λ rest. head_of like (first ∷ rest)) (S.left source.old) (S.left source.new) result }
    ensures cause { HasFrameCause (S.faults source.old) (S.faults source.new) result }
{
    let in_comment = read_magic(source, first)?;
    let w = read_number(source, HeadNumber::Width, in_comment)?;
    let h = read_number(source, HeadNumber::Height, false)?;
    let maximum = read_number(source, HeadNumber::Maximum, false)?;
    let size = judge(like, w, h, maximum)?;
    Ok(size)
}

/// Takes the head of the next frame and tells its size, or `None` exactly where there are no bytes to come. Where frames came
/// before, `like` is their size.
///
/// # Errors
///
/// `Bad` exactly where the bytes to come begin with no head that is as it should be, with what is wrong; `Failed` only where a
/// read failed; `NoMemory` after 2^64 bytes.
pub fn read_head<S: Source>(source: &mut S, like: Option<Size>) -> Result<Option<Size>, FrameError>
    ensures bytes { ReadsBy (next_head like) (S.left source.old) (S.left source.new) result }
    ensures cause { HasFrameCause (S.faults source.old) (S.faults source.new) result }
{
    let Some(first) = take_byte(source)? else {
        return Ok(None);
    };
    let size = read_rest(source, first, like)?;
    Ok(Some(size))
}
