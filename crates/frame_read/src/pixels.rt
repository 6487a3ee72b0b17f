//! The pixels of a frame.
ghost use Rattle.std.specs.Prelude.{◌≡◌, ◌*◌, ◌≤◌, length, OnOk};
ghost use Rattle.px_plane.specs.Planes.{blitted, Stores};
ghost use Rattle.frame_read.specs.Answers.{HasFrameCause};
ghost use Rattle.frame_read.specs.Pixels.{colours, strip, Fills, PaintsStrip, ReadsPixels, IsClean};

use crate::{Flaw, FrameError, Source};
use px_plane::{Picture, Rect, Rgb};
use std::alloc::Global;

const BLACK: Rgb = Rgb { r: 0, g: 0, b: 0 };

/// How many pixels are laid at once.
const GROUP: usize = 16;

/// The bytes of a group.
const GROUP_BYTES: usize = 48;

/// About how many pixels are read at once.
const STRIP: u32 = 8192;

// Fills the whole slice with the bytes to come.
fn fill<S: Source>(source: &mut S, out: &mut [u8]) -> Result<(), FrameError>
    ensures bytes { Fills out.new (S.left source.old) (S.left source.new) result }
    ensures cause { HasFrameCause (S.faults source.old) (S.faults source.new) result }
{
    let mut filled = 0;
    while filled < out.len() {
        let count = source.read(&mut out[filled..])?;
        if count == 0 {
            return Err(FrameError::from(Flaw::Truncated));
        }
        filled += count;
    }
    Ok(())
}

// Lays sixteen pixels of three bytes each. The bytes are copied first, so that they can be moved in whole words.
fn lay_group(bytes: &[u8], pixels: &mut [Rgb])
    requires pixels { length pixels.old ≡ GROUP }
    requires bytes { length bytes.now ≡ GROUP_BYTES }
    ensures { pixels.new ≡ colours bytes.now }
{
    let mut group = [0; GROUP_BYTES];
    group.copy_from_slice(bytes);
    lay_some(&group, pixels, GROUP);
}

// Lays `n` pixels of three bytes each.
#[inline(always)]
fn lay_some(bytes: &[u8], pixels: &mut [Rgb], n: usize)
    requires pixels { length pixels.old ≡ n }
    requires bytes { length bytes.now ≡ 3 * n }
    ensures { pixels.new ≡ colours bytes.now }
{
    for i in 0..n {
        let at = 3 * i;
        pixels[i] = Rgb {
            r: bytes[at],
            g: bytes[at + 1],
            b: bytes[at + 2],
        };
    }
}

// Lays pixels of three bytes each.
fn lay_colours(bytes: &[u8], pixels: &mut [Rgb])
    requires { length bytes.now ≡ 3 * length pixels.old }
    ensures { pixels.new ≡ colours bytes.now }
{
    let groups = pixels.len() / GROUP;
    for k in 0..groups {
        let at = GROUP * k;
        let end = at + GROUP;
        lay_group(&bytes[3 * at..3 * end], &mut pixels[at..end]);
    }
    let at = GROUP * groups;
    let left = pixels.len() - at;
    lay_some(&bytes[3 * at..], &mut pixels[at..], left);
}

// Reads `n` rows from the row y on.
fn read_strip<S: Source>(
    source: &mut S,
    picture: &mut Picture,
    y: u32,
    n: u32,
    bytes: &mut [u8],
    pixels: &mut [Rgb],
) -> Result<(), FrameError>
    requires pixels { length pixels.old ≡ picture.old.size.w * n }
    requires bytes { length bytes.old ≡ 3 * length pixels.old }
    ensures size { picture.new.size ≡ picture.old.size }
    ensures bytes { Fills bytes.new (S.left source.old) (S.left source.new) result }
    ensures painted { OnOk result (Stores picture.new (blitted picture.old (strip picture.old.size.w y n) (colours bytes.new))) }
    ensures shows { OnOk result (PaintsStrip picture.old picture.new (strip picture.old.size.w y n) (colours bytes.new)) }
    ensures cause { HasFrameCause (S.faults source.old) (S.faults source.new) result }
{
    fill(source, bytes)?;
    lay_colours(bytes, pixels);
    let w = picture.size().w();
    picture.blit(Rect { x: 0, y, w, h: n }, pixels);
    Ok(())
}

// Reads all rows, `rows` of them at once.
fn read_rows<S: Source>(
    source: &mut S,
    picture: &mut Picture,
    rows: u32,
    bytes: &mut [u8],
    pixels: &mut [Rgb],
) -> Result<(), FrameError>
    requires some { 1 ≤ rows }
    requires few { rows ≤ STRIP }
    requires pixels { length pixels.old ≡ picture.old.size.w * rows }
    requires bytes { length bytes.old ≡ 3 * length pixels.old }
    ensures size { picture.new.size ≡ picture.old.size }
    ensures bytes { ReadsPixels picture.old.size (S.left source.old) (S.left source.new) picture.new result }
    ensures clean { OnOk result (IsClean picture.old → IsClean picture.new) }
    ensures cause { HasFrameCause (S.faults source.old) (S.faults source.new) result }
{
    let size = picture.size();
    let (w, h) = (size.w(), size.h());
    let mut y = 0;
    while y < h {
        let n = rows.min(h - y);
        let count = (w * n) as usize;
        read_strip(
            source,
            picture,
            y,
            n,
            &mut bytes[..3 * count],
            &mut pixels[..count],
        )?;
        y += n;
    }
    Ok(())
}

/// Takes the pixels of a frame whose head was taken, and puts them into a picture of its size.
///
/// # Errors
///
/// `Bad` with `Truncated` exactly where there are too few bytes; `Failed` only where a read failed; `NoMemory`, before any byte is
/// taken. What the picture shows is left open then.
pub fn read_pixels<S: Source>(
    alloc: Global,
    source: &mut S,
    picture: &mut Picture,
) -> Result<(), FrameError>
    // The size stays,
    ensures size { picture.new.size ≡ picture.old.size }
    // the frame's pixels are what the picture shows of the desktop, and what follows them is still to come;
    ensures bytes { ReadsPixels picture.old.size (S.left source.old) (S.left source.new) picture.new result }
    // outside the desktop nothing is put into the picture.
    ensures clean { OnOk result (IsClean picture.old → IsClean picture.new) }
    ensures cause { HasFrameCause (S.faults source.old) (S.faults source.new) result }
{
    let w = picture.size().w();
    let rows = (STRIP / w).max(1);
    let room = (w * rows) as usize;
    let mut bytes = vec![in alloc; 0u8; 3 * room]?;
    let mut pixels = vec![in alloc; BLACK; room]?;
    read_rows(source, picture, rows, &mut bytes, &mut pixels)
}
