//! One picture as a binary PPM image.
ghost use Rattle.std.specs.Prelude.{ℕ, List, ◌≡◌, ◌++◌, ◌≤◌, ◌+◌, ◌*◌, length, take, flat_map, OnOk, OnErr};
ghost use Rattle.h265_model.specs.Raster.{crop};
ghost use Rattle.px_plane.specs.Planes.{picture_of};
ghost use Rattle.recorder_model.specs.Frames.{frame_head, frame, pixel_bytes};
ghost use Rattle.frames.specs.Rows.{Begins, mixed};

use h265_model::NoMemory;
use itoa::Buffer;
use px_plane::Picture;

/// Appends a picture as a binary PPM image: `P6`, its sides and 255 in decimal, and then R, G and B of each place, a
/// byte each, in rows from the top.
///
/// The samples outside the desktop, up to the coded size, are left out (7.4.3.2.1).
///
/// # Errors
///
/// `NoMemory` where the allocator refuses room for it. The bytes are then as they were.
pub fn append_frame(out: &mut Vec<u8>, picture: &Picture) -> Result<(), NoMemory>
    ensures ok { OnOk result (out.new.items ≡ out.old.items ++ frame picture.now.size (crop picture.now.size (picture_of picture.now))) }
    ensures err { OnErr result (out.new.items ≡ out.old.items) }
{
    let start = out.len();
    match append_parts(out, picture) {
        Ok(()) => Ok(()),
        Err(refused) => {
            out.truncate(start);
            Err(refused)
        }
    }
}

// The head and all rows. After an error a part of them may be left.
fn append_parts(out: &mut Vec<u8>, picture: &Picture) -> Result<(), NoMemory>
    ensures ok { OnOk result (out.new.items ≡ out.old.items ++ frame picture.now.size (crop picture.now.size (picture_of picture.now))) }
    ensures kept { Begins out.old.items out.new.items }
{
    let size = picture.size();
    append_head(out, size.w(), size.h())?;
    append_rows(out, picture)
}

// `P6`, the two sides and the greatest value, a line each.
fn append_head(out: &mut Vec<u8>, w: u32, h: u32) -> Result<(), NoMemory>
    ensures ok { OnOk result (out.new.items ≡ out.old.items ++ frame_head (record { w = w; h = h })) }
    ensures kept { Begins out.old.items out.new.items }
{
    let mut digits = Buffer::new();
    out.extend_from_slice(b"P6\n")?;
    out.extend_from_slice(digits.format(w).as_bytes())?;
    out.push(b' ')?;
    out.extend_from_slice(digits.format(h).as_bytes())?;
    out.extend_from_slice(b"\n255\n")?;
    Ok(())
}

// All rows, from the top.
fn append_rows(out: &mut Vec<u8>, picture: &Picture) -> Result<(), NoMemory>
    ensures ok { OnOk result (out.new.items ≡ out.old.items ++ flat_map pixel_bytes (crop picture.now.size (picture_of picture.now))) }
    ensures kept { Begins out.old.items out.new.items }
{
    let size = picture.size();
    let w = size.w();
    out.reserve(3 * w as usize * size.h() as usize)?;
    for y in 0..size.h() {
        append_row(
            out,
            picture.row(2, 0, y, w),
            picture.row(0, 0, y, w),
            picture.row(1, 0, y, w),
        )?;
    }
    Ok(())
}

// The pixels of a row. They are written in place, since room for each alone takes three times as long.
fn append_row(out: &mut Vec<u8>, r: &[u8], g: &[u8], b: &[u8]) -> Result<(), NoMemory>
    requires green { length g.now ≡ length r.now }
    requires blue { length b.now ≡ length r.now }
    requires narrow { length r.now ≤ 4096 }
    ensures ok { OnOk result (out.new.items ≡ out.old.items ++ mixed r.now g.now b.now) }
    ensures kept { Begins out.old.items out.new.items }
{
    let at = out.len();
    out.resize(at + 3 * r.len(), 0)?;
    lay_row(out, at, r, g, b);
    Ok(())
}

// Lays the pixels of a row over the bytes from a place to the end.
fn lay_row(out: &mut [u8], at: usize, r: &[u8], g: &[u8], b: &[u8])
    requires green { length g.now ≡ length r.now }
    requires blue { length b.now ≡ length r.now }
    requires room { length out.old ≡ at + 3 * length r.now }
    ensures { out.new ≡ take at out.old ++ mixed r.now g.now b.now }
{
    for x in 0..r.len() {
        let place = at + 3 * x;
        out[place] = r[x];
        out[place + 1] = g[x];
        out[place + 2] = b[x];
    }
}
