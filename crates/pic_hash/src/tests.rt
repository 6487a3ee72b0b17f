//! Hashes of pictures, as an independent model of the recorder in Python has them.
use super::{hash_fits, hash_unit};
use px_plane::{Picture, Rect, Rgb, Size};
use std::alloc::Global;
use std::test::Fail;

// The hash of a black picture of 32 by 32.
const BLACK: [u8; 58] = [
    0x00, 0x00, 0x00, 0x01, 0x50, 0x01, 0x84, 0x31, 0x00, 0x0F, 0x34, 0x3B, 0x09, 0x31, 0x12, 0x6A,
    0x20, 0xF1, 0x33, 0xD6, 0x7C, 0x2B, 0x01, 0x8A, 0x3B, 0x0F, 0x34, 0x3B, 0x09, 0x31, 0x12, 0x6A,
    0x20, 0xF1, 0x33, 0xD6, 0x7C, 0x2B, 0x01, 0x8A, 0x3B, 0x0F, 0x34, 0x3B, 0x09, 0x31, 0x12, 0x6A,
    0x20, 0xF1, 0x33, 0xD6, 0x7C, 0x2B, 0x01, 0x8A, 0x3B, 0x80,
];

// The hash of a picture of 13 by 9 with two rectangles, of which one lies partly beside the desktop.
const PAINTED: [u8; 58] = [
    0x00, 0x00, 0x00, 0x01, 0x50, 0x01, 0x84, 0x31, 0x00, 0xA3, 0x46, 0x4D, 0xF1, 0xE4, 0x43, 0x59,
    0x68, 0xFC, 0x31, 0xE9, 0xD7, 0xAD, 0x9D, 0xB1, 0xE6, 0xBE, 0x70, 0x52, 0x8C, 0x94, 0x7B, 0x63,
    0x84, 0x9E, 0xC6, 0xCC, 0xF5, 0x67, 0x50, 0x75, 0xFB, 0xB0, 0x69, 0xE7, 0x4B, 0xAA, 0x2D, 0x53,
    0xFB, 0x44, 0x5E, 0x45, 0x53, 0x87, 0xBB, 0x5C, 0x1A, 0x80,
];

fn painted(alloc: Global) -> Result<Picture, Fail> {
    let size = Size::new(13, 9).ok_or("size")?;
    let mut picture = Picture::black(alloc, size)?;
    picture.fill(
        Rect {
            x: 2,
            y: 1,
            w: 5,
            h: 4,
        },
        Rgb {
            r: 200,
            g: 17,
            b: 3,
        },
    );
    picture.fill(
        Rect {
            x: 11,
            y: 0,
            w: 9,
            h: 9,
        },
        Rgb { r: 1, g: 2, b: 255 },
    );
    Ok(picture)
}

#[test]
fn hashes_of_pictures(rt: HostRuntime) -> Result<(), Fail> {
    let size = Size::new(32, 32).ok_or("size")?;
    let black = Picture::black(rt.alloc(), size)?;
    let unit = hash_unit(rt.alloc(), &black)?;
    assert!(rt; unit.as_slice() == BLACK.as_slice(), "{unit:?}");
    let picture = painted(rt.alloc())?;
    let unit = hash_unit(rt.alloc(), &picture)?;
    assert!(rt; unit.as_slice() == PAINTED.as_slice(), "{unit:?}");
    Ok(())
}

#[test]
fn hashes_that_fit(rt: HostRuntime) -> Result<(), Fail> {
    let picture = painted(rt.alloc())?;
    assert!(rt; hash_fits(rt.alloc(), &picture, &PAINTED[6..])?);
    assert!(rt; !hash_fits(rt.alloc(), &picture, &PAINTED[6..58 - 1])?);
    assert!(rt; !hash_fits(rt.alloc(), &picture, &BLACK[6..])?);
    Ok(())
}
