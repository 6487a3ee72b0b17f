//! Frames as an independent model of the recorder in Python has them.
use super::append_frame;
use px_plane::{Picture, Rect, Rgb, Size};
use std::test::Fail;

// A black picture of 1 by 1.
const DOT: &[u8] = b"P6\n1 1\n255\n\0\0\0";

// A picture of 9 by 2 with two rectangles, of which both lie partly beside the desktop: its coded width is 16.
const PAINTED: &[u8] = b"P6\n9 2\n255\n\
    \0\0\0\0\0\0\0\0\0\xC8\x11\x03\xC8\x11\x03\0\0\0\0\0\0\0\0\0\0\0\0\
    \0\0\0\0\0\0\0\0\0\xC8\x11\x03\xC8\x11\x03\0\0\0\0\0\0\0\0\0\x01\x02\xFF";

// The rectangles lie beside the first picture.
#[test]
fn frames_one_after_another(rt: HostRuntime) -> Result<(), Fail> {
    let tall = Rect {
        x: 3,
        y: 0,
        w: 2,
        h: 9,
    };
    let wide = Rect {
        x: 8,
        y: 1,
        w: 7,
        h: 1,
    };
    let mut out = Vec::new(rt.alloc());
    let mut want = Vec::new(rt.alloc());
    for (w, h, frame) in [(1, 1, DOT), (9, 2, PAINTED)] {
        let size = Size::new(w, h).ok_or("size")?;
        let mut picture = Picture::black(rt.alloc(), size)?;
        picture.fill(
            tall,
            Rgb {
                r: 200,
                g: 17,
                b: 3,
            },
        );
        picture.fill(wide, Rgb { r: 1, g: 2, b: 255 });
        append_frame(&mut out, &picture)?;
        want.extend_from_slice(frame)?;
        assert!(rt; out.as_slice() == want.as_slice(), "{out:?}");
    }
    Ok(())
}
