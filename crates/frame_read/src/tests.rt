//! Cases of Netpbm's PPM format.
use crate::{
    Flaw, FrameError, HeadNumber, InputSource, each_frame_is_read, each_list_is_read, read_first,
    read_frame, read_head, read_pixels,
};
use px_plane::{Picture, Size};
use std::alloc::{AllocError, Global};
use std::io;
use std::io::{Error, ErrorKind, Read};
use std::test::Fail;

// Heads, their sizes, and what is left behind them.
const HEADS: [(&[u8], (u32, u32), &[u8]); 9] = [
    (b"P6\n1280 720\n255\n", (1280, 720), b""),
    (b"P6 1 1 255 \n", (1, 1), b"\n"),
    (b"P6\n# Created by a program\n9 2\n255\n\0", (9, 2), b"\0"),
    (b"P6\n9 2\n# two\r#three\n255\n#", (9, 2), b"#"),
    (b"P6#\n9#width\r2 255#last\n7", (9, 2), b"7"),
    (b"P6\t\n 9\x0B2\x0C\r255\r\n", (9, 2), b"\n"),
    (b"P6\n0009 02\n0255\nP6\n", (9, 2), b"P6\n"),
    (b"P6\n4096 2160\n255\n", (4096, 2160), b""),
    (b"P6\n1 4096\n255\n255", (1, 4096), b"255"),
];

const NO_WIDTH: Flaw = Flaw::NoNumber {
    which: HeadNumber::Width,
};

const NO_HEIGHT: Flaw = Flaw::NoNumber {
    which: HeadNumber::Height,
};

const NO_MAXIMUM: Flaw = Flaw::NoNumber {
    which: HeadNumber::Maximum,
};

// The last value of a number.
const MOST: u32 = 4_294_967_295;

// What begins as no head does, and what is wrong with it.
const REFUSED: [(&[u8], Flaw); 22] = [
    (b"P5\n1 1\n255\n", Flaw::NotP6),
    (b"p6\n1 1\n255\n", Flaw::NotP6),
    (b"\nP6\n1 1\n255\n", Flaw::NotP6),
    (b"P61 1 255\n", Flaw::NotP6),
    (b"x", Flaw::NotP6),
    (b"P6\nx 1 255\n", NO_WIDTH),
    (b"P6\n-1 1 255\n", NO_WIDTH),
    (b"P6\n1,1 255\n", NO_WIDTH),
    (b"P6\n1 1.5 255\n", NO_HEIGHT),
    (b"P6\n1 1 255x", NO_MAXIMUM),
    (b"P6\n1 1 65535\n", Flaw::OtherMaximum { maximum: 65535 }),
    (b"P6\n0 0 1\n", Flaw::OtherMaximum { maximum: 1 }),
    (
        b"P6\n1 1 99999999999\n",
        Flaw::OtherMaximum { maximum: MOST },
    ),
    (b"P6\n0 1 255\n", Flaw::NoSize { w: 0, h: 1 }),
    (b"P6\n4097 1 255\n", Flaw::NoSize { w: 4097, h: 1 }),
    (b"P6\n4096 2161 255\n", Flaw::NoSize { w: 4096, h: 2161 }),
    (b"P6\n1 4294967297 255\n", Flaw::NoSize { w: 1, h: MOST }),
    (b"P", Flaw::Truncated),
    (b"P6", Flaw::Truncated),
    (b"P6\n12", Flaw::Truncated),
    (b"P6\n1 1 255", Flaw::Truncated),
    (b"P6\n1 1 # no end 255", Flaw::Truncated),
];

#[test]
fn heads(rt: HostRuntime) {
    for (bytes, (w, h), behind) in HEADS {
        let mut left = bytes;
        let size = read_head(&mut InputSource::new(&mut left), None);
        assert_eq!(rt; size, Ok(Size::new(w, h)), "{bytes:?}");
        assert_eq!(rt; left, behind, "{bytes:?}");
    }
    assert_eq!(rt;
        read_head(&mut InputSource::new(b"".as_slice()), None),
        Ok(None)
    );
}

#[test]
fn heads_that_are_refused(rt: HostRuntime) {
    for (bytes, flaw) in REFUSED {
        let size = read_head(&mut InputSource::new(bytes), None);
        assert_eq!(rt; size, Err(FrameError::Bad { flaw }), "{bytes:?}");
    }
}

// A head of the size of the frames before, another one, and one whose sides are exchanged.
#[test]
fn heads_of_another_size(rt: HostRuntime) {
    for (bytes, w, h) in [
        (b"P6 9 2 255 ", 9, 2),
        (b"P6 9 1 255 ", 9, 1),
        (b"P6 2 9 255 ", 2, 9),
    ] {
        let mut source = InputSource::new(bytes.as_slice());
        let size = read_head(&mut source, Size::new(9, 2));
        if (w, h) == (9, 2) {
            assert_eq!(rt; size, Ok(Size::new(9, 2)));
        } else {
            let flaw = Flaw::AnotherSize { w, h };
            assert_eq!(rt; size, Err(FrameError::Bad { flaw }));
        }
    }
}

// A reader that gives a few bytes at a time. Each third read is cut off, and one fails.
#[derive(Drop)]
struct Slow<'a> {
    bytes: &'a [u8],
    most: usize,
    calls: u32,
    failing: u32,
}

impl Read for Slow<'_> {
    fn read(&mut self, out: &mut [u8]) -> io::Result<usize> {
        self.calls = self.calls.wrapping_add(1);
        if self.calls == self.failing {
            return Err(Error::from(ErrorKind::BrokenPipe));
        }
        if self.calls % 3 == 0 {
            return Err(Error::from(ErrorKind::Interrupted));
        }
        let end = out.len().min(self.most);
        self.bytes.read(&mut out[..end])
    }
}

fn given_slowly(bytes: &[u8], most: usize, failing: u32) -> InputSource<Slow<'_>> {
    InputSource::new(Slow {
        bytes,
        most,
        calls: 0,
        failing,
    })
}

// So many bytes, each unlike its neighbours.
fn some_bytes(alloc: Global, count: u32, first: u8) -> Result<Vec<u8>, AllocError> {
    let mut bytes = Vec::new(alloc);
    let mut byte = first;
    for _ in 0..count {
        bytes.push(byte)?;
        byte = byte.wrapping_mul(5).wrapping_add(7);
    }
    Ok(bytes)
}

// R, G and B of each place of a picture.
fn pixels(alloc: Global, picture: &Picture) -> Result<Vec<u8>, AllocError> {
    let size = picture.size();
    let mut bytes = Vec::new(alloc);
    for y in 0..size.h() {
        let r = picture.row(2, 0, y, size.w());
        let g = picture.row(0, 0, y, size.w());
        let b = picture.row(1, 0, y, size.w());
        for ((r, g), b) in r.iter().zip(g).zip(b) {
            bytes.extend_from_slice(&[*r, *g, *b])?;
        }
    }
    Ok(bytes)
}

// Sizes with their heads: one pixel; a part of a group of pixels; groups and a part of one; several strips of rows.
const SIZES: [(u32, u32, &[u8]); 4] = [
    (1, 1, b"P6\n1 1\n255\n"),
    (5, 3, b"P6\n5 3\n255\n"),
    (19, 3, b"P6\n19 3\n255\n"),
    (4096, 5, b"P6\n4096 5\n255\n"),
];

// Two frames, and then the end.
#[test]
fn frames_one_after_another(rt: HostRuntime) -> Result<(), Fail> {
    for (w, h, head) in SIZES {
        let first = some_bytes(rt.alloc(), 3 * w * h, 1)?;
        let second = some_bytes(rt.alloc(), 3 * w * h, 2)?;
        let mut bytes = Vec::from_slice(rt.alloc(), head)?;
        bytes.extend_from_slice(&first)?;
        bytes.extend_from_slice(head)?;
        bytes.extend_from_slice(&second)?;
        for most in [1, 7, 100_000] {
            let mut source = given_slowly(&bytes, most, 0);
            let mut picture = read_first(rt.alloc(), &mut source)?.ok_or("frame")?;
            assert!(rt;
                pixels(rt.alloc(), &picture)?.as_slice() == first.as_slice(),
                "{w} {h} {most}"
            );
            assert_eq!(rt; read_frame(rt.alloc(), &mut source, &mut picture), Ok(true));
            assert!(rt;
                pixels(rt.alloc(), &picture)?.as_slice() == second.as_slice(),
                "{w} {h} {most}"
            );
            assert_eq!(rt;
                read_frame(rt.alloc(), &mut source, &mut picture),
                Ok(false)
            );
        }
    }
    Ok(())
}

// The pixels of one frame, and what follows them.
#[test]
fn pixels_without_a_head(rt: HostRuntime) -> Result<(), Fail> {
    let mut left = b"RGBrgbmore".as_slice();
    let mut picture = Picture::black(rt.alloc(), Size::new(2, 1).ok_or("size")?)?;
    read_pixels(rt.alloc(), &mut InputSource::new(&mut left), &mut picture)?;
    assert_eq!(rt;
        pixels(rt.alloc(), &picture)?.as_slice(),
        b"RGBrgb".as_slice()
    );
    assert_eq!(rt; left, b"more".as_slice());
    let none = read_first(rt.alloc(), &mut InputSource::new(b"".as_slice()))?;
    assert!(rt; none.is_none());
    Ok(())
}

// A frame of which each front lacks something.
#[test]
fn frames_cut_short(rt: HostRuntime) -> Result<(), Fail> {
    let whole = b"P6 2 1 255 RGBrgb".as_slice();
    let mut picture = Picture::black(rt.alloc(), Size::new(2, 1).ok_or("size")?)?;
    let flaw = Flaw::Truncated;
    for end in 1..whole.len() {
        let mut source = given_slowly(&whole[..end], 2, 0);
        let outcome = read_frame(rt.alloc(), &mut source, &mut picture);
        assert_eq!(rt; outcome, Err(FrameError::Bad { flaw }), "{end}");
    }
    assert_eq!(rt;
        read_frame(rt.alloc(), &mut given_slowly(whole, 2, 0), &mut picture),
        Ok(true)
    );
    assert_eq!(rt;
        pixels(rt.alloc(), &picture)?.as_slice(),
        b"RGBrgb".as_slice()
    );
    Ok(())
}

// Each read fails in turn: a frame isn't read then, and the next one is what follows.
#[test]
fn reads_that_fail(rt: HostRuntime) -> Result<(), Fail> {
    let mut picture = Picture::black(rt.alloc(), Size::new(2, 1).ok_or("size")?)?;
    for failing in 1..21 {
        let mut source = given_slowly(b"P6 2 1 255 RGBrgb", 2, failing);
        assert!(rt; source.last_error().is_none());
        let outcome = read_frame(rt.alloc(), &mut source, &mut picture);
        assert_eq!(rt; outcome, Err(FrameError::Failed), "{failing}");
        let kind = source.last_error().map(|error| error.kind());
        assert_eq!(rt; kind, Some(ErrorKind::BrokenPipe));
    }
    Ok(())
}

#[test]
fn laws() {
    each_frame_is_read();
    each_list_is_read();
}
