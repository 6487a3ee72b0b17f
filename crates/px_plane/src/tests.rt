//! Values from outside: an independent model of the recorder in Python, and the layout of tiles worked out by hand.
ghost use Rattle.std.specs.Prelude.{◌≡◌, ◌<◌, ◌+◌, ◌≤◌, length, IfOk};
ghost use Rattle.h265_model.specs.Plain.{coded};
ghost use Rattle.px_plane.specs.Tiles.{IsJobOf};

use super::{Clip, Job, Picture, Rect, Rgb, Size, Steps};
use h265_model::{Bytes, NoMemory, Numbers};
use std::alloc::Global;
use std::marker::Brand;
use std::sync::ledger::{Blank, Ledger};
use std::test::Fail;

fn crosses_threads<T: Send + Sync>(_value: &T) {}

fn rect(x: u32, y: u32, w: u32, h: u32) -> Rect
    ensures { result ≡ record { x = x; y = y; w = w; h = h } }
{
    Rect { x, y, w, h }
}

fn is_block_equal<L: Ledger>(a: &Picture, b: &Picture, rect: Rect, blank: Blank) -> bool
    requires sizes { b.now.size ≡ a.now.size }
    requires across { rect.x + rect.w ≤ coded a.now.size.w }
    requires down { rect.y + rect.h ≤ coded a.now.size.h }
    requires name { blank.name ≡ L.name }
    requires parts { blank.parts ≡ L.parts }
    requires some { 0 < blank.parts }
{
    let mut steps = Steps::<L>::new(blank);
    steps.tick();
    a.block_equal(b, rect, &mut steps)
}

fn is_equal(a: &Picture, b: &Picture, rect: Rect) -> bool
    requires sizes { b.now.size ≡ a.now.size }
    requires across { rect.x + rect.w ≤ coded a.now.size.w }
    requires down { rect.y + rect.h ≤ coded a.now.size.h }
{
    is_block_equal::<Brand>(a, b, rect, Blank::new(1))
}

// A job of the two tiles on the right of a desktop of 40 by 40.
fn two_tiles(alloc: Global, samples: &[u8]) -> Result<Job, NoMemory>
    requires { length samples.now ≡ 6144 }
    ensures { IfOk result (IsJobOf (record { w = 40; h = 40 })) }
{
    let tiles = [1, 3].to_vec(alloc)?;
    let samples = samples.to_vec(alloc)?;
    Ok(Job {
        number: 0,
        tiles: Numbers::from_vec(tiles),
        samples: Bytes::from_vec(samples),
    })
}

#[test]
fn sizes_and_rectangles(rt: HostRuntime) -> Result<(), Fail> {
    for (w, h, legal) in [
        (1, 1, true),
        (4096, 2160, true),
        (4096, 2161, false),
        (4097, 1, false),
        (0, 5, false),
        (5, 0, false),
        (1920, 4096, true),
    ] {
        assert_eq!(rt; Size::new(w, h).is_some(), legal, "{w}x{h}");
    }
    let size = Size::new(11, 9).ok_or("size")?;
    assert_eq!(rt; (size.w(), size.h()), (11, 9));
    for (whole, part) in [
        (rect(2, 1, 20, 3), Some(rect(2, 1, 9, 3))),
        (rect(0, 0, 11, 9), Some(rect(0, 0, 11, 9))),
        (rect(10, 8, 4294967295, 4294967295), Some(rect(10, 8, 1, 1))),
        (rect(11, 0, 1, 1), None),
        (rect(0, 9, 1, 1), None),
        (rect(3, 3, 0, 2), None),
        (rect(3, 3, 2, 0), None),
    ] {
        assert_eq!(rt; whole.clip(size), part, "{whole:?}");
    }
    Ok(())
}

#[test]
fn paints_as_the_model(rt: HostRuntime) -> Result<(), Fail> {
    let size = Size::new(11, 9).ok_or("size")?;
    let mut picture = Picture::black(rt.alloc(), size)?;
    crosses_threads(&picture);
    picture.fill(
        rect(2, 1, 20, 3),
        Rgb {
            r: 255,
            g: 128,
            b: 64,
        },
    );
    picture.fill(rect(4, 4, 0, 3), Rgb { r: 1, g: 2, b: 3 });
    let mut pixels = [Rgb { r: 0, g: 0, b: 0 }; 20];
    for i in 0..20u8 {
        pixels[i as usize] = Rgb {
            r: 7 * i + 3,
            g: 7 * i + 53,
            b: 7 * i + 103,
        };
    }
    picture.blit(rect(8, 7, 5, 4), &pixels);
    let twin = picture.twin()?;
    assert_eq!(rt; (twin.size().w(), twin.size().h()), (11, 9));
    for (component, y, row) in [
        (0, 0, [0u8, 0, 0, 0, 0, 0, 0, 0, 0, 0, 0, 0, 0, 0, 0, 0]),
        (
            0,
            1,
            [
                0, 0, 128, 128, 128, 128, 128, 128, 128, 128, 128, 0, 0, 0, 0, 0,
            ],
        ),
        (
            1,
            1,
            [0, 0, 64, 64, 64, 64, 64, 64, 64, 64, 64, 0, 0, 0, 0, 0],
        ),
        (
            2,
            3,
            [
                0, 0, 255, 255, 255, 255, 255, 255, 255, 255, 255, 0, 0, 0, 0, 0,
            ],
        ),
        (2, 4, [0, 0, 0, 0, 0, 0, 0, 0, 0, 0, 0, 0, 0, 0, 0, 0]),
        (0, 7, [0, 0, 0, 0, 0, 0, 0, 0, 53, 60, 67, 0, 0, 0, 0, 0]),
        (1, 7, [0, 0, 0, 0, 0, 0, 0, 0, 103, 110, 117, 0, 0, 0, 0, 0]),
        (2, 7, [0, 0, 0, 0, 0, 0, 0, 0, 3, 10, 17, 0, 0, 0, 0, 0]),
        (0, 8, [0, 0, 0, 0, 0, 0, 0, 0, 88, 95, 102, 0, 0, 0, 0, 0]),
        (1, 8, [0, 0, 0, 0, 0, 0, 0, 0, 138, 145, 152, 0, 0, 0, 0, 0]),
        (2, 8, [0, 0, 0, 0, 0, 0, 0, 0, 38, 45, 52, 0, 0, 0, 0, 0]),
        (2, 9, [0, 0, 0, 0, 0, 0, 0, 0, 0, 0, 0, 0, 0, 0, 0, 0]),
    ] {
        assert!(rt; component < 3 && y < 16);
        let expected: &[u8] = &row;
        assert_eq!(rt;
            twin.row(component, 0, y, 16),
            expected,
            "component {component}, row {y}"
        );
        assert_eq!(rt;
            picture.sample(component, 9, y),
            row[9],
            "component {component}, row {y}"
        );
    }
    Ok(())
}

#[test]
fn lays_and_compares(rt: HostRuntime) -> Result<(), Fail> {
    let size = Size::new(40, 40).ok_or("size")?;
    let mut picture = Picture::black(rt.alloc(), size)?;
    let before = picture.twin()?;
    let mut samples = [0u8; 6144];
    for i in 0..6144usize {
        samples[i] = (i % 251) as u8;
    }
    let job = two_tiles(rt.alloc(), &samples)?;
    picture.lay(&job);
    for (component, x, y, sample) in [
        (0, 31, 0, 0),
        (0, 33, 2, 65),
        (1, 32, 31, 8),
        (2, 39, 31, 35),
        (1, 31, 32, 0),
        (2, 39, 39, 80),
    ] {
        assert!(rt; component < 3 && x < 40 && y < 40);
        assert_eq!(rt;
            picture.sample(component, x, y),
            sample,
            "component {component}, at {x}, {y}"
        );
    }
    for (block, equal) in [
        (rect(0, 0, 32, 40), true),
        (rect(31, 0, 1, 32), true),
        (rect(31, 0, 2, 1), false),
        (rect(24, 32, 16, 8), false),
        (rect(40, 40, 0, 0), true),
    ] {
        assert!(rt;
            block.x <= 40 && block.y <= 40 && block.w <= 40 - block.x && block.h <= 40 - block.y
        );
        assert_eq!(rt; is_equal(&picture, &before, block), equal, "{block:?}");
    }
    let mut red = before.twin()?;
    red.fill(rect(5, 6, 1, 1), Rgb { r: 1, g: 0, b: 0 });
    assert!(rt; !is_equal(&red, &before, rect(0, 0, 8, 8)));
    assert!(rt; is_equal(&red, &before, rect(6, 6, 8, 8)));
    Ok(())
}

// The rows of a picture of 6 by 5, less what its planes begin with.
fn is_as(picture: &Picture, rows: &[[u8; 6]; 5]) -> bool
    requires { picture.now.size ≡ record { w = 6; h = 5 } }
{
    let mut same = true;
    for y in 0..5u32 {
        for x in 0..6u32 {
            let value = rows[y as usize][x as usize] as u32;
            same &= picture.sample(0, x, y) as u32 == value + 40;
            same &= picture.sample(1, x, y) as u32 == value + 80;
            same &= picture.sample(2, x, y) as u32 == value;
        }
    }
    same
}

#[test]
fn copies_as_the_model(rt: HostRuntime) -> Result<(), Fail> {
    let size = Size::new(6, 5).ok_or("size")?;
    let mut numbered = Picture::black(rt.alloc(), size)?;
    let mut pixels = [Rgb { r: 0, g: 0, b: 0 }; 30];
    for i in 0..30u8 {
        pixels[i as usize] = Rgb {
            r: i + 1,
            g: i + 41,
            b: i + 81,
        };
    }
    numbered.blit(rect(0, 0, 6, 5), &pixels);
    for (whole, to_x, to_y, rows) in [
        // to each of the eight places beside it
        (
            rect(1, 1, 4, 3),
            0,
            1,
            [
                [1, 2, 3, 4, 5, 6],
                [8, 9, 10, 11, 11, 12],
                [14, 15, 16, 17, 17, 18],
                [20, 21, 22, 23, 23, 24],
                [25, 26, 27, 28, 29, 30],
            ],
        ),
        (
            rect(1, 1, 4, 3),
            1,
            0,
            [
                [1, 8, 9, 10, 11, 6],
                [7, 14, 15, 16, 17, 12],
                [13, 20, 21, 22, 23, 18],
                [19, 20, 21, 22, 23, 24],
                [25, 26, 27, 28, 29, 30],
            ],
        ),
        (
            rect(1, 1, 4, 3),
            2,
            1,
            [
                [1, 2, 3, 4, 5, 6],
                [7, 8, 8, 9, 10, 11],
                [13, 14, 14, 15, 16, 17],
                [19, 20, 20, 21, 22, 23],
                [25, 26, 27, 28, 29, 30],
            ],
        ),
        (
            rect(1, 1, 4, 3),
            1,
            2,
            [
                [1, 2, 3, 4, 5, 6],
                [7, 8, 9, 10, 11, 12],
                [13, 8, 9, 10, 11, 18],
                [19, 14, 15, 16, 17, 24],
                [25, 20, 21, 22, 23, 30],
            ],
        ),
        (
            rect(1, 1, 4, 3),
            2,
            0,
            [
                [1, 2, 8, 9, 10, 11],
                [7, 8, 14, 15, 16, 17],
                [13, 14, 20, 21, 22, 23],
                [19, 20, 21, 22, 23, 24],
                [25, 26, 27, 28, 29, 30],
            ],
        ),
        (
            rect(1, 1, 4, 3),
            0,
            2,
            [
                [1, 2, 3, 4, 5, 6],
                [7, 8, 9, 10, 11, 12],
                [8, 9, 10, 11, 17, 18],
                [14, 15, 16, 17, 23, 24],
                [20, 21, 22, 23, 29, 30],
            ],
        ),
        (
            rect(1, 1, 4, 3),
            2,
            2,
            [
                [1, 2, 3, 4, 5, 6],
                [7, 8, 9, 10, 11, 12],
                [13, 14, 8, 9, 10, 11],
                [19, 20, 14, 15, 16, 17],
                [25, 26, 20, 21, 22, 23],
            ],
        ),
        (
            rect(1, 1, 4, 3),
            0,
            0,
            [
                [8, 9, 10, 11, 5, 6],
                [14, 15, 16, 17, 11, 12],
                [20, 21, 22, 23, 17, 18],
                [19, 20, 21, 22, 23, 24],
                [25, 26, 27, 28, 29, 30],
            ],
        ),
        // further, and where sources or targets lie beside the desktop
        (
            rect(2, 0, 3, 3),
            0,
            2,
            [
                [1, 2, 3, 4, 5, 6],
                [7, 8, 9, 10, 11, 12],
                [3, 4, 5, 16, 17, 18],
                [9, 10, 11, 22, 23, 24],
                [15, 16, 17, 28, 29, 30],
            ],
        ),
        (
            rect(0, 0, 6, 5),
            3,
            2,
            [
                [1, 2, 3, 4, 5, 6],
                [7, 8, 9, 10, 11, 12],
                [13, 14, 15, 1, 2, 3],
                [19, 20, 21, 7, 8, 9],
                [25, 26, 27, 13, 14, 15],
            ],
        ),
        (
            rect(4, 3, 5, 5),
            0,
            0,
            [
                [23, 24, 3, 4, 5, 6],
                [29, 30, 9, 10, 11, 12],
                [13, 14, 15, 16, 17, 18],
                [19, 20, 21, 22, 23, 24],
                [25, 26, 27, 28, 29, 30],
            ],
        ),
        (
            rect(0, 0, 2, 2),
            6,
            0,
            [
                [1, 2, 3, 4, 5, 6],
                [7, 8, 9, 10, 11, 12],
                [13, 14, 15, 16, 17, 18],
                [19, 20, 21, 22, 23, 24],
                [25, 26, 27, 28, 29, 30],
            ],
        ),
        (
            rect(6, 0, 2, 2),
            0,
            0,
            [
                [1, 2, 3, 4, 5, 6],
                [7, 8, 9, 10, 11, 12],
                [13, 14, 15, 16, 17, 18],
                [19, 20, 21, 22, 23, 24],
                [25, 26, 27, 28, 29, 30],
            ],
        ),
        (
            rect(1, 1, 0, 3),
            0,
            0,
            [
                [1, 2, 3, 4, 5, 6],
                [7, 8, 9, 10, 11, 12],
                [13, 14, 15, 16, 17, 18],
                [19, 20, 21, 22, 23, 24],
                [25, 26, 27, 28, 29, 30],
            ],
        ),
        (
            rect(0, 0, 4294967295, 4294967295),
            4294967295,
            0,
            [
                [1, 2, 3, 4, 5, 6],
                [7, 8, 9, 10, 11, 12],
                [13, 14, 15, 16, 17, 18],
                [19, 20, 21, 22, 23, 24],
                [25, 26, 27, 28, 29, 30],
            ],
        ),
        (
            rect(0, 2, 65535, 65535),
            2,
            0,
            [
                [1, 2, 13, 14, 15, 16],
                [7, 8, 19, 20, 21, 22],
                [13, 14, 25, 26, 27, 28],
                [19, 20, 21, 22, 23, 24],
                [25, 26, 27, 28, 29, 30],
            ],
        ),
    ] {
        let mut picture = numbered.twin()?;
        picture.copy(whole, to_x, to_y);
        let read = picture.size();
        assert!(rt; read.w() == 6 && read.h() == 5);
        assert!(rt; is_as(&picture, &rows), "{whole:?} to {to_x}, {to_y}");
        assert_eq!(rt; picture.sample(0, 6, 0), 0);
        assert_eq!(rt; picture.sample(0, 0, 5), 0);
    }
    Ok(())
}

// The digest of a plane of 16 by 16.
fn digest(samples: &[u8]) -> u32 {
    let mut digest = 0u32;
    for sample in samples {
        digest = digest.wrapping_mul(31).wrapping_add(u32::from(*sample));
    }
    digest
}

fn digests(picture: &Picture) -> (u32, u32, u32) {
    (
        digest(picture.plane(0)),
        digest(picture.plane(1)),
        digest(picture.plane(2)),
    )
}

#[test]
fn squares(rt: HostRuntime) -> Result<(), Fail> {
    let size = Size::new(11, 9).ok_or("size")?;
    let mut samples = [0u8; 64];
    for i in 0..64usize {
        samples[i] = (3 * i + 1) as u8;
    }
    let mut picture = Picture::black(rt.alloc(), size)?;
    picture.put_block(0, 8, 0, 8, &samples);
    picture.put_block(2, 0, 8, 4, &samples[..16]);
    assert_eq!(rt; digests(&picture), (4190991456, 0, 3693049624));
    let mut other = Picture::black(rt.alloc(), size)?;
    other.copy_block(&picture, 6, 2, 1, 7, 9);
    other.copy_block(&picture, 0, 8, 12, 12, 4);
    assert_eq!(rt; digests(&other), (1786973508, 0, 594287384));
    Ok(())
}
