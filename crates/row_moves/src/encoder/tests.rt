//! Small pictures, whose pieces an independent model of the recorder in Python gave.
ghost use Rattle.std.specs.Prelude.{◌≡◌, ◌<◌, ◌≤◌, ◌*◌, ◌-◌, ◌^◌, IsTrue, length};
ghost use Rattle.std.specs.List.{All};
ghost use Rattle.h265_model.specs.Tiles.{tile_count};

use super::MoveEncoder;
use View::{Bands, Texture};
use h265_model::{Bytes, NoMemory, Numbers};
use px_plane::{Job, Size};
use std::alloc::Global;
use std::test::Fail;

// What a tile shows, as it looks so many columns, and so many rows, further on. A tile that goes from one texture to
// another has moved.
#[derive(Clone, Copy)]
enum View {
    Bands(u8),
    Texture(u8, u8),
}

// For each cut, the tiles of its job, each with its view.
type Cuts = [&'static [(u8, View)]; 4];

const TWO_TILES: Cuts = [
    &[(0, Texture(0, 0)), (1, Texture(0, 0))],
    &[(0, Texture(0, 3)), (1, Texture(0, 3))],
    &[],
    &[(0, Texture(2, 3)), (1, Bands(0))],
];

const FOUR_TILES: Cuts = [
    &[
        (0, Texture(0, 0)),
        (1, Texture(0, 0)),
        (2, Texture(0, 0)),
        (3, Texture(0, 0)),
    ],
    &[
        (0, Texture(0, 3)),
        (1, Texture(0, 3)),
        (2, Texture(0, 3)),
        (3, Texture(0, 3)),
    ],
    &[(3, Texture(2, 3))],
    &[(0, Texture(2, 3)), (1, Texture(2, 3)), (2, Texture(2, 3))],
];

// The first picture is black, as a desktop is before it.
const BLACK_FIRST: Cuts = [
    &[],
    &[
        (0, Texture(0, 0)),
        (1, Bands(0)),
        (2, Texture(0, 0)),
        (3, Texture(0, 0)),
    ],
    &[
        (0, Texture(8, 19)),
        (2, Texture(8, 19)),
        (3, Texture(8, 19)),
    ],
    &[],
];

const SIX_TILES: Cuts = [
    &[
        (0, Texture(0, 0)),
        (1, Texture(0, 0)),
        (2, Texture(0, 0)),
        (3, Bands(0)),
        (4, Bands(0)),
        (5, Bands(0)),
    ],
    &[
        (0, Texture(0, 3)),
        (1, Texture(0, 3)),
        (2, Texture(0, 3)),
        (3, Bands(5)),
        (4, Bands(5)),
    ],
    &[(5, Bands(5)), (2, Texture(2, 3)), (1, Texture(40, 0))],
    &[(0, Texture(2, 3)), (3, Bands(0))],
];

#[derive(Clone, Copy)]
struct Case {
    // The sides of the desktop, EFFORT and KEY.
    w: u32,
    h: u32,
    effort: u32,
    key: u32,
    cuts: Cuts,
    // How long each piece is, and its digest.
    first: (usize, u32),
    pieces: [(usize, u32); 4],
}

const CASES: [Case; 9] = [
    Case {
        w: 40,
        h: 40,
        effort: 0,
        key: 0,
        cuts: FOUR_TILES,
        first: (74, 3106295694),
        pieces: [
            (4838, 3472453878),
            (992, 247261198),
            (216, 1974566767),
            (994, 3298146461),
        ],
    },
    Case {
        w: 40,
        h: 40,
        effort: 1,
        key: 2,
        cuts: FOUR_TILES,
        first: (74, 3106295694),
        pieces: [
            (4838, 3472453878),
            (992, 247261198),
            (4838, 149716950),
            (994, 4288949389),
        ],
    },
    Case {
        w: 40,
        h: 40,
        effort: 2,
        key: 1,
        cuts: FOUR_TILES,
        first: (74, 3106295694),
        pieces: [
            (4838, 3472453878),
            (4838, 884182870),
            (4838, 149716950),
            (4838, 1223466198),
        ],
    },
    Case {
        w: 40,
        h: 40,
        effort: 1,
        key: 0,
        cuts: BLACK_FIRST,
        first: (74, 3106295694),
        pieces: [
            (319, 3918269419),
            (4729, 2121153998),
            (4064, 1118694687),
            (21, 3337501653),
        ],
    },
    Case {
        w: 33,
        h: 9,
        effort: 1,
        key: 0,
        cuts: TWO_TILES,
        first: (76, 164525427),
        pieces: [
            (1521, 2401380633),
            (1549, 3336901980),
            (11, 3868310582),
            (574, 171095071),
        ],
    },
    Case {
        w: 64,
        h: 32,
        effort: 2,
        key: 3,
        cuts: TWO_TILES,
        first: (74, 3026433495),
        pieces: [
            (6158, 3803213756),
            (1569, 4058629957),
            (11, 3868310819),
            (5572, 2331955087),
        ],
    },
    Case {
        w: 33,
        h: 70,
        effort: 1,
        key: 0,
        cuts: SIX_TILES,
        first: (76, 2142742982),
        pieces: [
            (7488, 3855636425),
            (1250, 600547326),
            (1271, 2548136867),
            (988, 1485018262),
        ],
    },
    Case {
        w: 70,
        h: 33,
        effort: 1,
        key: 2,
        cuts: SIX_TILES,
        first: (76, 3600128124),
        pieces: [
            (7512, 463289143),
            (1776, 1553278842),
            (7506, 3935518718),
            (1079, 2840962573),
        ],
    },
    Case {
        w: 96,
        h: 64,
        effort: 0,
        key: 3,
        cuts: SIX_TILES,
        first: (75, 342069100),
        pieces: [
            (18474, 504864861),
            (2359, 124043475),
            (4657, 2823296600),
            (18471, 1970863830),
        ],
    },
];

// A sample of a view.
fn sample(view: View, component: u32, x: u32, y: u32) -> u8
    requires component { component ≤ 2 }
    requires x { x < 8192 }
    requires y { y < 8192 }
{
    match view {
        View::Bands(right) => {
            let x = x + u32::from(right);
            ((x / 5 * 20 + y / 3 * 9 * component + 17) % 256) as u8
        }
        View::Texture(right, down) => {
            let (x, y) = (x + u32::from(right), y + u32::from(down));
            ((x * y * 11 + x * (component + 1) + y * 13 + x * x * 3) % 256) as u8
        }
    }
}

// The samples of a tile with a view.
fn append_tile(samples: &mut Vec<u8>, size: Size, tile: u8, view: View) -> Result<(), NoMemory> {
    let across = (size.w() + 31) / 32;
    let (left, top) = (u32::from(tile) % across * 32, u32::from(tile) / across * 32);
    for at in 0..3072u32 {
        let (x, y) = (left + at % 32, top + at / 32 % 32);
        let inside = x < size.w() && y < size.h();
        samples.push(if inside {
            sample(view, at / 1024, x, y)
        } else {
            0
        })?;
    }
    Ok(())
}

fn job(alloc: Global, size: Size, number: u32, list: &[(u8, View)]) -> Result<Job, NoMemory> {
    let mut tiles = Vec::new(alloc);
    let mut samples = Vec::new(alloc);
    for (tile, view) in list {
        tiles.push(u32::from(*tile))?;
        append_tile(&mut samples, size, *tile, *view)?;
    }
    Ok(Job {
        number,
        tiles: Numbers::from_vec(tiles),
        samples: Bytes::from_vec(samples),
    })
}

// Whether a job is the next one of an encoder.
fn is_next(encoder: &MoveEncoder, job: &Job) -> bool
    ensures tiles { IsTrue result → All (λ t. t < tile_count encoder.now.settings.size) job.now.tiles }
    ensures samples { IsTrue result → length job.now.samples ≡ length job.now.tiles * 3072 }
    ensures number { IsTrue result → job.now.number ≡ encoder.now.count }
    ensures few { IsTrue result → encoder.now.count < 2 ^ 32 - 1 }
{
    let size = encoder.history.size();
    let next = encoder.history.count();
    let count = (size.w() + 31) / 32 * ((size.h() + 31) / 32);
    let (tiles, samples) = (job.tiles.as_slice(), job.samples.as_slice());
    job.number == next
        && next < u32::MAX
        && samples.len() / 3072 == tiles.len()
        && samples.len() % 3072 == 0
        && tiles.iter().all(|tile| *tile < count)
}

// How many bytes there are, and their digest.
fn mark(bytes: &[u8]) -> (usize, u32) {
    let mut digest: u32 = 1;
    for byte in bytes {
        digest = digest.wrapping_mul(31).wrapping_add(u32::from(*byte));
    }
    (bytes.len(), digest)
}

#[test]
fn pictures_of_small_desktops(rt: HostRuntime) -> Result<(), Fail> {
    for case in CASES {
        let size = Size::new(case.w, case.h).ok_or("size")?;
        assert!(rt; case.effort <= 2);
        let mut encoder = MoveEncoder::new(rt.alloc(), size, case.effort, case.key)?;
        assert_eq!(rt; mark(&encoder.first()?), case.first);
        for number in 0..4u32 {
            let (list, want) = (case.cuts[number as usize], case.pieces[number as usize]);
            let job = job(rt.alloc(), size, number, list)?;
            assert!(rt; is_next(&encoder, &job));
            let piece = encoder.next_alone(&job)?;
            assert_eq!(rt;
                mark(&piece),
                want,
                "{}x{}, effort {}, key {}, picture {number}",
                case.w,
                case.h,
                case.effort,
                case.key
            );
        }
    }
    Ok(())
}
