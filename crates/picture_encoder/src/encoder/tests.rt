//! Small pictures, whose pieces an independent model of the recorder in Python gave.
ghost use Rattle.std.specs.Prelude.{◌≡◌, ◌<◌, ◌≤◌, ◌*◌, ◌-◌, ◌^◌, IsTrue, length};
ghost use Rattle.std.specs.List.{All};
ghost use Rattle.h265_model.specs.Tiles.{tile_count};
ghost use Rattle.px_plane.specs.Tiles.{IsJobOf};

use super::Encoder;
use gate::NoGate;
use h265_model::{Bytes, NoMemory, Numbers};
use px_plane::{Job, Size};
use std::alloc::Global;
use std::sync::Wait;
use std::test::Fail;
use std::thread::Threads;

// For each cut, the tiles of its job, each with the number of a pattern.
type Cuts = [&'static [(u8, u8)]; 4];

const ONE_TILE: Cuts = [&[(0, 1)], &[(0, 3)], &[], &[(0, 5), (0, 4)]];

const TWO_TILES: Cuts = [&[(0, 1), (1, 2)], &[(1, 3)], &[], &[(1, 4), (0, 1)]];

const FOUR_TILES: Cuts = [
    &[(0, 1), (1, 2), (2, 1), (3, 3)],
    &[(3, 2)],
    &[],
    &[(1, 4), (0, 1)],
];

const SIX_TILES: Cuts = [
    &[(0, 1), (1, 2), (2, 1), (3, 1), (4, 2), (5, 1)],
    &[(5, 3), (4, 2)],
    &[(2, 3)],
    &[(0, 1), (3, 4)],
];

#[derive(Clone, Copy)]
struct Case {
    // The sides of the desktop, EFFORT and KEY.
    w: u32,
    h: u32,
    effort: u32,
    key: u32,
    cuts: Cuts,
    // How long each piece is, and its digest.
    first: (usize, u32),
    pieces: [(usize, u32); 4],
}

const CASES: [Case; 8] = [
    Case {
        w: 40,
        h: 40,
        effort: 0,
        key: 0,
        cuts: FOUR_TILES,
        first: (74, 3106295694),
        pieces: [
            (4838, 2478024422),
            (216, 927525031),
            (21, 3087003357),
            (797, 3685115248),
        ],
    },
    Case {
        w: 40,
        h: 40,
        effort: 1,
        key: 2,
        cuts: FOUR_TILES,
        first: (74, 3106295694),
        pieces: [
            (3697, 400997340),
            (216, 927525031),
            (3697, 3177812076),
            (797, 648330112),
        ],
    },
    Case {
        w: 40,
        h: 40,
        effort: 2,
        key: 1,
        cuts: FOUR_TILES,
        first: (74, 3106295694),
        pieces: [
            (3664, 3958340660),
            (3664, 2440188100),
            (3664, 2440188100),
            (3664, 3154579908),
        ],
    },
    Case {
        w: 1,
        h: 1,
        effort: 1,
        key: 0,
        cuts: ONE_TILE,
        first: (75, 1282793775),
        pieces: [
            (297, 4069226298),
            (298, 371674501),
            (11, 3868312467),
            (298, 1741306822),
        ],
    },
    Case {
        w: 7,
        h: 9,
        effort: 2,
        key: 2,
        cuts: ONE_TILE,
        first: (75, 2831664364),
        pieces: [
            (298, 552120792),
            (322, 3035955767),
            (317, 3676330052),
            (354, 3033695980),
        ],
    },
    Case {
        w: 31,
        h: 33,
        effort: 1,
        key: 3,
        cuts: TWO_TILES,
        first: (76, 59683371),
        pieces: [
            (2598, 204343904),
            (431, 4270260333),
            (20, 3811624087),
            (2598, 2186704075),
        ],
    },
    Case {
        w: 33,
        h: 31,
        effort: 2,
        key: 0,
        cuts: TWO_TILES,
        first: (76, 1467803689),
        pieces: [
            (2648, 709821184),
            (366, 199953355),
            (12, 3953508047),
            (438, 1470090221),
        ],
    },
    Case {
        w: 70,
        h: 33,
        effort: 1,
        key: 2,
        cuts: SIX_TILES,
        first: (76, 3600128124),
        pieces: [
            (6455, 2333414581),
            (80, 2934212028),
            (6458, 2565490687),
            (455, 1493524633),
        ],
    },
];

// A sample of a pattern: bands, or a texture.
fn sample(pattern: u8, component: u32, x: u32, y: u32) -> u8
    requires component { component ≤ 2 }
    requires x { x < 8192 }
    requires y { y < 8192 }
{
    let pattern = u32::from(pattern);
    if pattern % 2 == 1 {
        return ((x / 5 * 20 * pattern + y / 3 * 9 * component + pattern) % 256) as u8;
    }
    ((x * y * 11 + x * (component + 1) + y * 13 + pattern * 5) % 256) as u8
}

// The samples of a tile with a pattern.
fn append_tile(samples: &mut Vec<u8>, size: Size, tile: u8, pattern: u8) -> Result<(), NoMemory> {
    let across = (size.w() + 31) / 32;
    let (left, top) = (u32::from(tile) % across * 32, u32::from(tile) / across * 32);
    for at in 0..3072u32 {
        let (x, y) = (left + at % 32, top + at / 32 % 32);
        let inside = x < size.w() && y < size.h();
        samples.push(if inside {
            sample(pattern, at / 1024, x, y)
        } else {
            0
        })?;
    }
    Ok(())
}

fn job(alloc: Global, size: Size, number: u32, list: &[(u8, u8)]) -> Result<Job, NoMemory> {
    let mut tiles = Vec::new(alloc);
    let mut samples = Vec::new(alloc);
    for (tile, pattern) in list {
        tiles.push(u32::from(*tile))?;
        append_tile(&mut samples, size, *tile, *pattern)?;
    }
    Ok(Job {
        number,
        tiles: Numbers::from_vec(tiles),
        samples: Bytes::from_vec(samples),
    })
}

// Whether a job is the next one of an encoder.
fn is_next(encoder: &Encoder, job: &Job) -> bool
    ensures tiles { IsTrue result → All (λ t. t < tile_count encoder.now.settings.size) job.now.tiles }
    ensures samples { IsTrue result → length job.now.samples ≡ length job.now.tiles * 3072 }
    ensures number { IsTrue result → job.now.number ≡ encoder.now.count }
    ensures few { IsTrue result → encoder.now.count < 2 ^ 32 - 1 }
{
    let size = encoder.history.size();
    let next = encoder.history.count();
    let count = (size.w() + 31) / 32 * ((size.h() + 31) / 32);
    let (tiles, samples) = (job.tiles.as_slice(), job.samples.as_slice());
    job.number == next
        && next < u32::MAX
        && samples.len() / 3072 == tiles.len()
        && samples.len() % 3072 == 0
        && tiles.iter().all(|tile| *tile < count)
}

// How many bytes there are, and their digest.
fn mark(bytes: &[u8]) -> (usize, u32) {
    let mut digest: u32 = 1;
    for byte in bytes {
        digest = digest.wrapping_mul(31).wrapping_add(u32::from(*byte));
    }
    (bytes.len(), digest)
}

// The next piece, with its rows coded by so many workers, or on the caller's thread for none.
fn next_piece<R: Threads + Wait + Sync>(
    rt: &R,
    encoder: &mut Encoder,
    job: &Job,
    workers: u32,
) -> Result<Vec<u8>, NoMemory>
    requires job { IsJobOf encoder.old.settings.size job.now }
    requires number { job.now.number ≡ encoder.old.count }
    requires few { encoder.old.count < 2 ^ 32 - 1 }
    requires workers { workers ≤ 64 }
{
    if workers == 0 {
        return encoder.next_alone(job);
    }
    encoder.next(rt, job, workers, &NoGate)
}

// How many workers code the rows; none is the caller's thread.
const WORKERS: [u32; 4] = [0, 1, 2, 64];

// Whether the last picture is made again of the one before it after so many of the cuts of `FOUR_TILES`, which list 4, 1, 0 and 2 tiles.
const MADE_AGAIN: [bool; 5] = [false, false, true, true, false];

#[test]
fn few_tiles_keep_the_picture_before(rt: HostRuntime) -> Result<(), Fail> {
    for cuts in 0..5usize {
        for workers in WORKERS {
            assert!(rt; workers <= 64);
            let size = Size::new(40, 40).ok_or("size")?;
            let mut encoder = Encoder::new(rt.alloc(), size, 0, 0)?;
            for number in 0..cuts as u32 {
                let job = job(rt.alloc(), size, number, FOUR_TILES[number as usize])?;
                assert!(rt; is_next(&encoder, &job));
                let _piece = next_piece(&rt, &mut encoder, &job, workers)?;
            }
            let made = encoder.history.made_again();
            assert_eq!(rt;
                made.is_some(),
                MADE_AGAIN[cuts],
                "{cuts} cuts, {workers} workers"
            );
        }
    }
    Ok(())
}

#[test]
fn pictures_of_small_desktops(rt: HostRuntime) -> Result<(), Fail> {
    for case in CASES {
        let size = Size::new(case.w, case.h).ok_or("size")?;
        assert!(rt; case.effort <= 2);
        for workers in WORKERS {
            assert!(rt; workers <= 64);
            let mut encoder = Encoder::new(rt.alloc(), size, case.effort, case.key)?;
            assert_eq!(rt; mark(&encoder.first()?), case.first);
            for number in 0..4u32 {
                let (list, want) = (case.cuts[number as usize], case.pieces[number as usize]);
                let job = job(rt.alloc(), size, number, list)?;
                assert!(rt; is_next(&encoder, &job));
                let piece = next_piece(&rt, &mut encoder, &job, workers)?;
                assert_eq!(rt;
                    mark(&piece),
                    want,
                    "{}x{}, effort {}, key {}, picture {number}, {workers} workers",
                    case.w,
                    case.h,
                    case.effort,
                    case.key
                );
            }
        }
    }
    Ok(())
}

// Pictures of 32 by 32 with their hashes, of which the second is the first one again: for each the tiles of its job, how long its piece is, and its
// digest.
const HASHED: [(&'static [(u8, u8)], (usize, u32)); 3] = [
    (&[], (4677, 500459475)),
    (&[], (69, 3065216387)),
    (&[(0, 3)], (3143, 1543607406)),
];

#[test]
fn pictures_with_hashes(rt: HostRuntime) -> Result<(), Fail> {
    let size = Size::new(32, 32).ok_or("size")?;
    for workers in WORKERS {
        assert!(rt; workers <= 64);
        let mut encoder = Encoder::new(rt.alloc(), size, 0, 0)?.with_hash();
        for number in 0..3u32 {
            let (list, want) = HASHED[number as usize];
            let job = job(rt.alloc(), size, number, list)?;
            assert!(rt; is_next(&encoder, &job));
            let piece = next_piece(&rt, &mut encoder, &job, workers)?;
            assert_eq!(rt; mark(&piece), want, "picture {number}, {workers} workers");
        }
    }
    Ok(())
}
