//! Small pictures, whose pieces an independent model of the recorder in Python gave.
ghost use Rattle.std.specs.Prelude.{◌≡◌, ◌<◌, ◌≤◌, ◌*◌, ◌-◌, ◌^◌, IsTrue, length};
ghost use Rattle.std.specs.List.{All};
ghost use Rattle.h265_model.specs.Tiles.{tile_count};

use super::SegmentEncoder;
use h265_model::{Bytes, NoMemory, Numbers};
use px_plane::{Job, Size};
use std::alloc::Global;
use std::test::Fail;

// For each cut, the tiles of its job, each with the number of a pattern.
type Cuts = [&'static [(u8, u8)]; 4];

const TWO_TILES: Cuts = [&[(0, 1), (1, 2)], &[(1, 3)], &[], &[(1, 4), (0, 1)]];

const FOUR_TILES: Cuts = [
    &[(0, 1), (1, 2), (2, 1), (3, 3)],
    &[(3, 2)],
    &[],
    &[(1, 4), (0, 1)],
];

const SIX_TILES: Cuts = [
    &[(0, 1), (1, 2), (2, 1), (3, 1), (4, 2), (5, 1)],
    &[(5, 3), (4, 2)],
    &[(2, 3)],
    &[(0, 1), (3, 4)],
];

#[derive(Clone, Copy)]
struct Case {
    // The sides of the desktop, EFFORT and KEY.
    w: u32,
    h: u32,
    effort: u32,
    key: u32,
    cuts: Cuts,
    // How long each piece is, and its digest.
    first: (usize, u32),
    pieces: [(usize, u32); 4],
}

const CASES: [Case; 8] = [
    Case {
        w: 40,
        h: 40,
        effort: 0,
        key: 0,
        cuts: FOUR_TILES,
        first: (74, 3135848366),
        pieces: [
            (4839, 3345772541),
            (216, 1898237581),
            (21, 1764078263),
            (797, 3125374069),
        ],
    },
    Case {
        w: 40,
        h: 40,
        effort: 1,
        key: 2,
        cuts: FOUR_TILES,
        first: (74, 3135848366),
        pieces: [
            (3698, 2939698272),
            (216, 1898237581),
            (3698, 1421545712),
            (797, 88588933),
        ],
    },
    Case {
        w: 40,
        h: 40,
        effort: 2,
        key: 1,
        cuts: FOUR_TILES,
        first: (74, 3135848366),
        pieces: [
            (3665, 2023694627),
            (3665, 505542067),
            (3665, 505542067),
            (3665, 1742869683),
        ],
    },
    Case {
        w: 33,
        h: 9,
        effort: 1,
        key: 0,
        cuts: TWO_TILES,
        first: (76, 194078099),
        pieces: [
            (1394, 3579646791),
            (334, 644472231),
            (11, 3868310582),
            (322, 2267496377),
        ],
    },
    Case {
        w: 64,
        h: 32,
        effort: 2,
        key: 2,
        cuts: TWO_TILES,
        first: (74, 3055986167),
        pieces: [
            (5263, 4146906631),
            (2413, 1241352474),
            (4531, 913516288),
            (3086, 2791253912),
        ],
    },
    Case {
        w: 33,
        h: 70,
        effort: 1,
        key: 0,
        cuts: SIX_TILES,
        first: (76, 2172295654),
        pieces: [
            (5663, 3562391622),
            (75, 4117354779),
            (2350, 3979918311),
            (246, 129597851),
        ],
    },
    Case {
        w: 70,
        h: 33,
        effort: 1,
        key: 2,
        cuts: SIX_TILES,
        first: (76, 3629680796),
        pieces: [
            (6457, 3304529597),
            (80, 3611995486),
            (6460, 2444050901),
            (455, 3498056375),
        ],
    },
    Case {
        w: 96,
        h: 64,
        effort: 0,
        key: 3,
        cuts: SIX_TILES,
        first: (75, 371621772),
        pieces: [
            (18470, 1215123523),
            (3095, 812932995),
            (3095, 712309770),
            (18464, 544600547),
        ],
    },
];

// A sample of a pattern: bands, or a texture.
fn sample(pattern: u8, component: u32, x: u32, y: u32) -> u8
    requires component { component ≤ 2 }
    requires x { x < 8192 }
    requires y { y < 8192 }
{
    let pattern = u32::from(pattern);
    if pattern % 2 == 1 {
        return ((x / 5 * 20 * pattern + y / 3 * 9 * component + pattern) % 256) as u8;
    }
    ((x * y * 11 + x * (component + 1) + y * 13 + pattern * 5) % 256) as u8
}

// The samples of a tile with a pattern.
fn append_tile(samples: &mut Vec<u8>, size: Size, tile: u8, pattern: u8) -> Result<(), NoMemory> {
    let across = (size.w() + 31) / 32;
    let (left, top) = (u32::from(tile) % across * 32, u32::from(tile) / across * 32);
    for at in 0..3072u32 {
        let (x, y) = (left + at % 32, top + at / 32 % 32);
        let inside = x < size.w() && y < size.h();
        samples.push(if inside {
            sample(pattern, at / 1024, x, y)
        } else {
            0
        })?;
    }
    Ok(())
}

fn job(alloc: Global, size: Size, number: u32, list: &[(u8, u8)]) -> Result<Job, NoMemory> {
    let mut tiles = Vec::new(alloc);
    let mut samples = Vec::new(alloc);
    for (tile, pattern) in list {
        tiles.push(u32::from(*tile))?;
        append_tile(&mut samples, size, *tile, *pattern)?;
    }
    Ok(Job {
        number,
        tiles: Numbers::from_vec(tiles),
        samples: Bytes::from_vec(samples),
    })
}

// Whether a job is the next one of an encoder.
fn is_next(encoder: &SegmentEncoder, job: &Job) -> bool
    ensures tiles { IsTrue result → All (λ t. t < tile_count encoder.now.settings.size) job.now.tiles }
    ensures samples { IsTrue result → length job.now.samples ≡ length job.now.tiles * 3072 }
    ensures number { IsTrue result → job.now.number ≡ encoder.now.count }
    ensures few { IsTrue result → encoder.now.count < 2 ^ 32 - 1 }
{
    let size = encoder.history.size();
    let next = encoder.history.count();
    let count = (size.w() + 31) / 32 * ((size.h() + 31) / 32);
    let (tiles, samples) = (job.tiles.as_slice(), job.samples.as_slice());
    job.number == next
        && next < u32::MAX
        && samples.len() / 3072 == tiles.len()
        && samples.len() % 3072 == 0
        && tiles.iter().all(|tile| *tile < count)
}

// How many bytes there are, and their digest.
fn mark(bytes: &[u8]) -> (usize, u32) {
    let mut digest: u32 = 1;
    for byte in bytes {
        digest = digest.wrapping_mul(31).wrapping_add(u32::from(*byte));
    }
    (bytes.len(), digest)
}

#[test]
fn pictures_of_small_desktops(rt: HostRuntime) -> Result<(), Fail> {
    for case in CASES {
        let size = Size::new(case.w, case.h).ok_or("size")?;
        assert!(rt; case.effort <= 2);
        let mut encoder = SegmentEncoder::new(rt.alloc(), size, case.effort, case.key)?;
        assert_eq!(rt; mark(&encoder.first()?), case.first);
        for number in 0..4u32 {
            let (list, want) = (case.cuts[number as usize], case.pieces[number as usize]);
            let job = job(rt.alloc(), size, number, list)?;
            assert!(rt; is_next(&encoder, &job));
            let piece = encoder.next_alone(&job)?;
            assert_eq!(rt;
                mark(&piece),
                want,
                "{}x{}, effort {}, key {}, picture {number}",
                case.w,
                case.h,
                case.effort,
                case.key
            );
        }
    }
    Ok(())
}
