//! The cheapest units of a coding tree unit, from an independent model of the recorder in Python (checks/unit_tables).
ghost use Rattle.std.specs.Prelude.{◌≡◌, ◌<◌, ◌≤◌, IfOk};
ghost use Rattle.vector_search.specs.Copies.{Search, IsBlockOf};

use super::UnitChoice;
use h265_model::{CodingBlock, MoveKind, Vector};
use px_plane::{Picture, Rect, Rgb, Size};
use std::alloc::Global;
use std::test::Fail;

// The place of the coding tree unit.
const LEFT: u32 = 64;

const TOP: u32 = 32;

fn colour(x: u32, y: u32) -> Rgb
    requires x { x < 94 }
    requires y { y < 70 }
{
    let number = (x * 94 + y).wrapping_mul(2_654_435_761);
    Rgb {
        r: (number >> 24) as u8,
        g: (number >> 16 & 255) as u8,
        b: (number >> 8 & 255) as u8,
    }
}

// A picture of noise.
fn noise(alloc: Global) -> Result<Picture, Fail>
    ensures { IfOk result (λ p. p.size ≡ record { w = 94; h = 70 }) }
{
    let size = Size::new(94, 70).ok_or("size")?;
    let mut picture = Picture::black(alloc, size)?;
    let mut pixels = [Rgb { r: 0, g: 0, b: 0 }; 94];
    for y in 0..70u32 {
        for x in 0..94u32 {
            pixels[x as usize] = colour(x, y);
        }
        let row = Rect {
            x: 0,
            y,
            w: 94,
            h: 1,
        };
        picture.blit(row, &pixels);
    }
    Ok(picture)
}

// Where squares of 8 of the coding tree unit come from, by their numbers in rows of four.
const SOURCES: [(u32, u32, u32); 11] = [
    (0, 0, 32),
    (1, 8, 32),
    (4, 0, 40),
    (5, 72, 32),
    (8, 64, 56),
    (9, 72, 56),
    (11, 88, 57),
    (12, 64, 64),
    (13, 72, 64),
    (14, 83, 54),
    (15, 88, 56),
];

// The picture after that one: squares of it, one colour above on the right, and one sample changed.
fn moved(last: &Picture) -> Result<Picture, Fail>
    requires { last.now.size ≡ record { w = 94; h = 70 } }
    ensures { IfOk result (λ p. p.size ≡ record { w = 94; h = 70 }) }
{
    let mut now = last.twin()?;
    for (k, x, y) in SOURCES {
        if k < 16 && x <= 88 && y <= 64 {
            now.copy_block(last, x, y, LEFT + k % 4 * 8, TOP + k / 4 * 8, 8);
        }
    }
    let area = Rect {
        x: LEFT + 16,
        y: TOP,
        w: 14,
        h: 16,
    };
    now.fill(area, Rgb { r: 9, g: 7, b: 8 });
    let place = Rect {
        x: 93,
        y: 58,
        w: 1,
        h: 1,
    };
    let Rgb { r, g, b } = colour(93, 58);
    now.fill(place, Rgb { r: r ^ 1, g, b });
    Ok(now)
}

// A block of the coding tree unit: 16 of side 8, 4 of side 16, 1 of side 32.
fn block_of(n: u32) -> CodingBlock
    requires { n < 21 }
    ensures { (s : Search) → s.current.size ≡ record { w = 94; h = 70 } → s.x ≡ 64 → s.y ≡ 32 → IsBlockOf s result }
{
    if n < 16 {
        return CodingBlock {
            x: LEFT + n % 4 * 8,
            y: TOP + n / 4 * 8,
            log2: 3,
        };
    }
    if n < 20 {
        return CodingBlock {
            x: LEFT + n % 2 * 16,
            y: TOP + (n - 16) / 2 * 16,
            log2: 4,
        };
    }
    CodingBlock {
        x: LEFT,
        y: TOP,
        log2: 5,
    }
}

fn kind_number(kind: MoveKind) -> u32 {
    match kind {
        MoveKind::Skip => 100,
        MoveKind::Pcm => 101,
        MoveKind::Intra(mode) => mode,
        MoveKind::Move(vector) => {
            let right = vector.x.wrapping_add(64).unsigned_abs();
            let down = vector.y.wrapping_add(64).unsigned_abs();
            right.wrapping_mul(129).wrapping_add(down).wrapping_add(200)
        }
    }
}

// What the cheapest units of all blocks cost together, and a digest of them.
fn units_of(last: &Picture, now: &Picture, effort: u32, merge: Vector) -> (u32, u32)
    requires effort { effort ≤ 2 }
    requires last { last.now.size ≡ record { w = 94; h = 70 } }
    requires now { now.now.size ≡ record { w = 94; h = 70 } }
{
    let mut choice = UnitChoice::new(last, now, effort, LEFT, TOP);
    let mut total: u32 = 0;
    let mut digest: u32 = 1;
    for n in 0..21u32 {
        let best = choice.best_unit(merge, block_of(n));
        total = total.wrapping_add(best.cost);
        for value in [best.cost, kind_number(best.unit.kind)] {
            digest = digest.wrapping_mul(31).wrapping_add(value);
        }
    }
    (total, digest)
}

#[test]
fn cheapest_units(rt: HostRuntime) -> Result<(), Fail> {
    let last = noise(rt.alloc())?;
    let now = moved(&last)?;
    for (effort, x, y, total, digest) in [
        (0, 0, 0, 52625, 2573364447u32),
        (0, -64, 0, 52595, 975767669u32),
        (0, 3, -2, 51081, 1710835018u32),
        (0, 0, 9, 52625, 2360538070u32),
        (1, 0, 0, 48453, 3679669946u32),
        (1, -64, 0, 48423, 2082073168u32),
        (1, 3, -2, 46909, 2817140517u32),
        (1, 0, 9, 48453, 3466843569u32),
        (2, 0, 0, 48369, 4046290951u32),
        (2, -64, 0, 48339, 2448694173u32),
        (2, 3, -2, 46825, 3183761522u32),
        (2, 0, 9, 48369, 3833464574u32),
    ] {
        assert!(rt; effort <= 2);
        let found = units_of(&last, &now, effort, Vector { x, y });
        assert_eq!(rt;
            found,
            (total, digest),
            "effort {effort}, merge vector ({x}, {y})"
        );
    }
    Ok(())
}
