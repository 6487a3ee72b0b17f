//! Copies in a coding tree unit, from an independent model of the recorder in Python (checks/unit_tables).
ghost use Rattle.std.specs.Prelude.{◌≡◌, ◌<◌, IfOk};
ghost use Rattle.vector_search.specs.Copies.{Search, IsBlockOf};

use super::VectorSearch;
use h265_model::{CodingBlock, Vector};
use px_plane::{Picture, Rect, Rgb, Size};
use std::alloc::Global;
use std::test::Fail;

// The place of the coding tree unit.
const LEFT: u32 = 64;

const TOP: u32 = 32;

fn colour(x: u32, y: u32) -> Rgb
    requires x { x < 94 }
    requires y { y < 70 }
{
    let number = (x * 94 + y).wrapping_mul(2_654_435_761);
    Rgb {
        r: (number >> 24) as u8,
        g: (number >> 16 & 255) as u8,
        b: (number >> 8 & 255) as u8,
    }
}

fn black(alloc: Global) -> Result<Picture, Fail>
    ensures { IfOk result (λ p. p.size ≡ record { w = 94; h = 70 }) }
{
    let size = Size::new(94, 70).ok_or("size")?;
    Ok(Picture::black(alloc, size)?)
}

// A picture of noise.
fn noise(alloc: Global) -> Result<Picture, Fail>
    ensures { IfOk result (λ p. p.size ≡ record { w = 94; h = 70 }) }
{
    let mut picture = black(alloc)?;
    let mut pixels = [Rgb { r: 0, g: 0, b: 0 }; 94];
    for y in 0..70u32 {
        for x in 0..94u32 {
            pixels[x as usize] = colour(x, y);
        }
        let row = Rect {
            x: 0,
            y,
            w: 94,
            h: 1,
        };
        picture.blit(row, &pixels);
    }
    Ok(picture)
}

// Where squares of 8 of the coding tree unit come from, by their numbers in rows of four.
const SOURCES: [(u32, u32, u32); 11] = [
    (0, 0, 32),
    (1, 8, 32),
    (4, 0, 40),
    (5, 72, 32),
    (8, 64, 56),
    (9, 72, 56),
    (11, 88, 57),
    (12, 64, 64),
    (13, 72, 64),
    (14, 83, 54),
    (15, 88, 56),
];

// The picture after that one: squares of it, one colour above on the right, and one sample changed.
fn moved(last: &Picture) -> Result<Picture, Fail>
    requires { last.now.size ≡ record { w = 94; h = 70 } }
    ensures { IfOk result (λ p. p.size ≡ record { w = 94; h = 70 }) }
{
    let mut now = last.twin()?;
    for (k, x, y) in SOURCES {
        if k < 16 && x <= 88 && y <= 64 {
            now.copy_block(last, x, y, LEFT + k % 4 * 8, TOP + k / 4 * 8, 8);
        }
    }
    let area = Rect {
        x: LEFT + 16,
        y: TOP,
        w: 14,
        h: 16,
    };
    now.fill(area, Rgb { r: 9, g: 7, b: 8 });
    let place = Rect {
        x: 93,
        y: 58,
        w: 1,
        h: 1,
    };
    let Rgb { r, g, b } = colour(93, 58);
    now.fill(place, Rgb { r: r ^ 1, g, b });
    Ok(now)
}

// A block of the coding tree unit: 16 of side 8, 4 of side 16, 1 of side 32.
fn block_of(n: u32) -> CodingBlock
    requires { n < 21 }
    ensures { (s : Search) → s.current.size ≡ record { w = 94; h = 70 } → s.x ≡ 64 → s.y ≡ 32 → IsBlockOf s result }
{
    if n < 16 {
        return CodingBlock {
            x: LEFT + n % 4 * 8,
            y: TOP + n / 4 * 8,
            log2: 3,
        };
    }
    if n < 20 {
        return CodingBlock {
            x: LEFT + n % 2 * 16,
            y: TOP + (n - 16) / 2 * 16,
            log2: 4,
        };
    }
    CodingBlock {
        x: LEFT,
        y: TOP,
        log2: 5,
    }
}

// The first vector of each block, if any.
const FIRST: [Option<(i32, i32)>; 21] = [
    Some((-64, 0)),
    Some((-64, 0)),
    None,
    None,
    Some((-64, 0)),
    Some((0, -8)),
    None,
    None,
    Some((0, 8)),
    Some((0, 8)),
    Some((0, 0)),
    Some((0, 9)),
    Some((0, 8)),
    Some((0, 8)),
    None,
    None,
    None,
    None,
    Some((0, 8)),
    None,
    None,
];

#[test]
fn first_copies(rt: HostRuntime) -> Result<(), Fail> {
    let last = noise(rt.alloc())?;
    let now = moved(&last)?;
    let mut search = VectorSearch::new(&last, &now, LEFT, TOP);
    for n in 0..21u32 {
        let found = match search.first_copy(block_of(n)) {
            Some(vector) => Some((vector.x, vector.y)),
            None => None,
        };
        assert_eq!(rt; found, FIRST[n as usize], "block {n}");
    }
    Ok(())
}

#[test]
fn copies_by_a_vector(rt: HostRuntime) -> Result<(), Fail> {
    let last = noise(rt.alloc())?;
    let now = moved(&last)?;
    let search = VectorSearch::new(&last, &now, LEFT, TOP);
    for (n, x, y, expected) in [
        (0, -64, 0, true),
        (0, -65, 0, false),
        (0, -63, 0, false),
        (10, 0, 0, true),
        (14, 3, -2, true),
        (14, 3, -1, false),
        (15, 0, 0, false),
        (18, 0, 8, true),
        (18, 0, 9, false),
        (18, 0, -2147483648, false),
        (18, 2147483647, 8, false),
        (20, 0, 0, false),
    ] {
        assert!(rt; n < 21);
        let copied = search.is_copy(block_of(n), Vector { x, y });
        assert_eq!(rt; copied, expected, "block {n} by ({x}, {y})");
    }
    Ok(())
}

// A source may touch the end of the coded picture, beyond the desktop, and no more.
#[test]
fn sources_at_the_end(rt: HostRuntime) -> Result<(), Fail> {
    let last = black(rt.alloc())?;
    let now = black(rt.alloc())?;
    let search = VectorSearch::new(&last, &now, LEFT, TOP);
    for (n, x, y, expected) in [
        (3, 0, 0, true),
        (3, 1, 0, false),
        (2, 8, 0, true),
        (2, 9, 0, false),
        (12, 0, 8, true),
        (12, 0, 9, false),
        (20, -64, -32, true),
        (20, -65, -32, false),
        (20, -64, -33, false),
    ] {
        assert!(rt; n < 21);
        let copied = search.is_copy(block_of(n), Vector { x, y });
        assert_eq!(rt; copied, expected, "block {n} by ({x}, {y})");
    }
    Ok(())
}
