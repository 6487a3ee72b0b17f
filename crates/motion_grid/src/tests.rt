//! Merge vectors and predictors of units, from an independent model of the recorder in Python.
ghost use Rattle.std.specs.Prelude.{◌≡◌, ◌≤◌, ◌^◌, IfOk};

use super::{MotionGrid, Vector};
use h265_model::CodingBlock;
use px_plane::Size;
use std::alloc::Global;
use std::test::Fail;

// A grid of 72 by 40.
fn empty(alloc: Global) -> Result<MotionGrid, Fail>
    ensures { IfOk result (λ g. g.size ≡ record { w = 70; h = 40 }) }
{
    let size = Size::new(70, 40).ok_or("size")?;
    Ok(MotionGrid::new(alloc, size)?)
}

fn side(log2: u32) -> u32
    requires low { 3 ≤ log2 }
    requires high { log2 ≤ 5 }
    ensures { result ≡ 2 ^ log2 }
{
    match log2 {
        3 => 8,
        4 => 16,
        _ => 32,
    }
}

fn vector_of(vector: Option<(i32, i32)>) -> Option<Vector> {
    match vector {
        None => None,
        Some((x, y)) => Some(Vector { x, y }),
    }
}

fn parts(vector: Vector) -> (i32, i32) {
    (vector.x, vector.y)
}

type Told = (u32, u32, u32, Option<(i32, i32)>, [i32; 6]);

// Units, each with its vector, the merge vector before it and the two predictors.
const UNITS: [Told; 30] = [
    (0, 0, 3, Some((3, -8)), [0, 0, 0, 0, 0, 0]),
    (8, 0, 3, Some((-8, -8)), [3, -8, 3, -8, 0, 0]),
    (0, 8, 3, Some((-16, 0)), [3, -8, -8, -8, 0, 0]),
    (8, 8, 3, Some((-16, 0)), [-16, 0, -16, 0, -8, -8]),
    (16, 0, 4, Some((3, 8)), [-16, 0, -16, 0, 0, 0]),
    (0, 16, 4, None, [-16, 0, 3, 8, 0, 0]),
    (16, 16, 4, Some((0, 8)), [3, 8, 3, 8, 0, 0]),
    (32, 0, 4, Some((0, 8)), [3, 8, 0, 8, 0, 0]),
    (48, 0, 4, Some((-16, 8)), [0, 8, 0, 8, 0, 0]),
    (32, 16, 3, Some((-8, 8)), [0, 8, 0, 8, 0, 0]),
    (40, 16, 3, None, [-8, 8, -8, 8, -16, 8]),
    (32, 24, 3, Some((3, 8)), [0, 8, 0, 8, -8, 8]),
    (40, 24, 3, None, [3, 8, 3, 8, -8, 8]),
    (48, 16, 3, None, [-16, 8, -16, 8, 0, 0]),
    (56, 16, 3, Some((0, 0)), [-16, 8, -16, 8, 0, 0]),
    (48, 24, 3, None, [0, 0, 0, 0, 0, 0]),
    (56, 24, 3, Some((0, 0)), [0, 0, 0, 0, 0, 0]),
    (64, 0, 3, Some((8, -8)), [-16, 8, -16, 8, 0, 0]),
    (64, 8, 3, Some((-16, 8)), [-16, 8, 0, 0, 8, -8]),
    (64, 16, 3, Some((3, -8)), [0, 0, 0, 0, -16, 8]),
    (64, 24, 3, Some((8, -8)), [0, 0, 0, 0, 3, -8]),
    (0, 32, 3, Some((0, 0)), [0, 0, 0, 0, 0, 0]),
    (8, 32, 3, Some((0, 0)), [0, 0, 0, 0, 0, 8]),
    (16, 32, 3, None, [0, 0, 0, 0, 0, 8]),
    (24, 32, 3, Some((0, 8)), [0, 8, 3, 8, 0, 0]),
    (32, 32, 3, None, [0, 8, 0, 8, 3, 8]),
    (40, 32, 3, None, [3, 8, 3, 8, 0, 0]),
    (48, 32, 3, Some((8, 5)), [0, 0, 0, 0, 0, 0]),
    (56, 32, 3, None, [8, 5, 8, 5, 8, -8]),
    (64, 32, 3, Some((8, 5)), [8, -8, 8, -8, 0, 0]),
];

// Sets a unit, and gives the merge vector and the predictors that were told before, or `None` where it doesn't lie in the picture.
fn set(grid: &mut MotionGrid, block: CodingBlock, vector: Option<Vector>) -> Option<[Vector; 3]>
    requires { grid.old.size ≡ record { w = 70; h = 40 } }
    ensures { grid.new.size ≡ record { w = 70; h = 40 } }
{
    let CodingBlock { x, y, log2 } = block;
    if log2 < 3 || log2 > 5 || x > 64 || y > 32 {
        return None;
    }
    let n = side(log2);
    if x % n != 0 || y % n != 0 || x + n > 72 || y + n > 40 {
        return None;
    }
    let merge = grid.merge(block);
    let (first, second) = grid.predictors(block);
    grid.set(block, vector);
    Some([merge, first, second])
}

#[test]
fn neighbours_tell(rt: HostRuntime) -> Result<(), Fail> {
    let mut grid = empty(rt.alloc())?;
    for (x, y, log2, vector, told) in UNITS {
        let block = CodingBlock { x, y, log2 };
        let [merge, first, second] = set(&mut grid, block, vector_of(vector)).ok_or("a place")?;
        assert_eq!(rt; parts(merge), (told[0], told[1]), "merge at {x}, {y}");
        assert_eq!(rt; parts(first), (told[2], told[3]), "first at {x}, {y}");
        assert_eq!(rt; parts(second), (told[4], told[5]), "second at {x}, {y}");
    }
    grid.clear();
    let block = CodingBlock {
        x: 8,
        y: 8,
        log2: 3,
    };
    assert_eq!(rt; parts(grid.merge(block)), (0, 0), "cleared");
    Ok(())
}

// The vectors told at places of the grid of UNITS: not covered, not copied, copied.
const PLACES: [(u32, u32, Option<Option<(i32, i32)>>); 5] = [
    (0, 0, Some(Some((3, -8)))),
    (15, 31, Some(None)),
    (16, 16, Some(Some((0, 8)))),
    (71, 39, Some(Some((8, 5)))),
    (72, 0, None),
];

#[test]
fn places_tell(rt: HostRuntime) -> Result<(), Fail> {
    let mut grid = empty(rt.alloc())?;
    assert_eq!(rt; grid.vector_at(0, 0).is_some(), false, "no unit is set");
    for (x, y, log2, vector, _told) in UNITS {
        set(&mut grid, CodingBlock { x, y, log2 }, vector_of(vector)).ok_or("a place")?;
    }
    for (x, y, told) in PLACES {
        let found = match grid.vector_at(x, y) {
            None => None,
            Some(None) => Some(None),
            Some(Some(vector)) => Some(Some(parts(vector))),
        };
        assert_eq!(rt; found, told, "at {x}, {y}");
    }
    Ok(())
}
