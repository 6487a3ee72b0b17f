//! Merge vectors after chosen units, from an independent model of the recorder in Python.
ghost use Rattle.std.specs.Prelude.{◌≡◌, ◌≤◌, ◌^◌};

use super::{ChosenUnits, CodingBlock, MotionGrid, MoveKind, MoveLeaf, MoveLeaves, Vector};
use px_plane::Size;
use std::alloc::Global;
use std::test::Fail;

// The coding tree unit before, set in the grid: x, y, the base-2 logarithm of the side, and the vector.
const SET: [(u32, u32, u32, Option<(i32, i32)>); 10] = [
    (0, 0, 4, Some((0, 0))),
    (16, 0, 3, Some((-16, 0))),
    (24, 0, 3, Some((-16, 0))),
    (16, 8, 3, Some((0, 0))),
    (24, 8, 3, Some((0, 0))),
    (0, 16, 3, None),
    (8, 16, 3, Some((-16, 0))),
    (0, 24, 3, Some((8, 5))),
    (8, 24, 3, None),
    (16, 16, 4, None),
];

// The units that are chosen, each with the merge vector before it.
const CHOSEN: [(u32, u32, u32, MoveKind, (i32, i32)); 10] = [
    (32, 0, 3, MoveKind::Move(Vector { x: 3, y: -8 }), (-16, 0)),
    (40, 0, 3, MoveKind::Move(Vector { x: 0, y: 0 }), (3, -8)),
    (32, 8, 3, MoveKind::Move(Vector { x: 8, y: 5 }), (0, 0)),
    (40, 8, 3, MoveKind::Move(Vector { x: 0, y: 8 }), (8, 5)),
    (48, 0, 4, MoveKind::Pcm, (0, 8)),
    (32, 16, 3, MoveKind::Intra(33), (8, 5)),
    (40, 16, 3, MoveKind::Move(Vector { x: 0, y: 0 }), (0, 8)),
    (32, 24, 3, MoveKind::Skip, (0, 0)),
    (40, 24, 3, MoveKind::Intra(9), (0, 0)),
    (48, 16, 4, MoveKind::Skip, (0, 8)),
];

fn side(log2: u32) -> u32
    requires low { 3 ≤ log2 }
    requires high { log2 ≤ 5 }
    ensures { result ≡ 2 ^ log2 }
{
    match log2 {
        3 => 8,
        4 => 16,
        _ => 32,
    }
}

// Sets a unit, or answers `None` where it doesn't lie in the picture of 72 by 40.
fn set(grid: &mut MotionGrid, block: CodingBlock, vector: Option<(i32, i32)>) -> Option<()>
    requires { grid.old.size ≡ record { w = 72; h = 40 } }
    ensures { grid.new.size ≡ record { w = 72; h = 40 } }
{
    if block.log2 < 3 || block.log2 > 5 || block.x > 64 || block.y > 32 {
        return None;
    }
    let n = side(block.log2);
    if block.x % n != 0 || block.y % n != 0 || block.x + n > 72 || block.y + n > 40 {
        return None;
    }
    let vector = match vector {
        None => None,
        Some((x, y)) => Some(Vector { x, y }),
    };
    grid.set(block, vector);
    Some(())
}

fn filled(alloc: Global) -> Result<MotionGrid, Fail> {
    let size = Size::new(72, 40).ok_or("size")?;
    let mut grid = MotionGrid::new(alloc, size)?;
    for (x, y, log2, vector) in SET {
        set(&mut grid, CodingBlock { x, y, log2 }, vector).ok_or("a place")?;
    }
    Ok(grid)
}

// The merge vector of a unit, which is then chosen.
fn choose(chosen: &mut ChosenUnits, unit: MoveLeaf) -> Option<(i32, i32)> {
    let block = unit.block;
    if block.log2 < 3 || block.log2 > 5 || block.x > 64 || block.y > 32 || chosen.len() >= 16 {
        return None;
    }
    let merge = chosen.merge_vector(block);
    chosen.push(unit);
    Some((merge.x, merge.y))
}

#[test]
fn merge_vectors(rt: HostRuntime) -> Result<(), Fail> {
    let grid = filled(rt.alloc())?;
    let mut chosen = ChosenUnits::new(&grid);
    for start in [0usize, 4, 1] {
        chosen.truncate(start);
        for i in start..10 {
            let (x, y, log2, kind, told) = CHOSEN[i];
            let block = CodingBlock { x, y, log2 };
            let merge = choose(&mut chosen, MoveLeaf { block, kind }).ok_or("a place")?;
            assert_eq!(rt; merge, told, "merge at {x}, {y} after {start}");
        }
    }
    let leaves = chosen.leaves();
    assert_eq!(rt; leaves.len(), 10, "all units");
    let last = leaves.as_slice().last().ok_or("a unit")?;
    assert_eq!(rt; (last.block.x, last.block.y), (48, 16), "the last unit");
    Ok(())
}

#[test]
fn leaves_are_kept_in_front(rt: HostRuntime) -> Result<(), Fail> {
    let mut leaves = MoveLeaves::new();
    for x in 0..5u32 {
        let block = CodingBlock { x, y: 0, log2: 3 };
        let kind = MoveKind::Pcm;
        if leaves.len() < 16 {
            leaves.push(MoveLeaf { block, kind });
        }
    }
    leaves.truncate(3);
    assert_eq!(rt; leaves.len(), 3, "three are kept");
    let last = leaves.as_slice().last().ok_or("a unit")?;
    assert_eq!(rt; last.block.x, 2, "the third");
    Ok(())
}
