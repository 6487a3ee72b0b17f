//! The coding units of small pictures, from an independent model of the recorder in Python.
ghost use Rattle.std.specs.Prelude.{◌≡◌, ◌<◌, ◌≤◌, ◌^◌, IfOk};
ghost use Rattle.h265_model.specs.Tiles.{tile_count};
ghost use Rattle.px_plane.specs.Planes.{picture_of};
ghost use Rattle.block_choice.specs.Plans.{IsSameTree};

use super::{MoveLeaves, plan_moves};
use h265_model::{MoveKind, MoveLeaf, Vector};
use motion_grid::MotionGrid;
use px_plane::{Picture, Rect, Rgb, Size};
use std::alloc::Global;
use std::test::Fail;

const WIDTH: usize = 72;

// A colour that changes from place to place.
fn colour(x: u32, y: u32) -> Rgb
    requires x { x < 100 }
    requires y { y < 100 }
{
    Rgb {
        r: ((x * y * 11 + x + y * 13) % 256) as u8,
        g: ((x * x * 3 + y * 7 + x * y) % 256) as u8,
        b: ((x * 5 + y * y * 3 + 60) % 256) as u8,
    }
}

// Moved by two columns on the left, by three rows on the right, and the same between, but for some places.
fn moved(x: u32, y: u32) -> Rgb
    requires x { x < 72 }
    requires y { y < 40 }
{
    if x >= 20 && x < 24 && y >= 18 && y < 22 {
        return Rgb {
            r: x as u8,
            g: y as u8,
            b: x as u8,
        };
    }
    if x < 16 && y >= 32 {
        return colour(y, x);
    }
    if x >= 40 && x < 48 && y < 8 {
        return Rgb { r: 9, g: 7, b: 8 };
    }
    if x < 32 {
        return colour(x + 2, y);
    }
    if x < 64 || y >= 32 {
        colour(x, y)
    } else {
        colour(x, y + 3)
    }
}

// A picture of 72 by 40.
fn picture(alloc: Global, is_moved: bool) -> Result<Picture, Fail>
    ensures { IfOk result (λ p. p.size ≡ record { w = 72; h = 40 }) }
{
    let size = Size::new(72, 40).ok_or("size")?;
    let mut picture = Picture::black(alloc, size)?;
    let mut pixels = [Rgb { r: 0, g: 0, b: 0 }; WIDTH];
    for y in 0..40u32 {
        for x in 0..72u32 {
            pixels[x as usize] = if is_moved { moved(x, y) } else { colour(x, y) };
        }
        let row = Rect {
            x: 0,
            y,
            w: 72,
            h: 1,
        };
        picture.blit(row, &pixels);
    }
    Ok(picture)
}

// A kind as three numbers.
fn numbers(kind: MoveKind) -> [u32; 3] {
    match kind {
        MoveKind::Skip => [100, 0, 0],
        MoveKind::Pcm => [101, 0, 0],
        MoveKind::Move(vector) => [102, (vector.x & 255) as u32, (vector.y & 255) as u32],
        MoveKind::Intra(mode) => [mode, 0, 0],
    }
}

// A digest of coding units.
fn digest_of(units: &[MoveLeaf]) -> u32 {
    let mut digest = 1u32;
    for unit in units {
        let [kind, x, y] = numbers(unit.kind);
        for value in [unit.block.x, unit.block.y, unit.block.log2, kind, x, y] {
            digest = digest.wrapping_mul(31).wrapping_add(value);
        }
    }
    digest
}

fn side(log2: u32) -> u32
    requires low { 3 ≤ log2 }
    requires high { log2 ≤ 5 }
    ensures { result ≡ 2 ^ log2 }
{
    match log2 {
        3 => 8,
        4 => 16,
        _ => 32,
    }
}

// Sets a unit in a grid, or answers `None` where it doesn't lie in the picture.
fn set(grid: &mut MotionGrid, unit: MoveLeaf) -> Option<()>
    requires { grid.old.size ≡ record { w = 72; h = 40 } }
    ensures { grid.new.size ≡ record { w = 72; h = 40 } }
{
    let block = unit.block;
    if block.log2 < 3 || block.log2 > 5 || block.x > 64 || block.y > 32 {
        return None;
    }
    let n = side(block.log2);
    if block.x % n != 0 || block.y % n != 0 || block.x + n > 72 || block.y + n > 40 {
        return None;
    }
    let vector: Option<Vector> = match unit.kind {
        MoveKind::Skip => Some(grid.merge(block)),
        MoveKind::Move(vector) => Some(vector),
        _ => None,
    };
    grid.set(block, vector);
    Some(())
}

fn set_all(grid: &mut MotionGrid, units: &[MoveLeaf]) -> Option<()>
    requires { grid.old.size ≡ record { w = 72; h = 40 } }
    ensures { grid.new.size ≡ record { w = 72; h = 40 } }
{
    for unit in units {
        set(grid, *unit)?;
    }
    Some(())
}

// The units of each coding tree unit: how many, and their digest.
const MOVED: [(usize, u32); 6] = [
    (7, 3215245862),
    (7, 2785071884),
    (4, 2778440009),
    (4, 2992720023),
    (4, 2757538647),
    (1, 2749507490),
];

#[test]
fn moved_units(rt: HostRuntime) -> Result<(), Fail> {
    let before = picture(rt.alloc(), false)?;
    let now = picture(rt.alloc(), true)?;
    for effort in 0..3u32 {
        let size = Size::new(72, 40).ok_or("size")?;
        let mut grid = MotionGrid::new(rt.alloc(), size)?;
        for ctu in 0..6u32 {
            let units: MoveLeaves = plan_moves(&before, &now, &grid, effort, ctu, true);
            let found = (units.len(), digest_of(units.as_slice()));
            assert_eq!(rt;
                found,
                MOVED[ctu as usize],
                "coding tree unit {ctu} with effort {effort}"
            );
            set_all(&mut grid, units.as_slice()).ok_or("a place")?;
        }
    }
    Ok(())
}

// The same where both pictures are one.
const STILL: [(usize, u32); 6] = [
    (1, 887748736),
    (1, 1803881568),
    (4, 3706655157),
    (4, 1273817301),
    (4, 2334836821),
    (1, 2749507490),
];

fn untouched(picture: &Picture, grid: &MotionGrid, ctu: u32) -> MoveLeaves
    requires picture { picture.now.size ≡ record { w = 72; h = 40 } }
    requires grid { grid.now.size ≡ record { w = 72; h = 40 } }
    requires ctu { ctu < 6 }
{
    plan_moves(picture, picture, grid, 1, ctu, false)
}

#[test]
fn untouched_units(rt: HostRuntime) -> Result<(), Fail> {
    let picture = picture(rt.alloc(), false)?;
    let size = Size::new(72, 40).ok_or("size")?;
    let mut grid = MotionGrid::new(rt.alloc(), size)?;
    for ctu in 0..6u32 {
        let units = untouched(&picture, &grid, ctu);
        let found = (units.len(), digest_of(units.as_slice()));
        assert_eq!(rt; found, STILL[ctu as usize], "coding tree unit {ctu}");
        set_all(&mut grid, units.as_slice()).ok_or("a place")?;
    }
    Ok(())
}
