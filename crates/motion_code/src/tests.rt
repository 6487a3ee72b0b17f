//! The items of random coding units, moved and not, from an independent model of the recorder in Python.
ghost use Rattle.std.specs.Prelude.{◌≡◌, ◌<◌, ◌≤◌, ◌+◌, ◌%◌, ◌^◌, nat_abs, IsTrue, OnOk};
ghost use Rattle.h265_model.specs.Plain.{coded};
ghost use Rattle.h265_model.specs.Motion.{kind_as_coded};
ghost use Rattle.h265_model.specs.Tree.{IsMode};
ghost use Rattle.h265_model.specs.declared.leaf.SliceKind.TheVariants.{I, P};
ghost use Rattle.bin_items.specs.Growth.{IsOpen};
ghost use Rattle.motion_code.specs.Moves.{HasShort, MayStand};

use crate::unit::write_unit;
use crate::{
    BinSink, Block, CodingBlock, Grid, Leaf, LevelSource, MotionGrid, MoveKind, MoveLeaf, NoMemory,
    SliceKind, Vector, write_ctu_moves,
};
use bin_items::{Bin, Item, ItemList, Place};
use px_plane::Size;
use std::alloc::Global;
use std::test::Fail;

// No level and no sample but 0.
#[derive(Drop)]
struct Flat;

impl LevelSource for Flat {
    ghost use Rattle.std.specs.Prelude.{replicate, pos};
    ghost use Rattle.bin_items.specs.Square.{area};

    ghost source = { λ s. record {
      levels = λ leaf component. replicate (area leaf.block.log2) (pos 0);
      samples = λ leaf component. replicate (area leaf.block.log2) 0;
    } };

    fn levels(&mut self, _leaf: Leaf, _component: u32, out: &mut Block) {
        *out = Block::zero(out.log2());
    }

    fn samples(&mut self, _leaf: Leaf, _component: u32, out: &mut Block) {
        *out = Block::zero(out.log2());
    }
}

// A number that looks random.
fn number(seed: u32, x: u32, y: u32, log2: u32) -> u32 {
    let sum = seed
        .wrapping_mul(7919)
        .wrapping_add(x.wrapping_mul(31))
        .wrapping_add(y.wrapping_mul(173))
        .wrapping_add(log2.wrapping_mul(10007));
    let mixed = sum.wrapping_mul(2_654_435_761);
    (mixed ^ mixed >> 15).wrapping_mul(2_246_822_519) >> 16
}

// No motion, vectors in each direction, near ones and the longest.
fn vector_of(number: u32) -> Vector
    ensures x { nat_abs result.x ≤ 4095 }
    ensures y { nat_abs result.y ≤ 4095 }
{
    let (x, y) = match number % 8 {
        0 => (0, 0),
        1 => (0, -8),
        2 => (-3, 5),
        3 => (16, 0),
        4 => (64, -64),
        5 => (-1, 0),
        6 => (7, 7),
        _ => (-4095, 4095),
    };
    Vector { x, y }
}

// The kind of a unit that isn't copied.
fn own_kind(number: u32) -> MoveKind
    ensures still { MayStand I result }
    ensures allowed { MayStand P result }
    ensures mode { IsMode (kind_as_coded result) }
{
    if number % 11 == 0 {
        return MoveKind::Pcm;
    }
    MoveKind::Intra(number % 35)
}

// The kind of a unit of a P slice.
fn moved_kind(number: u32) -> MoveKind
    ensures allowed { MayStand P result }
    ensures mode { IsMode (kind_as_coded result) }
{
    match number % 3 {
        0 => MoveKind::Skip,
        1 => MoveKind::Move(vector_of(number / 3)),
        _ => own_kind(number),
    }
}

fn kind_of(slice: SliceKind, number: u32) -> MoveKind
    ensures allowed { MayStand slice result }
    ensures mode { IsMode (kind_as_coded result) }
{
    match slice {
        SliceKind::I => own_kind(number),
        SliceKind::P => moved_kind(number),
    }
}

// A picture's slice kind and size, and what its trees are made from.
#[derive(Clone, Copy, Debug)]
struct Random {
    kind: SliceKind,
    size: Size,
    seed: u32,
}

// A side made whole blocks of 8.
fn coded_side(side: u32) -> u32
    requires { side ≤ 4096 }
    ensures { result ≡ coded side }
{
    (side + 7) / 8 * 8
}

fn side(log2: u32) -> u32
    requires low { 3 ≤ log2 }
    requires high { log2 ≤ 5 }
    ensures { result ≡ 2 ^ log2 }
{
    match log2 {
        3 => 8,
        4 => 16,
        _ => 32,
    }
}

// Whether a block lies in the coded picture, at multiples of its side.
fn is_inside(size: Size, block: CodingBlock) -> bool
    ensures low { IsTrue result → 3 ≤ block.log2 }
    ensures high { IsTrue result → block.log2 ≤ 5 }
    ensures column { IsTrue result → block.x % 2 ^ block.log2 ≡ 0 }
    ensures row { IsTrue result → block.y % 2 ^ block.log2 ≡ 0 }
    ensures across { IsTrue result → block.x + 2 ^ block.log2 ≤ coded size.w }
    ensures down { IsTrue result → block.y + 2 ^ block.log2 ≤ coded size.h }
{
    let CodingBlock { x, y, log2 } = block;
    if log2 < 3 || log2 > 5 || x > 4096 || y > 4096 {
        return false;
    }
    let n = side(log2);
    let is_whole = x + n <= coded_side(size.w()) && y + n <= coded_side(size.h());
    x % n == 0 && y % n == 0 && is_whole
}

// A unit of random side at a place.
fn unit_at(random: Random, x: u32, y: u32) -> MoveLeaf
    ensures allowed { MayStand random.kind result.kind }
    ensures mode { IsMode (kind_as_coded result.kind) }
{
    let large = CodingBlock { x, y, log2: 5 };
    let middle = CodingBlock { x, y, log2: 4 };
    let log2 = if is_inside(random.size, large) && number(random.seed, x, y, 5) % 2 == 0 {
        5
    } else if is_inside(random.size, middle) && number(random.seed, x, y, 4) % 2 == 0 {
        4
    } else {
        3
    };
    MoveLeaf {
        block: CodingBlock { x, y, log2 },
        kind: kind_of(random.kind, number(random.seed, x, y, 0)),
    }
}

// Writes the units of a random tree, each with its flags.
fn write_tree<S: BinSink>(
    sink: &mut S,
    grid: &mut Grid,
    motion: &mut MotionGrid,
    random: Random,
    left: u32,
    top: u32,
) -> Result<(), NoMemory>
    requires grid { grid.old.size ≡ random.size }
    requires motion { motion.old.size ≡ random.size }
    requires short { HasShort motion.old }
    requires left { left ≤ 4096 }
    requires top { top ≤ 4096 }
    requires opened { IsOpen (S.phase sink.old) }
    ensures grid { grid.new.size ≡ random.size }
    ensures motion { motion.new.size ≡ random.size }
    ensures short { HasShort motion.new }
    ensures opened { OnOk result (IsOpen (S.phase sink.new)) }
{
    let mut next = 0u32;
    // blocks of 8 in the order of coding
    for block in 0..16u32 {
        let x = left + (block % 2 + block / 4 % 2 * 2) * 8;
        let y = top + (block / 2 % 2 + block / 8 * 2) * 8;
        let unit = unit_at(random, x, y);
        if block < next || !is_inside(random.size, unit.block) {
            continue;
        }
        write_unit(
            sink,
            random.kind,
            grid,
            motion,
            random.size,
            unit,
            &mut Flat,
        )?;
        next = block
            + match unit.block.log2 {
                3 => 1,
                4 => 4,
                _ => 16,
            };
    }
    Ok(())
}

// A digest of items.
fn digest_of(items: &[Item]) -> u64 {
    let mut digest = 0xCBF2_9CE4_8422_2325;
    for item in items {
        let number = match *item {
            Item::Bin(
                Bin {
                    value,
                    place: Place::Context(context),
                },
            ) => 2 + 2 * u64::from(context) + u64::from(value),
            Item::Bin(
                Bin {
                    value,
                    place: Place::Bypass,
                },
            ) => u64::from(value),
            Item::Bin(
                Bin {
                    value,
                    place: Place::Terminate,
                },
            ) => 300 + u64::from(value),
            Item::Sample(sample) => 1000 + u64::from(sample),
        };
        digest = (digest ^ number).wrapping_mul(0x100_0000_01B3);
    }
    digest
}

// Writes the random trees of a picture.
fn write_trees<S: BinSink>(
    sink: &mut S,
    grid: &mut Grid,
    motion: &mut MotionGrid,
    random: Random,
) -> Result<(), NoMemory>
    requires grid { grid.old.size ≡ random.size }
    requires motion { motion.old.size ≡ random.size }
    requires short { HasShort motion.old }
    requires opened { IsOpen (S.phase sink.old) }
{
    let (w, h) = (random.size.w(), random.size.h());
    let columns = (w + 31) / 32;
    for ctu in 0..columns * ((h + 31) / 32) {
        let left = ctu % columns * 32;
        let top = ctu / columns * 32;
        write_tree(sink, grid, motion, random, left, top)?;
    }
    Ok(())
}

// How many items the random trees of a picture have, and their digest.
fn write_picture(alloc: Global, random: Random) -> Result<(usize, u64), Fail> {
    let mut grid = Grid::new(alloc, random.size)?;
    let mut motion = MotionGrid::new(alloc, random.size)?;
    let mut items = ItemList::new(alloc);
    write_trees(&mut items, &mut grid, &mut motion, random)?;
    Ok((items.as_slice().len(), digest_of(items.as_slice())))
}

// Slice kind, seed, width, height, and the count of items and their digest.
const PICTURES: [(SliceKind, u32, u32, u32, usize, u64); 12] = [
    (SliceKind::I, 800, 33, 57, 3192, 0x5093A9CB8BB23501),
    (SliceKind::P, 800, 1, 1, 27, 0x8572027D3F940E31),
    (SliceKind::P, 801, 8, 24, 33, 0x2A889EC421C3A7D1),
    (SliceKind::P, 802, 17, 9, 69, 0x75EE56F02A8419CC),
    (SliceKind::P, 803, 33, 57, 1034, 0x16E93FB24BC2239B),
    (SliceKind::P, 804, 57, 33, 202, 0xA041BFFF227DF153),
    (SliceKind::P, 805, 72, 56, 685, 0x4588500979D29F33),
    (SliceKind::P, 806, 80, 80, 515, 0x9DB7A938E1D23271),
    (SliceKind::P, 807, 88, 72, 1486, 0x5C5B4B1D8AC9F4D6),
    (SliceKind::P, 808, 96, 96, 4206, 0xF70F42C60AC729DC),
    (SliceKind::P, 809, 120, 41, 565, 0x999EF5E553F358E3),
    (SliceKind::P, 810, 64, 128, 778, 0xC02729E72B421EEA),
];

#[test]
fn writes_random_units(rt: HostRuntime) -> Result<(), Fail> {
    for (kind, seed, w, h, count, digest) in PICTURES {
        let size = Size::new(w, h).ok_or("size")?;
        let random = Random { kind, size, seed };
        let found = write_picture(rt.alloc(), random)?;
        assert_eq!(rt; found, (count, digest), "{random:?}");
    }
    Ok(())
}

// Writes a coding tree unit of one unit of side 32, of a picture of 128x64.
fn write_whole<S: BinSink>(
    sink: &mut S,
    grid: &mut Grid,
    motion: &mut MotionGrid,
    size: Size,
    ctu: u32,
    kind: MoveKind,
) -> Result<(), NoMemory>
    requires size { size ≡ record { w = 128; h = 64 } }
    requires grid { grid.old.size ≡ size }
    requires motion { motion.old.size ≡ size }
    requires short { HasShort motion.old }
    requires ctu { ctu < 8 }
    requires allowed { MayStand P kind }
    requires mode { IsMode (kind_as_coded kind) }
    requires opened { IsOpen (S.phase sink.old) }
    ensures grid { grid.new.size ≡ size }
    ensures motion { motion.new.size ≡ size }
    ensures short { HasShort motion.new }
    ensures opened { OnOk result (IsOpen (S.phase sink.new)) }
{
    let block = CodingBlock {
        x: ctu % 4 * 32,
        y: ctu / 4 * 32,
        log2: 5,
    };
    let units = [MoveLeaf { block, kind }];
    write_ctu_moves(
        sink,
        SliceKind::P,
        grid,
        motion,
        size,
        ctu,
        &units,
        &mut Flat,
    )
}

// The number of a unit's kind for each coding tree unit, and the count of items up to it and their digest.
const WHOLE: [(u32, usize, u64); 8] = [
    // moved by (0, -8)
    (4, 22, 0x29D9BE13B0012E20),
    // skip
    (0, 25, 0xF886CC90EF1627A2),
    // moved by (-3, 5)
    (7, 53, 0x81D72675B9391F9B),
    // mode 26
    (26, 65, 0x2F9789F100D42D74),
    // skip
    (0, 68, 0xD2604DF8D2E81766),
    // moved by (16, 0)
    (10, 104, 0x320B5A06ED166F39),
    // pcm
    (11, 3181, 0x1530004562AB445C),
    // moved by (-3, 5)
    (7, 3191, 0x39C63FEDA041889E),
];

// Writes the first coding tree units of one unit each.
fn write_first<S: BinSink>(
    sink: &mut S,
    grid: &mut Grid,
    motion: &mut MotionGrid,
    size: Size,
    count: u32,
) -> Result<(), NoMemory>
    requires size { size ≡ record { w = 128; h = 64 } }
    requires grid { grid.old.size ≡ size }
    requires motion { motion.old.size ≡ size }
    requires short { HasShort motion.old }
    requires count { count ≤ 8 }
    requires opened { IsOpen (S.phase sink.old) }
{
    for ctu in 0..count {
        let (number, _items, _digest) = WHOLE[ctu as usize];
        write_whole(sink, grid, motion, size, ctu, moved_kind(number))?;
    }
    Ok(())
}

// How many items these coding tree units have, and their digest.
fn write_whole_units(alloc: Global, count: u32) -> Result<(usize, u64), Fail>
    requires { count ≤ 8 }
{
    let size = Size::new(128, 64).ok_or("size")?;
    let mut grid = Grid::new(alloc, size)?;
    let mut motion = MotionGrid::new(alloc, size)?;
    let mut items = ItemList::new(alloc);
    write_first(&mut items, &mut grid, &mut motion, size, count)?;
    Ok((items.as_slice().len(), digest_of(items.as_slice())))
}

#[test]
fn writes_moved_units(rt: HostRuntime) -> Result<(), Fail> {
    for ctu in 0..8u32 {
        let (_number, count, digest) = WHOLE[ctu as usize];
        let found = write_whole_units(rt.alloc(), ctu + 1)?;
        assert_eq!(rt; found, (count, digest), "coding tree unit {ctu}");
    }
    Ok(())
}
