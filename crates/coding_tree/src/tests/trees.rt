//! The items of random coding trees, from an independent model of the recorder in Python.
ghost use Rattle.std.specs.Prelude.{◌≡◌, ◌<◌, ◌≤◌, ◌+◌, ◌*◌, ◌/◌, ◌%◌, ◌^◌, true, length, take, replicate, set, pos, IsTrue, IfSome};
ghost use Rattle.h265_model.specs.Tiles.{tile_count};
ghost use Rattle.h265_model.specs.Plain.{block_at, coded};
ghost use Rattle.h265_model.specs.Tree.{is_whole, IsMode, IsCodingUnit, IsTree, IsLawfulTree, AreAllowed};

use crate::{Block, Grid, Leaf, LevelSource, write_ctu};
use bin_items::{Bin, Item, ItemList, Place};
use h265_model::{CodingBlock, Kind, SliceKind};
use px_plane::Size;
use std::alloc::Global;
use std::process::Abort;
use std::test::Fail;

// One level and one sample for each unit and component, which may be 0.
#[derive(Drop)]
struct OneEach;

impl LevelSource for OneEach {
    ghost use Rattle.std.specs.Prelude.{◌+◌, ◌*◌, ◌/◌, ◌%◌, replicate, set, pos};
    ghost use Rattle.bin_items.specs.Square.{area, place};

    ghost source = { λ s. record {
      levels = λ leaf component. set (replicate (area leaf.block.log2) (pos 0)) (place leaf.block.log2 (leaf.block.x / 8 % 8) ((leaf.block.y / 8 + 3 * component) % 8))
          (pos ((leaf.block.x / 8 + leaf.block.y / 4 + component) % 4));
      samples = λ leaf component. set (replicate (area leaf.block.log2) 0) (place leaf.block.log2 (leaf.block.x / 8 % 8) ((leaf.block.y / 8 + 3 * component) % 8))
          ((leaf.block.x % 256 + 3 * (leaf.block.y % 256) + 50 * component) % 256);
    } };

    fn levels(&mut self, leaf: Leaf, component: u32, out: &mut Block) {
        let level = (leaf.block.x / 8 + leaf.block.y / 4 + component) % 4;
        *out = Block::zero(out.log2());
        out.set(
            leaf.block.x / 8 % 8,
            (leaf.block.y / 8 + 3 * component) % 8,
            i16::from(level as u8),
        );
    }

    fn samples(&mut self, leaf: Leaf, component: u32, out: &mut Block) {
        let sample = (leaf.block.x % 256 + 3 * (leaf.block.y % 256) + 50 * component) % 256;
        *out = Block::zero(out.log2());
        out.set(
            leaf.block.x / 8 % 8,
            (leaf.block.y / 8 + 3 * component) % 8,
            i16::from(sample as u8),
        );
    }
}

// A number that looks random.
fn number(seed: u32, x: u32, y: u32, log2: u32) -> u32 {
    let sum = seed
        .wrapping_mul(7919)
        .wrapping_add(x.wrapping_mul(31))
        .wrapping_add(y.wrapping_mul(173))
        .wrapping_add(log2.wrapping_mul(10007));
    let mixed = sum.wrapping_mul(2_654_435_761);
    (mixed ^ mixed >> 15).wrapping_mul(2_246_822_519) >> 16
}

fn kind_of(slice: SliceKind, number: u32) -> Kind {
    if slice == SliceKind::P && number % 3 == 0 {
        return Kind::Skip;
    }
    if number % 11 == 0 {
        return Kind::Pcm;
    }
    Kind::Intra(number % 35)
}

// A picture's slice kind and size, and what its trees are made from.
#[derive(Clone, Copy, Debug)]
struct Random {
    kind: SliceKind,
    size: Size,
    seed: u32,
}

// A side made whole blocks of 8.
fn coded_side(side: u32) -> u32
    requires { side ≤ 4096 }
    ensures { result ≡ coded side }
{
    (side + 7) / 8 * 8
}

// A unit of random side at a place.
fn unit_at(random: Random, x: u32, y: u32) -> Leaf
    requires x { x ≤ 5000 }
    requires y { y ≤ 5000 }
{
    let (w, h) = (coded_side(random.size.w()), coded_side(random.size.h()));
    let mut log2 = 3;
    for larger in 4..=5u32 {
        let side = 1 << larger;
        let is_whole = x % side == 0 && y % side == 0 && x + side <= w && y + side <= h;
        if is_whole && number(random.seed, x, y, larger) % 2 == 0 {
            log2 = larger;
        }
    }
    Leaf {
        block: CodingBlock { x, y, log2 },
        kind: kind_of(random.kind, number(random.seed, x, y, 0)),
    }
}

// The leaves of a random tree of the coding tree unit at a place.
fn random_tree(alloc: Global, random: Random, left: u32, top: u32) -> Result<Vec<Leaf>, Fail>
    requires left { left ≤ 4096 }
    requires top { top ≤ 4096 }
{
    let (w, h) = (coded_side(random.size.w()), coded_side(random.size.h()));
    let mut leaves = Vec::new(alloc);
    let mut next = 0u32;
    // blocks of 8 in the order of coding
    for block in 0..16u32 {
        let x = left + (block % 2 + block / 4 % 2 * 2) * 8;
        let y = top + (block / 2 % 2 + block / 8 * 2) * 8;
        if block < next || x >= w || y >= h {
            continue;
        }
        let leaf = unit_at(random, x, y);
        next = block
            + match leaf.block.log2 {
                3 => 1,
                4 => 4,
                _ => 16,
            };
        leaves.push(leaf)?;
    }
    Ok(leaves)
}

fn has_mode(kind: Kind) -> bool
    ensures { IsTrue result → IsMode kind }
{
    match kind {
        Kind::Intra(mode) => mode < 35,
        _ => true,
    }
}

// Whether the block of side 2 ^ log2 at a place is in the coded picture, and is the first leaf.
fn begins_with_unit(size: Size, log2: u32, x: u32, y: u32, leaves: &[Leaf]) -> bool
    requires log2 { log2 ≤ 5 }
    requires x { x ≤ 10000 }
    requires y { y ≤ 10000 }
    ensures some { IsTrue result → 0 < length leaves.now }
    ensures whole { IsTrue result → is_whole size (2 ^ log2) x y ≡ true }
    ensures unit { IsTrue result → IsCodingUnit (block_at x y log2) (take 1 leaves.now) }
{
    let Some(leaf) = leaves.first() else {
        return false;
    };
    let side = 1 << log2;
    let is_whole = x + side <= coded_side(size.w()) && y + side <= coded_side(size.h());
    is_whole
        && leaf.block.x == x
        && leaf.block.y == y
        && leaf.block.log2 == log2
        && has_mode(leaf.kind)
}

// How many leaves, from the first on, are a tree of the block of side 2 ^ (3 + depth) at a place.
fn tree_length(size: Size, depth: u32, x: u32, y: u32, leaves: &[Leaf]) -> Option<usize>
    requires depth { depth ≤ 2 }
    requires x { x + 64 * depth ≤ 10000 }
    requires y { y + 64 * depth ≤ 10000 }
    ensures few { IfSome result (λ n. n ≤ length leaves.now) }
    ensures tree { IfSome result (λ n. IsTree size depth x y (take n leaves.now)) }
{
    if x >= coded_side(size.w()) || y >= coded_side(size.h()) {
        return Some(0);
    }
    if begins_with_unit(size, 3 + depth, x, y, leaves) {
        return Some(1);
    }
    if depth == 0 {
        return None;
    }
    let half = 4 << depth;
    let first = tree_length(size, depth - 1, x, y, leaves)?;
    let second = first + tree_length(size, depth - 1, x + half, y, &leaves[first..])?;
    let third = second + tree_length(size, depth - 1, x, y + half, &leaves[second..])?;
    let fourth = third + tree_length(size, depth - 1, x + half, y + half, &leaves[third..])?;
    Some(fourth)
}

fn is_lawful(size: Size, ctu: u32, leaves: &[Leaf]) -> bool
    requires { ctu < tile_count size }
    ensures { IsTrue result → IsLawfulTree size ctu leaves.now }
{
    let columns = (size.w() + 31) / 32;
    let x = ctu % columns * 32;
    let y = ctu / columns * 32;
    match tree_length(size, 2, x, y, leaves) {
        Some(count) => count == leaves.len(),
        None => false,
    }
}

fn are_allowed(kind: SliceKind, leaves: &[Leaf]) -> bool
    ensures { IsTrue result → AreAllowed kind leaves.now }
{
    for leaf in leaves {
        if kind == SliceKind::I && leaf.kind == Kind::Skip {
            return false;
        }
    }
    true
}

// A digest of items, after an earlier one's.
fn digest_after(before: u64, items: &[Item]) -> u64 {
    let mut digest = before;
    for item in items {
        let number = match *item {
            Item::Bin(
                Bin {
                    value,
                    place: Place::Context(context),
                },
            ) => 2 + 2 * u64::from(context) + u64::from(value),
            Item::Bin(
                Bin {
                    value,
                    place: Place::Bypass,
                },
            ) => u64::from(value),
            Item::Bin(
                Bin {
                    value,
                    place: Place::Terminate,
                },
            ) => 300 + u64::from(value),
            Item::Sample(sample) => 1000 + u64::from(sample),
        };
        digest = (digest ^ number).wrapping_mul(0x100_0000_01B3);
    }
    digest
}

// How many items the random trees of a picture have, and their digest.
fn write_picture(rt: &impl Abort, alloc: Global, random: Random) -> Result<(usize, u64), Fail> {
    let size = random.size;
    let mut grid = Grid::new(alloc, size)?;
    let columns = (size.w() + 31) / 32;
    let mut count = 0usize;
    let mut digest = 0xCBF2_9CE4_8422_2325;
    for ctu in 0..columns * ((size.h() + 31) / 32) {
        let leaves = random_tree(alloc, random, ctu % columns * 32, ctu / columns * 32)?;
        assert!(rt; is_lawful(size, ctu, &leaves) && are_allowed(random.kind, &leaves));
        let mut items = ItemList::new(alloc);
        write_ctu(
            &mut items,
            random.kind,
            &mut grid,
            size,
            ctu,
            &leaves,
            &mut OneEach,
        )?;
        count = count.wrapping_add(items.as_slice().len());
        digest = digest_after(digest, items.as_slice());
    }
    Ok((count, digest))
}

// Slice kind, seed, width, height, and the count of items and their digest.
const PICTURES: [(SliceKind, u32, u32, u32, usize, u64); 30] = [
    (SliceKind::I, 700, 1, 1, 67, 0x889B7BCC4409B227),
    (SliceKind::I, 701, 8, 24, 162, 0xCBDC4AFF01670686),
    (SliceKind::I, 702, 17, 9, 191, 0xF2651182EDF4ACC0),
    (SliceKind::I, 703, 33, 57, 748, 0xDEEDBBD8827DE898),
    (SliceKind::I, 704, 57, 33, 2087, 0x86434E44E73F4BFE),
    (SliceKind::I, 705, 72, 56, 3244, 0xE1B67210FC40E0DD),
    (SliceKind::I, 706, 80, 80, 2324, 0x87CB8DEBB9F3C427),
    (SliceKind::I, 707, 88, 72, 6145, 0xC16EE077CAFDC5AE),
    (SliceKind::I, 708, 96, 96, 7779, 0xFF09FFA55BA2F7EA),
    (SliceKind::I, 709, 120, 41, 4047, 0xE52B3F46B45CBDE1),
    (SliceKind::I, 710, 64, 128, 4962, 0x1AA31CE4ED69FFA0),
    (SliceKind::I, 711, 103, 104, 12557, 0x1BDF26FD0398D3A5),
    (SliceKind::I, 712, 30, 70, 3647, 0xE147E1CDBEB75998),
    (SliceKind::I, 713, 128, 96, 4094, 0xEF0DBE6BFD5E2B3E),
    (SliceKind::I, 714, 90, 90, 6881, 0xFEAAE5F40C289326),
    (SliceKind::P, 700, 1, 1, 69, 0x49F044BEE02A5146),
    (SliceKind::P, 701, 8, 24, 168, 0xE91F4B88D0F67503),
    (SliceKind::P, 702, 17, 9, 62, 0x5955D3B981C639CE),
    (SliceKind::P, 703, 33, 57, 486, 0xC2E50EAF2B3E35F5),
    (SliceKind::P, 704, 57, 33, 1145, 0xAE76A741660B15F0),
    (SliceKind::P, 705, 72, 56, 2609, 0x33CEA15006A02959),
    (SliceKind::P, 706, 80, 80, 1535, 0xA97DA85437143AEB),
    (SliceKind::P, 707, 88, 72, 4845, 0x0D55C40E2A15187E),
    (SliceKind::P, 708, 96, 96, 6544, 0x27E404B91DE9712C),
    (SliceKind::P, 709, 120, 41, 2194, 0xB5378E3057FB1F0B),
    (SliceKind::P, 710, 64, 128, 3690, 0x3C01802B3A2FCD37),
    (SliceKind::P, 711, 103, 104, 9385, 0xEDA9AFA0D7E2B8A8),
    (SliceKind::P, 712, 30, 70, 535, 0x78BB7BCF6B20AE68),
    (SliceKind::P, 713, 128, 96, 2745, 0x977DC89B80DA271F),
    (SliceKind::P, 714, 90, 90, 4365, 0x897774B92B70AFDE),
];

// 100 trees of each slice kind: the table's pictures have all ways to split a whole unit once, and units cut off on both sides.
#[test]
fn writes_random_trees(rt: HostRuntime) -> Result<(), Fail> {
    for (kind, seed, w, h, count, digest) in PICTURES {
        let size = Size::new(w, h).ok_or("size")?;
        let random = Random { kind, size, seed };
        let found = write_picture(&rt, rt.alloc(), random)?;
        assert_eq!(rt; found, (count, digest), "{random:?}");
    }
    Ok(())
}
