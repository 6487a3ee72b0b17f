//! The items of coding units and split flags, from an independent model of the recorder in Python.
ghost use Rattle.std.specs.Prelude.{◌≡◌, ◌<◌, ◌≤◌, IfOk};
ghost use Rattle.h265_model.specs.Plain.{block_at, coded};
ghost use Rattle.h265_model.specs.Tree.{IsAllowed};
ghost use Rattle.pu_code.specs.Cells.{IsUnit};
ghost use Rattle.coding_tree.specs.Splits.{MayBeSplit};

use crate::{Block, Grid, Kind, Leaf, LevelSource, SliceKind, write_leaf, write_split};
use bin_items::{Bin, Item, ItemList, Place};
use h265_model::CodingBlock;
use px_plane::Size;
use std::alloc::Global;
use std::process::Abort;
use std::test::Fail;

// A level and a sample for each component, each in a byte, the first component's the lowest; all others are 0. They stand at this column and row for
// the first component, and a column to the right and three rows below for each later one.
#[derive(Clone, Copy, Debug)]
struct Spots {
    x: u32,
    y: u32,
    levels: u32,
    samples: u32,
}

impl LevelSource for Spots {
    ghost use Rattle.std.specs.Prelude.{◌+◌, ◌*◌, ◌/◌, ◌%◌, ◌^◌, replicate, set, pos};
    ghost use Rattle.bin_items.specs.Square.{area, place};

    ghost source = { λ s. record {
      levels = λ leaf component. set (replicate (area leaf.block.log2) (pos 0)) (place leaf.block.log2 ((s.x % 8 + component) % 8) ((s.y % 8 + 3 * component) % 8))
          (pos (s.levels / 2 ^ (8 * component) % 256));
      samples = λ leaf component. set (replicate (area leaf.block.log2) 0) (place leaf.block.log2 ((s.x % 8 + component) % 8) ((s.y % 8 + 3 * component) % 8))
          (s.samples / 2 ^ (8 * component) % 256);
    } };

    fn levels(&mut self, leaf: Leaf, component: u32, out: &mut Block) {
        let level = (self.levels >> (8 * component)) % 256;
        *out = Block::zero(out.log2());
        out.set(
            (self.x % 8 + component) % 8,
            (self.y % 8 + 3 * component) % 8,
            i16::from(level as u8),
        );
    }

    fn samples(&mut self, leaf: Leaf, component: u32, out: &mut Block) {
        let sample = (self.samples >> (8 * component)) % 256;
        *out = Block::zero(out.log2());
        out.set(
            (self.x % 8 + component) % 8,
            (self.y % 8 + 3 * component) % 8,
            i16::from(sample as u8),
        );
    }
}

const LUMA: Spots = Spots {
    x: 3,
    y: 4,
    levels: 0x000001,
    samples: 0xFF07C8,
};

const ALL: Spots = Spots {
    x: 1,
    y: 0,
    levels: 0x018005,
    samples: 0x020100,
};

const CB: Spots = Spots {
    x: 5,
    y: 5,
    levels: 0x000300,
    samples: 0x000000,
};

const NONE: Spots = Spots {
    x: 7,
    y: 7,
    levels: 0x000000,
    samples: 0x000009,
};

const LUMA_CR: Spots = Spots {
    x: 2,
    y: 6,
    levels: 0x02007F,
    samples: 0x800000,
};

// An item as a number: twice a context's number and the value, 300 and a bypass bin's value, 302 and a terminating bin's.
fn number_of(item: Item) -> u64 {
    match item {
        Item::Bin(
            Bin {
                value,
                place: Place::Context(context),
            },
        ) => 2 * u64::from(context) + u64::from(value),
        Item::Bin(
            Bin {
                value,
                place: Place::Bypass,
            },
        ) => 300 + u64::from(value),
        Item::Bin(
            Bin {
                value,
                place: Place::Terminate,
            },
        ) => 302 + u64::from(value),
        Item::Sample(sample) => 1000 + u64::from(sample),
    }
}

// The sample at a place, of which these aren't 0.
fn sample_at(spots: &[(usize, u8)], place: usize) -> u8 {
    for (at, sample) in spots {
        if *at == place {
            return *sample;
        }
    }
    0
}

// Whether the items are bins of these numbers, and then as many samples, of which these aren't 0.
fn are_items(items: &[Item], bins: &[u64], count: usize, spots: &[(usize, u8)]) -> bool {
    let Some((front, samples)) = items.split_at_checked(bins.len()) else {
        return false;
    };
    front
        .iter()
        .zip(bins)
        .all(|(item, bin)| number_of(*item) == *bin)
        && samples.len() == count
        && samples
            .iter()
            .enumerate()
            .all(|(i, item)| *item == Item::Sample(sample_at(spots, i)))
}

fn leaf(x: u32, y: u32, log2: u32, kind: Kind) -> Leaf
    ensures { result ≡ record { block = block_at x y log2; kind = kind } }
{
    Leaf {
        block: block(x, y, log2),
        kind,
    }
}

// A slice of a picture of 64 by 64.
#[derive(Drop)]
struct Slice {
    alloc: Global,
    kind: SliceKind,
    grid: Grid,
}

impl Slice {
    fn new(alloc: Global, kind: SliceKind) -> Result<Slice, Fail>
        ensures size { IfOk result (λ s. s.grid.size ≡ record { w = 64; h = 64 }) }
        ensures kind { IfOk result (λ s. s.kind ≡ kind) }
    {
        let size = Size::new(64, 64).ok_or("size")?;
        let grid = Grid::new(alloc, size)?;
        Ok(Slice { alloc, kind, grid })
    }

    // Checks the bins and the samples of a unit, which is then set: so many samples, of which these aren't 0.
    fn check_samples(
        &mut self,
        rt: &impl Abort,
        unit: Leaf,
        spots: Spots,
        bins: &[u64],
        count: usize,
        samples: &[(usize, u8)],
    ) -> Result<(), Fail>
        requires unit { IsUnit self.old.grid.size unit }
        requires allowed { IsAllowed self.old.kind unit.kind }
        ensures size { self.new.grid.size ≡ self.old.grid.size }
        ensures kind { self.new.kind ≡ self.old.kind }
    {
        let mut items = ItemList::new(self.alloc);
        let mut source = spots;
        write_leaf(&mut items, self.kind, &mut self.grid, unit, &mut source)?;
        assert!(rt;
            are_items(items.as_slice(), bins, count, samples),
            "{unit:?}"
        );
        Ok(())
    }

    // The same of a unit with no samples.
    fn check_bins(
        &mut self,
        rt: &impl Abort,
        unit: Leaf,
        spots: Spots,
        bins: &[u64],
    ) -> Result<(), Fail>
        requires unit { IsUnit self.old.grid.size unit }
        requires allowed { IsAllowed self.old.kind unit.kind }
        ensures size { self.new.grid.size ≡ self.old.grid.size }
        ensures kind { self.new.kind ≡ self.old.kind }
    {
        self.check_samples(rt, unit, spots, bins, 0, &[])
    }
}

const P_INTRA_8: [u64; 44] = [
    1, 10, 15, 17, 302, 19, 301, 301, 20, 24, 24, 23, 33, 33, 35, 34, 69, 69, 71, 71, 72, 300, 144,
    144, 146, 208, 300, 98, 136, 136, 138, 140, 136, 136, 138, 140, 136, 136, 138, 140, 136, 136,
    138, 106,
];

const P_INTRA_8_AGAIN: [u64; 107] = [
    1, 10, 15, 17, 302, 18, 300, 301, 300, 300, 300, 20, 25, 25, 23, 32, 69, 68, 136, 138, 138,
    106, 193, 239, 300, 301, 301, 300, 57, 57, 59, 58, 93, 93, 94, 178, 178, 180, 178, 178, 180,
    180, 178, 180, 180, 160, 225, 247, 300, 301, 301, 301, 301, 301, 301, 301, 301, 301, 300, 301,
    301, 301, 300, 301, 301, 57, 57, 59, 59, 61, 93, 93, 95, 94, 300, 178, 178, 178, 178, 178, 180,
    178, 178, 180, 180, 178, 180, 180, 182, 224, 300, 178, 178, 178, 178, 178, 178, 178, 178, 180,
    180, 180, 180, 182, 182, 182, 160,
];

const P_INTRA_16: [u64; 48] = [
    1, 10, 15, 302, 18, 301, 301, 301, 301, 301, 20, 25, 24, 22, 57, 57, 57, 57, 59, 58, 92, 300,
    186, 186, 186, 186, 188, 225, 247, 300, 300, 102, 184, 184, 184, 186, 184, 184, 188, 186, 184,
    184, 188, 186, 184, 188, 186, 160,
];

const P_INTRA_32: [u64; 100] = [
    1, 8, 15, 302, 19, 300, 20, 24, 25, 23, 47, 47, 48, 83, 83, 85, 85, 87, 86, 300, 154, 154, 154,
    154, 154, 156, 156, 156, 156, 156, 158, 209, 243, 300, 301, 301, 301, 301, 301, 301, 301, 301,
    301, 300, 301, 301, 301, 300, 301, 300, 148, 148, 148, 148, 148, 150, 148, 148, 150, 152, 148,
    150, 152, 150, 152, 106, 57, 57, 57, 57, 56, 93, 93, 93, 93, 92, 300, 300, 225, 246, 300, 102,
    104, 104, 184, 184, 184, 184, 184, 184, 184, 184, 184, 184, 186, 186, 186, 186, 186, 160,
];

const I_INTRA_8: [u64; 105] = [
    1, 17, 302, 18, 300, 300, 301, 301, 300, 20, 25, 25, 23, 32, 69, 68, 136, 138, 138, 106, 193,
    239, 300, 301, 301, 300, 57, 57, 59, 58, 93, 93, 94, 178, 178, 180, 178, 178, 180, 180, 178,
    180, 180, 160, 225, 247, 300, 301, 301, 301, 301, 301, 301, 301, 301, 301, 300, 301, 301, 301,
    300, 301, 301, 57, 57, 59, 59, 61, 93, 93, 95, 94, 300, 178, 178, 178, 178, 178, 180, 178, 178,
    180, 180, 178, 180, 180, 182, 224, 300, 178, 178, 178, 178, 178, 178, 178, 178, 180, 180, 180,
    180, 182, 182, 182, 160,
];

const I_INTRA_8_AGAIN: [u64; 45] = [
    1, 17, 302, 18, 301, 300, 301, 301, 301, 20, 24, 24, 23, 33, 33, 35, 34, 69, 69, 71, 71, 72,
    300, 144, 144, 146, 208, 300, 98, 136, 136, 138, 140, 136, 136, 138, 140, 136, 136, 138, 140,
    136, 136, 138, 106,
];

const I_INTRA_16: [u64; 102] = [
    1, 302, 18, 301, 300, 300, 301, 300, 20, 24, 25, 23, 39, 39, 40, 75, 75, 77, 77, 79, 78, 300,
    154, 154, 154, 154, 154, 156, 156, 156, 156, 156, 158, 209, 243, 300, 301, 301, 301, 301, 301,
    301, 301, 301, 301, 300, 301, 301, 301, 300, 301, 300, 148, 148, 148, 148, 148, 150, 148, 148,
    150, 152, 148, 150, 152, 150, 152, 106, 57, 57, 57, 57, 58, 93, 93, 93, 93, 94, 300, 300, 225,
    246, 300, 102, 104, 104, 184, 184, 184, 184, 184, 184, 184, 184, 184, 184, 186, 186, 186, 186,
    186, 160,
];

const I_INTRA_32: [u64; 105] = [
    1, 302, 18, 301, 300, 300, 300, 300, 20, 25, 25, 23, 47, 46, 82, 150, 106, 193, 239, 300, 301,
    301, 300, 57, 57, 56, 93, 93, 93, 92, 184, 184, 184, 184, 184, 184, 184, 186, 186, 186, 186,
    186, 160, 225, 247, 300, 301, 301, 301, 301, 301, 301, 301, 301, 301, 300, 301, 301, 301, 300,
    301, 301, 57, 57, 57, 56, 93, 93, 93, 93, 93, 92, 300, 184, 184, 184, 184, 184, 184, 184, 184,
    186, 186, 186, 186, 186, 188, 224, 300, 184, 184, 184, 184, 184, 186, 184, 184, 186, 188, 184,
    186, 188, 186, 188, 160,
];

#[test]
fn units_of_p_slices(rt: HostRuntime) -> Result<(), Fail> {
    let mut slice = Slice::new(rt.alloc(), SliceKind::P)?;
    slice.check_bins(&rt, leaf(0, 0, 4, Kind::Skip), NONE, &[1, 9])?;
    slice.check_bins(&rt, leaf(16, 0, 3, Kind::Intra(26)), LUMA, &P_INTRA_8)?;
    slice.check_samples(
        &rt,
        leaf(24, 0, 3, Kind::Pcm),
        LUMA,
        &[1, 8, 15, 17, 303],
        192,
        &[(35, 200), (124, 7), (149, 255)],
    )?;
    slice.check_bins(&rt, leaf(16, 8, 3, Kind::Intra(10)), ALL, &P_INTRA_8_AGAIN)?;
    slice.check_bins(&rt, leaf(24, 8, 3, Kind::Skip), NONE, &[1, 9])?;
    slice.check_bins(&rt, leaf(0, 16, 4, Kind::Intra(34)), CB, &P_INTRA_16)?;
    slice.check_samples(
        &rt,
        leaf(16, 16, 4, Kind::Pcm),
        ALL,
        &[1, 8, 15, 303],
        768,
        &[(306, 1), (611, 2)],
    )?;
    slice.check_bins(&rt, leaf(32, 0, 5, Kind::Intra(0)), LUMA_CR, &P_INTRA_32)?;
    slice.check_samples(
        &rt,
        leaf(0, 32, 5, Kind::Pcm),
        NONE,
        &[1, 8, 15, 303],
        3072,
        &[(231, 9)],
    )?;
    slice.check_bins(&rt, leaf(32, 32, 5, Kind::Skip), ALL, &[1, 9])?;
    Ok(())
}

#[test]
fn units_of_i_slices(rt: HostRuntime) -> Result<(), Fail> {
    let mut slice = Slice::new(rt.alloc(), SliceKind::I)?;
    slice.check_bins(
        &rt,
        leaf(0, 0, 3, Kind::Intra(1)),
        NONE,
        &[1, 17, 302, 19, 301, 300, 20, 24, 24, 22],
    )?;
    slice.check_samples(
        &rt,
        leaf(8, 0, 3, Kind::Pcm),
        ALL,
        &[1, 17, 303],
        192,
        &[(90, 1), (179, 2)],
    )?;
    slice.check_bins(&rt, leaf(0, 8, 3, Kind::Intra(8)), ALL, &I_INTRA_8)?;
    slice.check_bins(&rt, leaf(8, 8, 3, Kind::Intra(26)), LUMA, &I_INTRA_8_AGAIN)?;
    slice.check_bins(&rt, leaf(16, 0, 4, Kind::Intra(20)), LUMA_CR, &I_INTRA_16)?;
    slice.check_samples(&rt, leaf(0, 16, 4, Kind::Pcm), CB, &[1, 303], 768, &[])?;
    slice.check_bins(&rt, leaf(32, 0, 5, Kind::Intra(18)), ALL, &I_INTRA_32)?;
    slice.check_samples(
        &rt,
        leaf(0, 32, 5, Kind::Pcm),
        LUMA,
        &[1, 303],
        3072,
        &[(131, 200), (1252, 7), (2117, 255)],
    )?;
    Ok(())
}

// A grid of 72 by 64 with some units.
fn filled(alloc: Global) -> Result<Grid, Fail>
    ensures { IfOk result (λ g. g.size ≡ record { w = 70; h = 60 }) }
{
    let size = Size::new(70, 60).ok_or("size")?;
    let mut grid = Grid::new(alloc, size)?;
    grid.set(leaf(0, 0, 4, Kind::Skip));
    grid.set(leaf(16, 0, 3, Kind::Intra(26)));
    grid.set(leaf(24, 0, 3, Kind::Pcm));
    grid.set(leaf(16, 8, 3, Kind::Intra(26)));
    grid.set(leaf(24, 8, 3, Kind::Intra(10)));
    grid.set(leaf(0, 16, 4, Kind::Intra(34)));
    grid.set(leaf(16, 16, 4, Kind::Skip));
    grid.set(leaf(0, 32, 4, Kind::Intra(7)));
    Ok(grid)
}

fn block(x: u32, y: u32, log2: u32) -> CodingBlock
    ensures { result ≡ block_at x y log2 }
{
    CodingBlock { x, y, log2 }
}

// That these are the bins of a split, or of none.
fn check_flag(
    rt: &impl Abort,
    alloc: Global,
    grid: &Grid,
    block: CodingBlock,
    split: bool,
    bins: &[u64],
) -> Result<(), Fail>
    requires size { grid.now.size ≡ record { w = 70; h = 60 } }
    requires across { block.x < 72 }
    requires down { block.y < 64 }
    requires low { 3 ≤ block.log2 }
    requires high { block.log2 ≤ 5 }
    requires may_be { MayBeSplit (record { w = 70; h = 60 }) block split }
{
    let size = Size::new(70, 60).ok_or("size")?;
    let mut items = ItemList::new(alloc);
    write_split(&mut items, grid, size, block, split)?;
    assert!(rt; are_items(items.as_slice(), bins, 0, &[]), "{block:?}");
    Ok(())
}

#[test]
fn split_flags(rt: HostRuntime) -> Result<(), Fail> {
    let alloc = rt.alloc();
    let grid = filled(alloc)?;
    check_flag(&rt, alloc, &grid, block(0, 0, 5), true, &[3])?;
    check_flag(&rt, alloc, &grid, block(0, 0, 4), false, &[2])?;
    check_flag(&rt, alloc, &grid, block(16, 0, 4), true, &[3])?;
    check_flag(&rt, alloc, &grid, block(16, 0, 3), false, &[])?;
    check_flag(&rt, alloc, &grid, block(16, 16, 4), false, &[4])?;
    check_flag(&rt, alloc, &grid, block(32, 0, 5), false, &[4])?;
    check_flag(&rt, alloc, &grid, block(32, 0, 4), true, &[5])?;
    check_flag(&rt, alloc, &grid, block(32, 32, 5), true, &[3])?;
    check_flag(&rt, alloc, &grid, block(0, 32, 5), true, &[5])?;
    check_flag(&rt, alloc, &grid, block(16, 32, 4), false, &[2])?;
    check_flag(&rt, alloc, &grid, block(64, 0, 5), true, &[])?;
    check_flag(&rt, alloc, &grid, block(64, 32, 4), true, &[])?;
    check_flag(&rt, alloc, &grid, block(64, 56, 3), false, &[])?;
    check_flag(&rt, alloc, &grid, block(56, 48, 4), true, &[3])?;
    Ok(())
}
