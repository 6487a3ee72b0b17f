//! Bins of residuals, as plain models of the format give them.
ghost use Rattle.std.specs.Prelude.{◌≡◌, ◌<◌, ◌≤◌, IsTrue};
ghost use Rattle.h265_model.specs.Residual.{AreLevels};

use crate::{Block, cbf, write_residual};
use bin_items::{Bin, Item, ItemList, Place};
use std::alloc::Global;
use std::process::Abort;
use std::test::Fail;

// A context bin by its value and its context's number, or a bypass bin.
#[derive(Clone, Copy, Debug, PartialEq, Eq)]
enum Want {
    C(u32, u32),
    B(u32),
}

use Want::{B, C};

// What an item is.
fn want_of(item: Item) -> Option<Want> {
    match item {
        Item::Bin(
            Bin {
                value,
                place: Place::Context(number),
            },
        ) => Some(C(u32::from(value), number)),
        Item::Bin(
            Bin {
                value,
                place: Place::Bypass,
            },
        ) => Some(B(u32::from(value))),
        _ => None,
    }
}

// Whether all levels are from -255 to 255.
fn are_levels(levels: &[i16]) -> bool
    ensures { IsTrue result → AreLevels levels.now }
{
    for level in levels {
        if level.unsigned_abs() > 255 {
            return false;
        }
    }
    true
}

// The items of a block.
fn items_of(
    rt: &impl Abort,
    alloc: Global,
    block: &Block,
    component: u32,
    scan: u32,
) -> Result<ItemList, Fail>
    requires component { component < 3 }
    requires scan { scan < 3 }
{
    assert!(rt; are_levels(block.as_slice()));
    assert!(rt; cbf(block));
    let mut items = ItemList::new(alloc);
    write_residual(&mut items, block, component, scan)?;
    Ok(items)
}

#[test]
fn writes_one_level(rt: HostRuntime) -> Result<(), Fail> {
    let mut block = Block::zero(3);
    assert!(rt; !cbf(&block));
    block.set(3, 4, -1);
    let items = items_of(&rt, rt.alloc(), &block, 0, 1)?;
    let wants = [
        // the column's prefix, the row's, and the row's suffix
        C(1, 16),
        C(1, 16),
        C(1, 17),
        C(0, 17),
        C(1, 34),
        C(1, 34),
        C(1, 35),
        C(1, 35),
        C(0, 36),
        B(0),
        // flags of the last sub-block, and its level
        C(0, 72),
        C(0, 72),
        C(0, 73),
        C(0, 104),
        B(1),
        // the sub-block before it isn't coded
        C(0, 49),
        // the first one, row by row from the last
        C(0, 68),
        C(0, 68),
        C(0, 69),
        C(0, 70),
        C(0, 68),
        C(0, 68),
        C(0, 69),
        C(0, 70),
        C(0, 68),
        C(0, 68),
        C(0, 69),
        C(0, 70),
        C(0, 68),
        C(0, 68),
        C(0, 69),
        C(0, 53),
    ];
    assert_eq!(rt; items.as_slice().len(), wants.len());
    for (item, want) in items.as_slice().iter().zip(&wants) {
        assert_eq!(rt; want_of(*item), Some(*want));
    }
    Ok(())
}

#[test]
fn writes_a_great_level(rt: HostRuntime) -> Result<(), Fail> {
    let mut block = Block::zero(3);
    block.set(0, 0, -255);
    let items = items_of(&rt, rt.alloc(), &block, 0, 0)?;
    let wants = [
        C(0, 16),
        C(0, 34),
        C(1, 96),
        C(1, 119),
        B(1),
        // 252 is left
        B(1),
        B(1),
        B(1),
        B(1),
        B(1),
        B(1),
        B(1),
        B(1),
        B(1),
        B(1),
        B(0),
        B(1),
        B(1),
        B(1),
        B(1),
        B(0),
        B(1),
        B(0),
    ];
    assert_eq!(rt; items.as_slice().len(), wants.len());
    for (item, want) in items.as_slice().iter().zip(&wants) {
        assert_eq!(rt; want_of(*item), Some(*want));
    }
    Ok(())
}

// Numbers below 2^32, made by a linear congruence.
#[derive(Drop)]
struct Numbers {
    state: u64,
}

impl Numbers {
    fn new(seed: u64) -> Numbers {
        Numbers {
            state: seed.wrapping_mul(0x9E37_79B9_7F4A_7C15),
        }
    }

    fn next(&mut self) -> u32 {
        self.state = self
            .state
            .wrapping_mul(6_364_136_223_846_793_005)
            .wrapping_add(1_442_695_040_888_963_407);
        (self.state >> 32) as u32
    }
}

// How many levels a block has, of 64 places.
const DENSITIES: [u32; 8] = [0, 0, 1, 4, 12, 32, 56, 64];

// The greatest sizes of levels.
const SIZES: [u32; 4] = [1, 2, 5, 255];

// A made-up level, or 0.
fn level_of(number: u32, density: u32) -> i16 {
    if number % 64 >= density {
        return 0;
    }
    let size = 1 + (number >> 8) % SIZES[(number >> 6) as usize % 4].max(1);
    let level = size.min(255) as i16;
    if number >> 31 == 1 { -level } else { level }
}

// Gives a place of a block a level; the numbers of its column and row count past the side.
fn set_at(block: &mut Block, column: u32, row: u32, level: i16)
    ensures { block.new.log2 ≡ block.old.log2 }
{
    let side = 1u32 << block.log2();
    block.set(column % side, row % side, level);
}

// A made-up block of levels; without any, one place has one.
fn made_up(seed: u64, log2: u32, density: u32) -> Block
    requires from { 3 ≤ log2 }
    requires to { log2 ≤ 5 }
    ensures { result.log2 ≡ log2 }
{
    let mut numbers = Numbers::new(seed);
    let mut block = Block::zero(log2);
    for place in 0..1u32 << (2 * log2) {
        let level = level_of(numbers.next(), density);
        set_at(&mut block, place, place >> log2, level);
    }
    if !cbf(&block) {
        let number = numbers.next();
        let level = 1 + ((number >> 16) % 255) as i16;
        set_at(&mut block, number >> 8, number, level);
    }
    block
}

// A digest of bins, after an earlier one's.
fn digest_after(before: u64, items: &[Item]) -> u64 {
    let mut digest = before;
    for item in items {
        let number = match want_of(*item) {
            Some(C(value, context)) => u64::from(value) + 2 * u64::from(context) + 2,
            Some(B(value)) => u64::from(value),
            None => 1 << 32,
        };
        digest = (digest ^ number).wrapping_mul(0x100_0000_01B3);
    }
    digest
}

// Component, base-2 logarithm of the side, scan, and the digest of 200 made-up blocks, as checks/residual_digests prints them.
const DIGESTS: [(u32, u32, u32, u64); 27] = [
    (0, 3, 0, 0x6EFCCDC20625F53D),
    (0, 3, 1, 0x6B7FE3DA7BBBD091),
    (0, 3, 2, 0x3C7004949E4DB625),
    (0, 4, 0, 0x52816AAF81987CA8),
    (0, 4, 1, 0xBAE4D646CBD0C466),
    (0, 4, 2, 0x4C6860D593121BAF),
    (0, 5, 0, 0x071B419EE5A616CE),
    (0, 5, 1, 0x0013DD54BB6D87CF),
    (0, 5, 2, 0xDF05BB76EE180590),
    (1, 3, 0, 0x8FBADCB5E67AFDB0),
    (1, 3, 1, 0xEBCC362BD2B5D713),
    (1, 3, 2, 0x6E1FA066AE7E7D8D),
    (1, 4, 0, 0x220C619437A8EEAD),
    (1, 4, 1, 0xE9B20FBAC347FFA4),
    (1, 4, 2, 0xBAA345A5AAB0813F),
    (1, 5, 0, 0xE0D6EC36784BBB3D),
    (1, 5, 1, 0x12C732CBD110D79A),
    (1, 5, 2, 0x09A96BFAC3A8B4E7),
    (2, 3, 0, 0x62C860C9C9545574),
    (2, 3, 1, 0x8F3285B63AB634A1),
    (2, 3, 2, 0x3CB0A351CD43148A),
    (2, 4, 0, 0xF49066FD9DDDF6C8),
    (2, 4, 1, 0x811C528474EB674E),
    (2, 4, 2, 0xBE63782C419F81CE),
    (2, 5, 0, 0xF3E94874BE91D61B),
    (2, 5, 1, 0x756831423B6384D8),
    (2, 5, 2, 0x255B1E3140E9FE53),
];

#[test]
fn writes_made_up_blocks(rt: HostRuntime) -> Result<(), Fail> {
    for (component, log2, scan, want) in DIGESTS {
        assert!(rt; component < 3 && log2 >= 3 && log2 <= 5 && scan < 3);
        let first = 200 * u64::from(9 * component + 3 * (log2 - 3) + scan) + 1;
        let mut digest = 0xCBF2_9CE4_8422_2325;
        for i in 0..200u64 {
            let block = made_up(first + i, log2, DENSITIES[i as usize % 8]);
            let items = items_of(&rt, rt.alloc(), &block, component, scan)?;
            digest = digest_after(digest, items.as_slice());
        }
        assert_eq!(rt;
            digest,
            want,
            "component {component}, side {log2}, scan {scan}"
        );
    }
    Ok(())
}
