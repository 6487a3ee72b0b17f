//! Blocks that are written and read again, and blocks that a plain model of the format wrote or refuses.
ghost use Rattle.std.specs.Prelude.{◌≡◌, ◌<◌, ◌≤◌, IsTrue};
ghost use Rattle.h265_model.specs.Residual.{AreLevels};

use crate::{Block, Decoder, read_residual};
use bin_items::{Bin, BinSink, Place};
use cabac_bytes::ByteCoder;
use cabac_tables::{Contexts, SliceKind};
use residual_code::{cbf, write_residual};
use std::process::Abort;
use std::test::Fail;

const END: Bin = Bin {
    value: true,
    place: Place::Terminate,
};

// Reads a block that is all that bytes are the code of.
fn is_read(bytes: &[u8], component: u32, scan: u32, out: &mut Block) -> bool
    requires component { component < 3 }
    requires scan { scan < 3 }
{
    let Some(mut decoder) = Decoder::new(bytes, Contexts::start(SliceKind::I)) else {
        return false;
    };
    let Some(()) = read_residual(&mut decoder, component, scan, out) else {
        return false;
    };
    let Some(true) = decoder.bin(Place::Terminate) else {
        return false;
    };
    decoder.end().is_some()
}

// Whether all levels are from -255 to 255.
fn are_levels(levels: &[i16]) -> bool
    ensures { IsTrue result → AreLevels levels.now }
{
    for level in levels {
        if level.unsigned_abs() > 255 {
            return false;
        }
    }
    true
}

// Gives a place of a block a level; the numbers of its column and row count past the side.
fn set_at(block: &mut Block, column: u32, row: u32, level: i16)
    ensures { block.new.log2 ≡ block.old.log2 }
{
    let side = 1u32 << block.log2();
    block.set(column % side, row % side, level);
}

// A block of so many made-up levels at most, each of them from 1 to a size or from -1 to its negative.
fn made_up(log2: u32, many: u32, size: u32, seed: u32) -> Block
    requires from { 3 ≤ log2 }
    requires to { log2 ≤ 5 }
    requires some { 0 < size }
    requires few { size ≤ 255 }
    ensures { result.log2 ≡ log2 }
{
    let mut block = Block::zero(log2);
    let mut state = seed.wrapping_mul(2654435761).wrapping_add(12345);
    for _ in 0..many {
        state = state.wrapping_mul(1664525).wrapping_add(1013904223);
        let level = ((state >> 20) % size + 1) as i16;
        set_at(
            &mut block,
            state >> 8,
            state >> 14,
            if state >> 31 == 1 { -level } else { level },
        );
    }
    block
}

#[test]
fn blocks_come_back(rt: HostRuntime) -> Result<(), Fail> {
    for case in 0..540u32 {
        let log2 = 3 + case % 3;
        let component = case / 3 % 3;
        let scan = case / 9 % 3;
        let many = [1, 2, 5, 20, 400][(case / 27 % 5) as usize];
        let size = [1, 3, 20, 255][(case / 135 % 4) as usize];
        let block = made_up(log2, many, size, case);
        assert!(rt; are_levels(block.as_slice()));
        assert!(rt; cbf(&block));
        let mut coder = ByteCoder::new(rt.alloc(), Contexts::start(SliceKind::I));
        write_residual(&mut coder, &block, component, scan)?;
        coder.bin(END)?;
        let bytes = coder.finish()?;
        let mut out = made_up(log2, 9, 9, case);
        assert!(rt; is_read(&bytes, component, scan, &mut out), "case {case}");
        assert!(rt; out.as_slice() == block.as_slice(), "case {case}");
    }
    Ok(())
}

// Reads a block over another one, and compares its levels, each by its column, its row and the level.
fn expect(
    rt: &impl Abort,
    bytes: &[u8],
    component: u32,
    log2: u32,
    scan: u32,
    levels: &[(u32, u32, i16)],
)
    requires component { component < 3 }
    requires low { 3 ≤ log2 }
    requires high { log2 ≤ 5 }
    requires scan { scan < 3 }
{
    let mut out = made_up(log2, 9, 9, 1);
    assert!(rt; is_read(bytes, component, scan, &mut out));
    let mut want = Block::zero(log2);
    for (column, row, level) in levels {
        set_at(&mut want, *column, *row, *level);
    }
    assert!(rt; out.as_slice() == want.as_slice());
}

#[test]
fn reads_blocks_of_a_model(rt: HostRuntime) -> Result<(), Fail> {
    expect(&rt, &[0x31, 0x48, 0xE2, 0xD8, 0xE0], 0, 3, 1, &[(3, 4, -1)]);
    expect(
        &rt,
        &[
            0xFE, 0xFF, 0xA2, 0x6B, 0xFF, 0xEB, 0x22, 0xF4, 0xFA, 0x7F, 0x16, 0x7A, 0x2A, 0x38,
            0x25, 0x5B, 0xD1, 0xC2, 0xC0,
        ],
        1,
        3,
        2,
        &[
            (0, 0, 255),
            (7, 7, -255),
            (5, 2, 1),
            (6, 2, -2),
            (4, 3, 3),
            (1, 6, 17),
        ],
    );
    expect(
        &rt,
        &[
            0x23, 0x0C, 0x44, 0xF9, 0x6D, 0x23, 0x95, 0xE3, 0x45, 0xCB, 0xB0, 0x28, 0x1B, 0xC9,
            0x44, 0x1F, 0xF0,
        ],
        0,
        5,
        0,
        &[(31, 31, -7), (0, 31, 2), (31, 0, -1), (16, 15, 130)],
    );
    expect(
        &rt,
        &[
            0xFE, 0xFF, 0xFF, 0x1B, 0x54, 0xA3, 0xFF, 0xFF, 0xC9, 0xCE, 0xCB, 0x8B, 0xC3, 0xCC,
            0xF8, 0x60, 0x97, 0x78, 0x25, 0xDC, 0x19, 0x13, 0xF0,
        ],
        2,
        4,
        0,
        &[
            (0, 0, 1),
            (0, 1, -5),
            (0, 2, 9),
            (0, 3, -13),
            (1, 0, -2),
            (1, 1, 6),
            (1, 2, -10),
            (1, 3, 14),
            (2, 0, 3),
            (2, 1, -7),
            (2, 2, 11),
            (2, 3, -15),
            (3, 0, -4),
            (3, 1, 8),
            (3, 2, -12),
            (3, 3, 16),
            (15, 15, 1),
        ],
    );
    Ok(())
}

#[test]
fn reads_and_refuses_sizes(rt: HostRuntime) -> Result<(), Fail> {
    let mut out = Block::zero(3);
    // a level of 255 alone, and of 256
    assert!(rt; is_read(&[0xFD, 0xED, 0xDC, 0x69, 0x40], 0, 0, &mut out));
    assert!(rt; out.get(0, 0) == 255);
    assert!(rt; !is_read(&[0xFD, 0xED, 0xDC, 0xAD, 0xC0], 0, 0, &mut out));
    // 256 behind a 9
    assert!(rt; !is_read(&[0x37, 0xD8, 0xD6, 0x0A, 0x06, 0xE3, 0x4A], 0, 0, &mut out));
    // the smallest rests with prefixes of 10, 11, 19 and 20 ones
    assert!(rt; is_read(&[0xFD, 0xED, 0xBB, 0xC4, 0x40], 0, 0, &mut out));
    assert!(rt; out.get(0, 0) == 133);
    assert!(rt; !is_read(&[0xFD, 0xED, 0xDD, 0xD1, 0x10], 0, 0, &mut out));
    assert!(rt; !is_read(&[0xFD, 0xED, 0xFF, 0xDD, 0xC0, 0x11, 0x10], 0, 0, &mut out));
    assert!(rt; !is_read(&[0xFD, 0xED, 0xFF, 0xEE, 0xE0, 0x04, 0x44], 0, 0, &mut out));
    Ok(())
}

#[test]
fn refuses_bins_that_end(rt: HostRuntime) -> Result<(), Fail> {
    let bytes = [
        0xFE, 0xFF, 0xA2, 0x6B, 0xFF, 0xEB, 0x22, 0xF4, 0xFA, 0x7F, 0x16, 0x7A, 0x2A, 0x38, 0x25,
        0x5B, 0xD1, 0xC2, 0xC0,
    ];
    let mut out = Block::zero(3);
    for many in 0..bytes.len() {
        assert!(rt; !is_read(&bytes[..many], 1, 2, &mut out), "{many} bytes");
    }
    assert!(rt; is_read(&bytes, 1, 2, &mut out));
    Ok(())
}
