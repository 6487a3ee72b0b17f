//! Units that an independent model of the recorder in Python wrote, and some that it wrote with one bin turned.
ghost use Rattle.std.specs.Prelude.{◌≡◌, ◌≤◌, ◌*◌, ◌^◌, [], IfSome};
ghost use Rattle.cabac_dec.specs.State.{IsOpen};

use super::{Decoder, Grid, LeafSink, MotionGrid, Size, SliceKind, read_unit};
use cabac_dec::{Contexts, Place};
use h265_model::{CodingBlock, Vector};
use leaf_sink::Residuals;
use std::alloc::Global;
use std::process::Abort;
use std::test::Fail;

// What a sink was told of a unit: its samples and its levels by their digest.
#[derive(Clone, Copy, Debug, PartialEq, Eq)]
enum Told {
    Nothing,
    Copied(i32, i32),
    Moved(i32, i32),
    Samples(u32),
    Levels(u32, u32),
}

// Where a unit is, and what was told of it.
type Row = (u32, u32, u32, Told);

// Keeps what it was told last.
#[derive(Drop)]
struct Notes {
    size: Size,
    row: Row,
}

fn with(digest: u32, value: u32) -> u32 {
    digest.wrapping_mul(31).wrapping_add(value)
}

fn with_levels(digest: u32, log2: u32, levels: Option<&[i16]>) -> u32
    requires low { 3 ≤ log2 }
    requires high { log2 ≤ 5 }
{
    let mut digest = digest;
    match levels {
        Some(levels) => {
            for level in levels {
                digest = with(digest, (i32::from(*level) + 40000) as u32);
            }
        }
        None => {
            let n = side(log2);
            for _ in 0..n * n {
                digest = with(digest, 40000);
            }
        }
    }
    digest
}

impl LeafSink for Notes {
    ghost last = { λ n. record { size = n.size; g = []; b = []; r = [] } };

    ghost stands_for = { λ n units. Unit {0} };

    fn copied(&mut self, block: CodingBlock, vector: Vector) {
        self.row = (
            block.x,
            block.y,
            block.log2,
            Told::Copied(vector.x, vector.y),
        );
    }

    fn moved(&mut self, block: CodingBlock, vector: Vector) {
        self.row = (
            block.x,
            block.y,
            block.log2,
            Told::Moved(vector.x, vector.y),
        );
    }

    fn samples(&mut self, block: CodingBlock, samples: &[u8]) {
        let mut digest = 0;
        for sample in samples {
            digest = with(digest, u32::from(*sample));
        }
        self.row = (block.x, block.y, block.log2, Told::Samples(digest));
    }

    fn levels(&mut self, block: CodingBlock, mode: u32, residuals: Residuals) {
        let luma = with_levels(0, block.log2, residuals.luma);
        let cb = with_levels(luma, block.log2, residuals.cb);
        let cr = with_levels(cb, block.log2, residuals.cr);
        self.row = (block.x, block.y, block.log2, Told::Levels(mode, cr));
    }
}

fn side(log2: u32) -> u32
    requires low { 3 ≤ log2 }
    requires high { log2 ≤ 5 }
    ensures value { result ≡ 2 ^ log2 }
    ensures few { result ≤ 32 }
{
    match log2 {
        3 => 8,
        4 => 16,
        _ => 32,
    }
}

// Reads a unit, where it lies in a picture of 64 by 32.
fn read(
    decoder: &mut Decoder,
    kind: SliceKind,
    grid: &mut Grid,
    motion: &mut MotionGrid,
    notes: &mut Notes,
    place: (u32, u32, u32),
) -> Option<()>
    requires open { IsOpen decoder.old }
    requires grid { grid.old.size ≡ record { w = 64; h = 32 } }
    requires motion { motion.old.size ≡ record { w = 64; h = 32 } }
    requires notes { notes.old.size ≡ record { w = 64; h = 32 } }
    ensures open { IfSome result (λ _. IsOpen decoder.new) }
    ensures grid { grid.new.size ≡ record { w = 64; h = 32 } }
    ensures motion { motion.new.size ≡ record { w = 64; h = 32 } }
    ensures notes { notes.new.size ≡ record { w = 64; h = 32 } }
{
    let (x, y, log2) = place;
    if log2 < 3 || log2 > 5 || x > 64 || y > 32 {
        return None;
    }
    let n = side(log2);
    if x % n != 0 || y % n != 0 || x + n > 64 || y + n > 32 {
        return None;
    }
    let block = CodingBlock { x, y, log2 };
    read_unit(decoder, kind, notes.size, grid, motion, block, notes)
}

// Reads units one after another, and says how many are read. Each has to be told as its row says, and nothing may be left behind the last.
fn count(
    rt: &impl Abort,
    alloc: Global,
    kind: SliceKind,
    bytes: &[u8],
    rows: &[Row],
) -> Result<usize, Fail> {
    let size = Size::new(64, 32).ok_or("size")?;
    let mut grid = Grid::new(alloc, size)?;
    let mut motion = MotionGrid::new(alloc, size)?;
    let mut notes = Notes {
        size,
        row: (0, 0, 0, Told::Nothing),
    };
    let Some(mut decoder) = Decoder::new(bytes, Contexts::start(kind)) else {
        return Ok(0);
    };
    for i in 0..rows.len() {
        let (x, y, log2, _told) = rows[i];
        let place = (x, y, log2);
        let Some(()) = read(
            &mut decoder,
            kind,
            &mut grid,
            &mut motion,
            &mut notes,
            place,
        ) else {
            return Ok(i);
        };
        assert_eq!(rt; notes.row, rows[i]);
    }
    let Some(true) = decoder.bin(Place::Terminate) else {
        return Ok(0);
    };
    assert!(rt; decoder.end().is_some());
    Ok(rows.len())
}

const STILL_BYTES: [u8; 253] = [
    0x46, 0xC0, 0x0A, 0x0A, 0x0A, 0x0A, 0x0A, 0x0A, 0x0A, 0x0A, 0x0A, 0x00, 0x0A, 0x0A, 0x0A, 0x0A,
    0x0A, 0x0A, 0x0A, 0x0A, 0x0A, 0x0A, 0x0A, 0xFF, 0x0A, 0x0A, 0x0A, 0x0A, 0x0A, 0x0A, 0x0A, 0x0A,
    0x0A, 0x0A, 0x0A, 0x0A, 0x0A, 0x0A, 0x0A, 0x0A, 0x0A, 0x0A, 0x0A, 0x0A, 0x0A, 0x0A, 0x0A, 0x0A,
    0x0A, 0x0A, 0x0A, 0x0A, 0x0A, 0x0A, 0x0A, 0x0A, 0x0A, 0x0A, 0x0A, 0x0A, 0x0A, 0x0A, 0x0A, 0x0A,
    0x0A, 0x0A, 0x14, 0x14, 0x14, 0x14, 0x14, 0x14, 0x14, 0x14, 0x14, 0x14, 0x14, 0x14, 0x14, 0x14,
    0x14, 0x14, 0x14, 0x14, 0x14, 0x14, 0x14, 0x14, 0x14, 0x14, 0x14, 0x14, 0x07, 0x14, 0x14, 0x14,
    0x14, 0x14, 0x14, 0x14, 0x14, 0x14, 0x14, 0x14, 0x14, 0x14, 0x14, 0x14, 0x14, 0x14, 0x14, 0x14,
    0x14, 0x14, 0x14, 0x14, 0x14, 0x14, 0x14, 0x14, 0x13, 0x14, 0x14, 0x14, 0x14, 0x14, 0x14, 0x14,
    0x14, 0x14, 0x1E, 0x1E, 0x1E, 0x1E, 0x1E, 0x1E, 0x1E, 0x1E, 0x1E, 0x1E, 0x1E, 0xC8, 0x1E, 0x1E,
    0x1E, 0x1E, 0x1E, 0x1E, 0x1E, 0x1E, 0x1E, 0x1E, 0x1E, 0x1E, 0x1E, 0x1E, 0x1E, 0x1E, 0x1E, 0x1E,
    0x1E, 0x1E, 0x1E, 0x1E, 0x1E, 0x1E, 0x1E, 0x1E, 0x1E, 0x1E, 0x1E, 0x1E, 0x1E, 0x1E, 0x1F, 0x1E,
    0x1E, 0x1E, 0x1E, 0x1E, 0x1E, 0x1E, 0x1E, 0x1E, 0x1E, 0x1E, 0x1E, 0x1E, 0x1E, 0x1E, 0x1E, 0x1E,
    0x1E, 0x1E, 0x18, 0xA2, 0xCF, 0x7E, 0x89, 0x3E, 0x6A, 0xAA, 0x0F, 0x05, 0x5A, 0x54, 0x2B, 0x7F,
    0x33, 0x79, 0x64, 0xF0, 0x65, 0x1A, 0x83, 0x36, 0x9A, 0xBE, 0x15, 0x03, 0xA4, 0xD9, 0xED, 0xED,
    0x49, 0x5F, 0xDF, 0x6F, 0xE0, 0x8E, 0x67, 0xC5, 0x6B, 0xCD, 0x4D, 0x28, 0x37, 0xAE, 0x77, 0xAB,
    0xAB, 0xFD, 0x65, 0x1D, 0xF7, 0x9B, 0x3E, 0x56, 0x6D, 0x61, 0x56, 0xEA, 0x28,
];

// Samples, and modes with levels in some components.
const STILL: [Row; 8] = [
    (0, 0, 3, Told::Samples(3064449794)),
    (8, 0, 3, Told::Levels(1, 523872515)),
    (0, 8, 3, Told::Levels(26, 2198452482)),
    (8, 8, 3, Told::Levels(0, 3092557020)),
    (16, 0, 4, Told::Levels(10, 1273721917)),
    (0, 16, 4, Told::Levels(2, 2702672703)),
    (16, 16, 4, Told::Levels(33, 1467729470)),
    (32, 0, 5, Told::Levels(7, 240840130)),
];

const MOVED_BYTES: [u8; 32] = [
    0x2C, 0xEB, 0x41, 0xDC, 0xF7, 0x8E, 0x4F, 0x87, 0x3C, 0x76, 0x9F, 0xCB, 0x65, 0xC4, 0x9D, 0x68,
    0xCE, 0x9B, 0xA3, 0x85, 0xCB, 0x6A, 0x27, 0x2C, 0xC9, 0x7C, 0x45, 0x09, 0xAB, 0x10, 0x81, 0x9C,
];

// Copies by both kinds of vectors, one of them by the second predictor, and modes.
const MOVED: [Row; 8] = [
    (0, 0, 3, Told::Moved(8, 0)),
    (8, 0, 3, Told::Moved(17, 3)),
    (0, 8, 3, Told::Copied(8, 0)),
    (8, 8, 3, Told::Moved(18, 3)),
    (16, 0, 4, Told::Copied(18, 3)),
    (0, 16, 4, Told::Levels(18, 2824139525)),
    (16, 16, 4, Told::Moved(-5, -16)),
    (32, 0, 5, Told::Levels(34, 1825619491)),
];

#[test]
fn units_come_back(rt: HostRuntime) -> Result<(), Fail> {
    let still = count(&rt, rt.alloc(), SliceKind::I, &STILL_BYTES, &STILL)?;
    assert_eq!(rt; still, 8);
    let moved = count(&rt, rt.alloc(), SliceKind::P, &MOVED_BYTES, &MOVED)?;
    assert_eq!(rt; moved, 8);
    Ok(())
}

#[test]
fn refuses_bins_that_end(rt: HostRuntime) -> Result<(), Fail> {
    for many in 0..STILL_BYTES.len() {
        let read = count(&rt, rt.alloc(), SliceKind::I, &STILL_BYTES[..many], &STILL)?;
        assert!(rt; read < 8, "{many} bytes of samples and levels");
    }
    for many in 0..MOVED_BYTES.len() {
        let read = count(&rt, rt.alloc(), SliceKind::P, &MOVED_BYTES[..many], &MOVED)?;
        assert!(rt; read < 8, "{many} bytes of copies");
    }
    Ok(())
}

// How many of two units of 8 by 8 are read.
fn first_two(
    rt: &impl Abort,
    alloc: Global,
    bytes: &[u8],
    first: Told,
    second: Told,
) -> Result<usize, Fail> {
    count(
        rt,
        alloc,
        SliceKind::P,
        bytes,
        &[(0, 0, 3, first), (8, 0, 3, second)],
    )
}

#[test]
fn refuses_copies_without_source(rt: HostRuntime) -> Result<(), Fail> {
    let none = Told::Nothing;
    // by (56, 24) from (0, 0), and then from (8, 0)
    let bytes = [0x29, 0x5C, 0xE2, 0x71, 0x03, 0x43, 0x80];
    assert_eq!(rt;
        first_two(&rt, rt.alloc(), &bytes, Told::Moved(56, 24), none)?,
        1
    );
    // by (56, 25)
    let bytes = [0x29, 0x5C, 0xE2, 0x71, 0xA5, 0xDC];
    assert_eq!(rt; first_two(&rt, rt.alloc(), &bytes, none, none)?, 0);
    Ok(())
}

#[test]
fn refuses_other_flags(rt: HostRuntime) -> Result<(), Fail> {
    let none = Told::Nothing;
    let moved = Told::Moved(8, 0);
    let rows = [(0, 0, 3, moved)];
    let as_it_is = [0x2C, 0xEB, 0x4D, 0x38];
    assert_eq!(rt; count(&rt, rt.alloc(), SliceKind::P, &as_it_is, &rows)?, 1);
    let turned = [
        ("cu_transquant_bypass_flag", [0xAC, 0x7B, 0x4D, 0x38]),
        ("part_mode", [0x59, 0xFB, 0x4D, 0x38]),
        ("merge_flag", [0x14, 0x96, 0x9A, 0x70]),
        ("a vector in quarters", [0x2C, 0xE8, 0xDC, 0xE0]),
        ("rqt_root_cbf", [0x2C, 0xEB, 0x5A, 0x38]),
        ("part_mode of a mode's unit", [0x63, 0xD3, 0xF0, 0]),
        ("intra_chroma_pred_mode", [0x60, 0xA1, 0xAC, 0]),
    ];
    for (name, bytes) in turned {
        let read = count(&rt, rt.alloc(), SliceKind::P, &bytes, &[(0, 0, 3, none)])?;
        assert_eq!(rt; read, 0, "{name}");
    }
    Ok(())
}
