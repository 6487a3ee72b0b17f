//! Rows of coding tree units that an independent model of the recorder in Python wrote.
ghost use Rattle.std.specs.Prelude.{◌≡◌, ◌≤◌, ◌<◌, [], IfOk};
ghost use Rattle.h265_model.specs.Plain.{ctus};

use super::{Decoder, Grid, LeafSink, MotionGrid, Size, SliceKind, read_row, read_segment_row};
use cabac_dec::Contexts;
use h265_model::{CodingBlock, Vector};
use leaf_sink::Residuals;
use std::alloc::Global;
use std::test::Fail;

// Counts the units that it takes, and digests what it is told of them.
#[derive(Drop)]
struct Notes {
    size: Size,
    count: u32,
    digest: u32,
}

fn with(digest: u32, value: u32) -> u32 {
    digest.wrapping_mul(31).wrapping_add(value)
}

// A coordinate of a vector.
fn with_part(digest: u32, part: i32) -> u32 {
    if part < -5000 || part > 5000 {
        return 0;
    }
    with(digest, (part + 5000) as u32)
}

impl Notes {
    // Takes a unit.
    fn note(&mut self, kind: u32, block: CodingBlock)
        ensures { self.new.size ≡ self.old.size }
    {
        self.count = self.count.wrapping_add(1);
        let placed = with(with(with(self.digest, kind), block.x), block.y);
        self.digest = with(placed, block.log2);
    }
}

fn with_levels(digest: u32, log2: u32, levels: Option<&[i16]>) -> u32
    requires low { 3 ≤ log2 }
    requires high { log2 ≤ 5 }
{
    let mut digest = digest;
    match levels {
        Some(levels) => {
            for level in levels {
                digest = with(digest, (i32::from(*level) + 40000) as u32);
            }
        }
        None => {
            let n = 1u32 << log2;
            for _ in 0..n * n {
                digest = with(digest, 40000);
            }
        }
    }
    digest
}

impl LeafSink for Notes {
    ghost last = { λ n. record { size = n.size; g = []; b = []; r = [] } };

    ghost stands_for = { λ n units. Unit {0} };

    fn copied(&mut self, block: CodingBlock, vector: Vector) {
        self.note(1, block);
        self.digest = with_part(with_part(self.digest, vector.x), vector.y);
    }

    fn moved(&mut self, block: CodingBlock, vector: Vector) {
        self.note(2, block);
        self.digest = with_part(with_part(self.digest, vector.x), vector.y);
    }

    fn samples(&mut self, block: CodingBlock, samples: &[u8]) {
        self.note(3, block);
    }

    fn levels(&mut self, block: CodingBlock, mode: u32, residuals: Residuals) {
        self.note(4, block);
        let luma = with_levels(0, block.log2, residuals.luma);
        let cb = with_levels(luma, block.log2, residuals.cb);
        let cr = with_levels(cb, block.log2, residuals.cr);
        self.digest = with(with(self.digest, mode), cr);
    }
}

fn digest_of(contexts: &[u8]) -> u32 {
    let mut digest = 0;
    for context in contexts {
        digest = with(digest, u32::from(*context));
    }
    digest
}

// A picture that is read by rows.
#[derive(Drop)]
struct Rows {
    kind: SliceKind,
    size: Size,
    grid: Grid,
    motion: MotionGrid,
    contexts: Contexts,
}

impl Rows {
    fn new(alloc: Global, kind: SliceKind, size: Size) -> Result<Rows, Fail>
        ensures size { IfOk result (λ r. r.size ≡ size) }
        ensures grid { IfOk result (λ r. r.grid.size ≡ size) }
        ensures motion { IfOk result (λ r. r.motion.size ≡ size) }
    {
        Ok(Rows {
            kind,
            size,
            grid: Grid::new(alloc, size)?,
            motion: MotionGrid::new(alloc, size)?,
            contexts: Contexts::start(kind),
        })
    }

    // Reads a row with nothing behind it, and gives the number of its units, their digest and that of the contexts that it hands on.
    fn read(&mut self, is_segment: bool, row: u32, bytes: &[u8]) -> Option<(u32, u32, Option<u32>)>
        requires grid { self.old.grid.size ≡ self.old.size }
        requires motion { self.old.motion.size ≡ self.old.size }
        requires row { row < ctus self.old.size.h }
        ensures size { self.new.size ≡ self.old.size }
        ensures grid { self.new.grid.size ≡ self.old.size }
        ensures motion { self.new.motion.size ≡ self.old.size }
    {
        let mut notes = Notes {
            size: self.size,
            count: 0,
            digest: 0,
        };
        let mut decoder = Decoder::new(bytes, self.contexts)?;
        let Rows {
            kind,
            size,
            grid,
            motion,
            ..
        } = self;
        let handed = if is_segment {
            read_segment_row(&mut decoder, *kind, *size, grid, motion, row, &mut notes)?
        } else {
            read_row(&mut decoder, *kind, *size, grid, motion, row, &mut notes)?
        };
        decoder.end()?;
        let Some(contexts) = handed else {
            return Some((notes.count, notes.digest, None));
        };
        self.contexts = contexts;
        Some((
            notes.count,
            notes.digest,
            Some(digest_of(contexts.as_slice())),
        ))
    }
}

const STILL_0: [u8; 39] = [
    0xCA, 0x74, 0xB3, 0x38, 0xB1, 0xDD, 0x78, 0x96, 0x60, 0x6A, 0x84, 0x2E, 0x4C, 0xFA, 0x43, 0x40,
    0x08, 0x75, 0x0A, 0x64, 0xC2, 0xFD, 0xF3, 0xCB, 0x9C, 0x99, 0x49, 0xD8, 0x03, 0xB1, 0x97, 0x9B,
    0x6C, 0xAF, 0xFA, 0xF9, 0x5B, 0xE0, 0xD8,
];

const STILL_1: [u8; 22] = [
    0x1F, 0x5B, 0x6F, 0x53, 0x48, 0x36, 0x84, 0x64, 0x08, 0xDB, 0xD7, 0x6D, 0xE2, 0xD0, 0x00, 0xC2,
    0xF3, 0xCE, 0x12, 0xE5, 0x05, 0x10,
];

const MOVED_0: [u8; 27] = [
    0x21, 0xF0, 0xC7, 0xD6, 0x2D, 0x93, 0x14, 0xD2, 0x11, 0xE2, 0xF7, 0x0B, 0x9E, 0x71, 0x59, 0xA5,
    0x9D, 0x99, 0x6D, 0x0F, 0xFB, 0x98, 0x3F, 0x40, 0x13, 0x5B, 0x18,
];

const MOVED_1: [u8; 12] = [
    0x9D, 0xC3, 0x7F, 0xE4, 0xDE, 0x85, 0x5F, 0xB3, 0x1B, 0xB9, 0xA5, 0x1E,
];

const NARROW_0: [u8; 16] = [
    0x13, 0x4E, 0x3D, 0xD6, 0x86, 0x53, 0xE2, 0x59, 0x81, 0xAA, 0x08, 0xF2, 0x56, 0xA3, 0xA9, 0x70,
];

// Three coding tree units across, two down.
fn wide() -> Result<Size, Fail>
    ensures { IfOk result (λ s. s ≡ record { w = 70; h = 40 }) }
{
    Ok(Size::new(70, 40).ok_or("size")?)
}

#[test]
fn rows_of_a_slice_come_back(rt: HostRuntime) -> Result<(), Fail> {
    let mut rows = Rows::new(rt.alloc(), SliceKind::I, wide()?)?;
    assert_eq!(rt;
        rows.read(false, 0, &STILL_0),
        Some((12, 1513111303, Some(4113601241)))
    );
    assert_eq!(rt;
        rows.read(false, 1, &STILL_1),
        Some((9, 4049299305, Some(3395620876)))
    );
    Ok(())
}

#[test]
fn rows_that_are_segments_come_back(rt: HostRuntime) -> Result<(), Fail> {
    let mut rows = Rows::new(rt.alloc(), SliceKind::P, wide()?)?;
    assert_eq!(rt;
        rows.read(true, 0, &MOVED_0),
        Some((12, 36081238, Some(3752331157)))
    );
    assert_eq!(rt;
        rows.read(true, 1, &MOVED_1),
        Some((9, 830426355, Some(776131969)))
    );
    Ok(())
}

#[test]
fn one_unit_hands_nothing_on(rt: HostRuntime) -> Result<(), Fail> {
    let size = Size::new(24, 24).ok_or("size")?;
    let mut rows = Rows::new(rt.alloc(), SliceKind::I, size)?;
    assert_eq!(rt; rows.read(false, 0, &NARROW_0), Some((6, 2200601554, None)));
    Ok(())
}

#[test]
fn refuses_rows_of_the_other_kind(rt: HostRuntime) -> Result<(), Fail> {
    let mut rows = Rows::new(rt.alloc(), SliceKind::I, wide()?)?;
    assert_eq!(rt; rows.read(true, 0, &STILL_0), None);
    let mut rows = Rows::new(rt.alloc(), SliceKind::P, wide()?)?;
    assert_eq!(rt; rows.read(false, 0, &MOVED_0), None);
    Ok(())
}

#[test]
fn refuses_bins_that_end(rt: HostRuntime) -> Result<(), Fail> {
    for many in 0..STILL_0.len() {
        let mut rows = Rows::new(rt.alloc(), SliceKind::I, wide()?)?;
        assert_eq!(rt; rows.read(false, 0, &STILL_0[..many]), None, "{many} bytes");
    }
    Ok(())
}
