//! Slices and segments that an independent model of the recorder in Python wrote.
ghost use Rattle.std.specs.Prelude.{◌≡◌, ◌+◌, ◌≤◌, ◌<◌, [], length, IfOk};
ghost use Rattle.h265_model.specs.Plain.{ctus};

use super::{Grid, LeafSink, MotionGrid, Size, SliceKind, read_segment, read_slice};
use crate::cut::cut;
use cabac_dec::Contexts;
use h265_model::{CodingBlock, Vector};
use leaf_sink::Residuals;
use std::alloc::Global;
use std::test::Fail;

// Counts the units that it takes, and digests what it is told of them.
#[derive(Drop)]
struct Notes {
    size: Size,
    count: u32,
    digest: u32,
}

fn with(digest: u32, value: u32) -> u32 {
    digest.wrapping_mul(31).wrapping_add(value)
}

// A coordinate of a vector.
fn with_part(digest: u32, part: i32) -> u32 {
    if part < -5000 || part > 5000 {
        return 0;
    }
    with(digest, (part + 5000) as u32)
}

fn with_samples(digest: u32, samples: &[u8]) -> u32 {
    let mut digest = digest;
    for sample in samples {
        digest = with(digest, u32::from(*sample));
    }
    digest
}

// The levels that aren't 0, with their places.
fn with_levels(digest: u32, levels: Option<&[i16]>) -> u32 {
    let mut digest = digest;
    let mut place = 0u32;
    for level in levels.unwrap_or(&[]) {
        if *level != 0 {
            digest = with(with(digest, place), (i32::from(*level) + 40000) as u32);
        }
        place = place.wrapping_add(1);
    }
    digest
}

impl Notes {
    // Takes a unit.
    fn note(&mut self, kind: u32, block: CodingBlock)
        ensures { self.new.size ≡ self.old.size }
    {
        self.count = self.count.wrapping_add(1);
        let placed = with(with(with(self.digest, kind), block.x), block.y);
        self.digest = with(placed, block.log2);
    }
}

impl LeafSink for Notes {
    ghost last = { λ n. record { size = n.size; g = []; b = []; r = [] } };

    ghost stands_for = { λ n units. Unit {0} };

    fn copied(&mut self, block: CodingBlock, vector: Vector) {
        self.note(1, block);
        self.digest = with_part(with_part(self.digest, vector.x), vector.y);
    }

    fn moved(&mut self, block: CodingBlock, vector: Vector) {
        self.note(2, block);
        self.digest = with_part(with_part(self.digest, vector.x), vector.y);
    }

    fn samples(&mut self, block: CodingBlock, samples: &[u8]) {
        self.note(3, block);
        self.digest = with_samples(self.digest, samples);
    }

    fn levels(&mut self, block: CodingBlock, mode: u32, residuals: Residuals) {
        self.note(4, block);
        let luma = with_levels(with(self.digest, mode), residuals.luma);
        self.digest = with_levels(with_levels(luma, residuals.cb), residuals.cr);
    }
}

// A picture of which nothing is read yet, or a few rows.
#[derive(Drop)]
struct Page {
    kind: SliceKind,
    size: Size,
    grid: Grid,
    motion: MotionGrid,
    handed: Option<Contexts>,
}

impl Page {
    fn new(alloc: Global, kind: SliceKind, size: Size) -> Result<Page, Fail>
        ensures size { IfOk result (λ p. p.size ≡ size) }
        ensures grid { IfOk result (λ p. p.grid.size ≡ size) }
        ensures motion { IfOk result (λ p. p.motion.size ≡ size) }
    {
        Ok(Page {
            kind,
            size,
            grid: Grid::new(alloc, size)?,
            motion: MotionGrid::new(alloc, size)?,
            handed: None,
        })
    }

    // Reads a slice, and gives the number of its units and their digest.
    fn read_slice(&mut self, offsets: &[u32], bytes: &[u8]) -> Option<(u32, u32)>
        requires grid { self.old.grid.size ≡ self.old.size }
        requires motion { self.old.motion.size ≡ self.old.size }
        requires many { length offsets.now + 1 ≡ ctus self.old.size.h }
    {
        let mut notes = Notes {
            size: self.size,
            count: 0,
            digest: 0,
        };
        let Page {
            kind,
            size,
            grid,
            motion,
            ..
        } = self;
        read_slice(*kind, *size, grid, motion, offsets, bytes, &mut notes)?;
        Some((notes.count, notes.digest))
    }

    // Reads a segment after those above, and gives the number of its units and their digest.
    fn read_segment(&mut self, row: u32, bytes: &[u8]) -> Option<(u32, u32)>
        requires grid { self.old.grid.size ≡ self.old.size }
        requires motion { self.old.motion.size ≡ self.old.size }
        requires row { row < ctus self.old.size.h }
        ensures size { self.new.size ≡ self.old.size }
        ensures grid { self.new.grid.size ≡ self.old.size }
        ensures motion { self.new.motion.size ≡ self.old.size }
    {
        let mut notes = Notes {
            size: self.size,
            count: 0,
            digest: 0,
        };
        let Page {
            kind,
            size,
            grid,
            motion,
            handed,
        } = self;
        *handed = read_segment(*kind, *size, grid, motion, row, *handed, bytes, &mut notes)?;
        Some((notes.count, notes.digest))
    }
}

const STILL: [u8; 61] = [
    0xCA, 0x74, 0xB3, 0x38, 0xB1, 0xDD, 0x78, 0x96, 0x60, 0x6A, 0x84, 0x2E, 0x4C, 0xFA, 0x43, 0x40,
    0x08, 0x75, 0x0A, 0x64, 0xC2, 0xFD, 0xF3, 0xCB, 0x9C, 0x99, 0x49, 0xD8, 0x03, 0xB1, 0x97, 0x9B,
    0x6C, 0xAF, 0xFA, 0xF9, 0x5B, 0xE0, 0xD8, 0x1F, 0x5B, 0x6F, 0x53, 0x48, 0x36, 0x84, 0x64, 0x08,
    0xDB, 0xD7, 0x6D, 0xE2, 0xD0, 0x00, 0xC2, 0xF3, 0xCE, 0x12, 0xE5, 0x05, 0x10,
];

const MOVED: [u8; 55] = [
    0x21, 0xF0, 0xC7, 0xD6, 0x2D, 0x93, 0x14, 0xD2, 0x11, 0xE2, 0xF7, 0x0B, 0x9E, 0x71, 0x59, 0xA5,
    0x9D, 0x99, 0x6D, 0x0F, 0xFB, 0x98, 0x3F, 0x40, 0x13, 0x5B, 0x08, 0x75, 0x45, 0x89, 0x87, 0x92,
    0x09, 0x37, 0x3D, 0x6A, 0x07, 0x98, 0xB1, 0xB3, 0x66, 0xCF, 0x64, 0x48, 0x02, 0x14, 0x2C, 0x8D,
    0xBB, 0xFF, 0xB9, 0xC8, 0x7E, 0x7A, 0xA8,
];

const SEGMENT_0: [u8; 27] = [
    0x21, 0xF0, 0xC7, 0xD6, 0x2D, 0x93, 0x14, 0xD2, 0x11, 0xE2, 0xF7, 0x0B, 0x9E, 0x71, 0x59, 0xA5,
    0x9D, 0x99, 0x6D, 0x0F, 0xFB, 0x98, 0x3F, 0x40, 0x13, 0x5B, 0x18,
];

const SEGMENT_1: [u8; 16] = [
    0x75, 0x45, 0x89, 0x87, 0x92, 0x09, 0x37, 0x3D, 0x6A, 0x07, 0x98, 0xB1, 0xB3, 0x66, 0xCF, 0x6C,
];

const SEGMENT_2: [u8; 12] = [
    0x48, 0x02, 0x14, 0x2C, 0x8D, 0xBB, 0xFF, 0xB9, 0xC8, 0x7E, 0x7A, 0xA8,
];

// What stands before and behind 173 bytes of 80.
const NARROW_FRONT: [u8; 34] = [
    0x13, 0x4E, 0x3D, 0xD6, 0x7F, 0xD7, 0xC4, 0xE9, 0x4D, 0x4E, 0xB0, 0xF3, 0x4E, 0x49, 0xD0, 0x00,
    0x00, 0x01, 0x09, 0x00, 0x00, 0x00, 0x00, 0x03, 0x00, 0x00, 0x03, 0x00, 0x00, 0x02, 0x07, 0x00,
    0x00, 0x04,
];

const NARROW_BACK: [u8; 11] = [
    0xFD, 0x80, 0x13, 0x4B, 0xD0, 0x96, 0xCD, 0x97, 0x53, 0xDD, 0xFC,
];

// Three coding tree units across, two down.
fn low() -> Result<Size, Fail>
    ensures { IfOk result (λ s. s ≡ record { w = 70; h = 40 }) }
{
    Ok(Size::new(70, 40).ok_or("size")?)
}

// Three across, three down.
fn tall() -> Result<Size, Fail>
    ensures { IfOk result (λ s. s ≡ record { w = 70; h = 70 }) }
{
    Ok(Size::new(70, 70).ok_or("size")?)
}

// One across, two down.
fn narrow() -> Result<Size, Fail>
    ensures { IfOk result (λ s. s ≡ record { w = 24; h = 40 }) }
{
    Ok(Size::new(24, 40).ok_or("size")?)
}

#[test]
fn cuts_count_what_prevents_emulation(rt: HostRuntime) -> Result<(), Fail> {
    let none: &[u8] = &[];
    for (bytes, n, told) in [
        (none, 0, Some(0)),
        (none, 1, None),
        (&[0, 0, 1, 5], 2, Some(2)),
        (&[0, 0, 1, 5], 3, None),
        (&[0, 0, 1, 5], 4, Some(3)),
        (&[0, 0, 1, 5], 5, Some(4)),
        (&[0, 0, 1, 5], 6, None),
        (&[0, 0, 0, 0, 0], 4, Some(3)),
        (&[0, 0, 0, 0, 0], 5, Some(4)),
        (&[0, 0, 0, 0, 0], 6, None),
        (&[0, 0, 0, 0, 0], 7, Some(5)),
        (&[0, 0, 4], 3, Some(3)),
        (&[3, 0, 0, 3], 4, None),
        (&[3, 0, 0, 3], 5, Some(4)),
    ] {
        assert_eq!(rt; cut(bytes, n), told, "{n} of {bytes:?}");
    }
    Ok(())
}

#[test]
fn slices_come_back(rt: HostRuntime) -> Result<(), Fail> {
    let mut page = Page::new(rt.alloc(), SliceKind::I, low()?)?;
    assert_eq!(rt; page.read_slice(&[39], &STILL), Some((21, 3395037368)));
    let mut page = Page::new(rt.alloc(), SliceKind::P, tall()?)?;
    assert_eq!(rt; page.read_slice(&[27, 16], &MOVED), Some((30, 761327383)));
    Ok(())
}

// The offset counts five bytes more than there are.
#[test]
fn rows_of_one_unit_begin_anew(rt: HostRuntime) -> Result<(), Fail> {
    let mut bytes = NARROW_FRONT.to_vec(rt.alloc())?;
    bytes.extend_from_slice(&[0x80; 173])?;
    bytes.extend_from_slice(&NARROW_BACK)?;
    let mut page = Page::new(rt.alloc(), SliceKind::I, narrow()?)?;
    assert_eq!(rt; page.read_slice(&[209], &bytes), None);
    let mut page = Page::new(rt.alloc(), SliceKind::I, narrow()?)?;
    assert_eq!(rt; page.read_slice(&[214], &bytes), Some((9, 1133210164)));
    Ok(())
}

#[test]
fn segments_come_back(rt: HostRuntime) -> Result<(), Fail> {
    let mut page = Page::new(rt.alloc(), SliceKind::P, tall()?)?;
    assert_eq!(rt; page.read_segment(0, &SEGMENT_0), Some((12, 4100500820)));
    assert_eq!(rt; page.read_segment(1, &SEGMENT_1), Some((9, 701631187)));
    assert_eq!(rt; page.read_segment(2, &SEGMENT_2), Some((9, 936877808)));
    Ok(())
}

#[test]
fn refuses_other_offsets(rt: HostRuntime) -> Result<(), Fail> {
    for (first, second) in [(26, 16), (28, 16), (27, 15), (27, 17), (16, 27), (27, 29)] {
        let mut page = Page::new(rt.alloc(), SliceKind::P, tall()?)?;
        assert_eq!(rt;
            page.read_slice(&[first, second], &MOVED),
            None,
            "{first}, {second}"
        );
    }
    Ok(())
}

#[test]
fn refuses_bytes_that_end(rt: HostRuntime) -> Result<(), Fail> {
    for many in 0..MOVED.len() {
        let mut page = Page::new(rt.alloc(), SliceKind::P, tall()?)?;
        assert_eq!(rt;
            page.read_slice(&[27, 16], &MOVED[..many]),
            None,
            "{many} bytes"
        );
    }
    Ok(())
}

#[test]
fn refuses_bytes_behind_a_row(rt: HostRuntime) -> Result<(), Fail> {
    let mut page = Page::new(rt.alloc(), SliceKind::P, tall()?)?;
    assert_eq!(rt; page.read_segment(0, &MOVED[..27]), None);
    let mut bytes = SEGMENT_0.to_vec(rt.alloc())?;
    bytes.push(0)?;
    let mut page = Page::new(rt.alloc(), SliceKind::P, tall()?)?;
    assert_eq!(rt; page.read_segment(0, &bytes), None);
    Ok(())
}
