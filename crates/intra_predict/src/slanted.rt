//! Slanted prediction (8.4.4.2.6): one body for all modes, which reads a line at a place and a part between two samples.
ghost use Rattle.std.specs.Prelude.{◌≡◌, ℕ, ◌+◌, ◌*◌, ◌-◌, ◌<◌, ◌≤◌, ◌^◌, map, length, slice_index, not, true, false, pos, negsuc, ◌+ℤ◌, ◌*ℤ◌, ◌≤ℤ◌};
ghost use Rattle.h265_model.specs.Contexts.{shift_right};
ghost use Rattle.h265_model.specs.Plain.{below};
ghost use Rattle.h265_model.specs.Predict as model;
ghost use Rattle.intra_predict.specs.Sides.{side_of, signed};

use crate::angles::{leads_back, lean_of};
use crate::line::line_of;
use crate::plain::side;

// Where in the line a row begins that is led this far, in parts of 32.
#[inline(always)]
fn start_of(back: bool, way: usize) -> usize
    requires { way ≤ 1024 }
    ensures value { pos result ≡ pos 33 +ℤ shift_right (signed back way) 5 }
    ensures bound { result ≤ 65 }
{
    if back {
        33 - (way + 31) / 32
    } else {
        33 + way / 32
    }
}

// How many parts of 32 it lies beyond that place.
#[inline(always)]
fn part_of(back: bool, way: usize) -> u16
    requires { way ≤ 1024 }
    ensures value { result ≡ model.fraction (signed back way) }
    ensures bound { result < 32 }
{
    let part = (way % 32) as u16;
    if back { (32 - part) % 32 } else { part }
}

// A sample between two of the line.
#[inline(always)]
fn blend(part: u16, first: u8, second: u8) -> u8
    requires { part < 32 }
    ensures { result ≡ model.between part first second }
{
    (((32 - part) * u16::from(first) + part * u16::from(second) + 16) / 32) as u8
}

// One row, from this place of the line on.
#[inline(always)]
fn blend_row(line: &[u8], at: usize, part: u16, row: &mut [u8])
    requires part { part < 32 }
    requires within { at + length row.old < length line.now }
    ensures { row.new ≡ map (λ x. model.between part (slice_index line.now (at + x)) (slice_index line.now (at + x + 1))) (below (length row.new)) }
{
    for x in 0..row.len() {
        row[x] = blend(part, line[at + x], line[at + x + 1]);
    }
}

/// A block whose rows lie along the main side, which is the row above, or else the column on the left.
#[inline(always)]
pub(crate) fn slanted_block(above: bool, mode: u32, log2: u32, refs: &[u8], out: &mut [u8])
    requires least { 2 ≤ mode }
    requires most { mode < 35 }
    requires low { 3 ≤ log2 }
    requires high { log2 ≤ 5 }
    requires whole { length refs.now ≡ 4 * 2 ^ log2 + 1 }
    requires block { length out.old ≡ 2 ^ log2 * 2 ^ log2 }
    ensures { out.new ≡ model.square (2 ^ log2) (model.directed (side_of above refs.now (2 ^ log2)) (side_of (not above) refs.now (2 ^ log2)) mode) }
{
    let n = side(log2);
    let back = leads_back(mode);
    let lean = lean_of(mode);
    let line = line_of(above, mode, n, refs);
    for away in 0..n {
        let (at, way) = (away * n, (away + 1) * lean);
        blend_row(
            &line,
            start_of(back, way),
            part_of(back, way),
            &mut out[at..at + n],
        );
    }
}

// A column of a block, as a row.
#[inline(always)]
fn turn_row(block: &[u8], n: usize, y: usize, row: &mut [u8])
    requires n { n ≤ 32 }
    requires block { length block.now ≡ n * n }
    requires row { length row.old ≡ n }
    requires y { y < n }
    ensures { row.new ≡ map (λ x. slice_index block.now (x * n + y)) (below n) }
{
    for x in 0..n {
        row[x] = block[x * n + y];
    }
}

/// A block of a mode whose main side is the column on the left.
#[inline(always)]
pub(crate) fn turned_block(mode: u32, log2: u32, refs: &[u8], out: &mut [u8])
    requires least { 2 ≤ mode }
    requires most { mode < 35 }
    requires low { 3 ≤ log2 }
    requires high { log2 ≤ 5 }
    requires whole { length refs.now ≡ 4 * 2 ^ log2 + 1 }
    requires block { length out.old ≡ 2 ^ log2 * 2 ^ log2 }
    ensures { out.new ≡ model.square (2 ^ log2) (λ x y. model.directed (side_of false refs.now (2 ^ log2)) (side_of true refs.now (2 ^ log2)) mode y x) }
{
    let n = side(log2);
    let mut turned = [0u8; 1024];
    let block = &mut turned[..n * n];
    slanted_block(false, mode, log2, refs, block);
    for y in 0..n {
        let at = y * n;
        turn_row(block, n, y, &mut out[at..at + n]);
    }
}
