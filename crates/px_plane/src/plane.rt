//! Writes to a part of one plane.
ghost use Rattle.std.specs.Prelude.{◌≡◌, ℕ, ◌+◌, ◌*◌, ◌-◌, ◌<◌, ◌≤◌, length, slice_index, slice_index_or};
ghost use Rattle.h265_model.specs.Raster.{black};
ghost use Rattle.h265_model.specs.Raster.{component};
ghost use Rattle.px_plane.specs.Planes.{pixel_at};
ghost use Rattle.px_plane.specs.Rows.{IsPut, IsPlaced, sample_at, sample_from, row_sample};

use crate::{Rect, Rgb};

/// The sides of a part of a plane: it has the columns from `left` up to `right`, and the rows from `top` up to `bottom`.
#[derive(Clone, Copy)]
pub(crate) struct Sides {
    pub left: usize,
    pub right: usize,
    pub top: usize,
    pub bottom: usize,
}

impl Sides {
    /// The sides of a rectangle.
    pub(crate) fn of(rect: Rect) -> Sides
        ensures left { result.left ≡ rect.x }
        ensures right { result.right ≡ rect.x + rect.w }
        ensures top { result.top ≡ rect.y }
        ensures bottom { result.bottom ≡ rect.y + rect.h }
    {
        Sides {
            left: rect.x as usize,
            right: rect.x as usize + rect.w as usize,
            top: rect.y as usize,
            bottom: rect.y as usize + rect.h as usize,
        }
    }
}

/// Gives one value to the places of a part, in rows of `stride`.
pub(crate) fn fill_plane(plane: &mut [u8], stride: usize, part: Sides, value: u8)
    requires across { part.left ≤ part.right }
    requires wide { part.right ≤ stride }
    requires down { part.top ≤ part.bottom }
    requires tall { part.bottom * stride ≤ length plane.old }
    ensures { IsPut plane.old plane.new stride part (λ x y. value) }
{
    let Sides {
        left,
        right,
        top,
        bottom,
    } = part;
    for y in top..bottom {
        let at = y * stride;
        plane[at + left..at + right].fill(value);
    }
}

// A component of a colour: 0 for G, 1 for B, 2 for R.
#[inline(always)]
fn component_of(colour: Rgb, number: u32) -> u8
    requires { number < 3 }
    ensures { result ≡ component number colour }
{
    match number {
        0 => colour.g,
        1 => colour.b,
        _ => colour.r,
    }
}

// Gives a row one component of as many pixels.
#[inline(always)]
fn blit_row(row: &mut [u8], pixels: &[Rgb], number: u32)
    requires component { number < 3 }
    requires as_many { length row.old ≡ length pixels.now }
    ensures { (i : ℕ) → i < length pixels.now → slice_index row.new i ≡ component number (slice_index_or pixels.now i black) }
{
    for i in 0..row.len() {
        row[i] = component_of(pixels[i], number);
    }
}

/// Gives a part one component of the pixels of a rectangle, from the rectangle's first place on.
#[inline(always)]
pub(crate) fn blit_plane(
    plane: &mut [u8],
    stride: usize,
    part: Sides,
    rect: Rect,
    pixels: &[Rgb],
    number: u32,
)
    requires component { number < 3 }
    requires across { part.left ≤ part.right }
    requires wide { part.right ≤ stride }
    requires down { part.top ≤ part.bottom }
    requires tall { part.bottom * stride ≤ length plane.old }
    requires placed { IsPlaced rect part }
    requires pixels { length pixels.now ≡ rect.w * rect.h }
    ensures { IsPut plane.old plane.new stride part (λ x y. component number (pixel_at rect pixels.now x y)) }
{
    let Sides {
        left,
        right,
        top,
        bottom,
    } = part;
    for y in top..bottom {
        let at = y * stride;
        let from = (y - top) * rect.w as usize;
        blit_row(
            &mut plane[at + left..at + right],
            &pixels[from..from + (right - left)],
            number,
        );
    }
}

/// Gives a part the samples of one component of a tile, from the component's first sample on.
pub(crate) fn lay_plane(plane: &mut [u8], stride: usize, part: Sides, samples: &[u8], number: usize)
    requires component { number < 3 }
    requires across { part.left ≤ part.right }
    requires wide { part.right ≤ stride }
    requires down { part.top ≤ part.bottom }
    requires tall { part.bottom * stride ≤ length plane.old }
    requires narrow { part.right ≤ part.left + 32 }
    requires low { part.bottom ≤ part.top + 32 }
    requires samples { length samples.now ≡ 3072 }
    ensures { IsPut plane.old plane.new stride part (λ x y. sample_at part samples.now number x y) }
{
    let Sides {
        left,
        right,
        top,
        bottom,
    } = part;
    for y in top..bottom {
        let at = y * stride;
        let from = number * 1024 + (y - top) * 32;
        plane[at + left..at + right].copy_from_slice(&samples[from..from + (right - left)]);
    }
}

// Copies rows from below the part's rows or from beside them, from the top.
fn copy_from_below(plane: &mut [u8], stride: usize, part: Sides, from_x: usize, from_y: usize)
    requires across { part.left ≤ part.right }
    requires wide { part.right ≤ stride }
    requires down { part.top ≤ part.bottom }
    requires tall { part.bottom * stride ≤ length plane.old }
    requires some { 1 ≤ stride }
    requires source_wide { from_x + (part.right - part.left) ≤ stride }
    requires source_tall { (from_y + (part.bottom - part.top)) * stride ≤ length plane.old }
    requires below { part.top ≤ from_y }
    ensures { IsPut plane.old plane.new stride part (sample_from plane.old stride part from_x from_y) }
{
    let Sides {
        left,
        right,
        top,
        bottom,
    } = part;
    for y in top..bottom {
        let at = y * stride + left;
        let from = (from_y + (y - top)) * stride + from_x;
        plane.copy_within(from..from + (right - left), at);
    }
}

// Copies rows from above the part's rows, from the bottom.
fn copy_from_above(plane: &mut [u8], stride: usize, part: Sides, from_x: usize, from_y: usize)
    requires across { part.left ≤ part.right }
    requires wide { part.right ≤ stride }
    requires down { part.top ≤ part.bottom }
    requires tall { part.bottom * stride ≤ length plane.old }
    requires some { 1 ≤ stride }
    requires source_wide { from_x + (part.right - part.left) ≤ stride }
    requires source_tall { (from_y + (part.bottom - part.top)) * stride ≤ length plane.old }
    requires above { from_y < part.top }
    ensures { IsPut plane.old plane.new stride part (sample_from plane.old stride part from_x from_y) }
{
    let Sides {
        left,
        right,
        top,
        bottom,
    } = part;
    for done in 0..bottom - top {
        let row = bottom - top - 1 - done;
        let at = (top + row) * stride + left;
        let from = (from_y + row) * stride + from_x;
        plane.copy_within(from..from + (right - left), at);
    }
}

/// Copies to a part the samples of as many places from another one on, as if all of them were read first.
pub(crate) fn copy_plane(plane: &mut [u8], stride: usize, part: Sides, from_x: usize, from_y: usize)
    requires across { part.left ≤ part.right }
    requires wide { part.right ≤ stride }
    requires down { part.top ≤ part.bottom }
    requires tall { part.bottom * stride ≤ length plane.old }
    requires some { 1 ≤ stride }
    requires source_wide { from_x + (part.right - part.left) ≤ stride }
    requires source_tall { (from_y + (part.bottom - part.top)) * stride ≤ length plane.old }
    ensures { IsPut plane.old plane.new stride part (sample_from plane.old stride part from_x from_y) }
{
    if part.top <= from_y {
        copy_from_below(plane, stride, part, from_x, from_y);
    } else {
        copy_from_above(plane, stride, part, from_x, from_y);
    }
}

/// Gives a part the samples that stand in rows as wide as it.
pub(crate) fn put_plane(plane: &mut [u8], stride: usize, part: Sides, samples: &[u8])
    requires across { part.left ≤ part.right }
    requires wide { part.right ≤ stride }
    requires down { part.top ≤ part.bottom }
    requires tall { part.bottom * stride ≤ length plane.old }
    requires samples { length samples.now ≡ (part.right - part.left) * (part.bottom - part.top) }
    ensures { IsPut plane.old plane.new stride part (row_sample part samples.now) }
{
    let Sides {
        left,
        right,
        top,
        bottom,
    } = part;
    let n = right - left;
    for y in top..bottom {
        let at = y * stride;
        let from = (y - top) * n;
        plane[at + left..at + right].copy_from_slice(&samples[from..from + n]);
    }
}

/// Gives a part the samples of another plane with rows of `stride`, from (from_x, from_y) on.
pub(crate) fn copy_from_plane(
    plane: &mut [u8],
    other: &[u8],
    stride: usize,
    part: Sides,
    from_x: usize,
    from_y: usize,
)
    requires across { part.left ≤ part.right }
    requires wide { part.right ≤ stride }
    requires down { part.top ≤ part.bottom }
    requires tall { part.bottom * stride ≤ length plane.old }
    requires as_long { length other.now ≡ length plane.old }
    requires low { from_y + (part.bottom - part.top) ≤ 4096 }
    requires from_wide { from_x + (part.right - part.left) ≤ stride }
    requires from_tall { (from_y + (part.bottom - part.top)) * stride ≤ length other.now }
    ensures { IsPut plane.old plane.new stride part (λ x y. slice_index other.now ((from_y + (y - part.top)) * stride + (from_x + (x - part.left)))) }
{
    let Sides {
        left,
        right,
        top,
        bottom,
    } = part;
    let n = right - left;
    for y in top..bottom {
        let at = y * stride;
        let from = (from_y + (y - top)) * stride + from_x;
        plane[at + left..at + right].copy_from_slice(&other[from..from + n]);
    }
}
