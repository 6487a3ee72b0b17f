//! Blocks of at most 64 by 64 pixels, and what in them is solid.
ghost use Rattle.std.specs.Prelude.{◌≡◌, ◌+◌, ◌*◌, ◌<◌, ◌≤◌, length};

use h265_model::{NoMemory, Rect, Rgb};
use std::alloc::Global;

/// The longest side of a block.
pub(crate) const SIDE: u32 = 64;

const STRIDE: usize = 64;

/// A rectangle that is painted with one colour.
#[derive(Clone, Copy, Debug)]
pub(crate) struct Fill {
    pub rect: Rect,
    pub colour: Rgb,
}

/// The colour of three samples, G, B and R, that were put behind one another.
pub(crate) fn colour_of(mixed: u32) -> Rgb {
    Rgb {
        r: (mixed % 256) as u8,
        g: (mixed / 65536 % 256) as u8,
        b: (mixed / 256 % 256) as u8,
    }
}

/// Puts a sample of each pixel of a row behind the others.
pub(crate) fn mix_row(colours: &mut [u32], samples: &[u8])
    requires { length samples.now ≡ length colours.old }
{
    for i in 0..samples.len() {
        colours[i] = colours[i]
            .wrapping_mul(256)
            .wrapping_add(u32::from(samples[i]));
    }
}

/// Marks the pixels of a row of which a sample differs.
pub(crate) fn mark_row(marks: &mut [bool], new: &[u8], old: &[u8])
    requires new { length new.now ≡ length marks.old }
    requires old { length old.now ≡ length marks.old }
{
    for i in 0..new.len() {
        marks[i] |= new[i] != old[i];
    }
}

// How many pixels have the colour of the one at (x, y), from it on to the right.
fn run_right(colours: &[u32], x: usize, y: usize, w: usize) -> usize
    requires whole { length colours.now ≡ 4096 }
    requires inside { (x < w) × (w ≤ 64) × (y < 64) }
    ensures some { 1 ≤ result }
    ensures inside { x + result ≤ w }
{
    let colour = colours[y * STRIDE + x];
    for i in x + 1..w {
        if colours[y * STRIDE + i] != colour {
            return i - x;
        }
    }
    w - x
}

// How many have, from it on downwards.
fn run_down(colours: &[u32], x: usize, y: usize, h: usize) -> usize
    requires whole { length colours.now ≡ 4096 }
    requires inside { (x < 64) × (y < h) × (h ≤ 64) }
    ensures some { 1 ≤ result }
    ensures inside { y + result ≤ h }
{
    let colour = colours[y * STRIDE + x];
    for j in y + 1..h {
        if colours[j * STRIDE + x] != colour {
            return j - y;
        }
    }
    h - y
}

// Whether pixels of a row have one colour.
fn is_row(colours: &[u32], x: usize, y: usize, n: usize, colour: u32) -> bool
    requires whole { length colours.now ≡ 4096 }
    requires inside { (x + n ≤ 64) × (y < 64) }
{
    for i in x..x + n {
        if colours[y * STRIDE + i] != colour {
            return false;
        }
    }
    true
}

// Whether pixels of a column have one colour.
fn is_column(colours: &[u32], x: usize, y: usize, m: usize, colour: u32) -> bool
    requires whole { length colours.now ≡ 4096 }
    requires inside { (x < 64) × (y + m ≤ 64) }
{
    for j in y..y + m {
        if colours[j * STRIDE + x] != colour {
            return false;
        }
    }
    true
}

// How many rows from row y on have the colour of (x, y) in their `n` pixels from x on.
fn rows_down(colours: &[u32], x: usize, y: usize, n: usize, h: usize) -> usize
    requires whole { length colours.now ≡ 4096 }
    requires inside { (x + n ≤ 64) × (x < 64) × (y < h) × (h ≤ 64) }
    ensures some { 1 ≤ result }
    ensures inside { y + result ≤ h }
{
    let colour = colours[y * STRIDE + x];
    for j in y + 1..h {
        if !is_row(colours, x, j, n, colour) {
            return j - y;
        }
    }
    h - y
}

// How many columns from column x on have the colour of (x, y) in their `m` pixels from y on.
fn columns_right(colours: &[u32], x: usize, y: usize, m: usize, w: usize) -> usize
    requires whole { length colours.now ≡ 4096 }
    requires inside { (x < w) × (w ≤ 64) × (y < 64) × (y + m ≤ 64) }
    ensures some { 1 ≤ result }
    ensures inside { x + result ≤ w }
{
    let colour = colours[y * STRIDE + x];
    for i in x + 1..w {
        if !is_column(colours, i, y, m, colour) {
            return i - x;
        }
    }
    w - x
}

// The sides of a solid rectangle from (x, y) on, looked for in rows and in columns first.
fn solid_from(colours: &[u32], x: usize, y: usize, w: usize, h: usize) -> (usize, usize)
    requires whole { length colours.now ≡ 4096 }
    requires inside { (x < w) × (w ≤ 64) × (y < h) × (h ≤ 64) }
    ensures wide { (1 ≤ result.0) × (x + result.0 ≤ w) }
    ensures high { (1 ≤ result.1) × (y + result.1 ≤ h) }
{
    let wide = run_right(colours, x, y, w);
    let low = rows_down(colours, x, y, wide, h);
    let high = run_down(colours, x, y, h);
    let narrow = columns_right(colours, x, y, high, w);
    if wide * low >= narrow * high {
        (wide, low)
    } else {
        (narrow, high)
    }
}

// Takes the marks off a rectangle.
fn unmark(marks: &mut [bool], x: usize, y: usize, n: usize, m: usize)
    requires whole { length marks.old ≡ 4096 }
    requires inside { (x + n ≤ 64) × (y + m ≤ 64) }
    ensures { length marks.new ≡ 4096 }
{
    for j in y..y + m {
        let at = j * STRIDE + x;
        marks[at..at + n].fill(false);
    }
}

// Adds solid rectangles that begin in row y and cover its marks.
fn add_row(
    fills: &mut Vec<Fill>,
    colours: &[u32],
    marks: &mut [bool],
    y: usize,
    part: Rect,
) -> Result<(), NoMemory>
    requires whole { length colours.now ≡ 4096 }
    requires marks { length marks.old ≡ 4096 }
    requires inside { (part.w ≤ 64) × (part.h ≤ 64) × (y < part.h) }
    ensures { length marks.new ≡ 4096 }
{
    let (w, h) = (part.w as usize, part.h as usize);
    for x in 0..w {
        if marks[y * STRIDE + x] {
            let (n, m) = solid_from(colours, x, y, w, h);
            unmark(marks, x, y, n, m);
            let rect = Rect {
                x: part.x.saturating_add(x as u32),
                y: part.y.saturating_add(y as u32),
                w: n as u32,
                h: m as u32,
            };
            let colour = colour_of(colours[y * STRIDE + x]);
            fills.push(Fill { rect, colour })?;
        }
    }
    Ok(())
}

// The characters of a line of a script, and those of a pixel of a blit.
const LINE: usize = 26;

const PIXEL: usize = 6;

// What a block may cost beyond a blit of the rows so far, until it is given up.
const SLACK: usize = 300;

/// Adds solid rectangles that cover the marks of a block, unless they cost more than a blit of it.
pub(crate) fn add_solids(
    fills: &mut Vec<Fill>,
    colours: &[u32],
    marks: &mut [bool],
    part: Rect,
) -> Result<bool, NoMemory>
    requires whole { length colours.now ≡ 4096 }
    requires marks { length marks.old ≡ 4096 }
    requires inside { (part.w ≤ 64) × (part.h ≤ 64) }
    ensures { length marks.new ≡ 4096 }
{
    let (start, w) = (fills.len(), part.w as usize);
    for y in 0..part.h as usize {
        add_row(fills, colours, marks, y, part)?;
        let spent = fills.len().saturating_sub(start).saturating_mul(LINE);
        if spent > PIXEL * w * (y + 1) + SLACK {
            return Ok(false);
        }
    }
    Ok(true)
}

// How often the colour changes along a row.
fn changes_along(row: &[u32]) -> u32 {
    let mut count = 0u32;
    for i in 1..row.len() {
        count = count.wrapping_add(u32::from(row[i] != row[i - 1]));
    }
    count
}

// How many pixels of two rows differ.
fn changes_between(above: &[u32], row: &[u32]) -> u32 {
    let n = above.len().min(row.len());
    let mut count = 0u32;
    for i in 0..n {
        count = count.wrapping_add(u32::from(row[i] != above[i]));
    }
    count
}

/// Whether the colour changes so often, along rows and along columns, that solid rectangles aren't worth looking for.
pub(crate) fn is_noise(colours: &[u32], w: usize, h: usize) -> bool
    requires whole { length colours.now ≡ 4096 }
    requires inside { (w ≤ 64) × (h ≤ 64) }
{
    let (mut along, mut down) = (0u32, 0u32);
    for y in 0..h {
        let at = y * STRIDE;
        along = along.saturating_add(changes_along(&colours[at..at + w]));
        if y > 0 {
            let above = at - STRIDE;
            let changes = changes_between(&colours[above..above + w], &colours[at..at + w]);
            down = down.saturating_add(changes);
        }
    }
    along.min(down).saturating_mul(3) > (w * h) as u32
}

/// A colour, and by how much it leads among those that were looked at.
#[derive(Clone, Copy)]
pub(crate) struct Lead {
    pub colour: u32,
    pub by: u32,
}

/// The lead after the marked pixels of one more row. A colour that more than half of all have leads in the end.
pub(crate) fn lead_after(before: Lead, colours: &[u32], marks: &[bool]) -> Lead {
    let n = colours.len().min(marks.len());
    let mut lead = before;
    for i in 0..n {
        if marks[i] {
            if colours[i] == lead.colour {
                lead.by = lead.by.wrapping_add(1);
            } else if lead.by > 0 {
                lead.by -= 1;
            } else {
                lead.colour = colours[i];
                lead.by = 1;
            }
        }
    }
    lead
}

/// How many pixels of a row are marked.
pub(crate) fn count_marks(marks: &[bool]) -> u32 {
    let mut count = 0u32;
    for i in 0..marks.len() {
        count = count.wrapping_add(u32::from(marks[i]));
    }
    count
}

/// How many have another colour.
pub(crate) fn count_others(colours: &[u32], colour: u32) -> u32 {
    let mut count = 0u32;
    for i in 0..colours.len() {
        count = count.wrapping_add(u32::from(colours[i] != colour));
    }
    count
}

/// Marks those of a row that have another colour, and no others.
pub(crate) fn mark_others(marks: &mut [bool], colours: &[u32], colour: u32) {
    let n = marks.len().min(colours.len());
    for i in 0..n {
        marks[i] = colours[i] != colour;
    }
}

/// Adds a fill, in one with the last where they stand side by side.
pub(crate) fn add_fill(fills: &mut Vec<Fill>, fill: Fill) -> Result<(), NoMemory> {
    let n = fills.len();
    if n > 0 {
        let last = fills[n - 1];
        let beside = last.rect.x.saturating_add(last.rect.w) == fill.rect.x;
        let level = last.rect.y == fill.rect.y && last.rect.h == fill.rect.h;
        if beside && level && last.colour == fill.colour {
            fills[n - 1].rect.w = last.rect.w.saturating_add(fill.rect.w);
            return Ok(());
        }
    }
    fills.push(fill)?;
    Ok(())
}
