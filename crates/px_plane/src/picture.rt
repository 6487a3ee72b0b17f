//! Pictures of three planes.
ghost use Rattle.std.specs.Prelude.{◌≡◌, ℕ, ◌+◌, ◌-◌, ◌*◌, ◌<◌, ◌≤◌, ◌↔◌, min, map, length, IfOk, IfSome, IsNone, IsTrue, false};
ghost use Rattle.h265_model.specs.Plain.{coded, ctus, below};
ghost use Rattle.h265_model.specs.Settings.{is_size};
ghost use Rattle.h265_model.specs.Raster.{Raster, black_raster, component, coded_picture, source_x, source_y};
ghost use Rattle.h265_model.specs.declared.rgb.Rgb.{Rgb};
ghost use Rattle.h265_model.specs.Tiles.{tile_count, job_for};
ghost use Rattle.px_plane.specs.Planes.{black, picture_of, plane_of, covers, filled, blitted, copies_to, copied, pixel_at, IsPicture, Stores, Shows, ShowsColours, repainted, recopied};
ghost use Rattle.px_plane.specs.Blocks.{same_places, compared, IsSameBlock, IsRowPart};
ghost use Rattle.px_plane.specs.Tiles.{laid, IsJobOf, DiffersOnlyIn, IsTilePart, IsTileLaid};
ghost use Rattle.px_plane.specs.Rows.{IsWithin, IsPartOf, IsCopyOf, IsPutInto, sample_at, with_square, with_copy};

use crate::clip::Clip;
use crate::compare::{RowPart, equal_front};
use crate::plane::{
    Sides, blit_plane, copy_from_plane, copy_plane, fill_plane, lay_plane, put_plane,
};
use crate::{Job, Rect, Rgb, Size, Steps};
use h265_model::NoMemory;
use std::alloc::Global;
use std::marker::Model;
use std::sync::ledger::Ledger;

/// A picture: its size, and its planes G, B and R, which H.265 calls luma, Cb and Cr.
///
/// Each plane has one byte for each place of the coded size, which is the size rounded up to
/// multiples of 8 (7.4.3.2.1), in rows from the top.
#[derive(Debug, Drop)]
pub struct Picture {
    w: u32,
    h: u32,
    g: Vec<u8>,
    b: Vec<u8>,
    r: Vec<u8>,
}

impl Model for Picture {
    ghost use Rattle.px_plane.specs.Planes.{Planes, IsPicture};

    ghost Value = { Planes };

    ghost view = { λ p. record { size = record { w = p.w; h = p.h }; g = p.g.items; b = p.b.items; r = p.r.items } };

    ghost invariant = { λ p. IsPicture (record { size = record { w = p.w; h = p.h }; g = p.g.items; b = p.b.items; r = p.r.items }) };
}

// A side rounded up to a multiple of 8.
fn coded_side(side: u32) -> u32
    requires { side ≤ 4096 }
    ensures value { result ≡ coded side }
    ensures bound { result ≤ 4096 }
{
    (side + 7) / 8 * 8
}

// How many of `n` places along a side of `end` are copied, from the place `from` to the place `to`.
fn length_copied(n: u32, from: u32, to: u32, end: u32) -> u32
    ensures { result ≡ min n (min (end - to) (end - from)) }
{
    n.min(end.saturating_sub(to)).min(end.saturating_sub(from))
}

impl Picture {
    /// A picture of zeros, which shows a desktop on which nothing was painted.
    ///
    /// # Errors
    ///
    /// `NoMemory` where the allocator refuses one of the planes.
    pub fn black(alloc: Global, size: Size) -> Result<Picture, NoMemory>
        ensures value { IfOk result (λ p. p ≡ black size) }
        ensures shows { IfOk result (λ p. Shows p (black_raster p.size)) }
    {
        let area = coded_side(size.w()) as usize * coded_side(size.h()) as usize;
        let g = vec![in alloc; 0; area]?;
        let b = vec![in alloc; 0; area]?;
        let r = vec![in alloc; 0; area]?;
        Ok(Picture {
            w: size.w(),
            h: size.h(),
            g,
            b,
            r,
        })
    }

    /// The size of the desktop.
    pub fn size(&self) -> Size
        ensures value { result ≡ self.now.size }
        ensures within { IsTrue (is_size result) }
    {
        Size::within(self.w, self.h)
    }

    /// The plane of a component (0 for G, 1 for B, 2 for R): the samples of the coded size, in rows from the top.
    pub fn plane(&self, component: u32) -> &[u8]
        requires { component < 3 }
        ensures plane { result.now ≡ plane_of self.now component }
        ensures area { length result.now ≡ coded self.now.size.w * coded self.now.size.h }
        ensures narrow { self.now.size.w ≤ 4096 }
    {
        match component {
            0 => &self.g,
            1 => &self.b,
            _ => &self.r,
        }
    }

    /// The sample of a component (0 for G, 1 for B, 2 for R) at a place of the coded picture.
    pub fn sample(&self, component: u32, x: u32, y: u32) -> u8
        requires component { component < 3 }
        requires across { x < coded self.now.size.w }
        requires down { y < coded self.now.size.h }
        ensures { result ≡ picture_of self.now component x y }
    {
        let plane = self.plane(component);
        let stride = coded_side(self.w) as usize;
        plane[y as usize * stride + x as usize]
    }

    // The samples of a component at `n` places of a row, from (x, y) on.
    fn row_at(&self, component: u32, x: usize, y: usize, n: usize) -> &[u8]
        requires component { component < 3 }
        requires across { x + n ≤ coded self.now.size.w }
        requires down { y < coded self.now.size.h }
        ensures samples { result.now ≡ map (λ i. picture_of self.now component (x + i) y) (below n) }
        ensures count { length result.now ≡ n }
    {
        let plane = self.plane(component);
        let stride = coded_side(self.w) as usize;
        let at = y * stride + x;
        &plane[at..at + n]
    }

    /// The samples of a component (0 for G, 1 for B, 2 for R) at `n` places of a row, from (x, y) on.
    pub fn row(&self, component: u32, x: u32, y: u32, n: u32) -> &[u8]
        requires component { component < 3 }
        requires across { x + n ≤ coded self.now.size.w }
        requires down { y < coded self.now.size.h }
        ensures samples { result.now ≡ map (λ i. picture_of self.now component (x + i) y) (below n) }
        ensures count { length result.now ≡ n }
    {
        self.row_at(component, x as usize, y as usize, n as usize)
    }

    /// An equal picture.
    ///
    /// # Errors
    ///
    /// `NoMemory` where the allocator refuses one of the planes.
    pub fn twin(&self) -> Result<Picture, NoMemory>
        ensures { IfOk result (λ p. p ≡ self.now) }
    {
        Ok(Picture {
            w: self.w,
            h: self.h,
            g: self.g.clone()?,
            b: self.b.clone()?,
            r: self.r.clone()?,
        })
    }

    // The part of the picture where a rectangle covers the desktop.
    fn part(&self, rect: Rect) -> Option<Sides>
        ensures part { IfSome result (IsPartOf self.now.size rect) }
        ensures nothing { IsNone result → (x y : ℕ) → covers self.now.size rect x y ≡ false }
        ensures whole { IsPicture self.now }
    {
        Some(Sides::of(rect.clip(Size::within(self.w, self.h))?))
    }

    // Puts one colour into a part.
    fn fill_part(&mut self, part: Sides, colour: Rgb)
        requires { IsWithin self.old.size part }
        ensures { IsPutInto self.old self.new part (λ c x y. component c colour) }
    {
        let stride = coded_side(self.w) as usize;
        fill_plane(&mut self.g, stride, part, colour.g);
        fill_plane(&mut self.b, stride, part, colour.b);
        fill_plane(&mut self.r, stride, part, colour.r);
    }

    /// Paints the part of a rectangle that lies in the desktop with one colour.
    pub fn fill(&mut self, rect: Rect, colour: Rgb)
        ensures size { self.new.size ≡ self.old.size }
        ensures painted { Stores self.new (filled self.old rect colour) }
        ensures shows { (before : ℕ → ℕ → Rgb) → ShowsColours self.old before → ShowsColours self.new (repainted rect (λ x y. colour) before) }
    {
        if let Some(part) = self.part(rect) {
            self.fill_part(part, colour);
        }
    }

    // Puts the pixels of a rectangle into the part that it covers.
    fn blit_part(&mut self, part: Sides, rect: Rect, pixels: &[Rgb])
        requires part { IsPartOf self.old.size rect part }
        requires pixels { length pixels.now ≡ rect.w * rect.h }
        ensures { IsPutInto self.old self.new part (λ c x y. component c (pixel_at rect pixels.now x y)) }
    {
        let stride = coded_side(self.w) as usize;
        blit_plane(&mut self.g, stride, part, rect, pixels, 0);
        blit_plane(&mut self.b, stride, part, rect, pixels, 1);
        blit_plane(&mut self.r, stride, part, rect, pixels, 2);
    }

    /// Paints the part of a rectangle that lies in the desktop with pixels.
    ///
    /// The pixels are those of the whole rectangle, in rows from the top.
    pub fn blit(&mut self, rect: Rect, pixels: &[Rgb])
        requires { length pixels.now ≡ rect.w * rect.h }
        ensures size { self.new.size ≡ self.old.size }
        ensures painted { Stores self.new (blitted self.old rect pixels.now) }
        ensures shows { (before : ℕ → ℕ → Rgb) → ShowsColours self.old before → ShowsColours self.new (repainted rect (pixel_at rect pixels.now) before) }
    {
        if let Some(part) = self.part(rect) {
            self.blit_part(part, rect, pixels);
        }
    }

    // The part of the picture that a copy of a rectangle to a place paints.
    fn part_copied(&self, rect: Rect, to_x: u32, to_y: u32) -> Option<Sides>
        ensures part { IfSome result (IsCopyOf self.now.size rect to_x to_y) }
        ensures nothing { IsNone result → (x y : ℕ) → copies_to self.now.size rect to_x to_y x y ≡ false }
        ensures whole { IsPicture self.now }
    {
        let width = length_copied(rect.w, rect.x, to_x, self.w);
        let height = length_copied(rect.h, rect.y, to_y, self.h);
        if width == 0 || height == 0 {
            return None;
        }
        Some(Sides::of(Rect {
            x: to_x,
            y: to_y,
            w: width,
            h: height,
        }))
    }

    // Copies to a part what the picture has from (x, y) on.
    fn copy_part(&mut self, part: Sides, x: usize, y: usize)
        requires part { IsWithin self.old.size part }
        requires wide { x + (part.right - part.left) ≤ coded self.old.size.w }
        requires tall { y + (part.bottom - part.top) ≤ coded self.old.size.h }
        ensures { IsPutInto self.old self.new part (λ c i j. picture_of self.old c (x + (i - part.left)) (y + (j - part.top))) }
    {
        let stride = coded_side(self.w) as usize;
        copy_plane(&mut self.g, stride, part, x, y);
        copy_plane(&mut self.b, stride, part, x, y);
        copy_plane(&mut self.r, stride, part, x, y);
    }

    /// Copies a rectangle to the one of the same sides at `to_x`, `to_y`.
    ///
    /// All of it is read before any place is painted. A place of the target is painted where it lies in the desktop and its
    /// source does too.
    pub fn copy(&mut self, rect: Rect, to_x: u32, to_y: u32)
        ensures size { self.new.size ≡ self.old.size }
        ensures painted { Stores self.new (copied self.old rect to_x to_y) }
        ensures shows { (before : ℕ → ℕ → Rgb) → ShowsColours self.old before → ShowsColours self.new (recopied self.old.size rect to_x to_y before) }
    {
        if let Some(part) = self.part_copied(rect, to_x, to_y) {
            self.copy_part(part, rect.x as usize, rect.y as usize);
        }
    }

    // How many tiles stand side by side.
    fn tiles_across(&self) -> u32
        ensures value { result ≡ ctus self.now.size.w }
        ensures whole { IsPicture self.now }
    {
        (self.w + 31) / 32
    }

    // The part of the coded picture that lies in a tile, where `across` tiles stand side by side.
    fn tile_part(&self, tile: u32, across: u32) -> Sides
        requires across { across ≡ ctus self.now.size.w }
        requires tile { tile < tile_count self.now.size }
        ensures { IsTilePart self.now.size tile result }
    {
        let left = (tile % across) as usize * 32;
        let top = (tile / across) as usize * 32;
        Sides {
            left,
            right: (left + 32).min(coded_side(self.w) as usize),
            top,
            bottom: (top + 32).min(coded_side(self.h) as usize),
        }
    }

    // Puts the samples of a tile into the part that lies in it.
    fn lay_part(&mut self, part: Sides, samples: &[u8])
        requires within { IsWithin self.old.size part }
        requires narrow { part.right ≤ part.left + 32 }
        requires low { part.bottom ≤ part.top + 32 }
        requires samples { length samples.now ≡ 3072 }
        ensures { IsPutInto self.old self.new part (sample_at part samples.now) }
    {
        let stride = coded_side(self.w) as usize;
        lay_plane(&mut self.g, stride, part, samples, 0);
        lay_plane(&mut self.b, stride, part, samples, 1);
        lay_plane(&mut self.r, stride, part, samples, 2);
    }

    // Lays one tile, where `across` tiles stand side by side.
    fn lay_tile(&mut self, tile: u32, across: u32, samples: &[u8])
        requires across { across ≡ ctus self.old.size.w }
        requires tile { tile < tile_count self.old.size }
        requires samples { length samples.now ≡ 3072 }
        ensures { IsTileLaid self.old self.new tile samples.now }
    {
        let part = self.tile_part(tile, across);
        self.lay_part(part, samples);
    }

    /// Puts each listed tile of a job in its place.
    ///
    /// What a tile has outside the coded picture is dropped.
    pub fn lay(&mut self, job: &Job)
        requires { IsJobOf self.old.size job.now }
        ensures size { self.new.size ≡ self.old.size }
        ensures laid { Stores self.new (laid self.old job.now) }
        ensures shows { (shown : Raster) → job.now ≡ job_for self.old.size job.now.number job.now.tiles shown
            → DiffersOnlyIn job.now.tiles self.old (coded_picture self.old.size shown) → Shows self.new shown }
    {
        let (tiles, samples) = (job.tiles.as_slice(), job.samples.as_slice());
        let across = self.tiles_across();
        for k in 0..tiles.len() {
            let at = k * 3072;
            self.lay_tile(tiles[k], across, &samples[at..at + 3072]);
        }
    }

    // The samples of `n` places of a row, from (x, y) on.
    fn row_part(&self, x: usize, y: usize, n: usize) -> RowPart<'_>
        requires across { x + n ≤ coded self.now.size.w }
        requires down { y < coded self.now.size.h }
        ensures { IsRowPart (picture_of self.now) x y n result }
    {
        RowPart {
            g: self.row_at(0, x, y, n),
            b: self.row_at(1, x, y, n),
            r: self.row_at(2, x, y, n),
        }
    }

    /// Whether two pictures have the same samples in a rectangle.
    ///
    /// It compares the three planes at each position of the rectangle, in rows from the top, up to the first position
    /// that differs, and ticks once for each position compared.
    pub fn block_equal<L: Ledger>(&self, other: &Picture, rect: Rect, steps: &mut Steps<L>) -> bool
        requires sizes { other.now.size ≡ self.now.size }
        requires across { rect.x + rect.w ≤ coded self.now.size.w }
        requires down { rect.y + rect.h ≤ coded self.now.size.h }
        ensures equal { IsTrue result ↔ IsSameBlock (picture_of self.now) (picture_of other.now) rect }
        ensures ticks { steps.new ≡ steps.old + compared (same_places (picture_of self.now) (picture_of other.now) rect) }
        ensures at_most { steps.new ≤ steps.old + rect.w * rect.h }
    {
        let Sides {
            left,
            right,
            top,
            bottom,
        } = Sides::of(rect);
        let n = right - left;
        for y in top..bottom {
            let front = equal_front(self.row_part(left, y, n), other.row_part(left, y, n), n);
            if front < n {
                steps.ticks(front as u64 + 1);
                return false;
            }
            steps.ticks(n as u64);
        }
        true
    }

    /// Puts samples of a component (0 for G, 1 for B, 2 for R) into the square of side `n` at (x, y) of the coded picture, in rows from the top.
    pub fn put_block(&mut self, component: u32, x: u32, y: u32, n: u32, samples: &[u8])
        requires component { component < 3 }
        requires across { x + n ≤ coded self.old.size.w }
        requires down { y + n ≤ coded self.old.size.h }
        requires samples { length samples.now ≡ n * n }
        ensures size { self.new.size ≡ self.old.size }
        ensures whole { IsPicture self.new }
        ensures put { Stores self.new (with_square (picture_of self.old) component x y n samples.now) }
    {
        let part = Sides::of(Rect { x, y, w: n, h: n });
        let stride = coded_side(self.w) as usize;
        match component {
            0 => put_plane(&mut self.g, stride, part, samples),
            1 => put_plane(&mut self.b, stride, part, samples),
            _ => put_plane(&mut self.r, stride, part, samples),
        }
    }

    /// Copies the square of side `n` at (from_x, from_y) of another picture of the same size to (x, y).
    pub fn copy_block(&mut self, other: &Picture, from_x: u32, from_y: u32, x: u32, y: u32, n: u32)
        requires sizes { other.now.size ≡ self.old.size }
        requires from_across { from_x + n ≤ coded self.old.size.w }
        requires from_down { from_y + n ≤ coded self.old.size.h }
        requires across { x + n ≤ coded self.old.size.w }
        requires down { y + n ≤ coded self.old.size.h }
        ensures size { self.new.size ≡ self.old.size }
        ensures whole { IsPicture self.new }
        ensures copied { Stores self.new (with_copy (picture_of self.old) (picture_of other.now) from_x from_y x y n) }
    {
        let part = Sides::of(Rect { x, y, w: n, h: n });
        let stride = coded_side(self.w) as usize;
        let (from_x, from_y) = (from_x as usize, from_y as usize);
        copy_from_plane(&mut self.g, other.plane(0), stride, part, from_x, from_y);
        copy_from_plane(&mut self.b, other.plane(1), stride, part, from_x, from_y);
        copy_from_plane(&mut self.r, other.plane(2), stride, part, from_x, from_y);
    }
}
