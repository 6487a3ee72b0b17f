//! Which solid rectangles stand in what is left to paint.
ghost use Rattle.std.specs.Prelude.{◌≡◌, ◌+◌, ◌*◌, ◌<◌, ◌≤◌, length, IfSome, IfOk};
ghost use Rattle.frame_paints.specs.Parts.{IsPiece, IsPlaced};

use crate::blocks::{
    Fill, Lead, SIDE, add_fill, add_solids, colour_of, count_marks, count_others, is_noise,
    lead_after, mark_others, mark_row, mix_row,
};
use crate::compare::{changed, differing, first_row, last_row};
use h265_model::{NoMemory, Rect};
use px_plane::Picture;
use std::alloc::Global;

/// The most pixels that are looked at together.
const MOST_PIXELS: usize = 4096;

/// About how many rows are looked at for the colour of all that changed.
const MOST_ROWS: u32 = 64;

/// Pixels that are looked at: the colour of each, and whether it is to be painted.
#[derive(Drop)]
pub(crate) struct Work {
    colours: Vec<u32>,
    marks: Vec<bool>,
    ghost colours_whole: { length colours.items ≡ 4096 },
    ghost marks_whole: { length marks.items ≡ 4096 },
}

impl Work {
    /// Room for pixels.
    pub(crate) fn new(alloc: Global) -> Result<Work, NoMemory> {
        let colours = vec![in alloc; 0; MOST_PIXELS]?;
        let marks = vec![in alloc; false; MOST_PIXELS]?;
        Ok(Work { colours, marks })
    }

    // Looks at `n` pixels of a row, from (x, y) on, and puts them from a place on.
    fn load_row(&mut self, shown: &Picture, frame: &Picture, x: u32, y: u32, n: u32, at: usize)
        requires sizes { frame.now.size ≡ shown.now.size }
        requires across { x + n ≤ shown.now.size.w }
        requires down { y < shown.now.size.h }
        requires room { at + n ≤ 4096 }
    {
        let end = at + n as usize;
        self.colours[at..end].fill(0);
        self.marks[at..end].fill(false);
        for component in 0..3 {
            let new = frame.row(component, x, y, n);
            mix_row(&mut self.colours[at..end], new);
            mark_row(&mut self.marks[at..end], new, shown.row(component, x, y, n));
        }
    }

    // Looks at a part, of which row y stands from 64 * y on.
    fn load(&mut self, shown: &Picture, frame: &Picture, part: Rect)
        requires sizes { frame.now.size ≡ shown.now.size }
        requires part { IsPlaced shown.now.size part }
        requires small { (part.w ≤ 64) × (part.h ≤ 64) }
    {
        let _size = shown.size();
        for row in 0..part.h {
            let at = row as usize * SIDE as usize;
            self.load_row(shown, frame, part.x, part.y + row, part.w, at);
        }
    }

    // The colour that is worth a fill of the whole part before all else.
    fn ground(&self, w: usize, h: usize) -> Option<u32>
        requires small { (w ≤ 64) × (h ≤ 64) }
    {
        let mut lead = Lead { colour: 0, by: 0 };
        let mut wrong = 0u32;
        for y in 0..h {
            let at = y * SIDE as usize;
            lead = lead_after(lead, &self.colours[at..at + w], &self.marks[at..at + w]);
            wrong = wrong.wrapping_add(count_marks(&self.marks[at..at + w]));
        }
        if self.others(w, h, lead.colour) < wrong {
            Some(lead.colour)
        } else {
            None
        }
    }

    // How many pixels of the part have another colour.
    fn others(&self, w: usize, h: usize, colour: u32) -> u32
        requires small { (w ≤ 64) × (h ≤ 64) }
    {
        let mut count = 0u32;
        for y in 0..h {
            let at = y * SIDE as usize;
            count = count.wrapping_add(count_others(&self.colours[at..at + w], colour));
        }
        count
    }

    // Marks the pixels of the part that have another colour, and no others.
    fn mark_others(&mut self, w: usize, h: usize, colour: u32)
        requires small { (w ≤ 64) × (h ≤ 64) }
    {
        for y in 0..h {
            let at = y * SIDE as usize;
            mark_others(
                &mut self.marks[at..at + w],
                &self.colours[at..at + w],
                colour,
            );
        }
    }

    // Adds the fills of a part that was looked at, or none where a blit is better; `false` where its quarters may have some.
    fn plan(&mut self, part: Rect, fills: &mut Vec<Fill>) -> Result<bool, NoMemory>
        requires small { (part.w ≤ 64) × (part.h ≤ 64) }
    {
        let (w, h) = (part.w as usize, part.h as usize);
        if is_noise(&self.colours, w, h) {
            return Ok(true);
        }
        let start = fills.len();
        if let Some(colour) = self.ground(w, h) {
            let fill = Fill {
                rect: part,
                colour: colour_of(colour),
            };
            add_fill(fills, fill)?;
            self.mark_others(w, h, colour);
        }
        if add_solids(fills, &self.colours, &mut self.marks, part)? {
            return Ok(true);
        }
        fills.truncate(start);
        Ok(false)
    }

    // Adds the fills of what differs in a square.
    fn plan_square(
        &mut self,
        shown: &Picture,
        frame: &Picture,
        square: Rect,
        fills: &mut Vec<Fill>,
    ) -> Result<bool, NoMemory>
        requires sizes { frame.now.size ≡ shown.now.size }
        requires square { IsPiece shown.now.size square }
        requires small { (square.w ≤ 64) × (square.h ≤ 64) }
    {
        match differing(shown, frame, square) {
            None => Ok(true),
            Some(part) => {
                self.load(shown, frame, part);
                self.plan(part, fills)
            }
        }
    }

    // The same, of each of its quarters.
    fn plan_quarters(
        &mut self,
        shown: &Picture,
        frame: &Picture,
        square: Rect,
        fills: &mut Vec<Fill>,
    ) -> Result<(), NoMemory>
        requires sizes { frame.now.size ≡ shown.now.size }
        requires square { IsPiece shown.now.size square }
        requires small { (square.w ≤ 64) × (square.h ≤ 64) }
    {
        let _size = shown.size();
        for quarter in 0..4 {
            let (right, low) = (quarter % 2 * 32, quarter / 2 * 32);
            if right < square.w && low < square.h {
                let part = Rect {
                    x: square.x + right,
                    y: square.y + low,
                    w: (square.w - right).min(32),
                    h: (square.h - low).min(32),
                };
                self.plan_square(shown, frame, part, fills)?;
            }
        }
        Ok(())
    }

    // Adds the fills of the rows from `top` up to `bottom`, of which there are no more than a square has.
    fn plan_strip(
        &mut self,
        shown: &Picture,
        frame: &Picture,
        top: u32,
        bottom: u32,
        fills: &mut Vec<Fill>,
    ) -> Result<(), NoMemory>
        requires sizes { frame.now.size ≡ shown.now.size }
        requires down { (top < bottom) × (bottom ≤ shown.now.size.h) }
        requires low { bottom ≤ top + 64 }
    {
        let w = shown.size().w();
        for column in 0..(w + SIDE - 1) / SIDE {
            let x = column * SIDE;
            let square = Rect {
                x,
                y: top,
                w: (w - x).min(SIDE),
                h: bottom - top,
            };
            if !self.plan_square(shown, frame, square, fills)? {
                self.plan_quarters(shown, frame, square, fills)?;
            }
        }
        Ok(())
    }

    /// Adds the fills of the rows from `top` up to `bottom`.
    pub(crate) fn plan_rows(
        &mut self,
        shown: &Picture,
        frame: &Picture,
        top: u32,
        bottom: u32,
        fills: &mut Vec<Fill>,
    ) -> Result<(), NoMemory>
        requires sizes { frame.now.size ≡ shown.now.size }
        requires down { bottom ≤ shown.now.size.h }
    {
        let _size = shown.size();
        let rows = bottom.saturating_sub(top);
        for strip in 0..(rows + SIDE - 1) / SIDE {
            let y = top + strip * SIDE;
            let end = bottom.min(y + SIDE);
            let w = shown.size().w();
            let first = first_row(shown, frame, 0, w, y, end);
            let last = last_row(shown, frame, 0, w, first, end);
            if first < last {
                self.plan_strip(shown, frame, first, last, fills)?;
            }
        }
        Ok(())
    }

    // Looks at a row of what changed: the lead after it, and how many of its pixels differ.
    fn lead_of_row(
        &mut self,
        shown: &Picture,
        frame: &Picture,
        part: Rect,
        y: u32,
        lead: Lead,
    ) -> (Lead, u32)
        requires sizes { frame.now.size ≡ shown.now.size }
        requires part { IsPlaced shown.now.size part }
        requires row { (part.y ≤ y) × (y < part.y + part.h) }
    {
        let _size = shown.size();
        let n = part.w as usize;
        self.load_row(shown, frame, part.x, y, part.w, 0);
        let next = lead_after(lead, &self.colours[..n], &self.marks[..n]);
        (next, count_marks(&self.marks[..n]))
    }

    // The colour that leads among what changed in some of the rows, and how many pixels differ there.
    fn lead_of(&mut self, shown: &Picture, frame: &Picture, part: Rect, step: u32) -> (Lead, u32)
        requires sizes { frame.now.size ≡ shown.now.size }
        requires part { IsPlaced shown.now.size part }
        requires step { 1 ≤ step }
    {
        let mut lead = Lead { colour: 0, by: 0 };
        let mut wrong = 0u32;
        let _size = shown.size();
        for k in 0..part.h / step {
            let y = part.y + k * step;
            let (next, count) = self.lead_of_row(shown, frame, part, y, lead);
            lead = next;
            wrong = wrong.wrapping_add(count);
        }
        (lead, wrong)
    }

    // How many pixels of some rows of a part of the frame have another colour.
    fn others_of(
        &mut self,
        shown: &Picture,
        frame: &Picture,
        part: Rect,
        step: u32,
        colour: u32,
    ) -> u32
        requires sizes { frame.now.size ≡ shown.now.size }
        requires part { IsPlaced shown.now.size part }
        requires step { 1 ≤ step }
    {
        let _size = shown.size();
        let n = part.w as usize;
        let mut count = 0u32;
        for k in 0..part.h / step {
            self.load_row(shown, frame, part.x, part.y + k * step, part.w, 0);
            count = count.wrapping_add(count_others(&self.colours[..n], colour));
        }
        count
    }

    /// A fill of all that changed in the rows from `top` up to `bottom`, if it is likely to put an eighth of that right.
    pub(crate) fn ground_of(
        &mut self,
        shown: &Picture,
        frame: &Picture,
        top: u32,
        bottom: u32,
    ) -> Option<Fill>
        requires sizes { frame.now.size ≡ shown.now.size }
        requires down { (top ≤ bottom) × (bottom ≤ shown.now.size.h) }
    {
        let part = changed(shown, frame, top, bottom)?;
        let step = (part.h / MOST_ROWS).max(1);
        let (lead, wrong) = self.lead_of(shown, frame, part, step);
        let after = self.others_of(shown, frame, part, step, lead.colour);
        let saved = wrong.saturating_sub(after);
        if saved >= 16 && saved >= wrong / 8 {
            let colour = colour_of(lead.colour);
            Some(Fill { rect: part, colour })
        } else {
            None
        }
    }
}
