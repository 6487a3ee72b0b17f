//! A desktop that is painted frame by frame.
ghost use Rattle.std.specs.Prelude.{◌≡◌, ◌≤◌, List, [], ◌∷◌, ◌++◌, IfOk, OnOk, OnErr};
ghost use Rattle.h265_model.specs.Raster.{black_raster};
ghost use Rattle.recorder_model.specs.declared.line.Line.{Line};
ghost use Rattle.recorder_model.specs.Painting.{raster, rasters_after};
ghost use Rattle.frame_paints.specs.Desktop.{raster_of, painted_over, with_rows, added, IsLonger};

use crate::strips::paint_strip;
use h265_model::{NoMemory, Rect, Rgb};
use paint_script::Script;
use px_plane::{Picture, Size};
use recorder_model::Line;
use std::alloc::Global;
use std::marker::Model;

/// A desktop, on which frames are painted one after another.
///
/// Contracts see its size and the raster that it shows.
#[derive(Debug, Drop)]
pub struct FramePainter {
    shown: Picture,
    alloc: Global,
}

impl Model for FramePainter {
    ghost use Rattle.px_plane.specs.Planes.{Shows};
    ghost use Rattle.frame_paints.specs.Desktop.{Desktop, raster_of};

    ghost Value = { Desktop };

    ghost view = { λ p. record { size = p.shown.size; shown = raster_of p.shown } };

    ghost invariant = { λ p. Shows p.shown (raster_of p.shown) };
}

impl FramePainter {
    /// A black desktop, as it is before a script's first line.
    ///
    /// # Errors
    ///
    /// `NoMemory` where the allocator refuses its picture.
    pub fn new(alloc: Global, size: Size) -> Result<FramePainter, NoMemory>
        ensures { IfOk result (λ painter. painter ≡ record { size = size; shown = black_raster size }) }
    {
        let shown = Picture::black(alloc, size)?;
        Ok(FramePainter { shown, alloc })
    }

    /// The size of the desktop.
    pub fn size(&self) -> Size
        ensures { result ≡ self.now.size }
    {
        self.shown.size()
    }

    /// Makes the desktop black again, for the first frame of another script.
    pub fn restart(&mut self)
        ensures { self.new ≡ record { size = self.old.size; shown = black_raster self.old.size } }
    {
        let size = self.shown.size();
        let whole = Rect {
            x: 0,
            y: 0,
            w: size.w(),
            h: size.h(),
        };
        self.shown.fill(whole, Rgb { r: 0, g: 0, b: 0 });
    }

    /// Adds to a script the lines that make the desktop show a frame, and a `cut`.
    ///
    /// The frame is what lies in the desktop: samples beside it, up to the coded size, play no part.
    ///
    /// # Errors
    ///
    /// `NoMemory` where the allocator refuses a line, or the script has as many as it may have. The script may have got some of
    /// the lines then, without a `cut`, and the desktop shows what they paint; so the frame can be tried again.
    pub fn next(&mut self, frame: &Picture, script: &mut Script) -> Result<(), NoMemory>
        requires size { frame.now.size ≡ self.old.size }
        requires version { script.old.version ≡ 2 }
        ensures size { self.new.size ≡ self.old.size }
        ensures longer { IsLonger script.old script.new }
        ensures shown { self.new.shown ≡ painted_over self.old.size self.old.shown (added script.old script.new) }
        ensures frame { OnOk result (painted_over self.old.size self.old.shown (added script.old script.new) ≡ raster_of frame.now) }
        ensures history { (before : List Line) → raster self.old.size before ≡ self.old.shown
            → raster self.old.size (before ++ added script.old script.new) ≡ self.new.shown }
        ensures picture { OnOk result ((before : List Line) → raster self.old.size before ≡ self.old.shown
            → rasters_after self.old.size before (added script.old script.new) ≡ raster_of frame.now ∷ []) }
        ensures uncut { OnErr result ((before : List Line) → rasters_after self.old.size before (added script.old script.new) ≡ []) }
    {
        let bottom = frame.size().h();
        self.paint_rows(frame, 0, bottom, script)?;
        if script.lines() == u32::MAX {
            return Err(NoMemory);
        }
        script.add(Line::Cut)?;
        Ok(())
    }

    /// Adds to a script the lines that make the desktop show a frame in the rows from `top` up to `bottom`, as one of several
    /// clients paints its strip. The other rows stay as they are.
    ///
    /// # Errors
    ///
    /// As `next`.
    pub fn paint_rows(
        &mut self,
        frame: &Picture,
        top: u32,
        bottom: u32,
        script: &mut Script,
    ) -> Result<(), NoMemory>
        requires size { frame.now.size ≡ self.old.size }
        requires down { bottom ≤ self.old.size.h }
        requires version { script.old.version ≡ 2 }
        ensures size { self.new.size ≡ self.old.size }
        ensures longer { IsLonger script.old script.new }
        ensures shown { self.new.shown ≡ painted_over self.old.size self.old.shown (added script.old script.new) }
        ensures rows { OnOk result (self.new.shown ≡ with_rows self.old.size self.old.shown top bottom (raster_of frame.now)) }
        ensures history { (before : List Line) → raster self.old.size before ≡ self.old.shown
            → raster self.old.size (before ++ added script.old script.new) ≡ self.new.shown }
        ensures uncut { (before : List Line) → rasters_after self.old.size before (added script.old script.new) ≡ [] }
    {
        paint_strip(self.alloc, &mut self.shown, frame, top, bottom, script)
    }
}
