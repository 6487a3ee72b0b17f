//! A desktop with its flags.
ghost use Rattle.std.specs.Prelude.{◌≡◌, ℕ, ◌*◌, ◌++◌, ◌∷◌, [], List, length, IfOk, OnErr, false};
ghost use Rattle.recorder_model.specs.declared.line.Line.{Line};
ghost use Rattle.recorder_model.specs.declared.line.Line.TheVariants as line;
ghost use Rattle.recorder_model.specs.Script.{is_cut};
ghost use Rattle.recorder_model.specs.Painting.{raster};
ghost use Rattle.recorder_model.specs.Desk.{touched_by};
ghost use Rattle.h265_model.specs.Tiles.{tile_count, job_for};
ghost use Rattle.desk_surface.specs.Shown.{ShowsLines};
ghost use Rattle.desk_surface.specs.Damage.{IsFlagged, HasPixels, IsOfRect};

use crate::flags::{raise, raised};
use crate::samples::samples_of;
use h265_model::{Bytes, Job, NoMemory, Numbers, Rect};
use px_plane::{Picture, Size};
use recorder_model::Line;
use std::alloc::Global;
use std::marker::Model;

/// A desktop, with a flag for each tile of 32 by 32 samples in which something was painted since the last cut.
///
/// Contracts see its picture and its flags.
#[derive(Debug, Drop)]
pub struct Surface {
    picture: Picture,
    flags: Vec<bool>,
}

impl Model for Surface {
    ghost use Rattle.std.specs.Prelude.{◌≡◌, length};
    ghost use Rattle.h265_model.specs.Tiles.{tile_count};
    ghost use Rattle.desk_surface.specs.Damage.{Painted};

    ghost Value = { Painted };

    ghost view = { λ s. record { shown = s.picture; flags = s.flags.items } };

    ghost invariant = { λ s. length s.flags.items ≡ tile_count s.picture.size };
}

impl Surface {
    /// A black desktop on which nothing was painted.
    ///
    /// # Errors
    ///
    /// `NoMemory` where the allocator refuses the picture or the flags.
    pub fn new(alloc: Global, size: Size) -> Result<Surface, NoMemory>
        ensures size { IfOk result (λ s. s.shown.size ≡ size) }
        ensures black { IfOk result (λ s. ShowsLines s.shown []) }
        ensures clean { IfOk result (λ s. IsFlagged s []) }
    {
        let picture = Picture::black(alloc, size)?;
        let tiles = (size.w() + 31) / 32 * ((size.h() + 31) / 32);
        let flags = vec![in alloc; false; tiles as usize]?;
        Ok(Surface { picture, flags })
    }

    /// What the desktop shows.
    pub fn picture(&self) -> &Picture
        ensures { result.now ≡ self.now.shown }
    {
        &self.picture
    }

    // Raises the flags of the tiles that a rectangle meets.
    fn touch(&mut self, rect: Rect)
        ensures shown { self.new.shown ≡ self.old.shown }
        ensures flags { (line : Line) (since : List Line) → IsOfRect line rect → IsFlagged self.old since → IsFlagged self.new (since ++ line ∷ []) }
    {
        let size = self.picture.size();
        raise(&mut self.flags, size, rect);
    }

    /// Paints a line, and raises the flag of each tile that the part of its rectangle in the desktop meets: of a copy that is
    /// the target, wherever its sources lie.
    pub fn apply(&mut self, line: &Line)
        requires paints { is_cut line.now ≡ false }
        requires pixels { HasPixels line.now }
        ensures size { self.new.shown.size ≡ self.old.shown.size }
        ensures shows { (lines : List Line) → ShowsLines self.old.shown lines → ShowsLines self.new.shown (lines ++ line.now ∷ []) }
        ensures flags { (since : List Line) → IsFlagged self.old since → IsFlagged self.new (since ++ line.now ∷ []) }
    {
        match line {
            Line::Fill { rect, colour } => {
                self.picture.fill(*rect, *colour);
                self.touch(*rect);
            }
            Line::Blit { rect, pixels } => {
                self.picture.blit(*rect, pixels.as_slice());
                self.touch(*rect);
            }
            Line::Copy { rect, to_x, to_y } => {
                self.picture.copy(*rect, *to_x, *to_y);
                self.touch(Rect {
                    x: *to_x,
                    y: *to_y,
                    w: rect.w,
                    h: rect.h,
                });
            }
            Line::Cut => {}
        }
    }

    /// The job of a cut: the flagged tiles, ascending, with their samples. It lowers all flags.
    ///
    /// # Errors
    ///
    /// `NoMemory` where the allocator refuses the job. The desktop and its flags are then as they were.
    pub fn cut_job(&mut self, number: u32) -> Result<Job, NoMemory>
        ensures shown { self.new.shown ≡ self.old.shown }
        ensures job { IfOk result (λ job. (lines since : List Line) → ShowsLines self.old.shown lines → IsFlagged self.old since
            → job ≡ job_for self.old.shown.size number (touched_by self.old.shown.size since) (raster self.old.shown.size lines)) }
        ensures lowered { IfOk result (λ job. IsFlagged self.new []) }
        ensures err { OnErr result (self.new ≡ self.old) }
    {
        let _size = self.picture.size();
        let alloc = *self.flags.allocator();
        let tiles = raised(alloc, &self.flags)?;
        let samples = samples_of(alloc, &self.picture, &tiles)?;
        self.flags.fill(false);
        Ok(Job {
            number,
            tiles: Numbers::from_vec(tiles),
            samples: Bytes::from_vec(samples),
        })
    }
}
