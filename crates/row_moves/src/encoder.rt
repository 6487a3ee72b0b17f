//! The encoder of a recording with moved blocks.
ghost use Rattle.std.specs.Prelude.{◌≡◌, ◌≤◌, ◌<◌, ◌+◌, ◌-◌, ◌^◌, List, [], ◌∷◌, ◌++◌, length, IfOk, IsOk, OnOk, OnErr};
ghost use Rattle.std.specs.Arc.{arc_value};
ghost use Rattle.h265_model.specs.Raster.{Raster};
ghost use Rattle.h265_model.specs.Stream.{pieces};
ghost use Rattle.px_plane.specs.Tiles.{IsJobOf};
ghost use Rattle.picture_encoder.specs.Coded.{StandsFor, TurnsInto};
ghost use Rattle.picture_encoder.specs.Planning.{IsKept, units_of};
ghost use Rattle.row_moves.specs.Moves.{moved};

use crate::writer::picture_rows;
use h265_model::{Extra, NoMemory};
use picture_encoder::{Begun, History, picture_fits};
use px_plane::{Job, Picture, Size};
use slice_assembly::assemble;
use std::alloc::Global;
use std::marker::Model;
use std::sync::Arc;

/// Codes the pictures of a recording, one after another, each as one slice: a picture with a number that KEY divides
/// as an IDR picture, and each other one with blocks that are copied from places of the one before. With KEY 0 only
/// the first is an IDR picture.
///
/// It stands for the list of pictures that it has coded. Contracts see its settings, the number of these pictures,
/// and the last of them.
#[derive(Drop)]
pub struct MoveEncoder {
    history: History,
}

impl Model for MoveEncoder {
    ghost use Rattle.std.specs.Prelude.{◌≡◌};
    ghost use Rattle.h265_model.specs.declared.extra.Extra.TheVariants.{Moves};
    ghost use Rattle.picture_encoder.specs.Coded.{Coded};

    ghost Value = { Coded };

    ghost view = { λ e. e.history };

    ghost invariant = { λ e. e.history.settings.extra ≡ Moves };
}

impl MoveEncoder {
    /// An encoder for pictures of this size that has coded none. `effort` (0 to 2) names the intra modes that are
    /// tried; `key` is the distance of IDR pictures.
    ///
    /// # Errors
    ///
    /// None: an encoder takes memory with its first picture.
    pub fn new(alloc: Global, size: Size, effort: u32, key: u32) -> Result<MoveEncoder, NoMemory>
        requires { effort ≤ 2 }
        ensures some { IsOk result }
        ensures settings { IfOk result (λ encoder. encoder.settings ≡ moved size effort key) }
        ensures sized { IfOk result (λ encoder. encoder.last.size ≡ encoder.settings.size) }
        ensures fresh { IfOk result (λ encoder. StandsFor encoder []) }
    {
        Ok(MoveEncoder {
            history: History::new(alloc, size, effort, key, Extra::Moves),
        })
    }

    /// The first piece of the stream: the parameter sets.
    ///
    /// # Errors
    ///
    /// `NoMemory` where the allocator refuses the bytes.
    pub fn first(&self) -> Result<Vec<u8>, NoMemory>
        ensures piece { IfOk result (λ piece. pieces self.now.settings [] ≡ piece.items ∷ []) }
        ensures short { IfOk result (λ piece. length piece.items < 2 ^ 40) }
    {
        self.history.first()
    }

    /// Lays a job over the picture before, codes the picture that it gives on the caller's thread, and gives its
    /// piece of the stream: a start code and a NAL unit.
    ///
    /// The job has the number of the pictures before. Where it lists all tiles in which the new picture differs, the
    /// piece is the one that the definition has for that picture, of any pictures before that the encoder stands for.
    ///
    /// # Errors
    ///
    /// `NoMemory` where the allocator refuses something. The encoder is then as it was, and any call may follow.
    pub fn next_alone(&mut self, job: &Job) -> Result<Vec<u8>, NoMemory>
        requires job { IsJobOf self.old.settings.size job.now }
        requires number { job.now.number ≡ self.old.count }
        requires few { self.old.count < 2 ^ 32 - 1 }
        ensures settings { self.new.settings ≡ self.old.settings }
        ensures sized { self.new.last.size ≡ self.new.settings.size }
        ensures coded { OnOk result ((before : List Raster) (now : Raster) → StandsFor self.old before
            → TurnsInto job.now self.old.last now → StandsFor self.new (before ++ now ∷ [])) }
        ensures piece { IfOk result (λ piece. (before : List Raster) (now : Raster) → StandsFor self.old before
            → TurnsInto job.now self.old.last now
            → pieces self.old.settings (before ++ now ∷ []) ≡ pieces self.old.settings before ++ piece.items ∷ []) }
        ensures short { IfOk result (λ piece. length piece.items < 2 ^ 40) }
        ensures err { OnErr result (self.new ≡ self.old) }
    {
        let begun = self.history.begin(job)?;
        let piece = self.piece(&begun.now, &begun.touched)?;
        let Begun { now, touched: _ } = begun;
        self.history.keep(now, job);
        Ok(piece)
    }

    // The piece of a picture that is the last one but for tiles that have a flag.
    fn piece(&self, now: &Arc<Picture, Global>, touched: &[bool]) -> Result<Vec<u8>, NoMemory>
        requires kept { IsKept touched.now self.now.last (arc_value now.now) }
        requires size { (arc_value now.now).size ≡ self.now.settings.size }
        ensures piece { IfOk result (λ piece. piece.items ≡ units_of self.now (arc_value now.now)) }
        ensures short { IfOk result (λ piece. length piece.items < 2 ^ 40) }
    {
        picture_fits(now);
        let task = self.history.task(now, touched);
        let rows = picture_rows(self.history.alloc(), task)?;
        let idr = self.history.is_idr();
        let order = self.history.order_bits();
        let piece = assemble(self.history.alloc(), idr, order, &rows)?;
        Ok(piece)
    }
}

#[cfg(test)]
mod tests;
