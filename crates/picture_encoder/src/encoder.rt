//! The encoder of a recording.
ghost use Rattle.std.specs.Prelude.{◌≡◌, ◌≤◌, ◌<◌, ◌+◌, ◌-◌, ◌^◌, List, [], ◌∷◌, ◌++◌, true, false, length, map, IfSome, IfOk, IsOk, OnOk, OnErr};
ghost use Rattle.std.specs.Arc.{arc_value};
ghost use Rattle.std.specs.List.{All};
ghost use Rattle.h265_model.specs.Plain.{ctus};
ghost use Rattle.h265_model.specs.Raster.{Raster};
ghost use Rattle.h265_model.specs.Stream.{pieces};
ghost use Rattle.h265_model.specs.Settings.{plain};
ghost use Rattle.h265_model.specs.declared.extra.Extra.TheVariants.{Hash};
ghost use Rattle.px_plane.specs.Tiles.{IsJobOf};
ghost use Rattle.px_plane.specs.Planes.{Planes};
ghost use Rattle.picture_encoder.specs.Coded.{StandsFor, TurnsInto, IsLaid, after_slice, is_hashed};
ghost use Rattle.row_coder.specs.Rows.{plan_of};
ghost use Rattle.row_core.specs.Plans.{HaveWidth, rows_of};
ghost use Rattle.picture_encoder.specs.Planning.{IsKept, codes_of, piece_of};

use crate::at_once::plan_picture_by;
use crate::before::whole;
use crate::history::{Begun, History};
use crate::picture::picture_slice;
use crate::planning::plan_picture;
use crate::rows::picture_jobs;
use gate::Gate;
use h265_model::{Extra, NoMemory};
use pic_hash::hash_unit;
use px_plane::{Job, Picture, Size};
use row_coder::CtuRow;
use row_workers::{rows_alone, run_rows};
use std::alloc::Global;
use std::marker::Model;
use std::sync::{Arc, Wait};
use std::thread::Threads;

// Whether a job lists no tile.
fn lists_none(job: &Job) -> bool
    ensures { result ≡ true → length job.now.tiles ≡ 0 }
{
    job.tiles.as_slice().is_empty()
}

/// Codes the pictures of a recording, one after another: a picture with a number that KEY divides as an IDR picture, and each other one as it differs
/// from the one before. With KEY 0 only the first is an IDR picture. Where hashes are wanted, the hash of each picture stands after its slice (D.2.19).
///
/// It stands for the list of pictures that it has coded. Contracts see its settings, the number of these pictures, and the last of them.
#[derive(Drop)]
pub struct Encoder {
    // What is kept of these pictures, in a stream without or with their hashes.
    history: History,
    // What stands after the slice of the picture that was coded last, where it is kept.
    after: Option<Vec<u8>>,
}

impl Model for Encoder {
    ghost use Rattle.std.specs.Prelude.{option_map};
    ghost use Rattle.picture_encoder.specs.Coded.{Coded, IsEncoder};

    ghost Value = { Coded };

    ghost view = { λ e. e.history };

    ghost invariant = { λ e. IsEncoder e.history (option_map (λ after. after.items) e.after) };
}

impl Encoder {
    /// An encoder for pictures of this size that has coded none. `effort` (0 to 2) names the intra modes that are tried; `key` is the distance of IDR pictures.
    ///
    /// # Errors
    ///
    /// None: an encoder takes memory with its first picture.
    pub fn new(alloc: Global, size: Size, effort: u32, key: u32) -> Result<Encoder, NoMemory>
        requires { effort ≤ 2 }
        ensures some { IsOk result }
        ensures settings { IfOk result (λ encoder. encoder.settings ≡ plain size effort key) }
        ensures sized { IfOk result (λ encoder. encoder.last.size ≡ encoder.settings.size) }
        ensures fresh { IfOk result (λ encoder. StandsFor encoder []) }
    {
        Ok(Encoder {
            history: History::new(alloc, size, effort, key, Extra::Plain),
            after: None,
        })
    }

    /// The same encoder, which writes the hash of each picture after its slice: a suffix SEI message in a NAL unit of its own (7.3.2.4, D.2.19). It has
    /// coded no picture. Takes no memory.
    pub fn with_hash(self) -> Encoder
        requires none { StandsFor self [] }
        ensures settings { result ≡ record self { settings = record self.settings { extra = Hash } } }
        ensures fresh { StandsFor result [] }
    {
        let Encoder { history, after: _ } = self;
        Encoder {
            history: history.with_extra(Extra::Hash),
            after: None,
        }
    }

    /// The size of the pictures, in samples.
    pub fn size(&self) -> Size
        ensures { result ≡ self.now.settings.size }
    {
        self.history.size()
    }

    /// The first piece of the stream: the parameter sets.
    ///
    /// # Errors
    ///
    /// `NoMemory` where the allocator refuses the bytes.
    pub fn first(&self) -> Result<Vec<u8>, NoMemory>
        ensures piece { IfOk result (λ piece. pieces self.now.settings [] ≡ piece.items ∷ []) }
        ensures short { IfOk result (λ piece. length piece.items < 2 ^ 40) }
    {
        self.history.first()
    }

    /// Lays a job over the picture before, codes the picture that it gives on the caller's thread, and gives its piece of the stream: a start code
    /// and a NAL unit, and those of its hash where hashes are wanted.
    ///
    /// The job has the number of the pictures before. Where it lists all tiles in which the new picture differs, the piece is the one that the
    /// definition has for that picture, of any pictures before that the encoder stands for.
    ///
    /// # Errors
    ///
    /// `NoMemory` where the allocator refuses something. The encoder is then as it was, and any call may follow.
    pub fn next_alone(&mut self, job: &Job) -> Result<Vec<u8>, NoMemory>
        requires job { IsJobOf self.old.settings.size job.now }
        requires number { job.now.number ≡ self.old.count }
        requires few { self.old.count < 2 ^ 32 - 1 }
        ensures settings { self.new.settings ≡ self.old.settings }
        ensures sized { self.new.last.size ≡ self.new.settings.size }
        ensures coded { OnOk result ((before : List Raster) (now : Raster) → StandsFor self.old before → TurnsInto job.now self.old.last now
            → StandsFor self.new (before ++ now ∷ [])) }
        ensures piece { IfOk result (λ piece. (before : List Raster) (now : Raster) → StandsFor self.old before → TurnsInto job.now self.old.last now
            → pieces self.old.settings (before ++ now ∷ []) ≡ pieces self.old.settings before ++ piece.items ∷ []) }
        ensures short { IfOk result (λ piece. length piece.items < 2 ^ 40) }
        ensures err { OnErr result (self.new ≡ self.old) }
    {
        let begun = self.history.begin(job)?;
        let jobs = self.jobs(&begun.now, &begun.touched)?;
        let rows = rows_alone(self.history.alloc(), jobs)?;
        let piece = self.finish(begun, &rows, job)?;
        Ok(piece)
    }

    /// Lays a job over the picture before, codes the picture that it gives, and gives its piece of the stream, as `next_alone` does. The rows of the
    /// picture are planned, where much is to be planned, and coded by so many workers, of which each may have a thread of its own.
    ///
    /// `gate` hears of each row that handed on its contexts, and of each that took those of the row above.
    ///
    /// # Errors
    ///
    /// `NoMemory` where the allocator refuses something. The encoder is then as it was, and any call may follow.
    pub fn next<R: Threads + Wait + Sync, G: Gate + Sync>(
        &mut self,
        rt: &R,
        job: &Job,
        workers: u32,
        gate: &G,
    ) -> Result<Vec<u8>, NoMemory>
        requires job { IsJobOf self.old.settings.size job.now }
        requires number { job.now.number ≡ self.old.count }
        requires few { self.old.count < 2 ^ 32 - 1 }
        requires workers { (1 ≤ workers) × (workers ≤ 64) }
        ensures settings { self.new.settings ≡ self.old.settings }
        ensures sized { self.new.last.size ≡ self.new.settings.size }
        ensures coded { OnOk result ((before : List Raster) (now : Raster) → StandsFor self.old before → TurnsInto job.now self.old.last now
            → StandsFor self.new (before ++ now ∷ [])) }
        ensures piece { IfOk result (λ piece. (before : List Raster) (now : Raster) → StandsFor self.old before → TurnsInto job.now self.old.last now
            → pieces self.old.settings (before ++ now ∷ []) ≡ pieces self.old.settings before ++ piece.items ∷ []) }
        ensures short { IfOk result (λ piece. length piece.items < 2 ^ 40) }
        ensures err { OnErr result (self.new ≡ self.old) }
    {
        let begun = self.history.begin(job)?;
        let jobs = self.jobs_by(rt, &begun.now, &begun.touched, workers)?;
        let rows = run_rows(rt, self.history.alloc(), jobs, workers, gate)?;
        let piece = self.finish(begun, &rows, job)?;
        Ok(piece)
    }

    // The jobs of the rows of a picture that is the last one but for tiles that have a flag.
    fn jobs(&self, now: &Arc<Picture, Global>, touched: &[bool]) -> Result<Vec<CtuRow>, NoMemory>
        requires { IsKept touched.now self.now.last (arc_value now.now) }
        ensures some { IfOk result (λ jobs. 0 < length jobs.items) }
        ensures few { IfOk result (λ jobs. length jobs.items ≤ 128) }
        ensures fresh { IfOk result (λ jobs. All (λ job. job.begun ≡ false) jobs.items) }
        ensures width { IfOk result (λ jobs. HaveWidth (ctus (arc_value now.now).size.w) (map plan_of jobs.items)) }
        ensures give { IfOk result (λ jobs. rows_of (ctus (arc_value now.now).size.w) (map plan_of jobs.items) ≡ codes_of self.now (arc_value now.now)) }
    {
        let task = self.history.task(now, touched);
        let plans = plan_picture(self.history.alloc(), &task)?;
        picture_jobs(self.history.alloc(), &task, plans)
    }

    // The same, planned by so many workers.
    fn jobs_by<R: Threads + Sync>(
        &self,
        rt: &R,
        now: &Arc<Picture, Global>,
        touched: &[bool],
        workers: u32,
    ) -> Result<Vec<CtuRow>, NoMemory>
        requires kept { IsKept touched.now self.now.last (arc_value now.now) }
        requires workers { 1 ≤ workers }
        ensures some { IfOk result (λ jobs. 0 < length jobs.items) }
        ensures few { IfOk result (λ jobs. length jobs.items ≤ 128) }
        ensures fresh { IfOk result (λ jobs. All (λ job. job.begun ≡ false) jobs.items) }
        ensures width { IfOk result (λ jobs. HaveWidth (ctus (arc_value now.now).size.w) (map plan_of jobs.items)) }
        ensures give { IfOk result (λ jobs. rows_of (ctus (arc_value now.now).size.w) (map plan_of jobs.items) ≡ codes_of self.now (arc_value now.now)) }
    {
        let task = self.history.task(now, touched);
        let plans = plan_picture_by(rt, self.history.alloc(), &task, workers)?;
        picture_jobs(self.history.alloc(), &task, plans)
    }

    // Whether the hash of each picture stands after its slice.
    fn hashed(&self) -> bool
        ensures { result ≡ is_hashed self.now.settings.extra }
    {
        match self.history.extra() {
            Extra::Hash => true,
            Extra::Plain | Extra::Segments | Extra::Moves => false,
        }
    }

    // What stands after the slice of the last picture, where it is kept and a job leaves the picture as it is.
    fn after_again(&self, job: &Job) -> Option<&Vec<u8>>
        ensures { IfSome result (λ after. (now : Planes) → IsLaid self.now.last job.now now → after.now.items ≡ after_slice self.now.settings.extra now) }
    {
        let (Some(last), Some(after)) = (self.history.last(), &self.after) else {
            return None;
        };
        if lists_none(job) {
            whole(last);
            return Some(after);
        }
        None
    }

    // What stands after the slice of the picture that a job makes of the last one. No digests are made again of a picture that stays as it is.
    fn after_slice(&self, now: &Picture, job: &Job) -> Result<Vec<u8>, NoMemory>
        requires { IsLaid self.now.last job.now now.now }
        ensures { IfOk result (λ after. after.items ≡ after_slice self.now.settings.extra now.now) }
    {
        if !self.hashed() {
            return Ok(Vec::new(self.history.alloc()));
        }
        match self.after_again(job) {
            Some(after) => Ok(after.clone()?),
            None => hash_unit(self.history.alloc(), now),
        }
    }

    // The piece of such a picture, from the bytes of its rows and those after its slice.
    fn piece(
        &self,
        now: &Arc<Picture, Global>,
        touched: &[bool],
        rows: &[Vec<u8>],
        after: &[u8],
    ) -> Result<Vec<u8>, NoMemory>
        requires kept { IsKept touched.now self.now.last (arc_value now.now) }
        requires rows { map (λ row. row.items) rows.now ≡ codes_of self.now (arc_value now.now) }
        requires after { after.now ≡ after_slice self.now.settings.extra (arc_value now.now) }
        ensures piece { IfOk result (λ piece. piece.items ≡ piece_of self.now (arc_value now.now)) }
        ensures short { IfOk result (λ piece. length piece.items < 2 ^ 40) }
    {
        let order = self.history.order_bits();
        let task = self.history.task(now, touched);
        let mut piece = picture_slice(self.history.alloc(), &task, order, rows)?;
        piece.extend_from_slice(after)?;
        Ok(piece)
    }

    // Gives the piece of a picture that a job made of the last one, from the bytes of its rows, and takes it for the last one.
    fn finish(&mut self, begun: Begun, rows: &[Vec<u8>], job: &Job) -> Result<Vec<u8>, NoMemory>
        requires job { IsJobOf self.old.settings.size job.now }
        requires few { self.old.count < 2 ^ 32 - 1 }
        requires laid { IsLaid self.old.last job.now (arc_value begun.now) }
        requires kept { IsKept begun.touched.items self.old.last (arc_value begun.now) }
        requires rows { map (λ row. row.items) rows.now ≡ codes_of self.old (arc_value begun.now) }
        ensures piece { IfOk result (λ piece. piece.items ≡ piece_of self.old (arc_value begun.now)) }
        ensures short { IfOk result (λ piece. length piece.items < 2 ^ 40) }
        ensures coded { OnOk result (self.new ≡ record self.old { count = self.old.count + 1; last = arc_value begun.now }) }
        ensures err { OnErr result (self.new ≡ self.old) }
    {
        let Begun { now, touched } = begun;
        let after = self.after_slice(&now, job)?;
        let piece = self.piece(&now, &touched, rows, &after)?;
        self.keep(now, job, after);
        Ok(piece)
    }

    // Takes the picture that a job made of the last one for the last one.
    fn keep(&mut self, now: Arc<Picture, Global>, job: &Job, after: Vec<u8>)
        requires job { IsJobOf self.old.settings.size job.now }
        requires laid { IsLaid self.old.last job.now (arc_value now) }
        requires few { self.old.count < 2 ^ 32 - 1 }
        requires after { after.items ≡ after_slice self.old.settings.extra (arc_value now) }
        ensures { self.new ≡ record self.old { count = self.old.count + 1; last = arc_value now } }
    {
        self.history.keep(now, job);
        self.after = Some(after);
    }
}

#[cfg(test)]
mod tests;
