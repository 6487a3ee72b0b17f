//! What an encoder keeps of the pictures that it has coded.
ghost use Rattle.std.specs.Prelude.{◌≡◌, ◌≤◌, ◌<◌, ◌+◌, ◌-◌, ◌%◌, ◌^◌, [], ◌∷◌, true, false, length, option_map, IfSome, IfOk, IsTrue};
ghost use Rattle.std.specs.Arc.{arc_value};
ghost use Rattle.h265_model.specs.Raster.{Raster};
ghost use Rattle.h265_model.specs.Stream.{is_idr, order_count, pieces};
ghost use Rattle.h265_model.specs.Settings.{is_size, has_segments};
ghost use Rattle.px_plane.specs.Tiles.{IsJobOf};
ghost use Rattle.px_plane.specs.Planes.{picture_of, Shows};
ghost use Rattle.picture_encoder.specs.Coded.{StandsFor, TurnsInto, IsLaid};
ghost use Rattle.picture_encoder.specs.Planning.{IsKept, IsKeptBut, IsTask, IsTaskOf, reference_of};

use crate::before::{Before, lay_over};
use crate::order;
use crate::planning::Task;
use crate::tiles::flags_of;
use h265_model::{Extra, NoMemory};
use param_sets::{Params, write_params};
use px_plane::{Job, Picture, Size};
use std::alloc::Global;
use std::marker::Model;
use std::sync::Arc;

// A size is within its limits.
fn size_fits(size: Size)
    ensures { IsTrue (is_size size) }
{
    let _width = size.w();
}

// Whether each row of coding tree units is a slice segment.
fn in_segments(extra: Extra) -> bool
    ensures { result ≡ has_segments extra }
{
    match extra {
        Extra::Segments => true,
        Extra::Plain | Extra::Hash | Extra::Moves => false,
    }
}

/// A picture that is to be coded after the last one.
#[derive(Drop)]
pub struct Begun {
    /// The picture.
    pub now: Arc<Picture, Global>,
    /// For each tile, whether the two pictures may differ in it.
    pub touched: Vec<bool>,
}

/// What every encoder keeps of the pictures that it has coded: its settings, how many pictures there are, the last of them, and the one before that
/// where few tiles differ, so that no whole picture is copied.
///
/// It stands for the list of these pictures. Contracts see its settings, the number of the pictures, and the last of them.
#[derive(Drop)]
pub struct History {
    alloc: Global,
    size: Size,
    effort: u32,
    key: u32,
    extra: Extra,
    count: u32,
    // The picture that was coded last.
    last: Option<Arc<Picture, Global>>,
    // The one before it, where it is kept.
    before: Option<Before>,
}

impl Model for History {
    ghost use Rattle.std.specs.Prelude.{option_map};
    ghost use Rattle.std.specs.Arc.{arc_value};
    ghost use Rattle.picture_encoder.specs.Coded.{Coded, IsWhole, last_or_black};

    ghost Value = { Coded };

    ghost view = { λ e. record {
      settings = record { size = e.size; effort = e.effort; key = e.key; extra = e.extra };
      count = e.count;
      last = last_or_black e.size (option_map (λ last. arc_value last) e.last);
    } };

    ghost invariant = { λ e. IsWhole e.size e.effort e.count (option_map (λ last. arc_value last) e.last) e.before };
}

impl History {
    /// Of no picture. `effort` (0 to 2) names the intra modes that are tried, `key` is the distance of IDR pictures, and `extra` is what the stream has
    /// besides pictures. Takes no memory.
    pub fn new(alloc: Global, size: Size, effort: u32, key: u32, extra: Extra) -> History
        requires { effort ≤ 2 }
        ensures settings { result.settings ≡ record { size = size; effort = effort; key = key; extra = extra } }
        ensures sized { result.last.size ≡ result.settings.size }
        ensures fresh { StandsFor result [] }
    {
        size_fits(size);
        History {
            alloc,
            size,
            effort,
            key,
            extra,
            count: 0,
            last: None,
            before: None,
        }
    }

    /// The same pictures, in a stream that has this besides them.
    pub fn with_extra(mut self, extra: Extra) -> History
        ensures { result ≡ record self { settings = record self.settings { extra = extra } } }
    {
        self.extra = extra;
        self
    }

    /// What the memory of pictures and pieces is taken from.
    pub fn alloc(&self) -> Global {
        self.alloc
    }

    /// The size of the pictures.
    pub fn size(&self) -> Size
        ensures { result ≡ self.now.settings.size }
    {
        self.size
    }

    /// How many pictures were coded, and so the number of the next one.
    pub fn count(&self) -> u32
        ensures { result ≡ self.now.count }
    {
        self.count
    }

    /// What the stream has besides pictures.
    pub fn extra(&self) -> Extra
        ensures { result ≡ self.now.settings.extra }
    {
        self.extra
    }

    /// Whether the next picture is an IDR picture: the first, and each with a number that `key` divides (7.4.2.2).
    pub fn is_idr(&self) -> bool
        ensures { result ≡ is_idr self.now.settings.key self.now.count }
    {
        order::is_idr(self.key, self.count)
    }

    /// slice_pic_order_cnt_lsb of the next picture (7.4.7.1).
    pub fn order_bits(&self) -> u32
        ensures value { result ≡ order_count self.now.settings.key self.now.count % 256 }
        ensures low { result < 256 }
        ensures idr { is_idr self.now.settings.key self.now.count ≡ true → result ≡ 0 }
    {
        order::order_bits(self.key, self.count)
    }

    /// The first piece of the stream: the parameter sets.
    ///
    /// # Errors
    ///
    /// `NoMemory` where the allocator refuses the bytes.
    pub fn first(&self) -> Result<Vec<u8>, NoMemory>
        ensures piece { IfOk result (λ piece. pieces self.now.settings [] ≡ piece.items ∷ []) }
        ensures short { IfOk result (λ piece. length piece.items < 2 ^ 40) }
    {
        let piece = write_params(
            self.alloc,
            &Params {
                size: self.size,
                segments: in_segments(self.extra),
            },
        )?;
        Ok(piece)
    }

    /// The picture before the last one as it is after its job, where it is kept; it is then kept no longer.
    pub(crate) fn made_again(&mut self) -> Option<Picture>
        ensures made { IfSome result (λ made. made ≡ self.old.last) }
        ensures size { IfSome result (λ made. made.size ≡ self.old.settings.size) }
        ensures same { self.new ≡ self.old }
    {
        self.before.take()?.next()
    }

    // A copy of the last picture, or a black one where there is none.
    fn copy_of_last(&mut self) -> Result<Picture, NoMemory>
        ensures copy { IfOk result (λ copy. copy ≡ self.old.last) }
        ensures size { IfOk result (λ copy. copy.size ≡ self.old.settings.size) }
        ensures same { self.new ≡ self.old }
    {
        if let Some(made) = self.made_again() {
            return Ok(made);
        }
        match &self.last {
            Some(last) => last.twin(),
            None => Picture::black(self.alloc, self.size),
        }
    }

    // The picture that a job makes of the last one.
    fn picture_after(&mut self, job: &Job) -> Result<Arc<Picture, Global>, NoMemory>
        requires { IsJobOf self.old.settings.size job.now }
        ensures size { IfOk result (λ now. (arc_value now).size ≡ self.old.settings.size) }
        ensures laid { IfOk result (λ now. IsLaid self.old.last job.now (arc_value now)) }
        ensures shows { IfOk result (λ now. (shown : Raster) → TurnsInto job.now self.old.last shown → Shows (arc_value now) shown) }
        ensures kept { IfOk result (λ now. IsKeptBut job.now.tiles self.old.last (arc_value now)) }
        ensures same { self.new ≡ self.old }
    {
        let mut now = self.copy_of_last()?;
        lay_over(&mut now, job);
        Ok(Arc::new(self.alloc, now)?)
    }

    /// Lays a job over the last picture: the picture that it gives. What is kept stays as it is, and `keep` then takes the picture.
    ///
    /// # Errors
    ///
    /// `NoMemory` where the allocator refuses the picture or its flags.
    pub fn begin(&mut self, job: &Job) -> Result<Begun, NoMemory>
        requires { IsJobOf self.old.settings.size job.now }
        ensures size { IfOk result (λ begun. (arc_value begun.now).size ≡ self.old.settings.size) }
        ensures laid { IfOk result (λ begun. IsLaid self.old.last job.now (arc_value begun.now)) }
        ensures shows { IfOk result (λ begun. (shown : Raster) → TurnsInto job.now self.old.last shown → Shows (arc_value begun.now) shown) }
        ensures sized { self.old.last.size ≡ self.old.settings.size }
        ensures kept { IfOk result (λ begun. IsKept begun.touched.items self.old.last (arc_value begun.now)) }
        ensures same { self.new ≡ self.old }
    {
        let touched = flags_of(self.alloc, self.size, job.tiles.as_slice())?;
        let now = self.picture_after(job)?;
        Ok(Begun { now, touched })
    }

    /// The last picture. `None` where none was coded.
    pub fn last(&self) -> Option<&Picture>
        ensures { IfSome result (λ p. p.now ≡ self.now.last) }
    {
        match &self.last {
            Some(last) => Some(last),
            None => None,
        }
    }

    // The picture that the next one may copy from; none for an IDR picture.
    fn reference(&self) -> Option<&Picture>
        ensures copies { option_map (λ p. picture_of p.now) result ≡ reference_of (is_idr self.now.settings.key self.now.count) (picture_of self.now.last) }
        ensures last { IfSome result (λ p. p.now ≡ self.now.last) }
    {
        if self.is_idr() {
            return None;
        }
        match &self.last {
            Some(last) => Some(last),
            None => None,
        }
    }

    /// What is coded of a picture that is the last one but for tiles that have a flag.
    pub fn task<'a>(&'a self, now: &'a Arc<Picture, Global>, touched: &'a [bool]) -> Task<'a>
        requires { IsKept touched.now self.now.last (arc_value now.now) }
        ensures sized { self.now.last.size ≡ self.now.settings.size }
        ensures task { IsTask result }
        ensures of { IsTaskOf self.now (arc_value now.now) result }
    {
        Task {
            reference: self.reference(),
            current: now,
            effort: self.effort,
            touched,
        }
    }

    /// Takes the picture that a job made of the last one for the last one.
    pub fn keep(&mut self, now: Arc<Picture, Global>, job: &Job)
        requires job { IsJobOf self.old.settings.size job.now }
        requires laid { IsLaid self.old.last job.now (arc_value now) }
        requires few { self.old.count < 2 ^ 32 - 1 }
        ensures { self.new ≡ record self.old { count = self.old.count + 1; last = arc_value now } }
    {
        let last = self.last.replace(now);
        self.before = Before::of(self.alloc, last, job);
        self.count += 1;
    }
}
