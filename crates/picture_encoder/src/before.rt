//! The picture before the last one. Where few tiles differ, the last one is made again of it, and no whole picture is copied.
ghost use Rattle.std.specs.Prelude.{◌≡◌, List, Some, option_map, IfOk, IfSome};
ghost use Rattle.std.specs.Arc.{arc_value};
ghost use Rattle.h265_model.specs.Raster.{Raster, coded_picture};
ghost use Rattle.h265_model.specs.Tiles.{job_for};
ghost use Rattle.px_plane.specs.Planes.{IsPicture, Shows};
ghost use Rattle.px_plane.specs.Tiles.{IsJobOf, DiffersOnlyIn};
ghost use Rattle.picture_encoder.specs.Coded.{IsLaid};

use h265_model::{Bytes, NoMemory, Numbers};
use px_plane::{Job, Picture};
use std::alloc::Global;
use std::sync::Arc;

/// A picture, and the job that makes the next one of it.
#[derive(Drop)]
pub(crate) struct Before {
    pub picture: Arc<Picture, Global>,
    pub job: Job,
}

/// A picture is whole: each plane has the coded size.
pub(crate) fn whole(picture: &Picture)
    ensures { IsPicture picture.now }
{
    let _size = picture.size();
    let _g = picture.plane(0);
    let _b = picture.plane(1);
    let _r = picture.plane(2);
}

/// Lays a job over a picture.
pub(crate) fn lay_over(picture: &mut Picture, job: &Job)
    requires { IsJobOf picture.old.size job.now }
    ensures laid { IsLaid picture.old job.now picture.new }
    ensures shows { (shown : Raster) → job.now ≡ job_for picture.old.size job.now.number job.now.tiles shown
        → DiffersOnlyIn job.now.tiles picture.old (coded_picture picture.old.size shown) → Shows picture.new shown }
{
    picture.lay(job);
    whole(picture);
}

// An equal job.
fn twin(alloc: Global, job: &Job) -> Result<Job, NoMemory>
    ensures { IfOk result (λ twin. twin ≡ job.now) }
{
    let (listed, given) = (job.tiles.as_slice(), job.samples.as_slice());
    let mut tiles = Vec::with_capacity(alloc, listed.len())?;
    tiles.extend_from_slice(listed)?;
    let mut samples = Vec::with_capacity(alloc, given.len())?;
    samples.extend_from_slice(given)?;
    Ok(Job {
        number: job.number,
        tiles: Numbers::from_vec(tiles),
        samples: Bytes::from_vec(samples),
    })
}

impl Before {
    /// A picture, where there is one, and the job that makes the next one of it. `None` where the job lists more than a quarter of the tiles, or
    /// the allocator refuses a copy of it.
    pub(crate) fn of(
        alloc: Global,
        picture: Option<Arc<Picture, Global>>,
        job: &Job,
    ) -> Option<Before>
        ensures picture { IfSome result (λ before. option_map (λ p. arc_value p) picture ≡ Some (arc_value before.picture)) }
        ensures job { IfSome result (λ before. before.job ≡ job.now) }
    {
        let picture = picture?;
        let size = picture.size();
        let count = (size.w() + 31) / 32 * ((size.h() + 31) / 32);
        if job.tiles.as_slice().len() > count as usize / 4 {
            return None;
        }
        let job = twin(alloc, job).ok()?;
        Some(Before { picture, job })
    }

    /// The picture that the job makes. `None` where the picture has another owner.
    pub(crate) fn next(self) -> Option<Picture>
        requires { IsJobOf (arc_value self.picture).size self.job }
        ensures { IfSome result (λ now. IsLaid (arc_value self.picture) self.job now) }
    {
        let Before { picture, job } = self;
        let Ok(mut picture) = Arc::try_unwrap(picture) else {
            return None;
        };
        lay_over(&mut picture, &job);
        Some(picture)
    }
}
