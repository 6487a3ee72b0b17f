//! The rows of a picture, coded alone and by workers.
ghost use Rattle.std.specs.Prelude.{◌≡◌, None, length};
ghost use Rattle.std.specs.Arc.{arc_value};
ghost use Rattle.h265_model.specs.Tiles.{tile_count};
ghost use Rattle.picture_encoder.specs.Planning.{IsTask};

use super::picture_jobs;
use crate::at_once::plan_picture_by;
use crate::planning::{Task, plan_picture};
use gate::NoGate;
use px_plane::{Picture, Size};
use row_workers::{rows_alone, run_rows};
use std::alloc::Global;
use std::sync::Arc;
use std::test::Fail;

fn no_reference<'a>() -> Option<&'a Picture>
    ensures { result ≡ None }
{
    None
}

// An IDR picture, all tiles of which may have changed.
fn task_of<'a>(current: &'a Arc<Picture, Global>, touched: &'a [bool]) -> Task<'a>
    requires { length touched.now ≡ tile_count (arc_value current.now).size }
    ensures { IsTask result }
{
    Task {
        reference: no_reference(),
        current,
        effort: 0,
        touched,
    }
}

// A black desktop of two rows of three coding tree units: each has 3072 samples and two bytes before them, and the row two at its end.
#[test]
fn workers_give_the_rows_of_one_thread(rt: HostRuntime) -> Result<(), Fail> {
    let alloc = rt.alloc();
    let size = Size::new(96, 64).ok_or("size")?;
    let touched = vec![in alloc; true; ((size.w() + 31) / 32 * ((size.h() + 31) / 32)) as usize]?;
    let picture = Arc::new(alloc, Picture::black(alloc, size)?)?;
    let task = task_of(&picture, &touched);
    let plans = plan_picture(alloc, &task)?;
    let alone = rows_alone(alloc, picture_jobs(alloc, &task, plans)?)?;
    assert_eq!(rt; alone.len(), 2);
    for row in &alone {
        assert_eq!(rt; row.len(), 3 * (2 + 3072) + 2);
    }
    for workers in [1u32, 64] {
        assert!(rt; workers >= 1 && workers <= 64);
        let plans = plan_picture_by(&rt, alloc, &task, workers)?;
        let jobs = picture_jobs(alloc, &task, plans)?;
        let rows = run_rows(&rt, alloc, jobs, workers, &NoGate)?;
        assert!(rt; rows == alone);
    }
    Ok(())
}
