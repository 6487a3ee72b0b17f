//! The rows of a picture's coding tree units.
ghost use Rattle.std.specs.Prelude.{◌≡◌, ◌<◌, ◌≤◌, ◌-◌, false, map, IfOk, IsTrue, length};
ghost use Rattle.std.specs.Arc.{arc_value};
ghost use Rattle.std.specs.List.{All};
ghost use Rattle.h265_model.specs.Plain.{ctus, below, IsPicture, AreBytes};
ghost use Rattle.h265_model.specs.Settings.{is_size};
ghost use Rattle.px_plane.specs.Planes.{picture_of};
ghost use Rattle.row_core.specs.Plans.{HaveWidth, rows_of};
ghost use Rattle.row_coder.specs.Rows.{leaves_of, plan_of};
ghost use Rattle.slice_assembly.specs.Substreams.{IsSubstream};
ghost use Rattle.picture_encoder.specs.Planning.{IsTask, row_chosen, row_of_task, code_of_task, size_of_task};

use crate::planning::Task;
use bin_items::Leaves;
use h265_model::NoMemory;
use px_plane::Picture;
use row_coder::CtuRow;
use std::alloc::Global;

// A row with its coding units, and those of the row above, where there is one. `above` are the rows above.
fn row_job(
    alloc: Global,
    task: &Task,
    row: u32,
    plans: Vec<Leaves>,
    above: &[Vec<Leaves>],
) -> Result<CtuRow, NoMemory>
    requires row { row < ctus (size_of_task task.now).h }
    requires plans { leaves_of plans.items ≡ row_chosen task.now row }
    requires count { length above.now ≡ row }
    requires above { map (λ row. leaves_of row.items) above.now ≡ map (row_chosen task.now) (below row) }
    ensures { IfOk result (λ job. job ≡ row_of_task task.now row) }
{
    let job = CtuRow::new(alloc, task.current.clone()?, task.kind(), row, plans)?;
    if row == 0 {
        return Ok(job);
    }
    let job = job.with_above(&above[row as usize - 1])?;
    Ok(job)
}

// The rows from the top, each with its coding units.
fn row_jobs(alloc: Global, task: &Task, plans: Vec<Vec<Leaves>>) -> Result<Vec<CtuRow>, NoMemory>
    requires { map (λ row. leaves_of row.items) plans.items ≡ map (row_chosen task.now) (below (ctus (size_of_task task.now).h)) }
    ensures { IfOk result (λ jobs. jobs.items ≡ map (row_of_task task.now) (below (ctus (size_of_task task.now).h))) }
{
    let mut plans = plans;
    let mut jobs = Vec::with_capacity(alloc, plans.len())?;
    let mut row = (task.current.size().h() + 31) / 32;
    // From the bottom, so that the coding units of the row above are still there.
    while let Some(own) = plans.pop() {
        row -= 1;
        jobs.push(row_job(alloc, task, row, own, &plans)?)?;
    }
    jobs.reverse();
    Ok(jobs)
}

// The samples of a plane are bytes.
fn bytes_fit(plane: &[u8])
    ensures { AreBytes plane.now }
{}

/// The size of a picture is within its limits, and its samples are bytes.
pub fn picture_fits(picture: &Picture)
    ensures size { IsTrue (is_size picture.now.size) }
    ensures samples { IsPicture (picture_of picture.now) }
{
    let _size = picture.size();
    bytes_fit(picture.plane(0));
    bytes_fit(picture.plane(1));
    bytes_fit(picture.plane(2));
}

/// The jobs of a picture's rows with these coding units, from the top: none was begun, they have one width, and they give the bytes of the rows.
pub(crate) fn picture_jobs(
    alloc: Global,
    task: &Task,
    plans: Vec<Vec<Leaves>>,
) -> Result<Vec<CtuRow>, NoMemory>
    requires task { IsTask task.now }
    requires plans { map (λ row. leaves_of row.items) plans.items ≡ map (row_chosen task.now) (below (ctus (size_of_task task.now).h)) }
    ensures some { IfOk result (λ jobs. 0 < length jobs.items) }
    ensures few { IfOk result (λ jobs. length jobs.items ≤ 128) }
    ensures fresh { IfOk result (λ jobs. All (λ job. job.begun ≡ false) jobs.items) }
    ensures width { IfOk result (λ jobs. HaveWidth (ctus (size_of_task task.now).w) (map plan_of jobs.items)) }
    ensures give { IfOk result (λ jobs. rows_of (ctus (size_of_task task.now).w) (map plan_of jobs.items) ≡ map (code_of_task task.now) (below (ctus (size_of_task task.now).h))) }
{
    picture_fits(task.current);
    let jobs = row_jobs(alloc, task, plans)?;
    Ok(jobs)
}

/// The bytes of a picture's rows can stand in its NAL unit.
pub(crate) fn rows_fit(task: &Task, rows: &[Vec<u8>])
    requires { map (λ row. row.items) rows.now ≡ map (code_of_task task.now) (below (ctus (size_of_task task.now).h)) }
    ensures substreams { All (λ row. IsSubstream row.items) rows.now }
    ensures some { 0 < length rows.now }
    ensures few { length rows.now ≤ 128 }
{
    picture_fits(task.current);
}

#[cfg(test)]
mod tests;
