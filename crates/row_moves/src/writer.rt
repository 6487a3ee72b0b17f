//! The rows of a picture, whose coding tree units are planned and written one after another.
ghost use Rattle.std.specs.Prelude.{◌≡◌, ◌<◌, map, IfOk};
ghost use Rattle.h265_model.specs.Plain.{ctus, below};
ghost use Rattle.px_plane.specs.Planes.{picture_of};
ghost use Rattle.row_coder.specs.Sources.{picture_source};
ghost use Rattle.picture_encoder.specs.Planning.{IsTask, size_of_task};
ghost use Rattle.row_moves.specs.Moves.{code_of_task, IsReady};

use crate::plan::plan_ctu;
use cabac_bytes::ByteCoder;
use h265_model::NoMemory;
use motion_code::{Grid, MotionGrid, write_ctu_moves};
use picture_encoder::Task;
use px_plane::Steps;
use row_coder::PictureLevels;
use row_sequence::{Ending, UnitWriter, rows_in_order};
use std::alloc::Global;
use std::marker::Brand;
use std::sync::ledger::{Blank, Ledger};

// Plans the coding tree units of a picture and writes them. No plan is kept for longer than its unit.
#[derive(Drop)]
struct PictureWriter<'a, L: Ledger> {
    task: Task<'a>,
    // The coding units that were written, and their vectors.
    grid: Grid,
    motion: MotionGrid,
    levels: PictureLevels,
    // The positions that were compared.
    steps: Steps<L>,
}

impl<'a, L: Ledger> PictureWriter<'a, L> {
    // A writer that has written no unit.
    fn new(alloc: Global, task: Task<'a>, blank: Blank) -> Result<PictureWriter<'a, L>, NoMemory>
        requires task { IsTask task }
        requires name { blank.name ≡ L.name }
        requires parts { blank.parts ≡ L.parts }
        requires some { 0 < blank.parts }
        ensures task { IfOk result (λ writer. writer.task ≡ task.entry) }
        ensures ready { IfOk result (λ writer. IsReady writer.task writer.grid writer.motion
            (picture_source writer.levels.size (picture_of writer.levels)) 0) }
    {
        let grid = Grid::new(alloc, task.current.size())?;
        let motion = MotionGrid::new(alloc, task.current.size())?;
        let levels = PictureLevels::new(task.current.clone()?);
        Ok(PictureWriter {
            task,
            grid,
            motion,
            levels,
            steps: Steps::<L>::new(blank),
        })
    }
}

impl<'a, L: Ledger> UnitWriter for PictureWriter<'a, L> {
    ghost use Rattle.px_plane.specs.Planes.{picture_of};
    ghost use Rattle.row_coder.specs.Sources.{picture_source};
    ghost use Rattle.picture_encoder.specs.Planning.{size_of_task};
    ghost use Rattle.row_moves.specs.Moves.{items_of_task, IsReady};

    ghost size = { λ w. size_of_task w.task };

    ghost items = { λ w. items_of_task w.task };

    ghost is_at = { λ w n. IsReady w.task w.grid w.motion (picture_source w.levels.size (picture_of w.levels)) n };

    fn write_ctu(&mut self, sink: &mut ByteCoder, ctu: u32) -> Result<(), NoMemory> {
        let units = plan_ctu(&self.task, &self.motion, ctu, &mut self.steps);
        let kind = self.task.kind();
        let size = self.task.current.size();
        write_ctu_moves(
            sink,
            kind,
            &mut self.grid,
            &mut self.motion,
            size,
            ctu,
            units.as_slice(),
            &mut self.levels,
        )?;
        Ok(())
    }
}

// The rows, with the steps that they take in a ledger of their own.
fn rows_in<L: Ledger>(alloc: Global, task: Task, blank: Blank) -> Result<Vec<Vec<u8>>, NoMemory>
    requires task { IsTask task }
    requires name { blank.name ≡ L.name }
    requires parts { blank.parts ≡ L.parts }
    requires some { 0 < blank.parts }
    ensures { IfOk result (λ rows. map (λ row. row.items) rows.items
        ≡ map (code_of_task task.entry) (below (ctus (size_of_task task.entry).h))) }
{
    let size = task.current.size();
    let kind = task.kind();
    let mut writer = PictureWriter::<L>::new(alloc, task, blank)?;
    let rows = rows_in_order(alloc, kind, size, Ending::Slice, &mut writer)?;
    Ok(rows)
}

/// The substreams of a picture's rows, from the top, without emulation prevention.
pub(crate) fn picture_rows(alloc: Global, task: Task) -> Result<Vec<Vec<u8>>, NoMemory>
    requires { IsTask task }
    ensures { IfOk result (λ rows. map (λ row. row.items) rows.items
        ≡ map (code_of_task task.entry) (below (ctus (size_of_task task.entry).h))) }
{
    rows_in::<Brand>(alloc, task, Blank::new(1))
}
