//! The slice of one picture.
ghost use Rattle.std.specs.Prelude.{◌≡◌, ◌<◌, ◌+◌, ◌^◌, true, length, map, IfOk};
ghost use Rattle.h265_model.specs.Plain.{ctus, below};
ghost use Rattle.h265_model.specs.Stream.{slice_piece};
ghost use Rattle.picture_encoder.specs.Planning.{is_idr_task, size_of_task, code_of_task, rows_of_task};

use crate::planning::Task;
use crate::rows::rows_fit;
use h265_model::NoMemory;
use slice_assembly::assemble;
use std::alloc::Global;

/// The slice of a picture from the bytes of its rows: a start code and a NAL unit (7.3.1). `order` is the low 8 bits of its picture order count.
pub(crate) fn picture_slice(
    alloc: Global,
    task: &Task,
    order: u32,
    rows: &[Vec<u8>],
) -> Result<Vec<u8>, NoMemory>
    requires rows { map (λ row. row.items) rows.now ≡ map (code_of_task task.now) (below (ctus (size_of_task task.now).h)) }
    requires order { order < 256 }
    requires idr { is_idr_task task.now ≡ true → order ≡ 0 }
    ensures slice { IfOk result (λ slice. slice.items ≡ slice_piece (is_idr_task task.now) order (rows_of_task task.now)) }
    ensures short { IfOk result (λ slice. length slice.items + 1024 < 2 ^ 40) }
{
    rows_fit(task, rows);
    let slice = assemble(alloc, task.is_idr(), order, rows)?;
    Ok(slice)
}
