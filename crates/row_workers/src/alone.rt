//! Rows on the caller's thread.
ghost use Rattle.std.specs.Prelude.{ℕ, OnOk, ◌≡◌, ◌<◌, ◌≤◌, ◌==◌, ◌+◌, false, true, length, map, Option, Some, None, IfOk, if◌then◌else◌};
ghost use Rattle.std.specs.List.{All};
ghost use Rattle.row_core.specs.Plans.{HaveWidth, rows_of};

use crate::SHOWN;
use h265_model::NoMemory;
use row_core::{Contexts, RowJob};
use std::alloc::Global;

/// What a row gives: its bytes, and the contexts after its second coding tree unit, where it has as many.
#[derive(Drop)]
struct Coded {
    bytes: Vec<u8>,
    second: Option<Contexts>,
}

// Codes the units of a row that was begun, and gives the contexts after the second, where there is one.
fn code_units<J: RowJob>(job: &mut J) -> Result<Option<Contexts>, NoMemory>
    requires begun { J.begun job.old ≡ true }
    requires none { J.coded job.old ≡ 0 }
    ensures begun { OnOk result (J.begun job.new ≡ true) }
    ensures inherited { OnOk result (J.inherits job.new ≡ J.inherits job.old) }
    ensures plan { OnOk result (J.plan job.new ≡ J.plan job.old) }
    ensures coded { OnOk result (J.coded job.new ≡ (J.plan job.old).width) }
    ensures second { IfOk result (λ second. 2 ≤ (J.plan job.old).width → second ≡ Some ((J.plan job.old).second (J.inherits job.old))) }
    ensures wide { OnOk result (1 ≤ (J.plan job.old).width) }
    ensures narrow { IfOk result (λ second. (J.plan job.old).width ≡ 1 → second ≡ None) }
{
    let mut second = None;
    for unit in 0..job.width() {
        job.code_next()?;
        if unit + 1 == SHOWN {
            second = Some(job.contexts());
        }
    }
    Ok(second)
}

// Codes a row whose job wasn't begun.
fn code_row<J: RowJob>(job: J, inherited: Option<Contexts>) -> Result<Coded, NoMemory>
    requires fresh { J.begun job ≡ false }
    ensures bytes { IfOk result (λ row. row.bytes.items ≡ (J.plan job).bytes inherited) }
    ensures second { IfOk result (λ row. 2 ≤ (J.plan job).width → row.second ≡ Some ((J.plan job).second inherited)) }
    ensures wide { OnOk result (1 ≤ (J.plan job).width) }
    ensures narrow { IfOk result (λ row. (J.plan job).width ≡ 1 → row.second ≡ None) }
{
    let mut job = job;
    job.begin(inherited);
    let second = code_units(&mut job)?;
    let bytes = job.finish()?;
    Ok(Coded { bytes, second })
}

/// The bytes of each row, in order, coded on the caller's thread one row after another.
///
/// Each row but the first inherits the contexts after the second coding tree unit of the row above, where the rows have as many (9.3.1).
/// The jobs are those of a picture's rows from the top, of which there is at least one; they have one width, and none was begun.
///
/// # Errors
///
/// `NoMemory` where a job finds no memory, or none is left for the list of rows.
pub fn rows_alone<J: RowJob>(alloc: Global, jobs: Vec<J>) -> Result<Vec<Vec<u8>>, NoMemory>
    requires some { 0 < length jobs.items }
    requires fresh { All (λ job. J.begun job ≡ false) jobs.items }
    requires widths { (width : ℕ) × HaveWidth width (map J.plan jobs.items) }
    ensures { IfOk result (λ rows. (width : ℕ) → HaveWidth width (map J.plan jobs.items) → map (λ row. row.items) rows.items ≡ rows_of width (map J.plan jobs.items)) }
{
    let mut rows = Vec::with_capacity(alloc, jobs.len())?;
    let mut inherited = None;
    for job in jobs {
        let row = code_row(job, inherited)?;
        rows.push(row.bytes)?;
        inherited = row.second;
    }
    Ok(rows)
}
