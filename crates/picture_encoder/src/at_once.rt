//! The coding units of a picture, whose rows are planned side by side.
ghost use Rattle.std.specs.Prelude.{◌≡◌, ◌<◌, ◌≤◌, ◌^◌, ℕ, None, map, length, slice_index_or, IfOk, IfSome};
ghost use Rattle.h265_model.specs.Plain.{ctus, below};
ghost use Rattle.row_coder.specs.Rows.{leaves_of};
ghost use Rattle.picture_encoder.specs.Planning.{IsTask, row_chosen, size_of_task};

use crate::planning::{Task, plan_picture, plan_row_alone};
use bin_items::Leaves;
use h265_model::NoMemory;
use std::alloc::Global;
use std::thread;
use std::thread::Threads;

// From so many tiles on in which two pictures may differ, they are planned in less time side by side.
const MANY_TILES: usize = 64;

// Whether enough is to be planned for more threads than one.
fn is_long(task: &Task) -> bool {
    task.is_idr() || task.touched.iter().filter(|flag| **flag).count() >= MANY_TILES
}

// So many places for the plan of a row, of which none has one.
fn no_plans(alloc: Global, count: usize) -> Result<Vec<Option<Vec<Leaves>>>, NoMemory>
    ensures { IfOk result (λ plans. length plans.items ≡ count) }
{
    let mut plans = Vec::with_capacity(alloc, count)?;
    for _ in 0..count {
        plans.push(None)?;
    }
    Ok(plans)
}

// Plans each row in its place, in at most so many threads. Where no memory was found, the place has no plan.
fn plan_each<R: Threads + Sync>(
    rt: &R,
    alloc: Global,
    task: &Task,
    down: u32,
    plans: &mut [Option<Vec<Leaves>>],
    threads: usize,
)
    requires task { IsTask task.now }
    requires down { down ≡ ctus (size_of_task task.now).h }
    requires places { length plans.old ≡ down }
    requires threads { 0 < threads }
    ensures places { length plans.new ≡ length plans.old }
    ensures each { (row : ℕ) → row < down
        → IfSome (slice_index_or plans.new row None) (λ plan. leaves_of plan.items ≡ row_chosen task.now row) }
{
    thread::for_each_mut(
        rt,
        plans,
        threads,
        &|row: usize, plan: &mut Option<Vec<Leaves>>|
            requires { (row < ctus (size_of_task task.now).h) × (row < 2 ^ 32) × IsTask task.now }
            ensures { IfSome plan.new (λ made. leaves_of made.items ≡ row_chosen task.entry.now row) }
        { *plan = plan_row_alone(alloc, task, row as u32).ok() },
    );
}

// The plans of all rows, where each was made.
fn all_plans(
    alloc: Global,
    task: &Task,
    plans: Vec<Option<Vec<Leaves>>>,
) -> Result<Vec<Vec<Leaves>>, NoMemory>
    requires { (row : ℕ) → row < length plans.items
        → IfSome (slice_index_or plans.items row None) (λ plan. leaves_of plan.items ≡ row_chosen task.now row) }
    ensures { IfOk result (λ rows. map (λ row. leaves_of row.items) rows.items
        ≡ map (row_chosen task.now) (below (length plans.items))) }
{
    let mut rows = Vec::with_capacity(alloc, plans.len())?;
    for plan in plans {
        rows.push(plan.ok_or(NoMemory)?)?;
    }
    Ok(rows)
}

// The coding units of each coding tree unit, row by row, planned in at most so many threads.
fn plan_side_by_side<R: Threads + Sync>(
    rt: &R,
    alloc: Global,
    task: &Task,
    threads: usize,
) -> Result<Vec<Vec<Leaves>>, NoMemory>
    requires task { IsTask task.now }
    requires threads { 0 < threads }
    ensures { IfOk result (λ rows. map (λ row. leaves_of row.items) rows.items
        ≡ map (row_chosen task.now) (below (ctus (size_of_task task.now).h))) }
{
    let down = (task.current.size().h() + 31) / 32;
    let mut plans = no_plans(alloc, down as usize)?;
    plan_each(rt, alloc, task, down, plans.as_mut_slice(), threads);
    all_plans(alloc, task, plans)
}

/// The coding units of each coding tree unit, row by row, as `plan_picture` gives them, planned by so many workers where there is much to plan.
pub(crate) fn plan_picture_by<R: Threads + Sync>(
    rt: &R,
    alloc: Global,
    task: &Task,
    workers: u32,
) -> Result<Vec<Vec<Leaves>>, NoMemory>
    requires task { IsTask task.now }
    requires workers { 1 ≤ workers }
    ensures { IfOk result (λ rows. map (λ row. leaves_of row.items) rows.items
        ≡ map (row_chosen task.now) (below (ctus (size_of_task task.now).h))) }
{
    if workers == 1 || !is_long(task) {
        return plan_picture(alloc, task);
    }
    plan_side_by_side(rt, alloc, task, workers as usize)
}
