//! Which coding units are coded of a picture.
ghost use Rattle.std.specs.Prelude.{◌≡◌, ◌<◌, ◌≤◌, ◌+◌, ◌*◌, false, map, take, slice_index_or, IfOk, OnOk};
ghost use Rattle.h265_model.specs.Plain.{ctus, below};
ghost use Rattle.h265_model.specs.Tiles.{tile_count};
ghost use Rattle.row_coder.specs.Rows.{leaves_of};
ghost use Rattle.picture_encoder.specs.Planning.{IsTask, is_idr_task, kind_of_task, chosen, row_chosen, size_of_task, raised, most_ticks};

use bin_items::Leaves;
use block_choice::plan_ctu;
use h265_model::{NoMemory, SliceKind};
use px_plane::{Picture, Steps};
use std::alloc::Global;
use std::marker::Brand;
use std::sync::Arc;
use std::sync::ledger::{Blank, Ledger};

/// A picture that is to be coded.
#[derive(Drop)]
pub struct Task<'a> {
    /// The last picture, where this one may copy from it: an IDR picture has none.
    pub reference: Option<&'a Picture>,
    /// The picture.
    pub current: &'a Arc<Picture, Global>,
    /// 0 to 2: which intra modes are tried.
    pub effort: u32,
    /// For each tile, whether the two pictures may differ in it.
    pub touched: &'a [bool],
}

impl<'a> Task<'a> {
    /// Whether it is an IDR picture.
    pub fn is_idr(&self) -> bool
        ensures { result ≡ is_idr_task self.now }
    {
        self.reference.is_none()
    }

    /// The kind of its slice: I or P.
    pub fn kind(&self) -> SliceKind
        ensures { result ≡ kind_of_task self.now }
    {
        if self.is_idr() {
            SliceKind::I
        } else {
            SliceKind::P
        }
    }
}

/// The coding units of a coding tree unit. Positions are compared where its tile has a flag alone, each once at most.
pub fn plan_unit<L: Ledger>(task: &Task, ctu: u32, steps: &mut Steps<L>) -> Leaves
    requires task { IsTask task.now }
    requires ctu { ctu < tile_count (size_of_task task.now) }
    ensures choice { result.items ≡ chosen task.now ctu }
    ensures steps { steps.new ≤ steps.old + most_ticks (slice_index_or task.now.touched.now ctu false) }
{
    let touched = task.touched[ctu as usize];
    plan_ctu(
        task.reference,
        task.current,
        task.effort,
        ctu,
        touched,
        steps,
    )
}

// Those of a row of coding tree units.
fn plan_row<L: Ledger>(
    alloc: Global,
    task: &Task,
    row: u32,
    steps: &mut Steps<L>,
) -> Result<Vec<Leaves>, NoMemory>
    requires task { IsTask task.now }
    requires row { row < ctus (size_of_task task.now).h }
    ensures plans { IfOk result (λ plans. leaves_of plans.items ≡ row_chosen task.now row) }
    ensures steps { OnOk result (steps.new + 1024 * raised (take (row * ctus (size_of_task task.now).w) task.now.touched.now)
        ≤ steps.old + 1024 * raised (take (row * ctus (size_of_task task.now).w + ctus (size_of_task task.now).w) task.now.touched.now)) }
{
    let across = (task.current.size().w() + 31) / 32;
    let mut plans = Vec::with_capacity(alloc, across as usize)?;
    for unit in 0..across {
        plans.push(plan_unit(task, row * across + unit, steps))?;
    }
    Ok(plans)
}

// Those of all rows. Positions are compared in tiles alone that have a flag.
fn plan_rows<L: Ledger>(
    alloc: Global,
    task: &Task,
    steps: &mut Steps<L>,
) -> Result<Vec<Vec<Leaves>>, NoMemory>
    requires { IsTask task.now }
    ensures plans { IfOk result (λ rows. map (λ row. leaves_of row.items) rows.items ≡ map (row_chosen task.now) (below (ctus (size_of_task task.now).h))) }
    ensures steps { OnOk result (steps.new ≤ steps.old + 1024 * raised task.now.touched.now) }
{
    let down = (task.current.size().h() + 31) / 32;
    let mut rows = Vec::with_capacity(alloc, down as usize)?;
    for row in 0..down {
        rows.push(plan_row(alloc, task, row, steps)?)?;
    }
    Ok(rows)
}

// The same, with the steps that it takes in a ledger of its own.
fn plan_in<L: Ledger>(
    alloc: Global,
    task: &Task,
    blank: Blank,
) -> Result<Vec<Vec<Leaves>>, NoMemory>
    requires task { IsTask task.now }
    requires name { blank.name ≡ L.name }
    requires parts { blank.parts ≡ L.parts }
    requires some { 0 < blank.parts }
    ensures { IfOk result (λ rows. map (λ row. leaves_of row.items) rows.items ≡ map (row_chosen task.now) (below (ctus (size_of_task task.now).h))) }
{
    let mut steps = Steps::<L>::new(blank);
    plan_rows(alloc, task, &mut steps)
}

// Those of a row, with the steps that it takes in a ledger of its own.
fn plan_row_in<L: Ledger>(
    alloc: Global,
    task: &Task,
    row: u32,
    blank: Blank,
) -> Result<Vec<Leaves>, NoMemory>
    requires task { IsTask task.now }
    requires row { row < ctus (size_of_task task.now).h }
    requires name { blank.name ≡ L.name }
    requires parts { blank.parts ≡ L.parts }
    requires some { 0 < blank.parts }
    ensures { IfOk result (λ plans. leaves_of plans.items ≡ row_chosen task.now row) }
{
    let mut steps = Steps::<L>::new(blank);
    plan_row(alloc, task, row, &mut steps)
}

/// The coding units of a row of coding tree units, from the left.
pub(crate) fn plan_row_alone(alloc: Global, task: &Task, row: u32) -> Result<Vec<Leaves>, NoMemory>
    requires task { IsTask task.now }
    requires row { row < ctus (size_of_task task.now).h }
    ensures { IfOk result (λ plans. leaves_of plans.items ≡ row_chosen task.now row) }
{
    plan_row_in::<Brand>(alloc, task, row, Blank::new(1))
}

/// The coding units of each coding tree unit, row by row.
pub(crate) fn plan_picture(alloc: Global, task: &Task) -> Result<Vec<Vec<Leaves>>, NoMemory>
    requires { IsTask task.now }
    ensures { IfOk result (λ rows. map (λ row. leaves_of row.items) rows.items ≡ map (row_chosen task.now) (below (ctus (size_of_task task.now).h))) }
{
    plan_in::<Brand>(alloc, task, Blank::new(1))
}
