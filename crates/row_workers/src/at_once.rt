//! Rows side by side, by workers that share a board.
ghost use Rattle.std.specs.Prelude.{ℕ, OnOk, OnErr, ◌≡◌, ◌<◌, ◌≤◌, ◌+◌, ◌-◌, ◌^◌, [], ◌∷◌, ◌++◌, false, true, length, map, min, Option, Some, IfOk, IfSome, slice_index_or};
ghost use Rattle.std.specs.List.{All};
ghost use Rattle.h265_model.specs.Board.{row_inherits};
ghost use Rattle.row_board.specs.Rows.{wanted, claim_of, opened, change, in_sync, job_fits};
ghost use Rattle.row_board.specs.Standing.{HasOpen, HasUnsynced, IsSynced, IsSame};
ghost use Rattle.row_core.specs.Plans.{HaveWidth, rows_of};
ghost use Rattle.row_workers.specs.AtOnce.{KeepsRows, IsSettled, IsMoreBy, IsRowOf, HavePlaced, AreGathered, IsNewcomer, IsDone, IsReady, HasWorked, HaveWorked};

use crate::SHOWN;
use crossbeam_utils::Backoff;
use gate::Gate;
use h265_model::NoMemory;
use row_board::{Board, Row, RowSeat, SyncError};
use row_core::{Contexts, RowJob};
use std::alloc::Global;
use std::sync::Wait;
use std::thread;
use std::thread::Threads;

/// A row's number, with its bytes.
#[derive(Drop)]
struct CodedRow {
    number: u32,
    bytes: Vec<u8>,
}

/// A worker: its seat at the board, the rows that it has coded, and whether it gave one up.
#[derive(Drop)]
struct Worker<J> {
    seat: RowSeat<J>,
    rows: Vec<CodedRow>,
    failed: bool,
}

// Waits until the row above shows its contexts, and takes them. `NoMemory` where that row is lost. After some pauses it sleeps.
fn wait_for_above<J: RowJob>(
    rt: &impl Wait,
    board: &Board<J>,
    seat: &mut RowSeat<J>,
    row: &Row,
) -> Result<Contexts, NoMemory>
    requires board { seat.old.table ≡ board.now }
    requires below { 0 < row.now }
    requires mine { HasUnsynced seat.old.knows row.now }
    ensures board { seat.new.table ≡ seat.old.table }
    ensures same { IsSame seat.old.knows seat.new.knows }
    ensures rows { OnOk result (seat.new.knows.rows ≡ change row.now in_sync seat.old.knows.rows) }
    ensures lost { OnErr result (seat.new.knows.rows ≡ seat.old.knows.rows) }
    ensures contexts { IfOk result (λ x. x ≡ wanted seat.old.knows.want (row.now - 1)) }
{
    let backoff = Backoff::new();
    for _ in rt.forever() {
        match board.try_sync(seat, row) {
            Ok(contexts) => return Ok(contexts),
            Err(SyncError::Lost { word: _ }) => return Err(NoMemory),
            Err(SyncError::NotYet { word: _ }) if backoff.is_completed() => {
                board.wait_above(rt, seat, row)
            }
            Err(SyncError::NotYet { word: _ }) => backoff.snooze(),
        }
    }
    unreachable!()
}

// What a row inherits: the contexts that the row above shows, where it takes any.
fn take_above<J: RowJob, G: Gate>(
    rt: &impl Wait,
    board: &Board<J>,
    seat: &mut RowSeat<J>,
    row: &Row,
    width: u32,
    gate: &G,
) -> Result<Option<Contexts>, NoMemory>
    requires board { seat.old.table ≡ board.now }
    requires width { width ≡ seat.old.knows.width }
    requires some { 1 ≤ width }
    requires mine { claim_of row.now seat.old.knows.rows ≡ Some (opened row.now) }
    ensures board { seat.new.table ≡ seat.old.table }
    ensures kept { KeepsRows seat.old.knows seat.new.knows }
    ensures unsettled { HasOpen seat.new.knows row.now }
    ensures synced { OnOk result (2 ≤ width → IsSynced seat.new.knows row.now) }
    ensures inherits { IfOk result (λ contexts. contexts ≡ row_inherits width seat.old.knows.want row.now) }
{
    if row.number() == 0 || width < SHOWN {
        return Ok(None);
    }
    let contexts = wait_for_above(rt, board, seat, row)?;
    gate.row_taken(row.number());
    Ok(Some(contexts))
}

// Codes some more units of a row.
fn code_more<J: RowJob>(job: &mut J, count: u32) -> Result<(), NoMemory>
    requires begun { J.begun job.old ≡ true }
    requires left { J.coded job.old + count ≤ (J.plan job.old).width }
    ensures begun { OnOk result (J.begun job.new ≡ true) }
    ensures inherits { OnOk result (J.inherits job.new ≡ J.inherits job.old) }
    ensures coded { OnOk result (J.coded job.new ≡ J.coded job.old + count) }
    ensures plan { OnOk result (J.plan job.new ≡ J.plan job.old) }
{
    for _ in 0..count {
        job.code_next()?;
    }
    Ok(())
}

// Begins a row with what it inherits, and codes its first two units, or the one that it has.
fn begin_row<J: RowJob, G: Gate>(
    rt: &impl Wait,
    board: &Board<J>,
    seat: &mut RowSeat<J>,
    row: &Row,
    job: &mut J,
    gate: &G,
) -> Result<(), NoMemory>
    requires board { seat.old.table ≡ board.now }
    requires mine { claim_of row.now seat.old.knows.rows ≡ Some (opened row.now) }
    requires fits { job_fits J.plan J.begun seat.old.knows.width seat.old.knows.want seat.old.knows.give row.now job.old }
    ensures board { seat.new.table ≡ seat.old.table }
    ensures kept { KeepsRows seat.old.knows seat.new.knows }
    ensures unsettled { HasOpen seat.new.knows row.now }
    ensures synced { OnOk result (2 ≤ seat.old.knows.width → IsSynced seat.new.knows row.now) }
    ensures begun { OnOk result (J.begun job.new ≡ true) }
    ensures inherits { OnOk result (J.inherits job.new ≡ row_inherits seat.old.knows.width seat.old.knows.want row.now) }
    ensures coded { OnOk result (J.coded job.new ≡ min 2 (J.plan job.new).width) }
    ensures plan { OnOk result (J.plan job.new ≡ J.plan job.old) }
{
    let width = job.width();
    let inherited = take_above(rt, board, seat, row, width, gate)?;
    job.begin(inherited);
    code_more(job, width.min(SHOWN))?;
    Ok(())
}

// Codes the other units of a row, and gives its bytes.
fn finish_row<J: RowJob>(job: J) -> Result<Vec<u8>, NoMemory>
    requires begun { J.begun job ≡ true }
    requires coded { J.coded job ≡ min 2 (J.plan job).width }
    ensures { IfOk result (λ bytes. bytes.items ≡ (J.plan job).bytes (J.inherits job)) }
{
    let mut job = job;
    let left = job.width().saturating_sub(SHOWN);
    code_more(&mut job, left)?;
    job.finish()
}

// Codes a row that was just claimed. Where it finds no memory before the row was published, or the row above is lost, the row is lost.
fn code_row<J: RowJob, G: Gate>(
    rt: &impl Wait,
    board: &Board<J>,
    seat: &mut RowSeat<J>,
    row: &Row,
    job: J,
    gate: &G,
) -> Result<Vec<u8>, NoMemory>
    requires board { seat.old.table ≡ board.now }
    requires mine { claim_of row.now seat.old.knows.rows ≡ Some (opened row.now) }
    requires fits { job_fits J.plan J.begun seat.old.knows.width seat.old.knows.want seat.old.knows.give row.now job }
    ensures board { seat.new.table ≡ seat.old.table }
    ensures kept { KeepsRows seat.old.knows seat.new.knows }
    ensures settled { 2 ≤ seat.old.knows.width → IsSettled seat.new.knows row.now }
    ensures bytes { IfOk result (λ bytes. bytes.items ≡ slice_index_or seat.old.knows.give row.now []) }
{
    let mut job = job;
    if let Err(error) = begin_row(rt, board, seat, row, &mut job, gate) {
        board.lose(seat, row);
        return Err(error);
    }
    if job.width() >= SHOWN {
        board.publish(seat, row, job.contexts());
        gate.row_published(row.number());
    }
    finish_row(job)
}

impl<J> Worker<J> {
    // Keeps the bytes of a row.
    fn keep(&mut self, number: u32, bytes: Vec<u8>)
        ensures seat { self.new.seat ≡ self.old.seat }
        ensures failed { self.new.failed ≡ false → self.old.failed ≡ false }
        ensures kept { self.new.failed ≡ false → self.new.rows.items ≡ self.old.rows.items ++ record { number = number; bytes = bytes } ∷ [] }
    {
        let row = CodedRow { number, bytes };
        if self.rows.push(row).is_err() {
            self.failed = true;
        }
    }
}

// Codes a row that a worker just claimed, and keeps its bytes.
fn code_claimed<J: RowJob, G: Gate>(
    rt: &impl Wait,
    board: &Board<J>,
    worker: &mut Worker<J>,
    row: &Row,
    job: J,
    gate: &G,
)
    requires board { worker.old.seat.table ≡ board.now }
    requires mine { claim_of row.now worker.old.seat.knows.rows ≡ Some (opened row.now) }
    requires fits { job_fits J.plan J.begun worker.old.seat.knows.width worker.old.seat.knows.want worker.old.seat.knows.give row.now job }
    ensures board { worker.new.seat.table ≡ worker.old.seat.table }
    ensures kept { KeepsRows worker.old.seat.knows worker.new.seat.knows }
    ensures settled { 2 ≤ worker.old.seat.knows.width → IsSettled worker.new.seat.knows row.now }
    ensures failed { worker.new.failed ≡ false → worker.old.failed ≡ false }
    ensures coded { worker.new.failed ≡ false → IsMoreBy worker.old.rows.items row.now (slice_index_or worker.old.seat.knows.give row.now []) worker.new.rows.items }
{
    match code_row(rt, board, &mut worker.seat, row, job, gate) {
        Ok(bytes) => worker.keep(row.number(), bytes),
        Err(_) => worker.failed = true,
    }
}

// Claims rows and codes them until none is left.
fn work<J: RowJob, G: Gate>(rt: &impl Wait, board: &Board<J>, worker: &mut Worker<J>, gate: &G)
    requires { IsReady board.now worker.old }
    ensures { HasWorked board.now worker.old worker.new }
{
    for _ in rt.forever() {
        let Some((row, job)) = board.claim(&mut worker.seat) else {
            return;
        };
        code_claimed(rt, board, worker, &row, job, gate);
    }
    unreachable!()
}

// How many threads serve so many workers: no more than there are processors, as further ones make the last rows late; but two, so
// that rows are coded side by side wherever threads can be made.
fn threads_for(rt: &impl Threads, workers: usize) -> usize
    ensures { 0 < workers → 0 < result }
{
    let processors = match thread::available_parallelism(rt) {
        Ok(count) => count.get(),
        Err(_) => workers,
    };
    workers.min(processors.max(2))
}

// All workers at work, in threads side by side: where there are fewer threads than workers, a thread takes one worker after another.
fn work_all<R: Threads + Wait + Sync, J: RowJob, G: Gate + Sync>(
    rt: &R,
    board: &Board<J>,
    workers: &mut [Worker<J>],
    gate: &G,
)
    requires { All (IsReady board.now) workers.old }
    ensures { HaveWorked board.now workers.old workers.new }
{
    let count = workers.len();
    if count > 0 {
        thread::for_each_mut(
            rt,
            workers,
            threads_for(rt, count),
            &|_, worker: &mut Worker<J>|
                requires { IsReady board.now worker.old }
                ensures { HasWorked board.entry.now worker.old worker.new }
            { work(rt, board, worker, gate) },
        );
    }
}

// The workers after all of them were at work.
fn after_work<R: Threads + Wait + Sync, J: RowJob, G: Gate + Sync>(
    rt: &R,
    board: &Board<J>,
    workers: Vec<Worker<J>>,
    gate: &G,
) -> Vec<Worker<J>>
    requires { All (IsReady board.now) workers.items }
    ensures many { length result.items ≡ length workers.items }
    ensures worked { HaveWorked board.now workers.items result.items }
{
    let mut workers = workers;
    work_all(rt, board, workers.as_mut_slice(), gate);
    workers
}

// Makes a worker for each of so many shares of a seat, which keeps what is left.
fn seat_workers<J: RowJob>(
    alloc: Global,
    board: &Board<J>,
    seat: RowSeat<J>,
    count: u32,
) -> Result<(RowSeat<J>, Vec<Worker<J>>), NoMemory>
    requires board { seat.table ≡ board.now }
    requires weight { count < seat.knows.weight }
    ensures board { IfOk result (λ seats. seats.0.table ≡ board.now) }
    ensures rest { IfOk result (λ seats. seats.0.knows ≡ record seat.knows { weight = seat.knows.weight - count }) }
    ensures many { IfOk result (λ seats. length seats.1.items ≡ count) }
    ensures each { IfOk result (λ seats. All (IsNewcomer board.now seat.knows) seats.1.items) }
{
    let mut seat = seat;
    let mut workers = Vec::with_capacity(alloc, count as usize)?;
    for _ in 0..count {
        let (rest, own) = board.split(seat);
        seat = rest;
        workers.push(Worker {
            seat: own,
            rows: Vec::new(alloc),
            failed: false,
        })?;
    }
    Ok((seat, workers))
}

// So many rows of no bytes.
fn empty_rows(alloc: Global, count: usize) -> Result<Vec<Vec<u8>>, NoMemory>
    ensures { IfOk result (λ rows. length rows.items ≡ count) }
{
    let mut rows = Vec::with_capacity(alloc, count)?;
    for _ in 0..count {
        rows.push(Vec::new(alloc))?;
    }
    Ok(rows)
}

// Puts rows where their numbers say.
fn place_rows(rows: &mut Vec<Vec<u8>>, coded: Vec<CodedRow>)
    requires { All (λ row. row.number < length rows.old.items) coded.items }
    ensures long { length rows.new.items ≡ length rows.old.items }
    ensures placed { (want : _) (give : _) → All (IsRowOf want give) coded.items → HavePlaced give rows.old.items coded.items rows.new.items }
{
    for row in coded {
        rows[row.number as usize] = row.bytes;
    }
}

// Whether a worker gave a row up.
fn any_failed<J>(workers: &[Worker<J>]) -> bool
    ensures { result ≡ false → All (λ worker. worker.failed ≡ false) workers.now }
{
    workers.iter().any(|worker| worker.failed)
}

// Joins the seats of all workers, and puts their rows where their numbers say.
fn gather<J: RowJob>(
    board: &Board<J>,
    seat: RowSeat<J>,
    rows: Vec<Vec<u8>>,
    workers: Vec<Worker<J>>,
) -> (RowSeat<J>, Vec<Vec<u8>>)
    requires board { seat.table ≡ board.now }
    requires none { seat.knows.rows ≡ [] }
    requires long { length rows.items ≡ length seat.knows.want }
    requires done { All (IsDone board.now seat.knows) workers.items }
    ensures board { result.0.table ≡ board.now }
    ensures weight { result.0.knows.weight ≡ seat.knows.weight + length workers.items }
    ensures want { result.0.knows.want ≡ seat.knows.want }
    ensures give { result.0.knows.give ≡ seat.knows.give }
    ensures met { 0 < length workers.items → result.0.knows.met_none ≡ true }
    ensures long { length result.1.items ≡ length rows.items }
    ensures rows { AreGathered result.0.knows result.1.items }
{
    let (mut seat, mut rows) = (seat, rows);
    for worker in workers {
        seat = board.join(seat, worker.seat);
        place_rows(&mut rows, worker.rows);
    }
    (seat, rows)
}

/// The bytes of each row, in order, coded by so many workers side by side, of which each may have a thread of its own.
///
/// They are what `rows_alone` gives, whatever the number of workers and however their threads take turns. Each row but the first inherits the
/// contexts after the second coding tree unit of the row above, where the rows have as many (9.3.1). `gate` hears of each row that showed its
/// contexts, and of each that took those of the row above. The jobs are those of a picture's rows from the top, of which there is at least one; they
/// have one width, and none was begun.
///
/// # Errors
///
/// `NoMemory` where a job finds no memory, or none is left for the board, the workers or the rows.
pub fn run_rows<R: Threads + Wait + Sync, J: RowJob, G: Gate + Sync>(
    rt: &R,
    alloc: Global,
    jobs: Vec<J>,
    workers: u32,
    gate: &G,
) -> Result<Vec<Vec<u8>>, NoMemory>
    requires some { 0 < length jobs.items }
    requires few { length jobs.items < 2 ^ 32 }
    requires fresh { All (λ job. J.begun job ≡ false) jobs.items }
    requires widths { (width : ℕ) × HaveWidth width (map J.plan jobs.items) }
    requires workers { (1 ≤ workers) × (workers ≤ 64) }
    ensures rows { IfOk result (λ rows. (width : ℕ) → HaveWidth width (map J.plan jobs.items) → map (λ row. row.items) rows.items ≡ rows_of width (map J.plan jobs.items)) }
{
    let rows = empty_rows(alloc, jobs.len())?;
    let workers = workers.min(jobs.len() as u32);
    let (board, seat) = Board::new(alloc, jobs)?;
    let (seat, workers) = seat_workers(alloc, &board, seat, workers)?;
    let workers = after_work(rt, &board, workers, gate);
    if any_failed(&workers) {
        return Err(NoMemory);
    }
    let (seat, rows) = gather(&board, seat, rows, workers);
    board.close(seat);
    Ok(rows)
}
