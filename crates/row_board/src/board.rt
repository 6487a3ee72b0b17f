ghost use Rattle.std.specs.Prelude.{◌≡◌, ◌≢◌, ℕ, ◌+◌, ◌-◌, ◌*◌, ◌^◌, ◌<◌, ◌≤◌, [], ◌∷◌, true, false, length, Some, IfOk, OnOk, IfErr, IfSome, IfNone, map, vec_len};
ghost use Rattle.std.specs.List.{All};
ghost use Rattle.row_board.specs.Rows.{wanted, merged, lighter, newcomer, job_fits, AllClaimed, opening_view};
ghost use Rattle.row_core.specs.Plans.{HaveWidth};
ghost use Rattle.row_board.specs.Standing.{HasOpen, HasUnsynced, IsSynced, has_claimed, HasMetNone, has_published, has_lost, has_synced, SyncMissed};
ghost use Rattle.row_board.specs.declared.piece.Piece.TheVariants.{Job};

use crate::knowledge::Knowledge;
use crate::piece::Piece;
use crate::plays::{Claim, Halve, InOrder, LayDown, Lose, Merge, PickUp, Publish, Take, Terms};
use crate::row::Row;
use atomic_table::{Seat, Table};
use h265_model::NoMemory;
use row_core::{Contexts, RowJob};
use std::alloc::Global;
use std::marker::Model;
use std::snapshot::Snapshot;
use std::sync::Wait;

/// A worker's place at a board. Contracts see its board and what it knows.
#[derive(Drop)]
pub struct RowSeat<J> {
    seat: Seat<Piece<J>, Knowledge>,
}

impl<J> Model for RowSeat<J> {
    ghost use Rattle.row_board.specs.Standing.{Standing, standing, IsSeated};

    ghost Value = { Standing };

    ghost view = { λ s. standing s.seat.table_id s.seat.me.0 };

    ghost invariant = { λ s. IsSeated s.seat.table_id s.seat.me };
}

/// The rows of a picture, each with its job until it is claimed, and with its contexts from when it is published until the row
/// below takes them.
#[derive(Drop)]
pub struct Board<J: RowJob> {
    table: Table<Piece<J>, Knowledge, Terms<J>, InOrder, Global>,
}

impl<J: RowJob> Model for Board<J> {
    ghost use Rattle.std.specs.Prelude.{◌≡◌, ◌+◌, ◌^◌, ◌<◌};
    ghost use Rattle.atomic_table.specs.Seated.{TableId, table_id_coded};

    ghost Value = { TableId };

    ghost coded = { table_id_coded };

    ghost view = { λ t. t.table.shared.table_id };

    ghost invariant = { λ t. (t.table.shared.table_id.words ≡ t.table.shared.table_id.slots + 1) × (t.table.shared.table_id.slots < 2 ^ 32) };
}

/// The row above shows no contexts. `word` is its word, as it was found.
#[derive(Clone, Copy, Debug, PartialEq, Eq)]
pub enum SyncError {
    /// It wasn't published yet: the word is 0.
    NotYet { word: u64 },
    /// It was lost: the word is 3.
    Lost { word: u64 },
}

// Each job in its slot.
fn lay_out<J: Drop>(alloc: Global, jobs: Vec<J>) -> Result<Vec<Piece<J>>, NoMemory>
    ensures { IfOk result (λ v. v.items ≡ map Job jobs.items) }
{
    let mut slots = Vec::with_capacity(alloc, jobs.len())?;
    for job in jobs {
        slots.push(Piece::Job(job))?;
    }
    Ok(slots)
}

impl<J: RowJob> Board<J> {
    /// Makes a board with a row for each job, and its first seat.
    ///
    /// The jobs are those of a picture's rows from the top, of which there is at least one; they have one width, and none was
    /// begun.
    ///
    /// # Errors
    ///
    /// `NoMemory` gives the jobs up.
    pub fn new(alloc: Global, jobs: Vec<J>) -> Result<(Board<J>, RowSeat<J>), NoMemory>
        requires some { 0 < length jobs.items }
        requires few { length jobs.items < 2 ^ 32 }
        requires fresh { All (λ job. J.begun job ≡ false) jobs.items }
        requires widths { (width : ℕ) × HaveWidth width (map J.plan jobs.items) }
        ensures board { IfOk result (λ b. b.1.table ≡ b.0) }
        ensures knows { IfOk result (λ b. b.1.knows ≡ opening_view (map J.plan jobs.items)) }
    {
        let terms = Terms {
            jobs: Snapshot::of(&jobs),
        };
        let words = Vec::from_elem(alloc, 0u64, jobs.len() + 1)?;
        let slots = lay_out(alloc, jobs)?;
        let Ok((table, seat)) = Table::new(alloc, words.as_slice(), slots, &terms) else {
            return Err(NoMemory);
        };
        Ok((Board { table }, RowSeat { seat }))
    }

    /// Claims the next row, and gives it with its job; or gives nothing, where all rows were claimed.
    pub fn claim(&self, seat: &mut RowSeat<J>) -> Option<(Row, J)>
        requires board { seat.old.table ≡ self.now }
        requires goes_on { seat.old.knows.met_none ≡ false }
        ensures board { seat.new.table ≡ seat.old.table }
        ensures inside { IfSome result (λ r. r.0 < length seat.old.knows.want) }
        ensures claimed { IfSome result (λ r. seat.new.knows ≡ has_claimed seat.old.knows r.0) }
        ensures fits { IfSome result (λ r. job_fits J.plan J.begun seat.old.knows.width seat.old.knows.want seat.old.knows.give r.0 r.1) }
        ensures none { IfNone result (HasMetNone seat.old.knows seat.new.knows) }
    {
        let shared = &self.table.shared;
        let old = shared.fetch_add::<Claim>(&mut seat.seat, 0, 1);
        if old >= self.table.slot_count() as u64 {
            return None;
        }
        let piece = shared.exchange(&mut seat.seat, old as usize, Piece::Nothing);
        shared.load::<LayDown>(&mut seat.seat, 0);
        let Piece::Job(job) = piece else {
            unreachable!()
        };
        Some((Row::new(old as u32), job))
    }

    /// Shows the contexts of a row to the row below: those after its second unit. Wakes the worker that waits for them.
    pub fn publish(&self, seat: &mut RowSeat<J>, row: &Row, contexts: Contexts)
        requires board { seat.old.table ≡ self.now }
        requires mine { HasOpen seat.old.knows row.now }
        requires wide { 2 ≤ seat.old.knows.width }
        requires contexts { contexts ≡ wanted seat.old.knows.want row.now }
        requires synced { IsSynced seat.old.knows row.now }
        ensures board { seat.new.table ≡ seat.old.table }
        ensures shown { seat.new.knows ≡ has_published seat.old.knows row.now }
    {
        let shared = &self.table.shared;
        let slot = row.number() as usize;
        shared.load::<PickUp>(&mut seat.seat, slot + 1);
        shared.exchange(&mut seat.seat, slot, Piece::Shown(contexts));
        shared.store::<Publish>(&mut seat.seat, slot + 1, 1);
        shared.wake_one(slot + 1);
    }

    /// Says that a row will show no contexts. Wakes the worker that waits for them.
    pub fn lose(&self, seat: &mut RowSeat<J>, row: &Row)
        requires board { seat.old.table ≡ self.now }
        requires mine { HasOpen seat.old.knows row.now }
        ensures board { seat.new.table ≡ seat.old.table }
        ensures lost { seat.new.knows ≡ has_lost seat.old.knows row.now }
    {
        let shared = &self.table.shared;
        let slot = row.number() as usize;
        shared.store::<Lose>(&mut seat.seat, slot + 1, 3);
        shared.wake_one(slot + 1);
    }

    /// Takes the contexts that the row above shows.
    ///
    /// # Errors
    ///
    /// `NotYet` where the row above wasn't published yet, and `Lost` where it was lost.
    pub fn try_sync(&self, seat: &mut RowSeat<J>, row: &Row) -> Result<Contexts, SyncError>
        requires board { seat.old.table ≡ self.now }
        requires below { 0 < row.now }
        requires mine { HasUnsynced seat.old.knows row.now }
        ensures board { seat.new.table ≡ seat.old.table }
        ensures contexts { IfOk result (λ contexts. contexts ≡ wanted seat.old.knows.want (row.now - 1)) }
        ensures synced { OnOk result (seat.new.knows ≡ has_synced seat.old.knows row.now) }
        ensures missed { IfErr result (SyncMissed seat.old.knows row.now seat.new.knows) }
    {
        let shared = &self.table.shared;
        let place = row.number() as usize;
        let found = shared.compare_exchange::<Take>(&mut seat.seat, place, 1, 2);
        if found == 0 {
            return Err(SyncError::NotYet { word: found });
        }
        if found == 3 {
            return Err(SyncError::Lost { word: found });
        }
        let piece = shared.exchange(&mut seat.seat, place - 1, Piece::Nothing);
        shared.load::<LayDown>(&mut seat.seat, 0);
        let Piece::Shown(contexts) = piece else {
            unreachable!()
        };
        Ok(contexts)
    }

    /// Sleeps while the word of the row above is 0: until `publish` or `lose` of that row wakes it. It may also return for no reason.
    ///
    /// It changes nothing, and tells nothing: `try_sync` does. The seat stands here for the contract alone: what it claimed is a row of this board.
    pub fn wait_above(&self, rt: &impl Wait, seat: &RowSeat<J>, row: &Row)
        requires board { seat.now.table ≡ self.now }
        requires below { 0 < row.now }
        requires mine { HasUnsynced seat.now.knows row.now }
    {
        let _held = &seat.seat;
        self.table.shared.park(rt, row.number() as usize, 0);
    }

    /// Makes two seats of one: the first keeps what it claimed, the second has claimed nothing.
    pub fn split(&self, seat: RowSeat<J>) -> (RowSeat<J>, RowSeat<J>)
        requires board { seat.table ≡ self.now }
        requires weight { 2 ≤ seat.knows.weight }
        ensures board { (result.0.table ≡ seat.table) × (result.1.table ≡ seat.table) }
        ensures first { result.0.knows ≡ lighter seat.knows }
        ensures second { result.1.knows ≡ newcomer seat.knows }
    {
        let RowSeat { mut seat } = seat;
        let other = self.table.shared.split_seat::<Halve>(&mut seat);
        (RowSeat { seat }, RowSeat { seat: other })
    }

    /// Makes one seat of two.
    pub fn join(&self, one: RowSeat<J>, other: RowSeat<J>) -> RowSeat<J>
        requires board { (one.table ≡ self.now) × (other.table ≡ self.now) }
        ensures board { result.table ≡ one.table }
        ensures joined { result.knows ≡ merged one.knows other.knows }
    {
        let RowSeat { mut seat } = one;
        let RowSeat { seat: other } = other;
        self.table.shared.join_seat::<Merge>(&mut seat, other);
        RowSeat { seat }
    }

    /// Gives the board up, by the seat into which all others were joined.
    pub fn close(self, seat: RowSeat<J>)
        requires board { seat.table ≡ self }
        requires whole { seat.knows.weight ≡ 2 ^ 32 }
        ensures all { seat.knows.met_none ≡ true → AllClaimed seat.knows }
    {
        let Board { table } = self;
        let RowSeat { seat } = seat;
        let mut closed = table.close_with(seat);
        let mut i = 0;
        while i < closed.slot_count() {
            drop(closed.take(i));
            i += 1;
        }
        closed.free();
    }
}
