//! Boards of rows of two units, whose contexts take one step each.
ghost use Rattle.std.specs.Prelude.{◌≡◌, ◌≤◌, ◌<◌, ◌-◌, ◌^◌, [], true, false, IfOk, IfSome, Some, None, if◌then◌else◌};
ghost use Rattle.std.specs.Option.{option_map_or};
ghost use Rattle.h265_model.specs.Contexts.{start, step};
ghost use Rattle.h265_model.specs.declared.leaf.SliceKind.TheVariants.{I};
ghost use Rattle.h265_model.proofs.ContextLaws.{inherited_are, step_is};
ghost use Rattle.row_board.specs.Rows.{job_fits, claim_of, opened, wanted, change, in_sync};
ghost use Rattle.row_board.specs.Standing.{HasUnsynced, IsSame};

use crate::{Board, Contexts, NoMemory, Row, RowJob, RowSeat, SyncError};
use h265_model::SliceKind;
use std::alloc::Global;
use std::sync::Wait;
use std::test::Fail;
use std::thread;

// A job of a row of two units that hands on its contexts after a step of the first.
#[derive(Drop)]
struct Steps {
    alloc: Global,
    number: u32,
    begun: bool,
    // Whether it inherited contexts, and then these.
    inherits: bool,
    inherited: Contexts,
    coded: u32,
}

impl RowJob for Steps {
    ghost plan = { λ j. record {
      width = 2;
      second = λ inherited. step (option_map_or (λ contexts. contexts) inherited (start I)) 0 true;
      bytes = λ inherited. [];
    } };

    ghost begun = { λ j. j.begun };

    ghost inherits = { λ j. if j.inherits then Some j.inherited else None };

    ghost coded = { λ j. j.coded };

    fn width(&self) -> u32 {
        2
    }

    fn begin(&mut self, inherited: Option<Contexts>) {
        self.begun = true;
        self.coded = 0;
        self.inherits = false;
        if let Some(contexts) = inherited {
            self.inherits = true;
            self.inherited = contexts;
        }
    }

    fn code_next(&mut self) -> Result<(), NoMemory> {
        self.coded += 1;
        Ok(())
    }

    fn contexts(&self) -> Contexts {
        let mut contexts = if self.inherits {
            self.inherited
        } else {
            Contexts::start(SliceKind::I)
        };
        contexts.step(0, true);
        contexts
    }

    fn finish(self) -> Result<Vec<u8>, NoMemory> {
        Ok(Vec::new(self.alloc))
    }

    ghost hands_on = { λ j inherited are. step_is _ 0 true (inherited_are I inherited are) };
}

// A job that wasn't begun.
fn job(alloc: Global, number: u32) -> Steps
    ensures { result.begun ≡ false }
{
    Steps {
        alloc,
        number,
        begun: false,
        inherits: false,
        inherited: Contexts::start(SliceKind::P),
        coded: 0,
    }
}

// A board of two rows, and its first seat.
fn two_rows(alloc: Global) -> Result<(Board<Steps>, RowSeat<Steps>), NoMemory>
    ensures board { IfOk result (λ b. b.1.table ≡ b.0) }
    ensures width { IfOk result (λ b. b.1.knows.width ≡ 2) }
    ensures rows { IfOk result (λ b. b.1.knows.rows ≡ []) }
    ensures goes_on { IfOk result (λ b. b.1.knows.met_none ≡ false) }
    ensures whole { IfOk result (λ b. b.1.knows.weight ≡ 2 ^ 32) }
{
    let mut jobs = Vec::new(alloc);
    jobs.push(job(alloc, 0))?;
    jobs.push(job(alloc, 1))?;
    Board::new(alloc, jobs)
}

// Codes the first two units of a row.
fn code_two<J: RowJob>(job: J, inherited: Option<Contexts>) -> Result<Contexts, NoMemory>
    requires fresh { J.begun job ≡ false }
    requires wide { 2 ≤ (J.plan job).width }
    ensures { IfOk result (λ contexts. contexts ≡ (J.plan job).second inherited) }
{
    let mut job = job;
    job.begin(inherited);
    job.code_next()?;
    job.code_next()?;
    Ok(job.contexts())
}

// Waits until the row above shows its contexts, and takes them; or gives nothing where it is lost.
fn wait_for_above<J: RowJob>(
    rt: &impl Wait,
    board: &Board<J>,
    seat: &mut RowSeat<J>,
    row: &Row,
) -> Option<Contexts>
    requires board { seat.old.table ≡ board.now }
    requires below { 0 < row.now }
    requires mine { HasUnsynced seat.old.knows row.now }
    ensures board { seat.new.table ≡ seat.old.table }
    ensures same { IsSame seat.old.knows seat.new.knows }
    ensures some { IfSome result (λ x. (x ≡ wanted seat.old.knows.want (row.now - 1)) × (seat.new.knows.rows ≡ change row.now in_sync seat.old.knows.rows)) }
{
    for _ in rt.forever() {
        match board.try_sync(seat, row) {
            Ok(contexts) => return Some(contexts),
            Err(SyncError::Lost { word: _ }) => return None,
            Err(SyncError::NotYet { word: _ }) => board.wait_above(rt, seat, row),
        }
    }
    unreachable!()
}

// Takes the contexts of the row above, where there is one, codes two units, and shows the contexts of this row.
fn pass_on<J: RowJob>(
    rt: &impl Wait,
    board: &Board<J>,
    seat: &mut RowSeat<J>,
    row: &Row,
    job: J,
) -> Option<Contexts>
    requires board { seat.old.table ≡ board.now }
    requires wide { seat.old.knows.width ≡ 2 }
    requires mine { claim_of row.now seat.old.knows.rows ≡ Some (opened row.now) }
    requires fits { job_fits J.plan J.begun seat.old.knows.width seat.old.knows.want seat.old.knows.give row.now job }
    ensures board { seat.new.table ≡ seat.old.table }
    ensures same { IsSame seat.old.knows seat.new.knows }
{
    let inherited = if row.number() == 0 {
        None
    } else {
        Some(wait_for_above(rt, board, seat, row)?)
    };
    let contexts = code_two(job, inherited).ok()?;
    board.publish(seat, row, contexts);
    Some(contexts)
}

// What a worker did: the sum of the first bytes of the contexts that it showed.
#[derive(Drop)]
struct Worked<J> {
    seat: RowSeat<J>,
    sum: u32,
}

// Claims rows and passes contexts on until no row is left.
fn work<J: RowJob>(rt: &impl Wait, board: &Board<J>, seat: RowSeat<J>) -> Worked<J>
    requires board { seat.table ≡ board.now }
    requires wide { seat.knows.width ≡ 2 }
    requires goes_on { seat.knows.met_none ≡ false }
    ensures board { result.seat.table ≡ board.now }
    ensures share { result.seat.knows.weight ≡ seat.knows.weight }
{
    let mut seat = seat;
    let mut sum = 0u32;
    for _ in 0..3 {
        let Some((row, job)) = board.claim(&mut seat) else {
            break;
        };
        let Some(contexts) = pass_on(rt, board, &mut seat, &row, job) else {
            break;
        };
        sum = sum.saturating_add(contexts.get(0) as u32);
    }
    Worked { seat, sum }
}

#[test]
fn contexts_go_from_row_to_row(rt: HostRuntime) -> Result<(), Fail> {
    let Ok((board, mut seat)) = two_rows(rt.alloc()) else {
        panic!(rt; "no memory")
    };
    let Some((first, job)) = board.claim(&mut seat) else {
        panic!(rt; "two rows")
    };
    let Some((second, next_job)) = board.claim(&mut seat) else {
        panic!(rt; "two rows")
    };
    assert!(rt; first.number() == 0);
    assert!(rt; second.number() == 1);
    assert!(rt; job.number == 0 && next_job.number == 1);
    let Err(missed) = board.try_sync(&mut seat, &second) else {
        panic!(rt; "nothing was shown")
    };
    assert_eq!(rt; missed, SyncError::NotYet { word: 0 });
    let shown = code_two(job, None)?;
    board.publish(&mut seat, &first, shown);
    let Ok(taken) = board.try_sync(&mut seat, &second) else {
        panic!(rt; "contexts were shown")
    };
    assert_eq!(rt; taken.as_slice(), shown.as_slice());
    assert!(rt; taken.get(0) == 3);
    assert!(rt; board.claim(&mut seat).is_none());
    board.close(seat);
    Ok(())
}

#[test]
fn a_lost_row_shows_no_contexts(rt: HostRuntime) -> Result<(), Fail> {
    let Ok((board, mut seat)) = two_rows(rt.alloc()) else {
        panic!(rt; "no memory")
    };
    let Some((first, _)) = board.claim(&mut seat) else {
        panic!(rt; "two rows")
    };
    let Some((second, _)) = board.claim(&mut seat) else {
        panic!(rt; "two rows")
    };
    assert!(rt; first.number() == 0);
    assert!(rt; second.number() == 1);
    board.lose(&mut seat, &first);
    let Err(missed) = board.try_sync(&mut seat, &second) else {
        panic!(rt; "the row above was lost")
    };
    assert_eq!(rt; missed, SyncError::Lost { word: 3 });
    Ok(())
}

#[test]
fn two_threads_pass_contexts_on(rt: HostRuntime) -> Result<(), Fail> {
    let Ok((board, seat)) = two_rows(rt.alloc()) else {
        panic!(rt; "no memory")
    };
    let (first, second) = board.split(seat);
    let (first, second) = thread::join(
        &rt,
        || work(&rt, &board, first),
        || work(&rt, &board, second),
    );
    assert!(rt; first.sum.saturating_add(second.sum) == 3 + 5);
    let whole = board.join(first.seat, second.seat);
    board.close(whole);
    Ok(())
}
