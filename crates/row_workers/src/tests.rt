//! Rows whose contexts take one step each.
ghost use Rattle.std.specs.Prelude.{◌≡◌, ◌≤◌, ◌+◌, [], ◌∷◌, true, false, get_or};
ghost use Rattle.std.specs.Option.{option_map_or};
ghost use Rattle.h265_model.specs.Contexts.{start, step};
ghost use Rattle.h265_model.specs.declared.leaf.SliceKind.TheVariants.{I};
ghost use Rattle.h265_model.proofs.ContextLaws.{inherited_are, step_is};

use crate::{Contexts, NoMemory, RowJob, rows_alone, run_rows};
use gate::{Gate, NoGate};
use h265_model::SliceKind;
use std::alloc::Global;
use std::hint;
use std::sync::Wait;
use std::sync::atomic::{AtomicU64, Ordering};
use std::test::Fail;
use std::thread::Threads;

// A job of a row that hands on its contexts after a step of the first, and has that context's state for its only byte.
#[derive(Drop)]
struct Steps {
    alloc: Global,
    // How many units it has, less 1.
    more: u8,
    // After how many units it finds no memory.
    stops: u32,
    begun: bool,
    inherited: Option<Contexts>,
    coded: u32,
}

impl RowJob for Steps {
    ghost plan = { λ j. record {
      width = j.more + 1;
      second = λ inherited. step (option_map_or (λ contexts. contexts) inherited (start I)) 0 true;
      bytes = λ inherited. get_or (option_map_or (λ contexts. contexts) inherited (start I)) 0 0 ∷ [];
    } };

    ghost begun = { λ j. j.begun };

    ghost inherits = { λ j. j.inherited };

    ghost coded = { λ j. j.coded };

    fn width(&self) -> u32 {
        self.more as u32 + 1
    }

    fn begin(&mut self, inherited: Option<Contexts>) {
        self.begun = true;
        self.inherited = inherited;
        self.coded = 0;
    }

    fn code_next(&mut self) -> Result<(), NoMemory> {
        if self.coded == self.stops {
            return Err(NoMemory);
        }
        self.coded += 1;
        Ok(())
    }

    fn contexts(&self) -> Contexts {
        let mut contexts = self.first();
        contexts.step(0, true);
        contexts
    }

    fn finish(self) -> Result<Vec<u8>, NoMemory> {
        Ok([self.first().get(0)].to_vec(self.alloc)?)
    }

    ghost hands_on = { λ j inherited are. step_is _ 0 true (inherited_are I inherited are) };
}

impl Steps {
    // The contexts that it begins with.
    fn first(&self) -> Contexts
        ensures { result ≡ option_map_or (λ contexts. contexts) self.now.inherited (start I) }
    {
        match self.inherited {
            Some(contexts) => contexts,
            None => Contexts::start(SliceKind::I),
        }
    }
}

// The units of each row, and the bytes of 3 rows. Context 0 starts with pStateIdx 0 and valMps 1 (9.3.2.2), and a bin 1 steps it to 1, 2 and so on.
const CASES: [(u8, [u8; 3]); 4] = [
    (1, [1, 1, 1]),
    (2, [1, 3, 5]),
    (3, [1, 3, 5]),
    (200, [1, 3, 5]),
];

// How long a gate holds a row, in turns.
const PATIENCE: u32 = 1_000_000_000;

// Holds row 0, once it showed its contexts, until row 1 took them.
#[derive(Drop)]
struct UntilTaken {
    taken: AtomicU64,
    gave_up: AtomicU64,
}

impl Gate for UntilTaken {
    fn line_played(&self, _client: u32, _index: u32) {}

    fn row_published(&self, row: u32) {
        if row > 0 {
            return;
        }
        for _ in 0..PATIENCE {
            if self.taken.load(Ordering::SeqCst) > 0 {
                return;
            }
            hint::spin_loop();
        }
        self.gave_up.store(1, Ordering::SeqCst);
    }

    fn row_taken(&self, row: u32) {
        if row == 1 {
            self.taken.store(1, Ordering::SeqCst);
        }
    }
}

// How many turns a gate dawdles: many more than a worker's pauses take.
const DAWDLE: u32 = 1_000_000;

// Dawdles where row 1 took its contexts, so that the worker of row 2 falls asleep.
#[derive(Drop)]
struct Slow;

impl Gate for Slow {
    fn line_played(&self, _client: u32, _index: u32) {}

    fn row_published(&self, _row: u32) {}

    fn row_taken(&self, row: u32) {
        if row != 1 {
            return;
        }
        for _ in 0..DAWDLE {
            hint::spin_loop();
        }
    }
}

// A job that wasn't begun, and what finds memory for so many units.
fn job(alloc: Global, more: u8, stops: u32, inherited: Option<Contexts>) -> Steps
    ensures more { result.more ≡ more }
    ensures fresh { result.begun ≡ false }
{
    Steps {
        alloc,
        more,
        stops,
        begun: false,
        inherited,
        coded: 0,
    }
}

// The bytes of three rows of so many units, and one more, on the caller's thread.
fn three_rows(alloc: Global, more: u8) -> Result<Vec<Vec<u8>>, NoMemory> {
    let mut jobs = Vec::new(alloc);
    jobs.push(job(alloc, more, u32::MAX, None))?;
    jobs.push(job(alloc, more, u32::MAX, None))?;
    jobs.push(job(alloc, more, u32::MAX, None))?;
    rows_alone(alloc, jobs)
}

// The same by so many workers; the second row finds memory for so many units.
fn three_rows_at_once<R: Threads + Wait + Sync, G: Gate + Sync>(
    rt: &R,
    alloc: Global,
    more: u8,
    stops: u32,
    workers: u32,
    gate: &G,
) -> Result<Vec<Vec<u8>>, NoMemory>
    requires { (1 ≤ workers) × (workers ≤ 64) }
{
    let mut jobs = Vec::new(alloc);
    jobs.push(job(alloc, more, u32::MAX, None))?;
    jobs.push(job(alloc, more, stops, None))?;
    jobs.push(job(alloc, more, u32::MAX, None))?;
    run_rows(rt, alloc, jobs, workers, gate)
}

#[test]
fn hands_on_contexts_after_the_second_unit(rt: HostRuntime) -> Result<(), Fail> {
    for (width, want) in CASES {
        assert!(rt; width > 0);
        let rows = three_rows(rt.alloc(), width - 1)?;
        assert_eq!(rt; rows.len(), 3);
        for i in 0..3 {
            assert_eq!(rt; rows[i].as_slice(), &want[i..i + 1]);
        }
    }
    Ok(())
}

#[test]
fn workers_give_the_same_rows(rt: HostRuntime) -> Result<(), Fail> {
    for (width, want) in CASES {
        assert!(rt; width > 0);
        for workers in [1u32, 2, 64] {
            assert!(rt; workers >= 1 && workers <= 64);
            let rows = three_rows_at_once(&rt, rt.alloc(), width - 1, u32::MAX, workers, &NoGate)?;
            assert_eq!(rt; rows.len(), 3);
            for i in 0..3 {
                assert_eq!(rt; rows[i].as_slice(), &want[i..i + 1]);
            }
        }
    }
    Ok(())
}

#[test]
fn rows_run_beside_each_other(rt: HostRuntime) -> Result<(), Fail> {
    let gate = UntilTaken {
        taken: AtomicU64::new(0),
        gave_up: AtomicU64::new(0),
    };
    let rows = three_rows_at_once(&rt, rt.alloc(), 2, u32::MAX, 2, &gate)?;
    assert!(rt; gate.gave_up.load(Ordering::SeqCst) == 0);
    assert_eq!(rt; rows.len(), 3);
    assert_eq!(rt; rows[2].as_slice(), [5].as_slice());
    Ok(())
}

// A worker that fell asleep is woken by the row above, also where that one is lost.
#[test]
fn a_sleeper_is_woken(rt: HostRuntime) -> Result<(), Fail> {
    let rows = three_rows_at_once(&rt, rt.alloc(), 2, u32::MAX, 3, &Slow)?;
    assert_eq!(rt; rows.len(), 3);
    assert_eq!(rt; rows[2].as_slice(), [5].as_slice());
    let lost = three_rows_at_once(&rt, rt.alloc(), 2, 1, 3, &Slow);
    assert!(rt; lost.is_err());
    Ok(())
}

// A row without memory stops nobody for good: each row below it is given up too, or, where it showed its contexts, coded.
#[test]
fn a_row_without_memory_is_given_up(rt: HostRuntime) -> Result<(), Fail> {
    for stops in 0..4u32 {
        for workers in [1u32, 2, 64] {
            assert!(rt; workers >= 1 && workers <= 64);
            let rows = three_rows_at_once(&rt, rt.alloc(), 3, stops, workers, &NoGate);
            assert!(rt; rows.is_err());
        }
    }
    Ok(())
}
