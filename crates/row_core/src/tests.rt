//! Events of a wave, and a row's job.
ghost use Rattle.std.specs.Prelude.{◌≡◌, ◌+◌, false, IfOk};
ghost use Rattle.std.specs.Option.{option_map_or};
ghost use Rattle.h265_model.specs.Contexts.{start};
ghost use Rattle.h265_model.specs.declared.leaf.SliceKind.TheVariants.{I};
ghost use Rattle.h265_model.proofs.ContextLaws.{inherited_are};

use crate::{Contexts, NotLawful, RowEvent, RowJob, Wave};
use h265_model::{NoMemory, SliceKind};
use std::alloc::Global;
use std::test::Fail;

// Events of a wave, and whether each is lawful after those before it
type Case = (u32, u32, &'static [(RowEvent, bool)]);

use RowEvent::{Claim, Code, Finish, Lose, Publish, Sync};

const CASES: [Case; 9] = [
    // the row above hasn't handed on its contexts
    (
        2,
        2,
        &[
            (Claim(0), true),
            (Claim(1), true),
            (Sync(1), false),
            (Code(0), true),
            (Code(0), true),
            (Sync(1), false),
            (Publish(0), true),
            (Sync(1), true),
            (Sync(1), false),
            (Code(1), true),
        ],
    ),
    // a row that has to take contexts isn't coded before
    (
        2,
        2,
        &[
            (Claim(0), true),
            (Claim(1), true),
            (Code(1), false),
            (Sync(0), false),
        ],
    ),
    // rows are claimed in order, each once
    (
        3,
        1,
        &[
            (Claim(1), false),
            (Claim(0), true),
            (Claim(0), false),
            (Claim(2), false),
            (Claim(1), true),
            (Claim(2), true),
            (Claim(3), false),
        ],
    ),
    // contexts are handed on after exactly two units
    (
        1,
        3,
        &[
            (Claim(0), true),
            (Publish(0), false),
            (Code(0), true),
            (Publish(0), false),
            (Code(0), true),
            (Publish(0), true),
            (Publish(0), false),
            (Code(0), true),
            (Code(0), false),
            (Finish(0), true),
            (Finish(0), false),
        ],
    ),
    (
        1,
        3,
        &[
            (Claim(0), true),
            (Code(0), true),
            (Code(0), true),
            (Code(0), true),
            (Publish(0), false),
            (Finish(0), false),
        ],
    ),
    // a row of two units ends after it handed on its contexts
    (
        1,
        2,
        &[
            (Claim(0), true),
            (Code(0), true),
            (Finish(0), false),
            (Code(0), true),
            (Finish(0), false),
            (Publish(0), true),
            (Finish(0), true),
        ],
    ),
    // rows of one unit take and hand on nothing
    (
        2,
        1,
        &[
            (Claim(0), true),
            (Claim(1), true),
            (Sync(1), false),
            (Code(1), true),
            (Publish(1), false),
            (Finish(1), true),
            (Code(0), true),
            (Finish(0), true),
            (Lose(0), false),
        ],
    ),
    // a row is lost before it handed on its contexts
    (
        2,
        2,
        &[
            (Lose(0), false),
            (Claim(0), true),
            (Code(0), true),
            (Code(0), true),
            (Publish(0), true),
            (Lose(0), false),
            (Claim(1), true),
            (Lose(1), true),
            (Lose(1), false),
            (Sync(1), true),
            (Code(1), false),
        ],
    ),
    // rows past the last
    (
        1,
        2,
        &[
            (Code(1), false),
            (Sync(1), false),
            (Publish(1), false),
            (Finish(1), false),
            (Lose(1), false),
        ],
    ),
];

#[test]
fn events_are_lawful_or_not(rt: HostRuntime) -> Result<(), Fail> {
    for (rows, width, events) in CASES {
        assert!(rt; rows > 0 && width > 0);
        let mut wave = Wave::new(rt.alloc(), rows, width)?;
        for (event, lawful) in events {
            let want = if *lawful {
                Ok(())
            } else {
                Err(NotLawful { event: *event })
            };
            assert_eq!(rt; wave.apply(*event), want);
        }
    }
    Ok(())
}

// A job of a row that changes no context, and has the states of its contexts for bytes.
#[derive(Drop)]
struct Echo {
    alloc: Global,
    // How many units it has, less 1.
    more: u8,
    begun: bool,
    inherited: Option<Contexts>,
    coded: u32,
}

impl RowJob for Echo {
    ghost plan = { λ j. record {
      width = j.more + 1;
      second = λ inherited. option_map_or (λ contexts. contexts) inherited (start I);
      bytes = λ inherited. option_map_or (λ contexts. contexts) inherited (start I);
    } };

    ghost begun = { λ j. j.begun };

    ghost inherits = { λ j. j.inherited };

    ghost coded = { λ j. j.coded };

    fn width(&self) -> u32 {
        self.more as u32 + 1
    }

    fn begin(&mut self, inherited: Option<Contexts>) {
        self.begun = true;
        self.inherited = inherited;
        self.coded = 0;
    }

    fn code_next(&mut self) -> Result<(), NoMemory> {
        self.coded += 1;
        Ok(())
    }

    fn contexts(&self) -> Contexts {
        self.states()
    }

    fn finish(self) -> Result<Vec<u8>, NoMemory> {
        Ok(self.states().as_slice().to_vec(self.alloc)?)
    }

    ghost hands_on = { λ j inherited are. inherited_are I inherited are };
}

impl Echo {
    fn states(&self) -> Contexts
        ensures { result ≡ option_map_or (λ contexts. contexts) self.now.inherited (start I) }
    {
        match self.inherited {
            Some(contexts) => contexts,
            None => Contexts::start(SliceKind::I),
        }
    }
}

// Does all that a job is for, and keeps its contexts after the second unit, where it has two.
fn run_row<J: RowJob>(job: J, inherited: Option<Contexts>) -> Result<Vec<u8>, NoMemory>
    requires { J.begun job ≡ false }
    ensures { IfOk result (λ bytes. bytes.items ≡ (J.plan job).bytes inherited) }
{
    let mut job = job;
    let width = job.width();
    job.begin(inherited);
    for _ in 0..width {
        job.code_next()?;
    }
    job.finish()
}

#[test]
fn a_job_gives_its_bytes(rt: HostRuntime) -> Result<(), Fail> {
    let inherited = Contexts::start(SliceKind::P);
    let job = Echo {
        alloc: rt.alloc(),
        more: 2,
        begun: false,
        inherited: None,
        coded: 0,
    };
    let bytes = run_row(job, Some(inherited))?;
    assert_eq!(rt; bytes.as_slice(), inherited.as_slice());
    Ok(())
}

#[test]
fn errors_in_words(rt: HostRuntime) -> Result<(), Fail> {
    let error = NotLawful { event: Sync(1) };
    assert_eq!(rt;
        format!(in rt.alloc(); "{error}")?.as_str(),
        "not lawful: Sync(1)"
    );
    Ok(())
}
