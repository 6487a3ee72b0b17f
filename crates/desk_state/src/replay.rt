// The surface and the jobs that a desk's lines leave.
ghost use Rattle.std.specs.Prelude.{◌≡◌, ◌<◌, ◌^◌, ◌-◌, [], true, IfOk, OnOk, OnErr};
ghost use Rattle.recorder_model.specs.Script.{is_cut};
ghost use Rattle.recorder_model.specs.declared.line.Line.TheVariants.{Cut};
ghost use Rattle.desk_surface.specs.Damage.{HasPixels};
ghost use Rattle.desk_state.specs.Accepting.{HasAccepted, IsAsBefore};
ghost use Rattle.desk_state.specs.Replays.{IsAfter};

use desk_surface::{Job, NoMemory, Size, Surface};
use recorder_model::Line;
use std::alloc::Global;
use std::collections::VecDeque;

// What was painted, the jobs that wait, in the order of their cuts, and how many cuts there were.
#[derive(Debug, Drop)]
pub(crate) struct Replay {
    pub(crate) surface: Surface,
    pub(crate) jobs: VecDeque<Job>,
    pub(crate) cuts: u32,
}

impl Replay {
    // After no lines.
    pub(crate) fn new(alloc: Global, size: Size) -> Result<Replay, NoMemory>
        ensures size { IfOk result (λ r. r.surface.shown.size ≡ size) }
        ensures nothing { IfOk result (λ r. IsAfter [] 0 r.surface r.jobs.items r.cuts) }
    {
        let surface = Surface::new(alloc, size)?;
        Ok(Replay {
            surface,
            jobs: VecDeque::new(alloc),
            cuts: 0,
        })
    }

    // Makes the job of a cut.
    fn cut(&mut self) -> Result<(), NoMemory>
        requires few { self.old.cuts < 2 ^ 32 - 1 }
        ensures size { self.new.surface.shown.size ≡ self.old.surface.shown.size }
        ensures accepted { OnOk result (HasAccepted Cut self.old self.new) }
        ensures refused { OnErr result (IsAsBefore self.old self.new) }
    {
        self.jobs.reserve(1)?;
        let job = self.surface.cut_job(self.cuts)?;
        self.jobs.push_back_reserved(job);
        self.cuts += 1;
        Ok(())
    }

    // Paints, or makes the job of a cut. `NoMemory` comes for a cut alone.
    pub(crate) fn accept(&mut self, line: &Line) -> Result<(), NoMemory>
        requires pixels { HasPixels line.now }
        requires few { self.old.cuts < 2 ^ 32 - 1 }
        ensures size { self.new.surface.shown.size ≡ self.old.surface.shown.size }
        ensures accepted { OnOk result (HasAccepted line.now self.old self.new) }
        ensures refused { OnErr result (IsAsBefore self.old self.new) }
        ensures cuts { OnErr result (is_cut line.now ≡ true) }
    {
        if let Line::Cut = line {
            return self.cut();
        }
        self.surface.apply(line);
        Ok(())
    }
}
