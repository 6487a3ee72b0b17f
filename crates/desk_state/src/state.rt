//! A desk's state.
ghost use Rattle.std.specs.Prelude.{◌≡◌, ◌<◌, ◌^◌, ◌-◌, ◌↔◌, [], true, false, length, IfOk, IfSome, OnErr, IsSome, MatchOption};
ghost use Rattle.recorder_model.specs.declared.entry.Entry.TheVariants as entry;
ghost use Rattle.recorder_model.specs.Script.{is_cut};
ghost use Rattle.recorder_model.specs.Histories.{IsLawful, cuts, takes};
ghost use Rattle.desk_state.specs.Standing.{most_entries, IsNext, next_line, with_entry, HasTaken};

use crate::replay::Replay;
use desk_surface::{Job, NoMemory, Size};
use paint_script::Scripts;
use recorder_model::{Entry, Told};
use std::alloc::Global;
use std::marker::Model;

/// A desk: its clients' scripts, what it accepted of them and in which order, what that painted, and the jobs of the cuts
/// that weren't taken.
///
/// Contracts see its setting, its history and its mark. What is painted and which jobs wait is the replay of the history.
#[derive(Debug, Drop)]
pub struct DeskState {
    scripts: Scripts,
    history: Vec<Entry>,
    replay: Replay,
    lost: bool,
}

impl Model for DeskState {
    ghost use Rattle.recorder_model.specs.Turn.{State};

    ghost Value = { State };

    ghost use Rattle.desk_state.specs.Inside.{state_of, IsDesk};

    ghost view = { state_of };

    ghost invariant = { IsDesk };
}

impl Told for DeskState {
    ghost setting = { λ s. s.setting };

    ghost history = { λ s. s.history };

    ghost mark = { λ s. s.mark };
}

// The most entries that a history of these scripts has.
fn room_for(scripts: &Scripts) -> u32
    requires { most_entries scripts.now < 2 ^ 32 - 1 }
    ensures { result ≡ most_entries scripts.now }
{
    let mut entries = 0;
    for client in 0..scripts.count() {
        let script = scripts.script(client).unwrap();
        entries += script.lines() + script.cuts();
    }
    entries
}

impl DeskState {
    /// A desk that accepted nothing. It takes room for all entries that can come.
    ///
    /// # Errors
    ///
    /// `NoMemory` where the allocator refuses. The scripts are then given up.
    pub fn new(alloc: Global, size: Size, scripts: Scripts) -> Result<DeskState, NoMemory>
        requires few { most_entries scripts < 2 ^ 32 - 1 }
        ensures setting { IfOk result (λ s. s.setting ≡ record { size = size; scripts = scripts }) }
        ensures nothing { IfOk result (λ s. s.history ≡ []) }
        ensures unmarked { IfOk result (λ s. s.mark ≡ false) }
    {
        let history = Vec::with_capacity(alloc, room_for(&scripts) as usize)?;
        let replay = Replay::new(alloc, size)?;
        Ok(DeskState {
            scripts,
            history,
            replay,
            lost: false,
        })
    }

    /// Accepts the client's next line, and answers its entry. A line that paints is painted, and a cut leaves a job.
    ///
    /// # Errors
    ///
    /// `NoMemory` where the allocator refuses the job of a cut. The state is then as it was.
    pub fn play_line(&mut self, client: u32, index: u32) -> Result<Entry, NoMemory>
        requires next { IsNext self.old client index }
        ensures entry { IfOk result (λ e. e ≡ entry.Line client index) }
        ensures added { IfOk result (λ e. self.new ≡ with_entry self.old e) }
        ensures lawful { IsLawful self.new.setting.scripts self.new.history }
        ensures few { length self.old.history < 2 ^ 32 - 1 }
        ensures refused { OnErr result (self.new ≡ self.old) }
        ensures cuts { OnErr result (is_cut (next_line self.old client index) ≡ true) }
    {
        let script = self.scripts.script(client).unwrap();
        let _lines = script.lines();
        self.replay.accept(script.line(index).unwrap())?;
        let entry = Entry::Line { client, index };
        self.history.push_reserved(entry);
        Ok(entry)
    }

    /// Takes the first cut picture that wasn't taken: its job, with the entry of the taking. `None` exactly where each cut was
    /// taken. Takes no memory.
    pub fn take_job(&mut self) -> Option<(Entry, Job)>
        ensures waits { IsSome result ↔ (takes self.old.history < cuts self.old.setting.scripts self.old.history) }
        ensures taken { IfSome result (λ r. HasTaken self.old r.0 r.1 self.new) }
        ensures lawful { IsLawful self.new.setting.scripts self.new.history }
        ensures few { length self.old.history < 2 ^ 32 - 1 }
        ensures none { MatchOption result (self.new ≡ self.old) (λ r. Unit {0}) }
    {
        let job = self.replay.jobs.pop_front()?;
        let entry = Entry::Take { number: job.number };
        self.history.push_reserved(entry);
        Some((entry, job))
    }

    /// Marks the desk as lost: a client ended before its script did.
    pub fn mark_lost(&mut self)
        ensures { self.new ≡ record self.old { mark = true } }
    {
        self.lost = true;
    }

    /// Whether the desk was marked as lost.
    pub fn is_lost(&self) -> bool
        ensures { result ≡ self.now.mark }
    {
        self.lost
    }

    /// How many entries were accepted.
    pub fn entries(&self) -> u32
        ensures { result ≡ length self.now.history }
    {
        self.history.len() as u32
    }

    /// The history, in order. It gives up the rest.
    pub fn into_history(self) -> Vec<Entry>
        ensures history { result.items ≡ self.history }
        ensures lawful { IsLawful self.setting.scripts self.history }
    {
        self.history
    }
}

fn is_send<T: Send>() {}

/// A desk's state may go to another thread.
pub fn each_state_can_be_sent() {
    is_send::<DeskState>();
}
