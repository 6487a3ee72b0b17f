//! The desk that threads share.
ghost use Rattle.std.specs.Prelude.{◌≡◌, ◌<◌, ◌≤◌, ◌-◌, ◌*◌, ◌^◌, true, IfOk, IfErr};
ghost use Rattle.turn_lock.specs.Turns.{lighter, noted};
ghost use Rattle.desk_state.specs.Standing.{most_entries};
ghost use Rattle.live_desk.specs.Passes.{IsNoteOf};
ghost use Rattle.live_desk.specs.Desks.{IsOpened, HasPlayed, HasMarked, HasHeard, HasFolded, HasClosed};
ghost use Rattle.live_desk.specs.Answers.{IsRefused, IsTryRefused, HasAnswered};

use crate::answers::{Accepted, PlayError, Taken, TryPlayError};
use crate::opening::{hand_out, lengths_of};
use crate::passes::{ClientPass, RecorderPass};
use crate::turns::{accept_line, mark_one, take_one};
use desk_state::DeskState;
use h265_model::NoMemory;
use paint_script::Scripts;
use px_plane::Size;
use recorder_model::Entry;
use std::alloc::Global;
use std::marker::Model;
use std::sync::Wait;
use turn_lock::Turn;

/// What a client has seen, to be told to another.
pub type Note = turn_lock::Note<DeskState>;

/// A desk: clients' passes play their scripts, and the recorder's pass takes the cut pictures.
#[derive(Drop)]
pub struct Desk {
    turn: Turn<DeskState>,
}

impl Model for Desk {
    ghost use Rattle.atomic_table.specs.Seated.{TableId, table_id_coded};

    ghost Value = { TableId };

    ghost coded = { table_id_coded };

    ghost view = { λ d. d.turn };
}

impl Desk {
    /// Makes a desk on which nothing was played, with a pass for each script, in order, and one for the recorder.
    ///
    /// # Errors
    ///
    /// `NoMemory` where the allocator refuses. The scripts are then given up.
    pub fn new(
        alloc: Global,
        size: Size,
        scripts: Scripts,
    ) -> Result<(Desk, Vec<ClientPass>, RecorderPass), NoMemory>
        requires few { most_entries scripts < 2 ^ 32 - 1 }
        ensures { IfOk result (λ r. IsOpened (record { size = size; scripts = scripts }) r.0 r.1.items r.2) }
    {
        let lengths = lengths_of(alloc, &scripts)?;
        let mut clients = Vec::with_capacity(alloc, lengths.len())?;
        let passes = scripts.count() + 1;
        let state = DeskState::new(alloc, size, scripts)?;
        let (turn, mut passes) = Turn::new(alloc, state, passes)?;
        let pass = passes.pop().unwrap();
        hand_out(passes, &lengths, &mut clients);
        Ok((Desk { turn }, clients, RecorderPass { pass }))
    }

    /// Plays the client's next line, when the turn is free.
    ///
    /// # Errors
    ///
    /// `Done` exactly where the pass has played all its lines; no word is touched then. `NoMemory` for a cut alone: the history
    /// has no new entry, and the pass is stopped.
    pub fn play(&self, rt: &impl Wait, pass: &mut ClientPass) -> Result<Accepted, PlayError>
        requires desk { pass.old.table ≡ self.now }
        ensures played { IfOk result (λ a. HasPlayed pass.old pass.new a.at) }
        ensures refused { IfErr result (IsRefused pass.old pass.new) }
    {
        if pass.next >= pass.lines {
            return Err(PlayError::Done);
        }
        let state = self.turn.enter(rt, &mut pass.pass);
        match accept_line(&self.turn, &mut pass.pass, state, pass.client, pass.next) {
            Ok(at) => {
                pass.next += 1;
                pass.stopped = false;
                Ok(Accepted { at })
            }
            Err(NoMemory) => {
                pass.stopped = true;
                Err(PlayError::NoMemory)
            }
        }
    }

    /// Plays the client's next line, if the turn is free.
    ///
    /// # Errors
    ///
    /// Those of `play`, and `Busy` where the turn wasn't free; it is looked for after `Done`.
    pub fn try_play(&self, pass: &mut ClientPass) -> Result<Accepted, TryPlayError>
        requires desk { pass.old.table ≡ self.now }
        ensures played { IfOk result (λ a. HasPlayed pass.old pass.new a.at) }
        ensures refused { IfErr result (IsTryRefused pass.old pass.new) }
    {
        if pass.next >= pass.lines {
            return Err(TryPlayError::Done);
        }
        let state = match self.turn.try_enter(&mut pass.pass) {
            Ok(state) => state,
            Err(busy) => {
                return Err(TryPlayError::Busy {
                    loaded: busy.loaded,
                    found: busy.found,
                });
            }
        };
        match accept_line(&self.turn, &mut pass.pass, state, pass.client, pass.next) {
            Ok(at) => {
                pass.next += 1;
                pass.stopped = false;
                Ok(Accepted { at })
            }
            Err(NoMemory) => {
                pass.stopped = true;
                Err(TryPlayError::NoMemory)
            }
        }
    }

    /// Marks the desk as lost: the client gives up before its script ends.
    pub fn mark_lost(&self, rt: &impl Wait, pass: &mut ClientPass)
        requires desk { pass.old.table ≡ self.now }
        requires stopped { pass.old.stopped ≡ true }
        ensures { HasMarked pass.old pass.new }
    {
        let state = self.turn.enter(rt, &mut pass.pass);
        mark_one(&self.turn, &mut pass.pass, state);
    }

    /// Takes the first cut picture that wasn't taken, or says that there is none at this turn.
    pub fn take(&self, rt: &impl Wait, pass: &mut RecorderPass) -> Taken
        requires desk { pass.old.table ≡ self.now }
        ensures { HasAnswered pass.old pass.new result }
    {
        let state: DeskState = self.turn.enter(rt, &mut pass.pass);
        take_one(&self.turn, &mut pass.pass, state)
    }

    /// Copies what the client has seen.
    pub fn note(&self, pass: &mut ClientPass) -> Note
        requires desk { pass.old.table ≡ self.now }
        requires weight { 2 ≤ pass.old.knows.weight }
        ensures pass { pass.new ≡ record pass.old { knows = lighter pass.old.knows } }
        ensures note { result.knows ≡ noted pass.old.knows }
        ensures desk { IsNoteOf self.now result }
    {
        self.turn.note(&mut pass.pass)
    }

    /// Adds what the note has seen.
    pub fn hear(&self, pass: &mut ClientPass, note: Note)
        requires desk { pass.old.table ≡ self.now }
        requires note { IsNoteOf self.now note }
        ensures { HasHeard pass.old note pass.new }
    {
        self.turn.hear(&mut pass.pass, note);
    }

    /// Folds a client's pass into the recorder's.
    pub fn fold(&self, recorder: RecorderPass, client: ClientPass) -> RecorderPass
        requires desk { (recorder.table ≡ self.now) × (client.table ≡ self.now) }
        ensures { HasFolded recorder client result }
    {
        let RecorderPass { pass } = recorder;
        let ClientPass { pass: other, .. } = client;
        RecorderPass {
            pass: self.turn.join(pass, other),
        }
    }

    /// Gives the history up, to the recorder's pass into which each client's was folded, where each note was heard.
    pub fn close(self, recorder: RecorderPass) -> Vec<Entry>
        requires desk { recorder.table ≡ self }
        requires whole { recorder.knows.weight ≡ 2 ^ 32 * recorder.knows.passes }
        ensures { HasClosed recorder result.items }
    {
        let Desk { turn } = self;
        let RecorderPass { pass } = recorder;
        turn.close(pass).into_history()
    }
}

fn is_send<T: Send>() {}

fn is_sync<T: Sync>() {}

/// Threads can share a desk, and passes and notes may go to another thread.
pub fn each_desk_can_be_shared() {
    is_sync::<Desk>();
    is_send::<Desk>();
    is_send::<ClientPass>();
    is_send::<RecorderPass>();
    is_send::<Note>();
}
