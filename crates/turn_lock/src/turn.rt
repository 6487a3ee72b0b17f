ghost use Rattle.std.specs.Prelude.{◌≡◌, ◌+◌, ◌*◌, ◌^◌, ◌<◌, ◌≤◌, [], ◌∷◌, ◌++◌, ◌-◌, true, false, length, Some, vec_capacity, IfOk, IfErr};
ghost use Rattle.recorder_model.specs.Turn.{author};
ghost use Rattle.turn_lock.specs.Turns.{HasEntered, HasWaited, IsBusy, Owns, gives_back, gives_entry, lighter, noted, HasJoined, HasClosed, opening_view};
ghost use Rattle.turn_lock.specs.Standing.{IsHandedOut};

use crate::knowledge::Knowledge;
use crate::pass::{Note, Pass};
use crate::plays::{Add, Compare, Copy, HandOut, Look, Merge, OneHistory, Return, Take, Terms};
use atomic_table::{Seat, Table};
use crossbeam_utils::Backoff;
use h265_model::NoMemory;
use recorder_model::{Entry, Told};
use std::alloc::Global;
use std::marker::Model;
use std::snapshot::Snapshot;
use std::sync::Wait;

// How often a pass that has waited long yields the processor before it looks at the word again. Each look takes the word from the cache of the processor that
// has the turn, and each turn that goes to another processor takes the state there, too.
const YIELDS: u32 = 100;

// A pause between two tries: short at first.
fn pause(backoff: &Backoff) {
    backoff.snooze();
    if backoff.is_completed() {
        for _ in 0..YIELDS {
            backoff.snooze();
        }
    }
}

/// A state that one pass at a time takes out.
#[derive(Drop)]
pub struct Turn<S: Told> {
    table: Table<Option<S>, Knowledge, Terms<S>, OneHistory, Global>,
}

impl<S: Told> Model for Turn<S> {
    ghost use Rattle.std.specs.Prelude.{◌≡◌};
    ghost use Rattle.atomic_table.specs.Seated.{TableId, table_id_coded};

    ghost Value = { TableId };

    ghost coded = { table_id_coded };

    ghost view = { λ t. t.table.shared.table_id };

    ghost invariant = { λ t. (t.table.shared.table_id.words ≡ 1) × (t.table.shared.table_id.slots ≡ 1) };
}

/// The turn was not free. `loaded` is the word that was loaded, and `found` the last word that was found.
#[derive(Clone, Copy, Debug, PartialEq, Eq)]
pub struct Busy {
    pub loaded: u64,
    pub found: u64,
}

// Gives each pass its number and its share: the first number of `seat` to the first pass, and so on.
fn hand_out<S: Told>(
    table: &Table<Option<S>, Knowledge, Terms<S>, OneHistory, Global>,
    seat: Seat<Option<S>, Knowledge>,
    passes: u32,
    given: &mut Vec<Pass<S>>,
)
    requires table { (seat.table_id ≡ table.now.shared.table_id) × (table.now.shared.table_id.words ≡ 1) }
    requires seat { seat.me ≡ (opening_view seat.me.0.setting passes, []) }
    requires passes { (0 < passes) × (passes ≤ 65) }
    requires room { (given.old.items ≡ []) × (passes ≤ vec_capacity given.old) }
    ensures { IsHandedOut table.now.shared.table_id seat.me.0.setting passes passes given.new.items }
{
    let mut seat = seat;
    for _number in 1..passes {
        let next = table.shared.split_seat::<HandOut>(&mut seat);
        given.push_reserved(Pass {
            seat: next,
            word: 0,
        });
    }
    given.push_reserved(Pass { seat, word: 0 });
}

impl<S: Told + Drop> Turn<S> {
    /// Makes a turn, and its passes in the order of their numbers.
    pub fn new(alloc: Global, state: S, passes: u32) -> Result<(Turn<S>, Vec<Pass<S>>), NoMemory>
        requires passes { (0 < passes) × (passes ≤ 65) }
        requires fresh { (S.history state ≡ []) × (S.mark state ≡ false) }
        ensures { IfOk result (λ r. IsHandedOut r.0 (S.setting state) passes passes r.1.items) }
    {
        let Ok(mut given) = Vec::with_capacity(alloc, passes as usize) else {
            return Err(NoMemory);
        };
        let Ok(mut slots) = Vec::with_capacity(alloc, 1) else {
            return Err(NoMemory);
        };
        let terms = Terms {
            state: Snapshot::of(&state),
            passes,
        };
        slots.push_reserved(Some(state));
        let Ok((table, seat)) = Table::new(alloc, &[0], slots, &terms) else {
            return Err(NoMemory);
        };
        hand_out(&table, seat, passes, &mut given);
        Ok((Turn { table }, given))
    }

    /// Takes the turn, if it is free.
    pub fn try_enter(&self, pass: &mut Pass<S>) -> Result<S, Busy>
        requires turn { pass.old.table ≡ self.now }
        requires free { pass.old.knows.holds ≡ false }
        ensures turn { pass.new.table ≡ pass.old.table }
        ensures ok { IfOk result (λ x. HasEntered S.setting S.history S.mark pass.old.knows x pass.new.knows) }
        ensures busy { IfErr result (λ b. IsBusy pass.old.knows b.loaded b.found pass.new.knows) }
    {
        let shared = &self.table.shared;
        let loaded = shared.load::<Look>(&mut pass.seat, 0);
        if loaded % 2 == 1 {
            return Err(Busy {
                loaded,
                found: loaded,
            });
        }
        let found = shared.compare_exchange::<Take>(&mut pass.seat, 0, loaded, loaded + 1);
        if found != loaded {
            return Err(Busy { loaded, found });
        }
        pass.word = loaded + 1;
        Ok(shared.exchange(&mut pass.seat, 0, None).unwrap())
    }

    /// Waits for the turn.
    pub fn enter(&self, rt: &impl Wait, pass: &mut Pass<S>) -> S
        requires turn { pass.old.table ≡ self.now }
        requires free { pass.old.knows.holds ≡ false }
        ensures turn { pass.new.table ≡ pass.old.table }
        ensures entered { HasWaited S.setting S.history S.mark pass.old.knows result pass.new.knows }
    {
        let backoff = Backoff::new();
        for _ in rt.forever() {
            if let Ok(state) = self.try_enter(pass) {
                return state;
            }
            pause(&backoff);
        }
        unreachable!()
    }

    /// Gives the turn back with no new entry.
    pub fn leave(&self, pass: &mut Pass<S>, state: S)
        requires turn { pass.old.table ≡ self.now }
        requires holds { pass.old.knows.holds ≡ true }
        requires setting { S.setting state ≡ pass.old.knows.setting }
        requires history { S.history state ≡ pass.old.knows.base }
        requires mark { pass.old.knows.base_mark ≡ true → S.mark state ≡ true }
        ensures turn { pass.new.table ≡ pass.old.table }
        ensures left { pass.new.knows ≡ gives_back pass.old.knows pass.old.knows.base (S.mark state) }
    {
        let shared = &self.table.shared;
        shared.exchange(&mut pass.seat, 0, Some(state));
        shared.store::<Return>(&mut pass.seat, 0, pass.word - 1);
    }

    /// Gives the turn back with one entry more, by the pass's own author.
    pub fn leave_with_entry(&self, pass: &mut Pass<S>, state: S, entry: Entry)
        requires turn { pass.old.table ≡ self.now }
        requires holds { pass.old.knows.holds ≡ true }
        requires setting { S.setting state ≡ pass.old.knows.setting }
        requires history { S.history state ≡ pass.old.knows.base ++ entry ∷ [] }
        requires mark { pass.old.knows.base_mark ≡ true → S.mark state ≡ true }
        requires author { Owns pass.old.knows (author pass.old.knows.passes entry) }
        requires room { length pass.old.knows.base < 2 ^ 32 - 1 }
        ensures turn { pass.new.table ≡ pass.old.table }
        ensures left { pass.new.knows ≡ gives_entry pass.old.knows entry (S.mark state) }
    {
        let shared = &self.table.shared;
        shared.exchange(&mut pass.seat, 0, Some(state));
        shared.store::<Add>(&mut pass.seat, 0, pass.word + 1);
    }

    /// Copies what the pass has seen.
    pub fn note(&self, pass: &mut Pass<S>) -> Note<S>
        requires turn { pass.old.table ≡ self.now }
        requires weight { 2 ≤ pass.old.knows.weight }
        ensures turn { (pass.new.table ≡ pass.old.table) × (result.table ≡ pass.old.table) }
        ensures pass { pass.new.knows ≡ lighter pass.old.knows }
        ensures note { result.knows ≡ noted pass.old.knows }
    {
        let seat = self.table.shared.split_seat::<Copy>(&mut pass.seat);
        Note { seat }
    }

    /// Adds what the note has seen.
    pub fn hear(&self, pass: &mut Pass<S>, note: Note<S>)
        requires turn { (pass.old.table ≡ self.now) × (note.table ≡ self.now) }
        ensures turn { pass.new.table ≡ pass.old.table }
        ensures heard { HasJoined pass.old.knows note.knows pass.new.knows }
    {
        let Note { seat } = note;
        let shared = &self.table.shared;
        shared.join_seat::<Merge>(&mut pass.seat, seat);
        shared.load::<Compare>(&mut pass.seat, 0);
    }

    /// Makes one pass of two.
    pub fn join(&self, pass: Pass<S>, other: Pass<S>) -> Pass<S>
        requires turn { (pass.table ≡ self.now) × (other.table ≡ self.now) }
        requires free { (pass.knows.holds ≡ false) × (other.knows.holds ≡ false) }
        ensures turn { result.table ≡ pass.table }
        ensures joined { HasJoined pass.knows other.knows result.knows }
    {
        let Pass { mut seat, word } = pass;
        let Pass {
            seat: other_seat,
            word: _,
        } = other;
        let shared = &self.table.shared;
        shared.join_seat::<Merge>(&mut seat, other_seat);
        shared.load::<Compare>(&mut seat, 0);
        Pass { seat, word }
    }

    /// Hands out the state, to the pass into which all others were joined.
    pub fn close(self, pass: Pass<S>) -> S
        requires turn { pass.table ≡ self }
        requires free { pass.knows.holds ≡ false }
        requires whole { pass.knows.weight ≡ 2 ^ 32 * pass.knows.passes }
        ensures { HasClosed S.setting S.history S.mark pass.knows result }
    {
        let Turn { table } = self;
        let Pass { seat, word: _ } = pass;
        let mut closed = table.close_with(seat);
        let state = closed.take(0);
        closed.free();
        state.unwrap()
    }
}
