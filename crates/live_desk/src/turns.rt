// One turn of a pass that holds it: what it does with the state, and the turn given back.
ghost use Rattle.std.specs.Prelude.{◌≡◌, ◌+◌, ◌∷◌, ◌++◌, [], true, length, IfOk, OnErr};
ghost use Rattle.recorder_model.specs.declared.entry.Entry.TheVariants as entry;
ghost use Rattle.recorder_model.specs.Turn.{State};
ghost use Rattle.recorder_model.specs.Script.{is_cut};
ghost use Rattle.recorder_model.specs.Histories.{IsLawful};
ghost use Rattle.desk_state.specs.Standing.{IsNext, next_line};
ghost use Rattle.turn_lock.specs.Turns.{Owns, gives_back, gives_entry};
ghost use Rattle.live_desk.specs.Held.{IsHolder, IsTaker, HasGiven};

use crate::answers::Taken;
use desk_state::DeskState;
use h265_model::NoMemory;
use turn_lock::{Pass, Turn};

// Accepts a client's next line, and answers its place.
pub(crate) fn accept_line(
    turn: &Turn<DeskState>,
    pass: &mut Pass<DeskState>,
    state: DeskState,
    client: u32,
    index: u32,
) -> Result<u32, NoMemory>
    requires turn { IsHolder turn.now pass.old state }
    requires next { IsNext state client index }
    requires author { Owns pass.old.knows client }
    ensures turn { pass.new.table ≡ pass.old.table }
    ensures ok { IfOk result (λ at. pass.new.knows ≡ gives_entry pass.old.knows (entry.Line client index) state.mark) }
    ensures place { IfOk result (λ at. at ≡ length state.history) }
    ensures lawful { IfOk result (λ at. IsLawful state.setting.scripts (state.history ++ entry.Line client index ∷ [])) }
    ensures err { OnErr result (pass.new.knows ≡ gives_back pass.old.knows state.history state.mark) }
    ensures cut { OnErr result (is_cut (next_line state client index) ≡ true) }
{
    let mut state = state;
    let at = state.entries();
    match state.play_line(client, index) {
        Ok(entry) => {
            turn.leave_with_entry(pass, state, entry);
            Ok(at)
        }
        Err(NoMemory) => {
            turn.leave(pass, state);
            Err(NoMemory)
        }
    }
}

// Takes a job, if one waits.
pub(crate) fn take_one(
    turn: &Turn<DeskState>,
    pass: &mut Pass<DeskState>,
    state: DeskState,
) -> Taken
    requires turn { IsHolder turn.now pass.old state }
    requires takes { IsTaker pass.old.knows }
    ensures turn { pass.new.table ≡ pass.old.table }
    ensures answer { HasGiven pass.old.knows state pass.new.knows result }
{
    let mut state = state;
    match state.take_job() {
        Some((taking, job)) => {
            turn.leave_with_entry(pass, state, taking);
            Taken::Job(job)
        }
        None => {
            let seen = state.entries();
            let lost = state.is_lost();
            turn.leave(pass, state);
            if lost {
                Taken::Ended { seen }
            } else {
                Taken::NotYet { seen }
            }
        }
    }
}

// Marks the state as lost.
pub(crate) fn mark_one(turn: &Turn<DeskState>, pass: &mut Pass<DeskState>, state: DeskState)
    requires turn { IsHolder turn.now pass.old state }
    ensures turn { pass.new.table ≡ pass.old.table }
    ensures marked { pass.new.knows ≡ gives_back pass.old.knows state.history true }
{
    let mut state = state;
    state.mark_lost();
    turn.leave(pass, state);
}
