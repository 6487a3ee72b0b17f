//! The rule of the turn as a law: what is public here is a theorem, and the functions do nothing.
ghost use Rattle.std.specs.Prelude.{Option};
ghost use Rattle.atomic_table.specs.Table.{State};
ghost use Rattle.turn_lock.specs.Turns.{Kept};
ghost use Rattle.turn_lock.specs.OneHistory.{IsOneHistory};
ghost use Rattle.turn_lock.specs.Laws.{HoldsAtFirst, KeptByLoad, KeptByCompare, KeptByTake, KeptByReturn, KeptByEntry, KeptByHandingOut, KeptByNote, KeptByJoin};

use crate::knowledge::Knowledge;
use crate::pass::{Note, Pass};
use crate::turn::Turn;
use recorder_model::Told;

/// The rule of a turn's table holds as the turn is made, and every kind of step on it keeps it, whatever the table then is: so it
/// holds after every order of steps of any threads.
pub fn each_step_keeps_the_rule<S: Told>()
    ensures first { HoldsAtFirst S.setting S.history S.mark }
    ensures load { KeptByLoad S.setting S.history S.mark }
    ensures compare { KeptByCompare S.setting S.history S.mark }
    ensures take { KeptByTake S.setting S.history S.mark }
    ensures give_back { KeptByReturn S.setting S.history S.mark }
    ensures give_entry { KeptByEntry S.setting S.history S.mark }
    ensures hand_out { KeptByHandingOut S.setting S.history S.mark }
    ensures note { KeptByNote S.setting S.history S.mark }
    ensures join { KeptByJoin S.setting S.history S.mark }
{}

/// Where the table's rule holds, all passes and notes know of one history: the word tells its length and whether the turn is
/// held, the state has it, what each has seen begins it, each number is of one pass, and nothing in it is of nobody.
pub fn each_table_has_one_history<S: Told>()
    ensures { (table : State (Option S) Knowledge) → Kept S.setting S.history S.mark table → IsOneHistory S.setting S.history S.mark table }
{}

fn is_send<T: Send>() {}

fn is_sync<T: Sync>() {}

/// Where a state may go to another thread, threads can share its turn, and a pass or a note may go to another thread.
pub fn each_turn_can_be_shared<S: Told + Drop + Send>() {
    is_sync::<Turn<S>>();
    is_send::<Turn<S>>();
    is_send::<Pass<S>>();
    is_send::<Note<S>>();
}
