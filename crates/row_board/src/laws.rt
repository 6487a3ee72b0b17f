//! The rule of the board as a law: what is public here is a theorem, and the functions do nothing.
ghost use Rattle.atomic_table.specs.Table.{State};
ghost use Rattle.row_board.specs.declared.piece.Piece.{Piece};
ghost use Rattle.row_board.specs.Rows.{Kept, job_fits};
ghost use Rattle.row_board.specs.OneBoard.{IsOneBoard};
ghost use Rattle.row_board.specs.OneWave.{IsOneWave};
ghost use Rattle.row_board.specs.Laws.{HoldsAtFirst, KeptByClaim, KeptByLayingDown, KeptByLayingAbove, KeptByPickingUp, KeptByPublish, KeptByLose, KeptByTake, KeptBySplit, KeptByJoin};

use crate::board::{Board, RowSeat};
use crate::knowledge::Knowledge;
use crate::piece::Piece;
use crate::row::Row;
use row_core::RowJob;

/// The rule of a board's table holds as the board is made, and every kind of step on it keeps it, whatever the table then is: so
/// it holds after every order of steps of any threads.
pub fn each_step_keeps_the_rule<J: RowJob>()
    ensures first { HoldsAtFirst J.plan J.begun }
    ensures claim { KeptByClaim J.plan J.begun }
    ensures lay_down { KeptByLayingDown J.plan J.begun }
    ensures lay_above { KeptByLayingAbove J.plan J.begun }
    ensures pick_up { KeptByPickingUp J.plan J.begun }
    ensures publish { KeptByPublish J.plan J.begun }
    ensures lose { KeptByLose J.plan J.begun }
    ensures take { KeptByTake J.plan J.begun }
    ensures split { KeptBySplit J.plan J.begun }
    ensures join { KeptByJoin J.plan J.begun }
{}

/// Where the table's rule holds, its words and seats show a state of the wavefront machine: word 0 shows which rows are claimed, a row's
/// word whether it is published or lost, and a 2 that the row below has synced; what each seat knows of its rows is so; and lawful
/// events lead to this state.
pub fn each_table_shows_a_wave<J: RowJob>()
    ensures { (table : State (Piece J) Knowledge) → Kept (job_fits J.plan J.begun) table → IsOneWave table }
{}

/// The table's rule is the rule of the board: where it holds, each claimed row is of one seat, and each row's word and slot are what the seats
/// say of the row and of the one below.
pub fn each_table_has_one_board<J: RowJob>()
    ensures { (table : State (Piece J) Knowledge) → Kept (job_fits J.plan J.begun) table → IsOneBoard J.plan J.begun table }
{}

fn is_send<T: Send>() {}

fn is_sync<T: Sync>() {}

/// Threads can share a board, and a seat and a claimed row may go to another thread.
pub fn each_board_can_be_shared<J: RowJob>() {
    is_sync::<Board<J>>();
    is_send::<Board<J>>();
    is_send::<RowSeat<J>>();
    is_send::<Row>();
}
