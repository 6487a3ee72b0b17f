//! Rows that workers claim, and contexts that they hand on to the rows below (Rec. ITU-T H.265, 9.3.1).
#![tactic(auto)]

mod board;
mod knowledge;
mod laws;
mod piece;
mod plays;
mod row;
#[cfg(test)]
mod tests;

pub use board::{Board, RowSeat, SyncError};
pub use h265_model::NoMemory;
pub use knowledge::{Claimed, Knowledge, Stage};
pub use laws::{each_board_can_be_shared, each_step_keeps_the_rule, each_table_shows_a_wave};
pub use row::Row;
pub use row_core::{Contexts, RowJob};
