//! Which coding units are coded of a coding tree unit where blocks may move: those of least cost by the choice rule.
#![tactic(auto)]

mod plan;
mod tree;

pub use chosen_units::MoveLeaves;
pub use plan::plan_moves;

#[cfg(test)]
mod tests;
