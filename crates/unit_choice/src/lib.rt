//! The coding unit of least cost of one block, where blocks may move.
#![tactic(auto)]

mod choice;
mod units;

pub use choice::UnitChoice;
pub use units::PlannedUnit;

#[cfg(test)]
mod tests;
