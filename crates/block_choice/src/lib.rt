//! Which coding units are coded of a coding tree unit: those of least cost by the choice rule.
#![tactic(auto)]

mod choose;
mod copies;
mod leaf;
mod modes;
mod split;

pub use bin_items::Leaves;
pub use choose::plan_ctu;
pub use leaf::coded_leaf;

#[cfg(test)]
mod tests;
