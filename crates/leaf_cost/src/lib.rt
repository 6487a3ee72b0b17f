//! What a coding unit costs under intra modes, by the choice rule, and the cheapest of some modes.
#![tactic(auto)]

mod best;
mod cost;
mod plane;

pub use best::{Best, best_mode};
pub use cost::run_cost;

#[cfg(test)]
mod tests;
