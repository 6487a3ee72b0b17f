//! The motion of coding units: what is kept of those that were coded, and the merge vector and the predictors that it gives
//! (Rec. ITU-T H.265, 8.5.3.2).
#![tactic(auto)]

mod cells;
mod grid;
mod neighbours;

pub use grid::MotionGrid;
pub use h265_model::Vector;
pub use neighbours::{CodedVectors, merge_vector};

#[cfg(test)]
mod tests;
