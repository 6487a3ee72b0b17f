//! Coding units of a coding tree unit that are chosen, and not yet set among those of their picture.
#![tactic(auto)]

mod choosing;
mod chosen;
mod leaves;

pub use choosing::ChosenUnits;
pub use h265_model::{CodingBlock, MoveKind, MoveLeaf, Vector};
pub use leaves::MoveLeaves;
pub use motion_grid::MotionGrid;

#[cfg(test)]
mod tests;
