//! Coding units that may be copied from another place of the picture before, and coding tree units of these, as bins and samples
//! (Rec. ITU-T H.265, 7.3.8.2 to 7.3.8.9).
#![tactic(auto)]

mod difference;
mod flag;
mod moved;
mod tree;
mod unit;

pub use bin_items::{BinSink, Block, Leaf, NoMemory};
pub use coding_tree::{Grid, LevelSource};
pub use h265_model::{CodingBlock, MoveKind, MoveLeaf, SliceKind};
pub use motion_grid::{MotionGrid, Vector};
pub use moved::write_move;
pub use tree::write_ctu_moves;

#[cfg(test)]
mod tests;
