//! The rows of a picture's coding tree units, coded one after another (Rec. ITU-T H.265, 7.3.8.1 and 9.3.1).
#![tactic(auto)]

ghost use Rattle.row_sequence.specs.Laws.{EachRowOfLeaves, EachRowOfMoves};

mod rows;
mod writer;

pub use cabac_bytes::ByteCoder;
pub use h265_model::{NoMemory, SliceKind};
pub use px_plane::Size;
pub use rows::rows_in_order;
pub use writer::{Ending, UnitWriter};

/// The bytes of a row are those of the slice's definition, where no blocks move.
pub fn each_row_of_leaves()
    ensures { EachRowOfLeaves }
{}

/// The bytes of a row are those of the slice's definition, where blocks may move.
pub fn each_row_of_moves()
    ensures { EachRowOfMoves }
{}

#[cfg(test)]
mod tests;
