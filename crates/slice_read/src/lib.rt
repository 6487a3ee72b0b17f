//! Slice data, read from its bytes (Rec. ITU-T H.265, 7.3.8.1): a picture's in one segment with entry points, or a row's that is a segment.
#![tactic(auto)]

mod cut;
mod row;
mod slice;

pub use row::read_segment;
pub use slice::read_slice;
pub use tree_read::{Grid, LeafSink, MotionGrid, Size, SliceKind};

#[cfg(test)]
mod tests;
