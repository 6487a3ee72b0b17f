//! Coding trees, read from their bins (Rec. ITU-T H.265, 7.3.8.2 and 7.3.8.4), and handed to what takes their units.
#![tactic(auto)]

mod block;
mod ctu;
mod flagged;
mod row;
mod split;

pub use ctu::read_ctu;
pub use flagged::read_flagged;
pub use row::{read_row, read_segment_row};
pub use unit_read::{Decoder, Grid, LeafSink, MotionGrid, Size, SliceKind};

#[cfg(test)]
mod tests;
