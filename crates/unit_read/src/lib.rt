//! Coding units, read from their bins (Rec. ITU-T H.265, 7.3.8.5 to 7.3.8.12), and handed to what takes them.
#![tactic(auto)]

mod component;
mod content;
mod copies;
mod flags;
mod intra;
mod kept;
mod mode;
mod unit;
mod vector;

pub use cabac_dec::Decoder;
pub use h265_model::SliceKind;
pub use leaf_sink::LeafSink;
pub use motion_grid::MotionGrid;
pub use pu_code::Grid;
pub use px_plane::Size;
pub use unit::read_unit;

#[cfg(test)]
mod tests;
