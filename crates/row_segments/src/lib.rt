//! The pictures of a recording with a slice segment for each row of coding tree units (Rec. ITU-T H.265, 7.3.6.1), one after another.
#![tactic(auto)]

mod encoder;
mod writer;

pub use encoder::SegmentEncoder;
pub use h265_model::NoMemory;
pub use px_plane::{Job, Size};
