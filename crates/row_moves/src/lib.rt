//! The pictures of a recording whose blocks may be copied from another place of the picture before (Rec. ITU-T H.265,
//! 7.3.8.6 and 8.5.3.2), one after another.
#![tactic(auto)]

mod encoder;
mod plan;
mod writer;

pub use encoder::MoveEncoder;
pub use h265_model::NoMemory;
pub use px_plane::{Job, Size};
