//! The coding tree of a coding tree unit as bins and samples (Rec. ITU-T H.265, 7.3.8.2 to 7.3.8.5).
#![tactic(auto)]

mod flag;
mod intra;
mod leaf;
mod pcm;
mod source;
mod split;
mod tree;

pub use bin_items::{BinSink, Block, Kind, Leaf, NoMemory};
pub use h265_model::SliceKind;
pub use leaf::write_leaf;
pub use pu_code::Grid;
pub use source::LevelSource;
pub use split::write_split;
pub use tree::{write_ctu, write_split_flags};

#[cfg(test)]
mod tests;
