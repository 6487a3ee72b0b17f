//! The residual of a block as bins (Rec. ITU-T H.265, 7.3.8.11): which of its levels are other than 0, and their signs and sizes.
#![tactic(auto)]

mod blocks;
mod flags;
mod last;
mod remaining;
mod shape;
mod subs;
mod tile;
mod values;

pub use bin_items::{BinSink, Block, NoMemory};
pub use blocks::{cbf, write_residual};

#[cfg(test)]
mod tests;
