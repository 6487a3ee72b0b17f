//! The residual of a block, read from its bins (Rec. ITU-T H.265, 7.3.8.11): which of its levels are other than 0, and their signs and sizes.
#![tactic(auto)]

mod blocks;
mod flags;
mod golomb;
mod last;
mod lay;
mod numbers;
mod shape;
mod subs;
mod values;

pub use bin_items::Block;
pub use blocks::read_residual;
pub use cabac_dec::Decoder;
pub use golomb::read_exp_golomb;

#[cfg(test)]
mod tests;
