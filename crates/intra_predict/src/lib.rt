//! Intra prediction of blocks of 8, 16 and 32 samples a side (Rec. ITU-T H.265, 8.4.4.2.4 to 8.4.4.2.6).
#![tactic(auto)]

mod angles;
mod block;
mod line;
mod plain;
mod rows;
mod slanted;
mod straight;

pub use block::predict;

#[cfg(test)]
mod tests;
