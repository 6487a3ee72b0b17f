//! The reference samples of a block that is to be predicted (Rec. ITU-T H.265, 8.4.4.2.2 and 8.4.4.2.3).
#![tactic(auto)]

mod available;
mod line;
mod samples;
mod search;
mod segment;
mod smooth;

pub use line::{filter, filtered, refs};
pub use samples::Refs;

#[cfg(test)]
mod tests;
