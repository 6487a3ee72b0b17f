//! The video, sequence and picture parameter sets of a size, written and read (Rec. ITU-T H.265, 7.3.2).
#![tactic(auto)]

mod reading;
mod tables;
mod writing;

pub use reading::{BadParam, read_params};
pub use writing::{Params, write_params};

#[cfg(test)]
mod tests;
