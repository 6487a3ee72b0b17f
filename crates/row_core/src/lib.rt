//! Wavefront parallel processing of a picture (Rec. ITU-T H.265, 9.3.1): in which order the rows of coding tree units may be
//! coded, and what codes a row.
#![tactic(auto)]

mod event;
mod job;
mod row;
mod wave;

pub use cabac_tables::Contexts;
pub use event::{NotLawful, RowEvent};
pub use job::RowJob;
pub use wave::Wave;

#[cfg(test)]
mod tests;
