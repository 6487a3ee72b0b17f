//! The NAL unit of a picture, or one for each row, from the rows of its coding tree units (Rec. ITU-T H.265, 7.3.1, 7.3.6.1 and
//! 7.3.8.1).
#![tactic(auto)]

mod assembly;
mod segments;

pub use assembly::assemble;
pub use segments::assemble_segments;

#[cfg(test)]
mod tests;
