//! A row of coding tree units as a job of the wavefront (Rec. ITU-T H.265, 7.3.8.1 and 9.3.1), and the levels of a picture.
#![tactic(auto)]

ghost use Rattle.row_coder.specs.Laws.{EachRowIsCoded, EachJobIsCoded};

mod job;
mod levels;
mod predicted;

pub use bin_items::{Leaf, Leaves, NoMemory};
pub use h265_model::SliceKind;
pub use job::CtuRow;
pub use levels::PictureLevels;

/// Each row gives what the slice's definition says, given what it inherits at a board of the picture's rows.
pub fn each_row_is_coded()
    ensures { EachRowIsCoded }
{}

/// Each row gives what the slice's definition says, given what it inherits from the jobs above it.
pub fn each_job_is_coded()
    ensures { EachJobIsCoded }
{}

#[cfg(test)]
mod tests;
