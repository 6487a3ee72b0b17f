//! Slice segment headers, of a picture of one slice and of a slice in segments, written and read (Rec. ITU-T H.265, 7.3.6.1).
#![tactic(auto)]

mod error;
mod head;
mod reading;
mod segment;
mod tables;
mod writing;

pub use error::{BadSegment, HeadError};
pub use head::Head;
pub use reading::read_head;
pub use segment::{read_segment_head, write_segment_head};
pub use writing::write_head;

#[cfg(test)]
mod tests;
