//! Streams of pictures, read one picture after another (Rec. ITU-T H.265, clause 8).
#![tactic(auto)]

mod cursor;
mod error;
mod hash;
mod laws;
mod picture;
mod reader;
mod segments;
mod sets;
mod whole;

pub use error::DecodeError;
pub use laws::each_reading_is_decoding;
pub use reader::Reader;

#[cfg(test)]
mod tests;
