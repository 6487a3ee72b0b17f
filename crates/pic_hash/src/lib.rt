//! The decoded picture hash: the MD5 digests of a picture's planes as a suffix SEI message in a NAL unit of its own
//! (Rec. ITU-T H.265, 7.3.2.4, 7.3.5, D.2.19, D.3.19).
#![tactic(auto)]

mod message;

pub use h265_model::NoMemory;
pub use message::{HASH_HEADER, hash_fits, hash_unit};

#[cfg(test)]
mod tests;
