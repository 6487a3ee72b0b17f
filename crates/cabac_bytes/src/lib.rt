//! The arithmetic code over bytes (Rec. ITU-T H.265, 9.3.5; its decoding is 9.3.4.3).
#![tactic(auto)]

mod coder;
mod pending;

pub use coder::ByteCoder;

#[cfg(test)]
mod tests;
