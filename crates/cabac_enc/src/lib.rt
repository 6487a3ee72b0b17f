//! The arithmetic code over a list of bits (Rec. ITU-T H.265, 9.3.5; its decoding is 9.3.4.3): slow and plain.
#![tactic(auto)]

mod bits;
mod coder;

pub use coder::Coder;

#[cfg(test)]
mod tests;
