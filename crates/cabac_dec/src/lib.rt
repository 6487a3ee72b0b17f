//! The arithmetic decoding engine (Rec. ITU-T H.265, 9.3.2.5 and 9.3.4.3). Nothing here takes memory.
#![tactic(auto)]

mod decoder;
mod window;

pub use cabac_tables::Contexts;
pub use decoder::Decoder;
pub use h265_model::Place;

#[cfg(test)]
mod tests;
