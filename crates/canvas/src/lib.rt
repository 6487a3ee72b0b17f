//! The pictures that a decoder draws: the last one, and the one whose coding units are being read (Rec. ITU-T H.265, 8.4.4.1, 8.5.3.3 and 8.6).
#![tactic(auto)]

mod canvas;
mod levels;
mod marks;
mod predicted;
mod side;
mod source;

pub use canvas::Canvas;
pub use leaf_sink::{LeafSink, Residuals, Vector};

#[cfg(test)]
mod tests;
