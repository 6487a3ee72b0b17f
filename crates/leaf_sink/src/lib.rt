//! What takes the coding units of a picture as they are read.
#![tactic(auto)]

mod residuals;
mod sink;
mod source;

pub use h265_model::Vector;
pub use residuals::Residuals;
pub use sink::LeafSink;
pub use source::has_source;

#[cfg(test)]
mod tests;
