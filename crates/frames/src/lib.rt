//! Pictures as binary PPM, one image after another.
#![tactic(auto)]

mod frame;

pub use frame::append_frame;
pub use h265_model::NoMemory;

#[cfg(test)]
mod tests;
