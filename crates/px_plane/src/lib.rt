//! Pictures of three planes of samples, and what is painted on them.
#![tactic(auto)]

mod clip;
mod compare;
mod picture;
mod plane;
mod size;
mod steps;

pub use clip::Clip;
pub use h265_model::{Job, Rect, Rgb};
pub use picture::Picture;
pub use size::Size;
pub use steps::Steps;

#[cfg(test)]
mod tests;
