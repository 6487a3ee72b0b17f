//! A desktop that is painted on, which of its tiles were painted in since the last cut, and the jobs that cuts make of it.
#![tactic(auto)]

mod flags;
mod samples;
mod surface;

pub use h265_model::{Job, NoMemory};
pub use px_plane::{Picture, Size};
pub use recorder_model::Line;
pub use surface::Surface;

#[cfg(test)]
mod tests;
