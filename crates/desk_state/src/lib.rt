//! The state of a desk: what its clients' lines painted, the jobs of the cuts that weren't taken, and the history of all of it.
#![tactic(auto)]

mod laws;
mod replay;
mod state;

pub use desk_surface::{Job, NoMemory, Size};
pub use laws::each_job_leads_to_the_next_picture;
pub use paint_script::Scripts;
pub use recorder_model::{Entry, Told};
pub use state::DeskState;

#[cfg(test)]
mod tests;
