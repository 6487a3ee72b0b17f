//! A desk that threads share: clients play their scripts, and a recorder takes the cut pictures.
#![tactic(auto)]

mod answers;
mod desk;
mod opening;
mod passes;
mod turns;

pub use answers::{Accepted, PlayError, Taken, TryPlayError};
pub use desk::{Desk, Note, each_desk_can_be_shared};
pub use desk_state::{DeskState, Entry, Job, NoMemory, Scripts, Size};
pub use passes::{ClientPass, RecorderPass};

#[cfg(test)]
mod tests;
