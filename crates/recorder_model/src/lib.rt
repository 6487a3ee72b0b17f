//! The definitions of a screen recorder, and the plain types that its crates share.
#![tactic(auto)]

mod entry;
mod history;
mod line;
mod refusal;
mod told;

pub use entry::Entry;
pub use history::History;
pub use line::{Line, Pixels};
pub use refusal::{Cause, LimitKind};
pub use told::Told;
