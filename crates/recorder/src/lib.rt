//! Clients that play their scripts at one desk, and the recorder beside them that codes the cut pictures.
#![tactic(auto)]

mod clients;
mod record;
mod session;

pub use clients::play_all;
pub use h265_model::NoMemory;
pub use record::{RecordEnd, record_all};
pub use recorder_model::Entry;
pub use session::{Recording, Session};

#[cfg(test)]
mod tests;
