//! What a desk answers.
use h265_model::Job;
use thiserror::Error;

/// A line was accepted.
#[derive(Clone, Copy, Debug, PartialEq, Eq)]
pub struct Accepted {
    /// Its place in the history, from 0.
    pub at: u32,
}

/// Why no line was played.
#[derive(Clone, Copy, Debug, PartialEq, Eq, Error)]
pub enum PlayError {
    /// The pass had played all its lines.
    #[error("all lines are played")]
    Done,
    /// There was no memory for the job of a cut.
    #[error("no memory")]
    NoMemory,
}

/// Why no line was played without waiting.
#[derive(Clone, Copy, Debug, PartialEq, Eq, Error)]
pub enum TryPlayError {
    /// The pass had played all its lines.
    #[error("all lines are played")]
    Done,
    /// The turn was not free. `loaded` is the word that was loaded, and `found` the last word that was found.
    #[error("the turn was not free")]
    Busy { loaded: u64, found: u64 },
    /// There was no memory for the job of a cut.
    #[error("no memory")]
    NoMemory,
}

/// What the recorder found at its turn.
#[derive(Debug, Drop)]
pub enum Taken {
    /// The job of the first cut that wasn't taken.
    Job(Job),
    /// Each cut was taken. `seen` is the history's length.
    NotYet { seen: u32 },
    /// Each cut was taken, and the desk was marked as lost.
    Ended { seen: u32 },
}
