//! Why nothing was measured.
use h265_model::NoMemory;
use std::alloc::{AllocError, AllocFailed};
use std::io;
use thiserror::Error;

/// Why nothing was measured.
#[derive(Debug, Drop, Error)]
pub enum Trouble {
    #[error("the clock, the words or standard output: {0}")]
    Host(#[from] io::Error),
    #[error("no memory")]
    NoMemory,
    #[error("the groups are units, planes, scripts, coder, decoder, levels and blocks, and walk or streams with a file")]
    NoSuchGroup,
    #[error("a crate refused what it must take")]
    Refused,
}

impl From<NoMemory> for Trouble {
    fn from(_: NoMemory) -> Self {
        Trouble::NoMemory
    }
}

impl From<AllocError> for Trouble {
    fn from(_: AllocError) -> Self {
        Trouble::NoMemory
    }
}

impl<T: Drop> From<AllocFailed<T>> for Trouble {
    fn from(_: AllocFailed<T>) -> Self {
        Trouble::NoMemory
    }
}
