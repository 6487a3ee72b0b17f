//! Why a byte stream isn't read.
use h265_model::NoMemory;
use std::alloc::AllocFailed;
use thiserror::Error;

/// Why a byte stream isn't walked: the first place that the syntax refuses, counted from 0.
#[derive(Clone, Copy, Debug, PartialEq, Eq, Error)]
#[error("no NAL unit at byte {at}")]
pub struct BadUnit {
    pub at: u64,
}

/// Why a byte stream isn't read.
#[derive(Clone, Copy, Debug, PartialEq, Eq, Error)]
pub enum UnitsError {
    /// The first place that the syntax refuses, counted from 0.
    #[error("no NAL unit at byte {at}")]
    BadUnit { at: u64 },
    /// The allocator refused.
    #[error("no memory")]
    NoMemory,
}

impl From<BadUnit> for UnitsError {
    ghost use Rattle.std.specs.Prelude.{◌≡◌};
    ghost use Rattle.annexb.specs.declared.error.UnitsError.{UnitsError};

    ghost from_gives = { λ bad e. e ≡ UnitsError.BadUnit bad.at };

    fn from(bad: BadUnit) -> Self {
        UnitsError::BadUnit { at: bad.at }
    }
}

impl From<NoMemory> for UnitsError {
    ghost use Rattle.std.specs.Prelude.{◌≡◌};
    ghost use Rattle.annexb.specs.declared.error.UnitsError.{UnitsError};

    ghost from_gives = { λ _ e. e ≡ UnitsError.NoMemory };

    fn from(_: NoMemory) -> Self {
        UnitsError::NoMemory
    }
}

impl<T: Drop> From<AllocFailed<T>> for UnitsError {
    ghost use Rattle.std.specs.Prelude.{◌≡◌};
    ghost use Rattle.annexb.specs.declared.error.UnitsError.{UnitsError};

    ghost from_gives = { λ _ e. e ≡ UnitsError.NoMemory };

    fn from(_: AllocFailed<T>) -> Self {
        UnitsError::NoMemory
    }
}
