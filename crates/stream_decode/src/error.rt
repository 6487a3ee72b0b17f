//! Why a stream isn't read on.
use h265_model::NoMemory;
use std::alloc::AllocFailed;
use thiserror::Error;

/// Why a stream isn't read on.
#[derive(Clone, Copy, Debug, PartialEq, Eq, Error)]
pub enum DecodeError {
    /// The number, from 0, of the NAL unit that fails.
    #[error("NAL unit {at} fails")]
    BadStream { at: u32 },
    /// The allocator refused.
    #[error("no memory")]
    NoMemory,
}

impl From<NoMemory> for DecodeError {
    ghost use Rattle.std.specs.Prelude.{◌≡◌};
    ghost use Rattle.stream_decode.specs.declared.error.DecodeError.{DecodeError};

    ghost from_gives = { λ _ e. e ≡ DecodeError.NoMemory };

    fn from(_: NoMemory) -> Self {
        DecodeError::NoMemory
    }
}

impl<T: Drop> From<AllocFailed<T>> for DecodeError {
    ghost use Rattle.std.specs.Prelude.{◌≡◌};
    ghost use Rattle.stream_decode.specs.declared.error.DecodeError.{DecodeError};

    ghost from_gives = { λ _ e. e ≡ DecodeError.NoMemory };

    fn from(_: AllocFailed<T>) -> Self {
        DecodeError::NoMemory
    }
}
