//! Why a frame isn't read.
use crate::ReadFailed;
use h265_model::NoMemory;
use std::alloc::AllocError;
use thiserror::Error;

/// The numbers of a frame's head, in their order.
#[derive(Clone, Copy, Debug, PartialEq, Eq)]
pub enum HeadNumber {
    Width,
    Height,
    Maximum,
}

/// What is wrong with a frame: the first of these that is met as its bytes come. Numbers stop at the last value of a `u32`.
#[derive(Clone, Copy, Debug, PartialEq, Eq)]
pub enum Flaw {
    /// It doesn't begin with `P6` and white space or a comment.
    NotP6,
    /// Where this number is wanted there is something else than digits, white space and comments.
    NoNumber { which: HeadNumber },
    /// The greatest value of a sample isn't 255.
    OtherMaximum { maximum: u32 },
    /// No desktop has this size.
    NoSize { w: u32, h: u32 },
    /// The frames before it have another size.
    AnotherSize { w: u32, h: u32 },
    /// The bytes end within it.
    Truncated,
}

/// Why a frame isn't read.
#[derive(Clone, Copy, Debug, PartialEq, Eq, Error)]
pub enum FrameError {
    /// What begins there is no frame.
    #[error("{flaw:?}")]
    Bad { flaw: Flaw },
    /// A read failed.
    #[error("the bytes cannot be read")]
    Failed,
    /// The allocator refused.
    #[error("no memory")]
    NoMemory,
}

impl From<ReadFailed> for FrameError {
    ghost use Rattle.std.specs.Prelude.{◌≡◌};
    ghost use Rattle.frame_read.specs.declared.error.FrameError.{FrameError};

    ghost from_gives = { λ _ e. e ≡ FrameError.Failed };

    fn from(_: ReadFailed) -> Self {
        FrameError::Failed
    }
}

impl From<NoMemory> for FrameError {
    ghost use Rattle.std.specs.Prelude.{◌≡◌};
    ghost use Rattle.frame_read.specs.declared.error.FrameError.{FrameError};

    ghost from_gives = { λ _ e. e ≡ FrameError.NoMemory };

    fn from(_: NoMemory) -> Self {
        FrameError::NoMemory
    }
}

impl From<AllocError> for FrameError {
    ghost use Rattle.std.specs.Prelude.{◌≡◌};
    ghost use Rattle.frame_read.specs.declared.error.FrameError.{FrameError};

    ghost from_gives = { λ _ e. e ≡ FrameError.NoMemory };

    fn from(_: AllocError) -> Self {
        FrameError::NoMemory
    }
}

impl From<Flaw> for FrameError {
    ghost use Rattle.std.specs.Prelude.{◌≡◌};
    ghost use Rattle.frame_read.specs.declared.error.FrameError.{FrameError};

    ghost from_gives = { λ flaw e. e ≡ FrameError.Bad flaw };

    fn from(flaw: Flaw) -> Self {
        FrameError::Bad { flaw }
    }
}
