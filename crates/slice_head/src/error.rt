//! Why a header isn't read.
use thiserror::Error;

/// Why a slice segment header isn't read.
#[derive(Clone, Copy, Debug, PartialEq, Eq, Error)]
pub enum HeadError {
    /// The first field that isn't as a header of these pictures has it, by its number in the header's table.
    #[error("field {field} of the slice header differs")]
    BadHead { field: u32 },
    /// The allocator refused.
    #[error("no memory")]
    NoMemory,
}

/// Why a segment's header isn't read: the first field that isn't as a header of these segments has it, or at which the
/// bits end, by its number in the header's table.
#[derive(Clone, Copy, Debug, PartialEq, Eq, Error)]
#[error("field {field} of the segment's header differs")]
pub struct BadSegment {
    pub field: u32,
}
