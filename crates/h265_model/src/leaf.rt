//! Coding units and the slices that they stand in.

use crate::CodingBlock;

/// The kinds of slice that occur (7.4.7.1, slice_type).
#[derive(Clone, Copy, Debug, PartialEq, Eq)]
pub enum SliceKind {
    I,
    P,
}

/// What is coded of a coding unit (7.3.8.5).
#[derive(Clone, Copy, Debug, Default, PartialEq, Eq)]
pub enum Kind {
    /// A copy of the same block of the picture before.
    Skip,
    /// The samples themselves.
    #[default]
    Pcm,
    /// A residual under an intra mode, from 0 to 34 (8.4.2).
    Intra(u32),
}

/// A coding unit: its block and its kind.
#[derive(Clone, Copy, Debug, Default, PartialEq, Eq)]
pub struct Leaf {
    pub block: CodingBlock,
    pub kind: Kind,
}
