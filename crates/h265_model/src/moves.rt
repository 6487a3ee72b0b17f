//! Coding units that may be copied from another place of the picture before.

use crate::CodingBlock;

/// How far away the block stands that is copied, in whole samples to the right and downwards (8.5.3.2).
#[derive(Clone, Copy, Debug, PartialEq, Eq)]
pub struct Vector {
    pub x: i32,
    pub y: i32,
}

/// What is coded of a coding unit where blocks may move (7.3.8.5).
#[derive(Clone, Copy, Debug, PartialEq, Eq)]
pub enum MoveKind {
    /// A copy by the merge vector (8.5.3.2.2).
    Skip,
    /// A copy by this vector, without a residual.
    Move(Vector),
    /// The samples themselves.
    Pcm,
    /// A residual under an intra mode, from 0 to 34 (8.4.2).
    Intra(u32),
}

/// A coding unit where blocks may move: its block and its kind.
#[derive(Clone, Copy, Debug, PartialEq, Eq)]
pub struct MoveLeaf {
    pub block: CodingBlock,
    pub kind: MoveKind,
}
