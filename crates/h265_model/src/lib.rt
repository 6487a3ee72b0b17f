//! The definitions of H.265 as far as lossless streams of pictures need them, and the plain types that the crates share.
#![tactic(auto)]

mod block;
mod extra;
mod job;
mod leaf;
mod lists;
mod memory;
mod moves;
mod rect;
mod rgb;
pub mod syntax_elements;

pub use block::CodingBlock;
pub use extra::Extra;
pub use job::Job;
pub use leaf::{Kind, Leaf, SliceKind};
pub use lists::{Bytes, Numbers};
pub use memory::NoMemory;
pub use moves::{MoveKind, MoveLeaf, Vector};
pub use rect::Rect;
pub use rgb::Rgb;

/// How a bin is coded (9.3.4.3).
#[derive(Clone, Copy, Debug, PartialEq, Eq)]
pub enum Place {
    /// With the adaptive context of this number.
    Context(u32),
    /// With equal shares for 0 and 1.
    Bypass,
    /// With a fixed small share for 1, which ends a run of bins.
    Terminate,
}

/// One binary decision of the arithmetic code.
#[derive(Clone, Copy, Debug, PartialEq, Eq)]
pub struct Bin {
    /// 1 or 0.
    pub value: bool,
    /// How it is coded.
    pub place: Place,
}

/// What a slice's data is made of: bins, and the samples of PCM coding units.
#[derive(Clone, Copy, Debug, PartialEq, Eq)]
pub enum Item {
    /// A bin.
    Bin(Bin),
    /// A sample of 8 bits.
    Sample(u8),
}
