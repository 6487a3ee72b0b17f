//! Square blocks of coding units.

/// A coding block: where it begins, in samples from the top left, and the base-2 logarithm of its side, which is 3, 4 or 5 (7.3.8.5).
#[derive(Clone, Copy, Debug, Default, PartialEq, Eq)]
pub struct CodingBlock {
    pub x: u32,
    pub y: u32,
    pub log2: u32,
}
