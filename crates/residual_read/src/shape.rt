//! What the bins of a block depend on besides its levels.

/// A component, the base-2 logarithm of a block's side, and a scan.
#[derive(Clone, Copy)]
pub(crate) struct Shape {
    pub component: u32,
    pub log2: u32,
    pub scan: u32,
}

/// A sub-block of 4x4 levels: its number in the scan, how many sub-blocks are on its left and above it, and whether its neighbours on the right
/// and below are coded.
#[derive(Clone, Copy)]
pub(crate) struct SubBlock {
    pub number: u32,
    pub x: u32,
    pub y: u32,
    pub right: bool,
    pub below: bool,
}
