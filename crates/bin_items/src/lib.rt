//! The items of a slice's data, what takes them, and the binarisations of Rec. ITU-T H.265, 9.3.3.
#![tactic(auto)]

mod binarise;
mod block;
mod item_list;
mod sink;

use arrayvec::ArrayVec;
pub use binarise::{write_eg, write_fl, write_tr};
pub use block::Block;
pub use h265_model::{Bin, Item, Kind, Leaf, NoMemory, Place};
pub use item_list::ItemList;
pub use sink::BinSink;

/// The leaves of a coding tree, in coding order.
pub type Leaves = ArrayVec<Leaf, 16>;

#[cfg(test)]
mod tests;
