//! The orders in which the levels of a block are coded, and the contexts of their bins (Rec. ITU-T H.265, 6.5.3 to 6.5.5 and 9.3.4.2.3 to 9.3.4.2.7).
#![tactic(auto)]

mod contexts;
mod orders;
mod tables;

pub use contexts::{
    greater1_context, greater2_context, last_context, sig_context, sub_block_context,
};
pub use orders::{scan, scan_kind};
pub use tables::places;

#[cfg(test)]
mod tests;
