//! Strings of bits, the most significant bit first, and the descriptors u(n), ue(v) and se(v)
//! (Rec. ITU-T H.265, 7.2 and 9.2).
#![tactic(auto)]

mod fields;
mod reader;
mod writer;

pub use fields::{Descriptor, Field, read_element, read_fields, read_trailing, write_fields};
pub use reader::BitReader;
pub use writer::BitWriter;

#[cfg(test)]
mod tests;
