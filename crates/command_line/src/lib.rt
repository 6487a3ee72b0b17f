//! The words of the command line.
#![tactic(auto)]

mod read;
mod row;
mod size;

pub use read::read_words;
pub use row::{DecodeWords, RecordWords, Row, SerialWords, Settings};

#[cfg(test)]
mod tests;
