//! Which blocks of a coding tree unit are copies of blocks of the picture before, and by which vectors.
#![tactic(auto)]

mod compare;
mod search;
mod squares;
mod vectors;

pub use search::VectorSearch;

#[cfg(test)]
mod tests;
