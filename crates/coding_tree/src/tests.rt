//! Tests of the bins and samples of coding trees.

mod trees;
mod units;
