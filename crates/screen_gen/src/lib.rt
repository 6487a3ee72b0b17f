//! Paint scripts made from a number.
#![tactic(auto)]

mod draw;
mod scripts;

pub use scripts::generate;

#[cfg(test)]
mod tests;
