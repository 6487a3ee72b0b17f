//! The modes and neighbours of coding units: what is kept of the leaves that were coded, the candidates and contexts that it gives, and the bins of a
//! mode (Rec. ITU-T H.265, 7.3.8.5, 8.4.2 and 9.3.4.2.2).
#![tactic(auto)]

mod cell;
mod grid;
mod mode;

pub use grid::Grid;
pub use mode::write_mode;

#[cfg(test)]
mod tests;
