//! The rows of coding tree units of a picture, coded by their jobs (Rec. ITU-T H.265, 9.3.1).
#![tactic(auto)]

mod alone;
mod at_once;

pub use alone::rows_alone;
pub use at_once::run_rows;
pub use gate::Gate;
pub use h265_model::NoMemory;
pub use row_core::{Contexts, RowJob};

// After how many of its coding tree units a row hands on its contexts (9.3.1).
const SHOWN: u32 = 2;

#[cfg(test)]
mod tests;
