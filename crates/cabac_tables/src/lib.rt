//! Context variables of the arithmetic code (Rec. ITU-T H.265, 9.3.2.2 and 9.3.4.3.2). Nothing here takes memory.
#![tactic(auto)]

mod contexts;
mod tables;
mod transitions;

pub use contexts::Contexts;
pub use h265_model::SliceKind;
pub use transitions::{lps, next};

#[cfg(test)]
mod tests;
