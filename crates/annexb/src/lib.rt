//! The byte stream of NAL units (Rec. ITU-T H.265, 7.3.1, 7.4.2 and Annex B), written and read.
#![tactic(auto)]

mod error;
mod escaping;
mod laws;
mod marks;
mod payload;
mod reading;
mod starts;
mod unit;
mod walk;

pub use error::{BadUnit, UnitsError};
pub use escaping::{append_unit, escape};
pub use laws::each_unit_is_read_back;
pub use reading::units;
pub use starts::start_codes;
pub use unit::{Unit, Units};
pub use walk::Walk;

#[cfg(test)]
mod tests;
