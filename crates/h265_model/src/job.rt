//! What an encoder is handed of a picture.

use crate::{Bytes, Numbers};

/// What is to be coded of a picture.
#[derive(Debug, Drop)]
pub struct Job {
    /// The picture's number, from 0.
    pub number: u32,
    /// Some tiles of 32 by 32 samples, by their numbers in rows from the top left.
    pub tiles: Numbers,
    /// 3072 samples for each listed tile: G, B, R, each in rows, 0 outside the picture.
    pub samples: Bytes,
}
