//! Lines of a paint script.
ghost use Rattle.std.specs.Prelude.{◌≡◌};

use h265_model::{Rect, Rgb};
use std::marker::Model;

/// The pixels of a rectangle, in rows from the top.
#[derive(Debug, Drop)]
pub struct Pixels {
    vec: Vec<Rgb>,
}

impl Model for Pixels {
    ghost use Rattle.std.specs.Prelude.{List};
    ghost use Rattle.h265_model.specs.declared.rgb.Rgb.{Rgb};

    ghost Value = { List Rgb };

    ghost view = { λ a. a.vec.items };
}

impl Pixels {
    /// Takes the `Vec`.
    pub fn from_vec(vec: Vec<Rgb>) -> Self
        ensures { result ≡ vec.items }
    {
        Pixels { vec }
    }

    /// Gives it back.
    pub fn into_vec(self) -> Vec<Rgb>
        ensures { result.items ≡ self }
    {
        self.vec
    }

    /// Lends the list.
    pub fn as_slice(&self) -> &[Rgb]
        ensures { result.now ≡ self.now }
    {
        &self.vec
    }
}

/// A line of a paint script.
#[derive(Debug, Drop)]
pub enum Line {
    /// Paints the rectangle with one colour.
    Fill { rect: Rect, colour: Rgb },
    /// Paints `rect.w * rect.h` pixels.
    Blit { rect: Rect, pixels: Pixels },
    /// Copies what the rectangle shows to the one of the same sides at `to_x`, `to_y`. All of it is read before any place is
    /// painted; a place whose source lies outside the desktop isn't painted.
    Copy { rect: Rect, to_x: u32, to_y: u32 },
    /// Asks for a picture of the desktop as it is now.
    Cut,
}
