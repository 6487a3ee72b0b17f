//! The size of a desktop.
ghost use Rattle.std.specs.Prelude.{◌≡◌, IsTrue};
ghost use Rattle.std.specs.Option.{SomeIff};
ghost use Rattle.h265_model.specs.Settings.{is_size};

use std::marker::Model;

/// The width and height of a desktop, in samples: each is from 1 to 4096, and their product is at most 8,847,360.
#[derive(Clone, Copy, Debug, PartialEq, Eq)]
pub struct Size {
    w: u32,
    h: u32,
}

impl Model for Size {
    ghost use Rattle.std.specs.Prelude.{IsTrue};
    ghost use Rattle.h265_model.specs.Plain as plain;
    ghost use Rattle.h265_model.specs.Settings.{is_size};

    ghost Value = { plain.Size };

    ghost view = { λ s. record { w = s.w; h = s.h } };

    ghost invariant = { λ s. IsTrue (is_size (record { w = s.w; h = s.h })) };

    ghost inverse = { λ s. record { w = s.w; h = s.h } };
}

/// The longest side.
pub const MOST_SIDE: u32 = 4096;

/// The largest area.
pub const MOST_AREA: u32 = 8_847_360;

impl Size {
    /// A size of these sides, or `None` exactly where it is outside the limits.
    pub fn new(w: u32, h: u32) -> Option<Size>
        ensures { SomeIff result (IsTrue (is_size (record { w = w; h = h }))) (record { w = w; h = h }) }
    {
        if w == 0 || w > MOST_SIDE || h == 0 || h > MOST_SIDE || w * h > MOST_AREA {
            return None;
        }
        Some(Size { w, h })
    }

    // A size that is known to be within the limits.
    pub(crate) fn within(w: u32, h: u32) -> Size
        requires { IsTrue (is_size (record { w = w; h = h })) }
        ensures { result ≡ record { w = w; h = h } }
    {
        Size { w, h }
    }

    /// The width.
    pub fn w(&self) -> u32
        ensures value { result ≡ self.now.w }
        ensures within { IsTrue (is_size self.now) }
    {
        self.w
    }

    /// The height.
    pub fn h(&self) -> u32
        ensures value { result ≡ self.now.h }
        ensures within { IsTrue (is_size self.now) }
    {
        self.h
    }
}
