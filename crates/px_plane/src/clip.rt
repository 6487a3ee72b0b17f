//! The part of a rectangle that lies in a desktop.
ghost use Rattle.std.specs.Prelude.{◌≡◌, ℕ, IfSome, IsNone, false};
ghost use Rattle.std.specs.Option.{SomeIff};
ghost use Rattle.px_plane.specs.Planes.{IsInside, clipped, covers};
ghost use Rattle.h265_model.specs.Raster.{paints};
ghost use Rattle.h265_model.specs.declared.rect.Rect.{Rect};

use crate::{Rect, Size};

/// What can be clipped to a desktop.
pub trait Clip {
    /// The rectangle that it has.
    ghost rectangle: { Self → Rect };

    /// The part of its rectangle that lies in a desktop of this size, or `None` exactly where nothing does.
    fn clip(self, size: Size) -> Option<Rect>
        ensures { SomeIff result (IsInside size (rectangle self)) (clipped size (rectangle self)) };
}

impl Clip for Rect {
    ghost rectangle = { λ r. r };

    /// `None` exactly where nothing of the rectangle lies in the desktop; a side of 0 gives `None`.
    fn clip(self, size: Size) -> Option<Rect>
        ensures value { SomeIff result (IsInside size self) (clipped size self) }
        ensures part { IfSome result (λ part. (x y : ℕ) → covers size self x y ≡ paints part x y) }
        ensures nothing { IsNone result → (x y : ℕ) → covers size self x y ≡ false }
    {
        let right = self.x.saturating_add(self.w).min(size.w());
        let bottom = self.y.saturating_add(self.h).min(size.h());
        if self.x >= right || self.y >= bottom {
            return None;
        }
        Some(Rect {
            x: self.x,
            y: self.y,
            w: right - self.x,
            h: bottom - self.y,
        })
    }
}
