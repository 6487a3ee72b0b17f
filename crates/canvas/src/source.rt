//! Where a block is copied from.
ghost use Rattle.std.specs.Prelude.{◌≡◌};
ghost use Rattle.h265_model.specs.Motion as motion;
ghost use Rattle.h265_model.specs.Motion.{is_vector, no_motion};
ghost use Rattle.canvas.specs.Drawing.{CanMove};

use h265_model::Vector;

/// A coordinate after a vector's.
#[inline(always)]
pub(crate) fn moved(at: u32, by: i32) -> u32
    requires { CanMove at by }
    ensures { result ≡ motion.moved at by }
{
    if by < 0 {
        at - by.unsigned_abs()
    } else {
        at + by as u32
    }
}

/// Whether a vector leads to the same place.
#[inline(always)]
pub(crate) fn is_still(vector: Vector) -> bool
    ensures { result ≡ is_vector vector no_motion }
{
    vector.x == 0 && vector.y == 0
}
