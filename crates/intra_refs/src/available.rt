//! Which places are coded before a block (6.4.1).
ghost use Rattle.std.specs.Prelude.{◌≡◌, ℕ, ◌+◌, ◌*◌, ◌/◌, ◌%◌, ◌<◌, ◌≤◌};
ghost use Rattle.h265_model.specs.Predict as model;

use px_plane::Size;

// The number of a square of 8 in the order of coding, where `across` coding tree blocks stand side by side.
fn square_order(across: u32, x: u32, y: u32) -> u32
    requires across { across ≤ 128 }
    requires x { x < 1024 }
    requires y { y < 1024 }
    ensures { result ≡ (y / 4 * across + x / 4) * 16 + (8 * (y / 2 % 2) + 4 * (x / 2 % 2) + 2 * (y % 2) + x % 2) }
{
    (y / 4 * across + x / 4) * 16 + (8 * (y / 2 % 2) + 4 * (x / 2 % 2) + 2 * (y % 2) + x % 2)
}

/// Whether a place is in the coded picture and coded before the block at (`at_x`, `at_y`).
pub(crate) fn is_available(size: Size, at_x: u32, at_y: u32, x: u32, y: u32) -> bool
    requires at_x { at_x < 4096 }
    requires at_y { at_y < 4096 }
    requires whole_x { at_x % 8 ≡ 0 }
    requires whole_y { at_y % 8 ≡ 0 }
    ensures { result ≡ model.is_available size at_x at_y x y }
{
    let w = (size.w() + 7) / 8 * 8;
    let h = (size.h() + 7) / 8 * 8;
    if x < w && y < h {
        let across = (size.w() + 31) / 32;
        square_order(across, x / 8, y / 8) < square_order(across, at_x / 8, at_y / 8)
    } else {
        false
    }
}
