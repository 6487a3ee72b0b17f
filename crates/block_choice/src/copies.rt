//! Which blocks equal those of the picture before: each position of a coding tree unit is compared once at most.
ghost use Rattle.std.specs.Prelude.{◌≡◌, ℕ, ◌+◌, ◌*◌, ◌/◌, ◌%◌, ◌<◌, ◌≤◌, ◌↔◌, IsTrue, true, slice_index_or, false};
ghost use Rattle.h265_model.specs.Plain.{coded};
ghost use Rattle.px_plane.specs.Planes.{picture_of};
ghost use Rattle.block_choice.specs.Plans.{TellsCopies, AreAllCopied};

use px_plane::{Picture, Rect, Steps};
use std::sync::ledger::Ledger;

/// For each square of 8 of the coding tree unit at (x, y), in rows, whether it is in the coded picture and equals that of the picture before.
pub(crate) fn equal_squares<L: Ledger>(
    prev: &Picture,
    now: &Picture,
    x: u32,
    y: u32,
    steps: &mut Steps<L>,
) -> [bool; 16]
    requires sizes { prev.now.size ≡ now.now.size }
    requires x { x < 4096 }
    requires y { y < 4096 }
    requires whole_x { x % 8 ≡ 0 }
    requires whole_y { y % 8 ≡ 0 }
    ensures copies { TellsCopies result true (picture_of prev.now) (picture_of now.now) now.now.size x y }
    ensures low { steps.old ≤ steps.new }
    ensures high { steps.new ≤ steps.old + 1024 }
{
    let (w, h) = (now.size().w(), now.size().h());
    let mut copies = [false; 16];
    for k in 0..16u32 {
        let rect = Rect {
            x: x + k % 4 * 8,
            y: y + k / 4 * 8,
            w: 8,
            h: 8,
        };
        if rect.x < w && rect.y < h {
            copies[k as usize] = prev.block_equal(now, rect, steps);
        }
    }
    copies
}

/// Whether all squares of the block of this many squares a side, which begins at this square, are equal.
pub(crate) fn is_copied(copies: &[bool; 16], i: usize, j: usize, side: usize) -> bool
    requires across { i + side ≤ 4 }
    requires down { j + side ≤ 4 }
    ensures { IsTrue result ↔ AreAllCopied copies.now i j side side }
{
    for v in 0..side {
        for u in 0..side {
            if !copies[4 * (j + v) + (i + u)] {
                return false;
            }
        }
    }
    true
}
