//! The choice for one coding tree unit.
ghost use Rattle.std.specs.Prelude.{◌≡◌, ℕ, ◌+◌, ◌%◌, ◌<◌, ◌≤◌, false, true, MatchOption, IfSome, Some, None};
ghost use Rattle.h265_model.specs.Plain.{ctu_x, ctu_y};
ghost use Rattle.h265_model.specs.Choice.{choice, plan};
ghost use Rattle.h265_model.specs.Tiles.{tile_count};
ghost use Rattle.px_plane.specs.Planes.{picture_of};
ghost use Rattle.block_choice.specs.Plans.{IsSameTree, TellsCopies, before};

use crate::copies::equal_squares;
use crate::leaf::Task;
use crate::split::plan_block;
use bin_items::Leaves;
use px_plane::{Picture, Steps};
use std::sync::ledger::Ledger;

// The choice, where it is known which squares are copies.
fn plan_with(
    prev: &Picture,
    has_prev: bool,
    now: &Picture,
    effort: u32,
    x: u32,
    y: u32,
    copies: [bool; 16],
) -> Leaves
    requires effort { effort ≤ 2 }
    requires x { x < 4096 }
    requires y { y < 4096 }
    requires whole_x { x % 32 ≡ 0 }
    requires whole_y { y % 32 ≡ 0 }
    requires copies { TellsCopies copies has_prev (picture_of prev.now) (picture_of now.now) now.now.size x y }
    ensures { result.items ≡ (plan (before has_prev (picture_of prev.now)) (picture_of now.now) now.now.size effort 2 x y).leaves }
{
    let task = Task {
        last: prev,
        has_last: has_prev,
        current: now,
        effort,
        x,
        y,
        copies,
    };
    let mut leaves = Leaves::new();
    let _cost = plan_block(&task, 2, x, y, u32::MAX, &mut leaves);
    leaves
}

/// The coding units of a coding tree unit, by the choice rule: those of least cost.
///
/// `prev` is the picture before, where the picture may copy from it, and `effort` (0 to 2) names the modes that are tried. Where
/// `touched` is false the unit is the same in both pictures, and nothing is compared; else each position is compared once at most, and each
/// comparison ticks.
pub fn plan_ctu<L: Ledger>(
    prev: Option<&Picture>,
    now: &Picture,
    effort: u32,
    ctu: u32,
    touched: bool,
    steps: &mut Steps<L>,
) -> Leaves
    requires effort { effort ≤ 2 }
    requires ctu { ctu < tile_count now.now.size }
    requires sizes { IfSome prev (λ p. p.now.size ≡ now.now.size) }
    requires untouched { IfSome prev (λ p. touched ≡ false → IsSameTree (picture_of p.now) (picture_of now.now) now.now.size ctu) }
    ensures choice { MatchOption prev.entry
        (result.items ≡ choice None (picture_of now.now) now.now.size effort ctu)
        (λ p. result.items ≡ choice (Some (picture_of p.now)) (picture_of now.now) now.now.size effort ctu) }
    ensures low { steps.old ≤ steps.new }
    ensures high { steps.new ≤ steps.old + 1024 }
    ensures none { touched ≡ false → steps.new ≡ steps.old }
{
    let size = now.size();
    let across = (size.w() + 31) / 32;
    let (x, y) = (ctu % across * 32, ctu / across * 32);
    match prev {
        None => plan_with(now, false, now, effort, x, y, [false; 16]),
        Some(before) => {
            let copies = if touched {
                equal_squares(before, now, x, y, steps)
            } else {
                [true; 16]
            };
            plan_with(before, true, now, effort, x, y, copies)
        }
    }
}
