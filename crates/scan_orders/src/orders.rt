//! Which scan a block has, and its places.
ghost use Rattle.std.specs.Prelude.{◌≡◌, ◌<◌, ◌≤◌, ◌^◌};
ghost use Rattle.h265_model.specs.Residual as residual;

use crate::tables::places;

/// The place with this number in a scan of a square: its column and its row.
#[inline(always)]
pub fn scan(kind: u32, log2: u32, index: u32) -> (u32, u32)
    requires kind { kind < 3 }
    requires low { 1 ≤ log2 }
    requires high { log2 ≤ 3 }
    requires index { index < 4 ^ log2 }
    ensures { result ≡ residual.place_at (residual.scan kind log2) index }
{
    let (x, y) = places(kind, log2)[index as usize];
    (u32::from(x), u32::from(y))
}

/// The scan of a block of this side under an intra mode: 2 for modes 6 to 14 and 1 for modes 22 to 30 where the side is 8, else 0 (7.4.9.11).
#[tactic(auto, unfolding(h265_model::specs::Residual::scan_kind))]
pub fn scan_kind(mode: u32, log2: u32) -> u32
    ensures { result ≡ residual.scan_kind mode log2 }
{
    if log2 == 3 && mode >= 6 && mode <= 14 {
        2
    } else if log2 == 3 && mode >= 22 && mode <= 30 {
        1
    } else {
        0
    }
}
