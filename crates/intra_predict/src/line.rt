//! The line of samples that a slanted mode reads (8.4.4.2.6, ref).
ghost use Rattle.std.specs.Prelude.{◌≡◌, ℕ, ◌+◌, ◌*◌, ◌<◌, ◌≤◌, length, not, if◌then◌else◌};
ghost use Rattle.h265_model.specs.Predict as model;
ghost use Rattle.intra_predict.specs.Sides.{side_of, leads_back, IsLine};

use crate::angles::{inverse_of, leads_back};

// A sample of one side, from the corner on; beyond the row above it is 0, and beyond the column on the left its last.
#[inline(always)]
fn side_sample(above: bool, n: usize, refs: &[u8], i: usize) -> u8
    requires n { n ≤ 32 }
    requires i { i ≤ 4096 }
    requires whole { length refs.now ≡ 4 * n + 1 }
    ensures { result ≡ side_of above refs.now n i }
{
    if above {
        let at = 2 * n + i;
        if at < refs.len() { refs[at] } else { 0 }
    } else {
        refs[(2 * n).saturating_sub(i)]
    }
}

// The main side from place 32 on, and before it `reach` samples of the other side.
#[inline(always)]
fn line_with(above: bool, n: usize, reach: usize, inverse: u32, refs: &[u8]) -> [u8; 98]
    requires n { n ≤ 32 }
    requires reach { reach ≤ n }
    requires inverse { inverse ≤ 4096 }
    requires whole { length refs.now ≡ 4 * n + 1 }
    ensures { IsLine result (side_of above refs.now n) (side_of (not above) refs.now n) inverse n reach }
{
    let mut line = [0u8; 98];
    for i in 0..2 * n + 2 {
        line[32 + i] = side_sample(above, n, refs, i);
    }
    for k in 1..reach + 1 {
        line[32 - k] = side_sample(!above, n, refs, (k * inverse as usize + 128) / 256);
    }
    line
}

/// The line of a mode whose main side is the row above, or else the column on the left.
#[inline(always)]
pub(crate) fn line_of(above: bool, mode: u32, n: usize, refs: &[u8]) -> [u8; 98]
    requires n { n ≤ 32 }
    requires whole { length refs.now ≡ 4 * n + 1 }
    ensures { IsLine result (side_of above refs.now n) (side_of (not above) refs.now n) (model.inverse_angle mode) n (if leads_back mode then n else 0) }
{
    if leads_back(mode) {
        line_with(above, n, n, inverse_of(mode), refs)
    } else {
        line_with(above, n, 0, 0, refs)
    }
}
