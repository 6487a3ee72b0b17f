//! What a bin does to its context, and to the range.
ghost use Rattle.std.specs.Prelude.{◌≡◌, ◌<◌, ◌≤◌};
ghost use Rattle.h265_model.specs.Contexts.{next, lps_range};

use crate::tables::{LPS, NEXT};

/// The byte of a context after a bin (9.3.4.3.2.2). A byte is twice pStateIdx and valMps, below 126.
#[inline(always)]
pub fn next(state: u8, bin: bool) -> u8
    requires { state < 126 }
    ensures value { result ≡ next state bin }
    ensures below { result < 126 }
{
    NEXT[2 * state as usize + bin as usize]
}

/// The share of the less probable value, ivlLpsRange, in a range of this quarter, qRangeIdx (9.3.4.3.2.1).
#[inline(always)]
pub fn lps(state: u8, quarter: u32) -> u32
    requires state { state < 126 }
    requires quarter { quarter < 4 }
    ensures value { result ≡ lps_range state quarter }
    ensures from { 6 ≤ result }
    ensures to { result ≤ 240 }
{
    LPS[(state >> 1) as usize] >> (8 * quarter) & 255
}
