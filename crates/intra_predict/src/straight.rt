//! Prediction straight across and straight down: modes 10 and 26 (8.4.4.2.6).
ghost use Rattle.std.specs.Prelude.{◌≡◌, ℕ, ◌+◌, ◌*◌, ◌<◌, ◌≤◌, ◌^◌, map, length, pos, ◌+ℤ◌, ◌-ℤ◌};
ghost use Rattle.h265_model.specs.Plain.{below};
ghost use Rattle.h265_model.specs.Contexts.{clip, shift_right};
ghost use Rattle.h265_model.specs.Predict as model;

use crate::plain::side;

/// Whether the edges of such blocks are smoothed.
pub(crate) fn has_edges(component: u32, log2: u32) -> bool
    ensures { result ≡ model.has_edges component log2 }
{
    component == 0 && log2 < 5
}

// A sample at the edge that a straight prediction leaves.
#[inline(always)]
fn edge(main: u8, other: u8, corner: u8) -> u8
    ensures { result ≡ clip 0 255 (pos main +ℤ shift_right (pos other -ℤ pos corner) 1) }
{
    let wide = i32::from(main) + ((i32::from(other) - i32::from(corner)) >> 1);
    wide.clamp(0, 255) as u8
}

/// One row of mode 10.
#[inline(always)]
pub(crate) fn level_row(
    component: u32,
    edges: bool,
    log2: u32,
    refs: &[u8],
    y: usize,
    row: &mut [u8],
)
    requires edges { edges ≡ model.has_edges component log2 }
    requires low { 3 ≤ log2 }
    requires high { log2 ≤ 5 }
    requires whole { length refs.now ≡ 4 * 2 ^ log2 + 1 }
    requires row { length row.old ≡ 2 ^ log2 }
    requires y { y < 2 ^ log2 }
    ensures { row.new ≡ map (λ x. model.angular 10 component log2 refs.now x y) (below (2 ^ log2)) }
{
    let n = side(log2);
    let left = refs[2 * n - (y + 1)];
    if edges && y == 0 {
        for x in 0..n {
            row[x] = edge(left, refs[2 * n + (x + 1)], refs[2 * n]);
        }
    } else {
        row.fill(left);
    }
}

/// One row of mode 26.
#[inline(always)]
pub(crate) fn upright_row(
    component: u32,
    edges: bool,
    log2: u32,
    refs: &[u8],
    y: usize,
    row: &mut [u8],
)
    requires edges { edges ≡ model.has_edges component log2 }
    requires low { 3 ≤ log2 }
    requires high { log2 ≤ 5 }
    requires whole { length refs.now ≡ 4 * 2 ^ log2 + 1 }
    requires row { length row.old ≡ 2 ^ log2 }
    requires y { y < 2 ^ log2 }
    ensures { row.new ≡ map (λ x. model.angular 26 component log2 refs.now x y) (below (2 ^ log2)) }
{
    let n = side(log2);
    row.copy_from_slice(&refs[2 * n + 1..3 * n + 1]);
    if edges {
        row[0] = edge(refs[2 * n + 1], refs[2 * n - (y + 1)], refs[2 * n]);
    }
}
