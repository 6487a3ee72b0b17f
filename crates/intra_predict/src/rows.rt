//! Blocks of the modes without a slant.
ghost use Rattle.std.specs.Prelude.{◌≡◌, ℕ, ◌+◌, ◌*◌, ◌<◌, ◌≤◌, ◌^◌, map, length};
ghost use Rattle.h265_model.specs.Plain.{below};
ghost use Rattle.h265_model.specs.Predict as model;
ghost use Rattle.intra_predict.specs.Modes.{mode_of};

use crate::plain::{dc_row, mean_of, planar_row, side};
use crate::straight::{has_edges, level_row, upright_row};

/// The modes whose samples are taken straight from the references.
#[derive(Clone, Copy)]
pub(crate) enum Plain {
    Planar,
    Dc,
    Level,
    Upright,
}

// One row.
#[inline(always)]
fn plain_row(
    mode: Plain,
    component: u32,
    edges: bool,
    log2: u32,
    refs: &[u8],
    mean: u32,
    y: usize,
    row: &mut [u8],
)
    requires edges { edges ≡ model.has_edges component log2 }
    requires low { 3 ≤ log2 }
    requires high { log2 ≤ 5 }
    requires whole { length refs.now ≡ 4 * 2 ^ log2 + 1 }
    requires row { length row.old ≡ 2 ^ log2 }
    requires y { y < 2 ^ log2 }
    requires mean { mean ≡ model.mean log2 refs.now }
    requires fits { mean ≤ 255 }
    ensures { row.new ≡ map (λ x. model.predicted (mode_of mode) component log2 refs.now x y) (below (2 ^ log2)) }
{
    match mode {
        Plain::Planar => planar_row(log2, refs, y, row),
        Plain::Dc => dc_row(component, edges, log2, refs, mean, y, row),
        Plain::Level => level_row(component, edges, log2, refs, y, row),
        Plain::Upright => upright_row(component, edges, log2, refs, y, row),
    }
}

/// A whole block.
#[inline(always)]
pub(crate) fn plain_block(mode: Plain, component: u32, log2: u32, refs: &[u8], out: &mut [u8])
    requires low { 3 ≤ log2 }
    requires high { log2 ≤ 5 }
    requires whole { length refs.now ≡ 4 * 2 ^ log2 + 1 }
    requires block { length out.old ≡ 2 ^ log2 * 2 ^ log2 }
    ensures { out.new ≡ model.predict (mode_of mode) component log2 refs.now }
{
    let n = side(log2);
    let mean = mean_of(log2, refs);
    let edges = has_edges(component, log2);
    for y in 0..n {
        let at = y * n;
        plain_row(
            mode,
            component,
            edges,
            log2,
            refs,
            mean,
            y,
            &mut out[at..at + n],
        );
    }
}
