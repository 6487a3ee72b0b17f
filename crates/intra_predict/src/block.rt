//! The predicted block of each mode.
ghost use Rattle.std.specs.Prelude.{◌≡◌, ◌+◌, ◌*◌, ◌<◌, ◌≤◌, ◌^◌, length};
ghost use Rattle.h265_model.specs.Predict as model;

use crate::rows::{Plain, plain_block};
use crate::slanted::{slanted_block, turned_block};
use intra_refs::Refs;

/// The block that a mode (0 to 34) predicts of a component (0 for G, 1 for B, 2 for R), in rows from the top.
///
/// The reference samples are those of the block, smoothed exactly where the mode takes smoothed samples at this side. `out` has
/// a place for each sample of the block.
pub fn predict(mode: u32, component: u32, refs: &Refs, out: &mut [u8])
    requires mode { mode < 35 }
    requires block { length out.old ≡ 2 ^ refs.now.log2 * 2 ^ refs.now.log2 }
    ensures { out.new ≡ model.predict mode component refs.now.log2 refs.now.samples }
{
    let samples = refs.samples();
    match refs.log2() {
        3 => predict_at(mode, component, 3, samples, out),
        4 => predict_at(mode, component, 4, samples, out),
        _ => predict_at(mode, component, 5, samples, out),
    }
}

// The same, to be copied to where the side is a literal.
#[inline(always)]
fn predict_at(mode: u32, component: u32, log2: u32, refs: &[u8], out: &mut [u8])
    requires mode { mode < 35 }
    requires low { 3 ≤ log2 }
    requires high { log2 ≤ 5 }
    requires whole { length refs.now ≡ 4 * 2 ^ log2 + 1 }
    requires block { length out.old ≡ 2 ^ log2 * 2 ^ log2 }
    ensures { out.new ≡ model.predict mode component log2 refs.now }
{
    match mode {
        0 => plain_block(Plain::Planar, component, log2, refs, out),
        1 => plain_block(Plain::Dc, component, log2, refs, out),
        10 => plain_block(Plain::Level, component, log2, refs, out),
        26 => plain_block(Plain::Upright, component, log2, refs, out),
        _ if mode < 18 => turned_block(mode, log2, refs, out),
        _ => slanted_block(true, mode, log2, refs, out),
    }
}
