//! Candidates for a mode, and the bins of a mode.
ghost use Rattle.std.specs.Prelude.{◌≡◌, ◌≢◌, ◌<◌, ◌≤◌, ◌∷◌, [], false};
ghost use Rattle.h265_model.specs.Plain.{context_bin};
ghost use Rattle.h265_model.specs.SyntaxElements.{prev_intra_luma_pred_flag};
ghost use Rattle.h265_model.specs.Binarise.{bypass_bins, fl};
ghost use Rattle.h265_model.specs.Modes as modes;
ghost use Rattle.h265_model.specs.Modes.{mode_items, index_items, remainder_of, AreCandidates};
ghost use Rattle.bin_items.specs.Growth.{IsOpen, Writes};
ghost use Rattle.h265_model.specs.Modes.{AreThree};

use arrayvec::ArrayVec;
use bin_items::{Bin, BinSink, NoMemory, Place, write_fl, write_tr};
use h265_model::syntax_elements::PREV_INTRA_LUMA_PRED_FLAG;

// The first of planar, DC and vertical that is neither of these.
fn other_than(a: u32, b: u32) -> u32
    ensures { result ≡ modes.other_than a b }
{
    if a != 0 && b != 0 {
        0
    } else if a != 1 && b != 1 {
        1
    } else {
        26
    }
}

/// The candidates that the modes on the left and above give (8.4.2, candModeList).
#[tactic(auto, unfolding(h265_model::specs::Modes::candidates))]
pub(crate) fn candidates_of(left: u32, above: u32) -> ArrayVec<u32, 3>
    requires { left < 256 }
    ensures { result.items ≡ modes.candidates left above }
{
    let mut list = ArrayVec::new();
    if left != above {
        list.push(left);
        list.push(above);
        list.push(other_than(left, above));
    } else if left < 2 {
        list.push(0);
        list.push(1);
        list.push(26);
    } else {
        list.push(left);
        list.push(2 + (left + 29) % 32);
        list.push(2 + (left - 1) % 32);
    }
    list
}

// Writes a mode that is in the list, by its number there.
fn write_index<S: BinSink>(sink: &mut S, index: u32) -> Result<(), NoMemory>
    requires index { index ≤ 2 }
    requires not_ended { IsOpen (S.phase sink.old) }
    ensures taken { Writes (index_items index) (S.stands_for sink.old) (S.stands_for sink.new) result }
    ensures not_ended { IsOpen (S.phase sink.new) }
{
    sink.bin(Bin {
        value: true,
        place: Place::Context(PREV_INTRA_LUMA_PRED_FLAG),
    })?;
    write_tr(sink, index, 0, 2)
}

// Writes a mode that isn't in the list, by its number among those that aren't.
fn write_remainder<S: BinSink>(sink: &mut S, remainder: u32) -> Result<(), NoMemory>
    requires remainder { remainder < 32 }
    requires not_ended { IsOpen (S.phase sink.old) }
    ensures taken { Writes (context_bin false prev_intra_luma_pred_flag ∷ bypass_bins (fl 5 remainder)) (S.stands_for sink.old) (S.stands_for sink.new) result }
    ensures not_ended { IsOpen (S.phase sink.new) }
{
    sink.bin(Bin {
        value: false,
        place: Place::Context(PREV_INTRA_LUMA_PRED_FLAG),
    })?;
    write_fl(sink, remainder, 5, 0)
}

// The number of a mode among those that aren't candidates.
fn remainder(mode: u32, a: u32, b: u32, c: u32) -> u32
    requires mode { mode < 35 }
    requires candidates { AreCandidates a b c }
    requires not_first { mode ≢ a }
    requires not_second { mode ≢ b }
    requires not_third { mode ≢ c }
    ensures value { result ≡ remainder_of mode (a ∷ b ∷ c ∷ []) }
    ensures small { result < 32 }
{
    mode - u32::from(a < mode) - u32::from(b < mode) - u32::from(c < mode)
}

/// Writes a mode below 35 (7.3.8.5): its number among three different candidates below 35 (prev_intra_luma_pred_flag and mpm_idx), or among the modes
/// that are no candidates (rem_intra_luma_pred_mode).
///
/// After `NoMemory` a front of these bins was taken.
pub fn write_mode<S: BinSink>(
    sink: &mut S,
    mode: u32,
    candidates: &ArrayVec<u32, 3>,
) -> Result<(), NoMemory>
    requires mode { mode < 35 }
    requires candidates { AreThree candidates.now.items }
    requires not_ended { IsOpen (S.phase sink.old) }
    ensures taken { Writes (mode_items mode candidates.now.items) (S.stands_for sink.old) (S.stands_for sink.new) result }
    ensures not_ended { IsOpen (S.phase sink.new) }
{
    let [a, b, c] = [candidates[0], candidates[1], candidates[2]];
    if mode == a {
        write_index(sink, 0)
    } else if mode == b {
        write_index(sink, 1)
    } else if mode == c {
        write_index(sink, 2)
    } else {
        write_remainder(sink, remainder(mode, a, b, c))
    }
}
