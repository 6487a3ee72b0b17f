//! Modes.
ghost use Rattle.std.specs.Prelude.{◌≡◌, ◌<◌, ◌≤◌, ◌+◌, ◌∷◌, [], IfSome, if◌then◌else◌, nat_le, suc};
ghost use Rattle.h265_model.specs.Modes as modes;
ghost use Rattle.h265_model.specs.Modes.{mode_read, mode_with, AreThree};
ghost use Rattle.h265_model.specs.Binarise.{tr_read};
ghost use Rattle.h265_model.specs.declared.Place.TheVariants as places;
ghost use Rattle.cabac_dec.specs.State.{IsOpen, Answers};

use arrayvec::ArrayVec;
use cabac_dec::{Decoder, Place};
use h265_model::syntax_elements::PREV_INTRA_LUMA_PRED_FLAG;

// Reads mpm_idx: ones, at most two, and the zero after fewer.
fn read_index(decoder: &mut Decoder) -> Option<u32>
    requires open { IsOpen decoder.old }
    ensures value { Answers result (tr_read (λ _. places.Bypass) 2 decoder.old) decoder.new }
    ensures open { IfSome result (λ _. IsOpen decoder.new) }
    ensures most { IfSome result (λ index. index ≤ 2) }
{
    if !decoder.bin(Place::Bypass)? {
        return Some(0);
    }
    if decoder.bin(Place::Bypass)? {
        Some(2)
    } else {
        Some(1)
    }
}

// The mode after this one, where it doesn't stand before a candidate.
#[inline(always)]
fn past(candidate: u32, mode: u32) -> u32
    requires { mode < 40 }
    ensures value { result ≡ modes.past candidate mode }
    ensures most { result ≤ mode + 1 }
{
    if candidate <= mode { mode + 1 } else { mode }
}

// The mode that is no candidate, by its number among those (8.4.2).
fn mode_of(remainder: u32, a: u32, b: u32, c: u32) -> u32
    requires few { remainder < 32 }
    requires a { a < 35 }
    requires b { b < 35 }
    requires c { c < 35 }
    ensures value { result ≡ mode_with remainder (a ∷ b ∷ c ∷ []) }
    ensures below { result < 35 }
{
    let low = a.min(b.min(c));
    let high = a.max(b.max(c));
    let middle = a + b + c - low - high;
    past(high, past(middle, past(low, remainder)))
}

/// Reads a mode by three candidates (prev_intra_luma_pred_flag, and mpm_idx or rem_intra_luma_pred_mode, 7.3.8.5). It answers nothing exactly where the
/// bins end.
pub(crate) fn read_mode(decoder: &mut Decoder, candidates: &ArrayVec<u32, 3>) -> Option<u32>
    requires open { IsOpen decoder.old }
    requires candidates { AreThree candidates.now.items }
    ensures value { Answers result (mode_read candidates.now.items decoder.old) decoder.new }
    ensures open { IfSome result (λ _. IsOpen decoder.new) }
    ensures below { IfSome result (λ mode. mode < 35) }
{
    if decoder.bin(Place::Context(PREV_INTRA_LUMA_PRED_FLAG))? {
        let index = read_index(decoder)?;
        return Some(candidates[index as usize]);
    }
    let remainder = decoder.bypass(5)?;
    let [a, b, c] = [candidates[0], candidates[1], candidates[2]];
    Some(mode_of(remainder, a, b, c))
}
