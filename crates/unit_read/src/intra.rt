//! The mode and the levels of an intra unit.
ghost use Rattle.std.specs.Prelude.{◌≡◌, ◌<◌, ℕ, List, IfSome};
ghost use Rattle.h265_model.specs.Modes.{AreThree};
ghost use Rattle.h265_model.specs.Motion.{Moving, leaves};
ghost use Rattle.h265_model.specs.Tree.{intra_read, candidates_at};
ghost use Rattle.h265_model.specs.declared.block.CodingBlock.{CodingBlock};
ghost use Rattle.cabac_dec.specs.State.{IsOpen, Answers};
ghost use Rattle.unit_read.specs.Intra.{flags_read, planes_read, intra_of, GivesThree, GivesIntra};

use crate::component::read_component;
use crate::mode::read_mode;
use arrayvec::ArrayVec;
use bin_items::Block;
use cabac_dec::{Decoder, Place};
use h265_model::syntax_elements::{CBF_CB, CBF_CR, CBF_LUMA, INTRA_CHROMA_PRED_MODE};

/// Which components have levels other than 0: cbf_cb, cbf_cr and cbf_luma.
#[derive(Clone, Copy)]
pub(crate) struct Flags {
    pub cb: bool,
    pub cr: bool,
    pub luma: bool,
}

// Reads intra_chroma_pred_mode, which has to choose the luma mode, and the flags.
fn read_flags(decoder: &mut Decoder) -> Option<Flags>
    requires open { IsOpen decoder.old }
    ensures value { Answers result (flags_read decoder.old) decoder.new }
    ensures open { IfSome result (λ _. IsOpen decoder.new) }
{
    if decoder.bin(Place::Context(INTRA_CHROMA_PRED_MODE))? {
        return None;
    }
    let cb = decoder.bin(Place::Context(CBF_CB))?;
    let cr = decoder.bin(Place::Context(CBF_CR))?;
    let luma = decoder.bin(Place::Context(CBF_LUMA))?;
    Some(Flags { cb, cr, luma })
}

// Reads the levels of the three components.
fn read_planes(
    decoder: &mut Decoder,
    mode: u32,
    flags: Flags,
    first: &mut Block,
    second: &mut Block,
    third: &mut Block,
) -> Option<()>
    requires open { IsOpen decoder.old }
    requires second { second.old.log2 ≡ first.old.log2 }
    requires third { third.old.log2 ≡ first.old.log2 }
    ensures value { GivesThree result first.new.levels second.new.levels third.new.levels (planes_read first.old.log2 mode flags decoder.old) decoder.new }
    ensures open { IfSome result (λ _. IsOpen decoder.new) }
    ensures first { first.new.log2 ≡ first.old.log2 }
    ensures second { second.new.log2 ≡ second.old.log2 }
    ensures third { third.new.log2 ≡ third.old.log2 }
{
    read_component(decoder, 0, mode, flags.luma, first)?;
    read_component(decoder, 1, mode, flags.cb, second)?;
    read_component(decoder, 2, mode, flags.cr, third)?;
    Some(())
}

/// Reads the mode of an intra unit, by three candidates, and the levels of its components, which fill three blocks of its side (7.3.8.10 without a split).
/// It answers nothing exactly where the bins end, the chroma mode isn't the luma mode, or a level isn't from -255 to 255.
pub(crate) fn read_intra(
    decoder: &mut Decoder,
    candidates: &ArrayVec<u32, 3>,
    first: &mut Block,
    second: &mut Block,
    third: &mut Block,
) -> Option<u32>
    requires open { IsOpen decoder.old }
    requires candidates { AreThree candidates.now.items }
    requires second { second.old.log2 ≡ first.old.log2 }
    requires third { third.old.log2 ≡ first.old.log2 }
    ensures value { GivesIntra result first.new.levels second.new.levels third.new.levels (intra_of candidates.now.items first.old.log2 decoder.old) decoder.new }
    ensures unit { (before : List Moving) (block : CodingBlock) → block.log2 ≡ first.old.log2 → candidates.now.items ≡ candidates_at (leaves before) block.x block.y
        → GivesIntra result first.new.levels second.new.levels third.new.levels (intra_read before block decoder.old) decoder.new }
    ensures open { IfSome result (λ _. IsOpen decoder.new) }
    ensures mode { IfSome result (λ mode. mode < 35) }
    ensures first { first.new.log2 ≡ first.old.log2 }
    ensures second { second.new.log2 ≡ second.old.log2 }
    ensures third { third.new.log2 ≡ third.old.log2 }
{
    let mode = read_mode(decoder, candidates)?;
    let flags = read_flags(decoder)?;
    read_planes(decoder, mode, flags, first, second, third)?;
    Some(mode)
}
