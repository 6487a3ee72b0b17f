//! Coding units with an intra mode (7.3.8.5, 7.3.8.8 and 7.3.8.10).
ghost use Rattle.std.specs.Prelude.{◌≡◌, ◌<◌, ◌≤◌, ◌++◌, ◌∷◌, [], List, Bool, false};
ghost use Rattle.h265_model.specs.declared.leaf.Kind.TheVariants.{Intra};
ghost use Rattle.h265_model.specs.declared.leaf.Leaf.{Leaf as TheLeaf};
ghost use Rattle.h265_model.specs.Plain.{context_bin, terminate_bin};
ghost use Rattle.h265_model.specs.Modes.{mode_items};
ghost use Rattle.h265_model.specs.Residual as residual;
ghost use Rattle.h265_model.specs.Residual.{AreLevels};
ghost use Rattle.h265_model.specs.Tree.{candidates_at, content_items};
ghost use Rattle.bin_items.specs.Growth.{IsOpen, Writes};
ghost use Rattle.pu_code.specs.Cells.{StandsFor, IsUnit};
ghost use Rattle.coding_tree.specs.Filled.{HasLevels};
ghost use Rattle.coding_tree.specs.Units.{coded_flags, block_items};

use crate::flag::write_flag;
use crate::source::LevelSource;
use bin_items::{Bin, BinSink, Block, Leaf, NoMemory, Place};
use h265_model::syntax_elements::{CBF_CB, CBF_CR, CBF_LUMA, INTRA_CHROMA_PRED_MODE};
use pu_code::{Grid, write_mode};
use residual_code::{cbf, write_residual};
use scan_orders::scan_kind;

// The levels of a component.
#[inline(always)]
fn levels_of<V: LevelSource>(source: &mut V, leaf: Leaf, component: u32) -> Block
    requires low { 3 ≤ leaf.block.log2 }
    requires high { leaf.block.log2 ≤ 5 }
    requires component { component < 3 }
    ensures levels { HasLevels (V.source source.old) leaf component result }
    ensures kept { V.source source.new ≡ V.source source.old }
{
    let mut block = Block::zero(leaf.block.log2);
    source.levels(leaf, component, &mut block);
    block
}

// Writes pcm_flag 0 and the mode.
fn write_prediction<S: BinSink>(
    sink: &mut S,
    grid: &Grid,
    leaf: Leaf,
    mode: u32,
) -> Result<(), NoMemory>
    requires unit { IsUnit grid.now.size leaf }
    requires mode { mode < 35 }
    requires not_ended { IsOpen (S.phase sink.old) }
    ensures taken { (before : List TheLeaf) → StandsFor grid.now before →
        Writes (terminate_bin false ∷ mode_items mode (candidates_at before leaf.block.x leaf.block.y)) (S.stands_for sink.old) (S.stands_for sink.new) result }
    ensures not_ended { IsOpen (S.phase sink.new) }
{
    sink.bin(Bin {
        value: false,
        place: Place::Terminate,
    })?;
    write_mode(sink, mode, &grid.candidates(leaf.block.x, leaf.block.y))
}

// Writes that the chroma components have the luma mode (intra_chroma_pred_mode), and which components have levels (cbf_cb, cbf_cr and cbf_luma).
fn write_coded_flags<S: BinSink>(
    sink: &mut S,
    luma: bool,
    cb: bool,
    cr: bool,
) -> Result<(), NoMemory>
    requires not_ended { IsOpen (S.phase sink.old) }
    ensures taken { Writes (coded_flags luma cb cr) (S.stands_for sink.old) (S.stands_for sink.new) result }
    ensures not_ended { IsOpen (S.phase sink.new) }
{
    write_flag(sink, false, INTRA_CHROMA_PRED_MODE)?;
    write_flag(sink, cb, CBF_CB)?;
    write_flag(sink, cr, CBF_CR)?;
    write_flag(sink, luma, CBF_LUMA)
}

// Writes a component's levels, where one isn't 0.
fn write_block<S: BinSink>(
    sink: &mut S,
    block: &Block,
    component: u32,
    scan: u32,
    coded: bool,
) -> Result<(), NoMemory>
    requires component { component < 3 }
    requires scan { scan < 3 }
    requires bounds { AreLevels block.now.levels }
    requires coded { coded ≡ residual.cbf block.now.levels }
    requires not_ended { IsOpen (S.phase sink.old) }
    ensures taken { Writes (block_items scan component block.now) (S.stands_for sink.old) (S.stands_for sink.new) result }
    ensures not_ended { IsOpen (S.phase sink.new) }
{
    if !coded {
        return Ok(());
    }
    write_residual(sink, block, component, scan)
}

/// Writes a unit's mode, below 35, and its levels: pcm_flag 0, the mode, which components have levels, and these.
pub(crate) fn write_intra<S: BinSink, V: LevelSource>(
    sink: &mut S,
    grid: &Grid,
    leaf: Leaf,
    mode: u32,
    source: &mut V,
) -> Result<(), NoMemory>
    requires unit { IsUnit grid.now.size leaf }
    requires mode { mode < 35 }
    requires not_ended { IsOpen (S.phase sink.old) }
    ensures taken { (before : List TheLeaf) → StandsFor grid.now before →
        Writes (content_items (V.source source.old) before leaf (Intra mode)) (S.stands_for sink.old) (S.stands_for sink.new) result }
    ensures not_ended { IsOpen (S.phase sink.new) }
    ensures source { V.source source.new ≡ V.source source.old }
{
    let luma = levels_of(source, leaf, 0);
    let cb = levels_of(source, leaf, 1);
    let cr = levels_of(source, leaf, 2);
    let (has_luma, has_cb, has_cr) = (cbf(&luma), cbf(&cb), cbf(&cr));
    write_prediction(sink, grid, leaf, mode)?;
    write_coded_flags(sink, has_luma, has_cb, has_cr)?;
    let scan = scan_kind(mode, leaf.block.log2);
    write_block(sink, &luma, 0, scan, has_luma)?;
    write_block(sink, &cb, 1, scan, has_cb)?;
    write_block(sink, &cr, 2, scan, has_cr)
}
