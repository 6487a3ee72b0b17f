//! Coding units.
ghost use Rattle.std.specs.Prelude.{◌≡◌, ◌==◌, ◌++◌, ◌∷◌, [], true, if◌then◌else◌, List, OnOk};
ghost use Rattle.h265_model.specs.declared.leaf.Leaf.{Leaf as TheLeaf};
ghost use Rattle.h265_model.specs.Plain.{context_bin};
ghost use Rattle.h265_model.specs.SyntaxElements.{pred_mode_flag};
ghost use Rattle.h265_model.specs.Tree.{coding_unit_items, content_items, in_P, is_skipped, skip_context, IsAllowed};
ghost use Rattle.bin_items.specs.Growth.{IsOpen, Writes};
ghost use Rattle.pu_code.specs.Cells.{StandsFor, IsUnit};
ghost use Rattle.coding_tree.specs.Units.{coded_items, part_items, rest_items};

use crate::flag::write_flag;
use crate::intra::write_intra;
use crate::pcm::write_pcm;
use crate::source::LevelSource;
use bin_items::{BinSink, Kind, Leaf, NoMemory};
use h265_model::SliceKind;
use h265_model::syntax_elements::{CU_TRANSQUANT_BYPASS_FLAG, PART_MODE, PRED_MODE_FLAG};
use pu_code::Grid;

// Writes cu_skip_flag, which P slices have.
fn write_skip_flag<S: BinSink>(
    sink: &mut S,
    kind: SliceKind,
    grid: &Grid,
    leaf: Leaf,
) -> Result<(), NoMemory>
    requires unit { IsUnit grid.now.size leaf }
    requires not_ended { IsOpen (S.phase sink.old) }
    ensures taken { (before : List TheLeaf) → StandsFor grid.now before →
        Writes (in_P kind (context_bin (is_skipped leaf.kind) (skip_context before leaf.block.x leaf.block.y) ∷ [])) (S.stands_for sink.old) (S.stands_for sink.new) result }
    ensures not_ended { IsOpen (S.phase sink.new) }
{
    match kind {
        SliceKind::I => Ok(()),
        SliceKind::P => {
            let context = grid.skip_context(leaf.block.x, leaf.block.y);
            write_flag(sink, leaf.kind == Kind::Skip, context)
        }
    }
}

// Writes pred_mode_flag, which P slices have: the unit isn't predicted from another picture.
fn write_pred_mode<S: BinSink>(sink: &mut S, kind: SliceKind) -> Result<(), NoMemory>
    requires not_ended { IsOpen (S.phase sink.old) }
    ensures taken { Writes (in_P kind (context_bin true pred_mode_flag ∷ [])) (S.stands_for sink.old) (S.stands_for sink.new) result }
    ensures not_ended { IsOpen (S.phase sink.new) }
{
    match kind {
        SliceKind::I => Ok(()),
        SliceKind::P => write_flag(sink, true, PRED_MODE_FLAG),
    }
}

// Writes part_mode, which units of the least side have: the unit isn't parted.
fn write_part_mode<S: BinSink>(sink: &mut S, log2: u32) -> Result<(), NoMemory>
    requires not_ended { IsOpen (S.phase sink.old) }
    ensures taken { Writes (part_items log2) (S.stands_for sink.old) (S.stands_for sink.new) result }
    ensures not_ended { IsOpen (S.phase sink.new) }
{
    if log2 == 3 {
        write_flag(sink, true, PART_MODE)
    } else {
        Ok(())
    }
}

// Writes a unit from pcm_flag on.
fn write_content<S: BinSink, V: LevelSource>(
    sink: &mut S,
    grid: &Grid,
    leaf: Leaf,
    source: &mut V,
) -> Result<(), NoMemory>
    requires unit { IsUnit grid.now.size leaf }
    requires not_ended { IsOpen (S.phase sink.old) }
    ensures taken { (before : List TheLeaf) → StandsFor grid.now before →
        Writes (content_items (V.source source.old) before leaf leaf.kind) (S.stands_for sink.old) (S.stands_for sink.new) result }
    ensures not_ended { OnOk result (IsOpen (S.phase sink.new)) }
    ensures source { V.source source.new ≡ V.source source.old }
{
    match leaf.kind {
        Kind::Skip => Ok(()),
        Kind::Pcm => write_pcm(sink, leaf, source),
        Kind::Intra(mode) => write_intra(sink, grid, leaf, mode, source),
    }
}

// Writes what follows cu_skip_flag, of a unit that is no copy.
fn write_coded<S: BinSink, V: LevelSource>(
    sink: &mut S,
    kind: SliceKind,
    grid: &Grid,
    leaf: Leaf,
    source: &mut V,
) -> Result<(), NoMemory>
    requires unit { IsUnit grid.now.size leaf }
    requires not_ended { IsOpen (S.phase sink.old) }
    ensures taken { (before : List TheLeaf) → StandsFor grid.now before →
        Writes (coded_items kind (V.source source.old) before leaf) (S.stands_for sink.old) (S.stands_for sink.new) result }
    ensures not_ended { OnOk result (IsOpen (S.phase sink.new)) }
    ensures source { V.source source.new ≡ V.source source.old }
{
    write_pred_mode(sink, kind)?;
    write_part_mode(sink, leaf.block.log2)?;
    write_content(sink, grid, leaf, source)
}

// Writes what follows cu_skip_flag.
fn write_rest<S: BinSink, V: LevelSource>(
    sink: &mut S,
    kind: SliceKind,
    grid: &Grid,
    leaf: Leaf,
    source: &mut V,
) -> Result<(), NoMemory>
    requires unit { IsUnit grid.now.size leaf }
    requires not_ended { IsOpen (S.phase sink.old) }
    ensures taken { (before : List TheLeaf) → StandsFor grid.now before →
        Writes (rest_items kind (V.source source.old) before leaf) (S.stands_for sink.old) (S.stands_for sink.new) result }
    ensures not_ended { OnOk result (IsOpen (S.phase sink.new)) }
    ensures source { V.source source.new ≡ V.source source.old }
{
    if leaf.kind == Kind::Skip {
        return Ok(());
    }
    write_coded(sink, kind, grid, leaf, source)
}

/// Writes a coding unit with the source's levels or samples (7.3.8.5), and then sets it in the grid.
///
/// It lies in the coded picture of the grid's size, at multiples of its side, and an I slice has no copies. After `NoMemory` a front of its
/// bins and samples was taken, and it may or may not be set.
pub fn write_leaf<S: BinSink, V: LevelSource>(
    sink: &mut S,
    kind: SliceKind,
    grid: &mut Grid,
    leaf: Leaf,
    source: &mut V,
) -> Result<(), NoMemory>
    requires unit { IsUnit grid.old.size leaf }
    requires allowed { IsAllowed kind leaf.kind }
    requires not_ended { IsOpen (S.phase sink.old) }
    ensures taken { (before : List TheLeaf) → StandsFor grid.old before →
        Writes (coding_unit_items kind (V.source source.old) before leaf) (S.stands_for sink.old) (S.stands_for sink.new) result }
    ensures not_ended { OnOk result (IsOpen (S.phase sink.new)) }
    ensures set { OnOk result ((before : List TheLeaf) → StandsFor grid.old before → StandsFor grid.new (before ++ leaf ∷ [])) }
    ensures size { grid.new.size ≡ grid.old.size }
    ensures source { V.source source.new ≡ V.source source.old }
{
    write_flag(sink, true, CU_TRANSQUANT_BYPASS_FLAG)?;
    write_skip_flag(sink, kind, grid, leaf)?;
    write_rest(sink, kind, grid, leaf, source)?;
    grid.set(leaf);
    Ok(())
}
