//! Coding trees.
ghost use Rattle.std.specs.Prelude.{◌≡◌, ◌<◌, ◌≤◌, ◌++◌, ◌∷◌, [], List, OnOk};
ghost use Rattle.h265_model.specs.declared.leaf.Leaf.{Leaf as TheLeaf};
ghost use Rattle.h265_model.specs.Tiles.{tile_count};
ghost use Rattle.h265_model.specs.Tree.{leaf_units, ctu_items, IsLawfulTree, AreAllowed, IsAllowed};
ghost use Rattle.bin_items.specs.Growth.{IsOpen, Writes};
ghost use Rattle.pu_code.specs.Cells.{StandsFor, IsUnit};
ghost use Rattle.coding_tree.specs.UnitFlags.{begins, flag_items, flags_items, unit_items};

use crate::leaf::write_leaf;
use crate::source::LevelSource;
use crate::split::write_split;
use bin_items::{BinSink, Leaf, NoMemory};
use h265_model::{CodingBlock, SliceKind};
use pu_code::Grid;
use px_plane::Size;

/// Writes a coding tree unit with the source's levels and samples (7.3.8.2), and sets its coding units in the grid.
///
/// `ctu` is its number in the picture of this size, which is the grid's, in rows from the top. The `leaves` are those of its coding tree, in coding order; an I
/// slice has no copies. After `NoMemory` a front of the bins and samples was taken, and some of the leaves may be set.
pub fn write_ctu<S: BinSink, V: LevelSource>(
    sink: &mut S,
    kind: SliceKind,
    grid: &mut Grid,
    size: Size,
    ctu: u32,
    leaves: &[Leaf],
    source: &mut V,
) -> Result<(), NoMemory>
    requires size { grid.old.size ≡ size }
    requires ctu { ctu < tile_count size }
    requires tree { IsLawfulTree size ctu leaves.now }
    requires allowed { AreAllowed kind leaves.now }
    requires not_ended { IsOpen (S.phase sink.old) }
    ensures taken { (before : List TheLeaf) → StandsFor grid.old before →
        Writes (ctu_items (leaf_units kind (V.source source.old)) size before leaves.now ctu) (S.stands_for sink.old) (S.stands_for sink.new) result }
    ensures not_ended { OnOk result (IsOpen (S.phase sink.new)) }
    ensures set { OnOk result ((before : List TheLeaf) → StandsFor grid.old before → StandsFor grid.new (before ++ leaves.now)) }
    ensures size { grid.new.size ≡ grid.old.size }
    ensures source { V.source source.new ≡ V.source source.old }
{
    for leaf in leaves {
        write_unit(sink, kind, grid, size, *leaf, source)?;
    }
    Ok(())
}

// Writes a coding unit with the flags of the blocks that begin with it, and then sets it in the grid.
fn write_unit<S: BinSink, V: LevelSource>(
    sink: &mut S,
    kind: SliceKind,
    grid: &mut Grid,
    size: Size,
    leaf: Leaf,
    source: &mut V,
) -> Result<(), NoMemory>
    requires size { grid.old.size ≡ size }
    requires unit { IsUnit size leaf }
    requires allowed { IsAllowed kind leaf.kind }
    requires not_ended { IsOpen (S.phase sink.old) }
    ensures taken { (before : List TheLeaf) → StandsFor grid.old before →
        Writes (unit_items kind size (V.source source.old) before leaf) (S.stands_for sink.old) (S.stands_for sink.new) result }
    ensures not_ended { OnOk result (IsOpen (S.phase sink.new)) }
    ensures set { OnOk result ((before : List TheLeaf) → StandsFor grid.old before → StandsFor grid.new (before ++ leaf ∷ [])) }
    ensures size { grid.new.size ≡ grid.old.size }
    ensures source { V.source source.new ≡ V.source source.old }
{
    write_split_flags(sink, grid, size, leaf)?;
    write_leaf(sink, kind, grid, leaf, source)
}

/// Writes split_cu_flag of the blocks that begin with a coding unit, from that of the largest on (7.3.8.4).
///
/// The unit lies in the coded picture of this size, which is the grid's, at multiples of its side, and it is the next one of a lawful coding tree. After
/// `NoMemory` a front of the flags was taken.
pub fn write_split_flags<S: BinSink>(
    sink: &mut S,
    grid: &Grid,
    size: Size,
    leaf: Leaf,
) -> Result<(), NoMemory>
    requires size { grid.now.size ≡ size }
    requires unit { IsUnit size leaf }
    requires not_ended { IsOpen (S.phase sink.old) }
    ensures taken { (before : List TheLeaf) → StandsFor grid.now before → Writes (flags_items size before leaf) (S.stands_for sink.old) (S.stands_for sink.new) result }
    ensures not_ended { IsOpen (S.phase sink.new) }
{
    write_split_flag(sink, grid, size, leaf, 5)?;
    write_split_flag(sink, grid, size, leaf, 4)
}

// Writes the flag of the block of this side, where one begins with this unit.
fn write_split_flag<S: BinSink>(
    sink: &mut S,
    grid: &Grid,
    size: Size,
    leaf: Leaf,
    log2: u32,
) -> Result<(), NoMemory>
    requires size { grid.now.size ≡ size }
    requires unit { IsUnit size leaf }
    requires low { 4 ≤ log2 }
    requires high { log2 ≤ 5 }
    requires not_ended { IsOpen (S.phase sink.old) }
    ensures taken { (before : List TheLeaf) → StandsFor grid.now before → Writes (flag_items size before leaf log2) (S.stands_for sink.old) (S.stands_for sink.new) result }
    ensures not_ended { IsOpen (S.phase sink.new) }
{
    if !is_first(leaf, log2) {
        return Ok(());
    }
    let block = CodingBlock {
        x: leaf.block.x,
        y: leaf.block.y,
        log2,
    };
    write_split(sink, grid, size, block, leaf.block.log2 < log2)
}

// Whether a block of this side begins with the unit: the unit is no larger, and its place is a multiple of the side.
fn is_first(leaf: Leaf, log2: u32) -> bool
    requires { log2 ≤ 5 }
    ensures { result ≡ begins leaf log2 }
{
    let side = 1 << log2;
    leaf.block.log2 <= log2 && leaf.block.x % side == 0 && leaf.block.y % side == 0
}
