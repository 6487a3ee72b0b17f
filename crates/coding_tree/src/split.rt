//! Whether a block is split.
ghost use Rattle.std.specs.Prelude.{◌<◌, ◌≤◌, ◌≡◌, List};
ghost use Rattle.h265_model.specs.declared.leaf.Leaf.{Leaf as TheLeaf};
ghost use Rattle.h265_model.specs.Plain.{coded};
ghost use Rattle.bin_items.specs.Growth.{IsOpen, Writes};
ghost use Rattle.pu_code.specs.Cells.{StandsFor};
ghost use Rattle.coding_tree.specs.Splits.{split_items, MayBeSplit};

use bin_items::{Bin, BinSink, NoMemory, Place};
use h265_model::CodingBlock;
use pu_code::Grid;
use px_plane::Size;

/// Writes split_cu_flag of a block, or nothing where it is inferred (7.3.8.4).
///
/// The block begins in the coded picture of this size, which is the grid's, and the base-2 logarithm of the side is from 3 to 5. The flag is inferred where
/// the side is 8, as not split, and where the block isn't wholly in the coded picture, as split; `split` is then the value inferred.
/// After `NoMemory` nothing was taken.
pub fn write_split<S: BinSink>(
    sink: &mut S,
    grid: &Grid,
    size: Size,
    block: CodingBlock,
    split: bool,
) -> Result<(), NoMemory>
    requires size { grid.now.size ≡ size }
    requires across { block.x < coded size.w }
    requires down { block.y < coded size.h }
    requires low { 3 ≤ block.log2 }
    requires high { block.log2 ≤ 5 }
    requires may_be { MayBeSplit size block split }
    requires not_ended { IsOpen (S.phase sink.old) }
    ensures taken { (before : List TheLeaf) → StandsFor grid.now before → Writes (split_items size before block split) (S.stands_for sink.old) (S.stands_for sink.new) result }
    ensures not_ended { IsOpen (S.phase sink.new) }
{
    let side = 1 << block.log2;
    let is_whole = block.x + side <= coded_side(size.w()) && block.y + side <= coded_side(size.h());
    if block.log2 == 3 || !is_whole {
        return Ok(());
    }
    sink.bin(Bin {
        value: split,
        place: Place::Context(grid.split_context(block)),
    })
}

// A side made whole blocks of 8.
fn coded_side(side: u32) -> u32
    requires { side ≤ 4096 }
    ensures { result ≡ coded side }
{
    (side + 7) / 8 * 8
}
