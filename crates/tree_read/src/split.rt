//! Whether a block is split.
ghost use Rattle.std.specs.Prelude.{◌≡◌, ◌<◌, ◌≤◌, ◌+◌, ◌%◌, ◌^◌, true, false, List, IfSome};
ghost use Rattle.h265_model.specs.declared.leaf.Leaf.{Leaf as TheLeaf};
ghost use Rattle.h265_model.specs.Plain.{coded};
ghost use Rattle.h265_model.specs.Tree as tree;
ghost use Rattle.h265_model.specs.Predict as predict;
ghost use Rattle.pu_code.specs.Cells.{StandsFor};
ghost use Rattle.cabac_dec.specs.State.{IsOpen, Answers};
ghost use Rattle.tree_read.specs.Blocks.{split_read, IsWhole};

use cabac_dec::{Decoder, Place};
use h265_model::CodingBlock;
use pu_code::Grid;
use px_plane::Size;

// A side made whole blocks of 8.
fn coded_side(side: u32) -> u32
    requires { side ≤ 4096 }
    ensures value { result ≡ coded side }
    ensures low { result ≤ 4096 }
{
    (side + 7) / 8 * 8
}

/// The side of a block at this depth above the least.
pub(crate) fn side(depth: u32) -> u32
    requires { depth < 3 }
    ensures value { result ≡ 2 ^ (3 + depth) }
    ensures few { result ≤ 32 }
{
    match depth {
        0 => 8,
        1 => 16,
        _ => 32,
    }
}

// Whether a block of side `n` lies wholly in the coded picture.
fn is_whole(size: Size, n: u32, x: u32, y: u32) -> bool
    requires n { n ≤ 32 }
    requires across { x ≤ 4096 }
    requires down { y ≤ 4096 }
    ensures { result ≡ tree.is_whole size n x y }
{
    let (wide, tall) = (coded_side(size.w()), coded_side(size.h()));
    x + n <= wide && y + n <= tall
}

/// Whether a place is in the coded picture.
pub(crate) fn is_inside(size: Size, x: u32, y: u32) -> bool
    ensures { result ≡ predict.is_inside size x y }
{
    let (wide, tall) = (coded_side(size.w()), coded_side(size.h()));
    x < wide && y < tall
}

/// Reads whether a block in the picture, of side 2^(3 + `depth`), is split: split_cu_flag, or what it is inferred to be.
pub(crate) fn read_split(
    decoder: &mut Decoder,
    size: Size,
    grid: &Grid,
    depth: u32,
    x: u32,
    y: u32,
) -> Option<bool>
    requires open { IsOpen decoder.old }
    requires grid { grid.now.size ≡ size }
    requires few { depth < 3 }
    requires column { x % 2 ^ (3 + depth) ≡ 0 }
    requires row { y % 2 ^ (3 + depth) ≡ 0 }
    requires across { x < coded size.w }
    requires down { y < coded size.h }
    ensures value { (leaves : List TheLeaf) → StandsFor grid.now leaves → Answers result (split_read size leaves depth x y decoder.old) decoder.new }
    ensures open { IfSome result (λ _. IsOpen decoder.new) }
    ensures whole { IfSome result (λ split. split ≡ false → IsWhole size (3 + depth) x y) }
    ensures deep { IfSome result (λ split. split ≡ true → 0 < depth) }
{
    if depth == 0 {
        return Some(false);
    }
    let n = side(depth);
    let _wide = (coded_side(size.w()), coded_side(size.h()));
    if !is_whole(size, n, x, y) {
        return Some(true);
    }
    let block = CodingBlock {
        x,
        y,
        log2: 3 + depth,
    };
    decoder.bin(Place::Context(grid.split_context(block)))
}
