//! The coding units of a picture that are coded already.
ghost use Rattle.std.specs.Prelude.{◌≡◌, ℕ, ◌+◌, ◌*◌, ◌-◌, ◌%◌, ◌<◌, ◌≤◌, ◌==◌, if◌then◌else◌, List, [], ◌∷◌, ◌++◌, IfOk, IsTrue};
ghost use Rattle.h265_model.specs.declared.leaf.Leaf.{Leaf as TheLeaf};
ghost use Rattle.h265_model.specs.Plain.{coded};
ghost use Rattle.h265_model.specs.SyntaxElements.{cu_skip_flag, split_cu_flag};
ghost use Rattle.h265_model.specs.Tree as tree;
ghost use Rattle.h265_model.specs.Modes.{AreThree};
ghost use Rattle.pu_code.specs.Cells.{blocks, cell_at, kept_of, mode_kept, StandsFor, IsUnit};

use crate::cell::{Cell, DC, candidate, fill_square, is_copy, is_smaller};
use crate::mode::candidates_of;
use arrayvec::ArrayVec;
use bin_items::{Leaf, NoMemory};
use h265_model::CodingBlock;
use h265_model::syntax_elements::{CU_SKIP_FLAG, SPLIT_CU_FLAG};
use px_plane::Size;
use std::alloc::Global;
use std::marker::Model;

/// What is kept of the coding units that were set, for each block of 8x8 of a picture.
///
/// It stands for the list of these units in the order in which they were set. Where two cover a place, the first counts.
#[derive(Debug, Drop)]
pub struct Grid {
    size: Size,
    // In rows from the top.
    cells: Vec<Option<Cell>>,
}

impl Model for Grid {
    ghost use Rattle.pu_code.specs.Cells.{Cells, AreCells};

    ghost Value = { Cells };

    ghost view = { λ g. record { size = g.size; cells = g.cells.items } };

    ghost invariant = { λ g. AreCells (record { size = g.size; cells = g.cells.items }) };
}

// How many blocks of 8 cover a side.
fn blocks_of(side: u32) -> usize
    requires { side ≤ 4096 }
    ensures value { result ≡ blocks side }
    ensures few { result ≤ 512 }
{
    ((side + 7) / 8) as usize
}

impl Grid {
    /// A grid for a picture of this size. No unit is set.
    ///
    /// # Errors
    ///
    /// `NoMemory` where the allocator refuses the cells.
    pub fn new(alloc: Global, size: Size) -> Result<Grid, NoMemory>
        ensures size { IfOk result (λ g. g.size ≡ size) }
        ensures empty { IfOk result (λ g. StandsFor g []) }
    {
        let area = blocks_of(size.w()) * blocks_of(size.h());
        let cells = vec![in alloc; None; area]?;
        Ok(Grid { size, cells })
    }

    /// Sets a unit. It lies in the coded picture, at multiples of its side, which is 8, 16 or 32, and its mode is below 35.
    pub fn set(&mut self, leaf: Leaf)
        requires { IsUnit self.old.size leaf }
        ensures size { self.new.size ≡ self.old.size }
        ensures set { (leaves : List TheLeaf) → StandsFor self.old leaves → StandsFor self.new (leaves ++ leaf ∷ []) }
    {
        let columns = blocks_of(self.size.w());
        let left = (leaf.block.x / 8) as usize;
        let top = (leaf.block.y / 8) as usize;
        let side = 1 << (leaf.block.log2 - 3);
        fill_square(&mut self.cells, columns, left, top, side, Cell::of(leaf));
    }

    // What is kept of the block with this place.
    #[inline(always)]
    fn cell(&self, x: u32, y: u32) -> Option<Cell>
        requires across { x < coded self.now.size.w }
        requires down { y < coded self.now.size.h }
        ensures value { result ≡ cell_at self.now x y }
        ensures mode { mode_kept result < 35 }
    {
        let columns = blocks_of(self.size.w());
        self.cells[(y / 8) as usize * columns + (x / 8) as usize]
    }

    // What is kept of the unit on the left of a place.
    #[inline(always)]
    fn left_of(&self, x: u32, y: u32) -> Option<Cell>
        requires across { x < coded self.now.size.w }
        requires down { y < coded self.now.size.h }
        ensures value { (leaves : List TheLeaf) → StandsFor self.now leaves → result ≡ kept_of (tree.left_of leaves x y) }
        ensures mode { mode_kept result < 35 }
    {
        if x == 0 {
            return None;
        }
        self.cell(x - 1, y)
    }

    // What is kept of the unit above a place.
    #[inline(always)]
    fn above(&self, x: u32, y: u32) -> Option<Cell>
        requires across { x < coded self.now.size.w }
        requires down { y < coded self.now.size.h }
        ensures value { (leaves : List TheLeaf) → StandsFor self.now leaves → result ≡ kept_of (tree.above leaves x y) }
        ensures mode { mode_kept result < 35 }
    {
        if y == 0 {
            return None;
        }
        self.cell(x, y - 1)
    }

    // The candidate that the unit above a place gives. It counts only in the same row of coding tree units.
    #[inline(always)]
    fn candidate_above(&self, x: u32, y: u32) -> u32
        requires across { x < coded self.now.size.w }
        requires down { y < coded self.now.size.h }
        ensures value { (leaves : List TheLeaf) → StandsFor self.now leaves → result ≡ (if y % 32 == 0 then 1 else tree.candidate (tree.above leaves x y)) }
        ensures mode { result < 35 }
    {
        if y % 32 == 0 {
            return DC;
        }
        candidate(self.above(x, y))
    }

    /// The candidate modes of a unit at a place of the coded picture (8.4.2). The unit above counts only in the same row of coding tree units.
    pub fn candidates(&self, x: u32, y: u32) -> ArrayVec<u32, 3>
        requires across { x < coded self.now.size.w }
        requires down { y < coded self.now.size.h }
        ensures value { (leaves : List TheLeaf) → StandsFor self.now leaves → result.items ≡ tree.candidates_at leaves x y }
        ensures three { AreThree result.items }
    {
        let left = candidate(self.left_of(x, y));
        candidates_of(left, self.candidate_above(x, y))
    }

    /// The context of cu_skip_flag of a unit at a place of the coded picture, by the units on the left and above that are copies (9.3.4.2.2).
    pub fn skip_context(&self, x: u32, y: u32) -> u32
        requires across { x < coded self.now.size.w }
        requires down { y < coded self.now.size.h }
        ensures value { (leaves : List TheLeaf) → StandsFor self.now leaves → result ≡ tree.skip_context leaves x y }
        ensures low { cu_skip_flag ≤ result }
        ensures high { result ≤ cu_skip_flag + 2 }
    {
        CU_SKIP_FLAG + u32::from(is_copy(self.left_of(x, y))) + u32::from(is_copy(self.above(x, y)))
    }

    /// The context of split_cu_flag of a block that begins in the coded picture, by the units on the left and above that are deeper in their tree than
    /// the block (9.3.4.2.2).
    pub fn split_context(&self, block: CodingBlock) -> u32
        requires across { block.x < coded self.now.size.w }
        requires down { block.y < coded self.now.size.h }
        ensures value { (leaves : List TheLeaf) → StandsFor self.now leaves → result ≡ tree.split_context leaves block }
        ensures low { split_cu_flag ≤ result }
        ensures high { result ≤ split_cu_flag + 2 }
    {
        let left = is_smaller(self.left_of(block.x, block.y), block.log2);
        let above = is_smaller(self.above(block.x, block.y), block.log2);
        SPLIT_CU_FLAG + u32::from(left) + u32::from(above)
    }
}
