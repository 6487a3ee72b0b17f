//! The motion of the coding units of a picture that are coded already.
ghost use Rattle.std.specs.Prelude.{◌≡◌, ℕ, ◌+◌, ◌*◌, ◌%◌, ◌^◌, ◌<◌, ◌≤◌, List, [], ◌∷◌, ◌++◌, IfOk, option_map};
ghost use Rattle.h265_model.specs.declared.leaf.Kind.{Kind};
ghost use Rattle.h265_model.specs.Plain.{coded};
ghost use Rattle.h265_model.specs.Motion as motion;
ghost use Rattle.h265_model.specs.Motion.{Moving};
ghost use Rattle.motion_grid.specs.Cells.{blocks, cell_at, kept_before, unit_at, HasMotion, coded_unit};

use crate::cells::{Cell, empty, fill_square};
use crate::neighbours::{CodedVectors, merge_vector, side, two_of};
use h265_model::{CodingBlock, NoMemory, Vector};
use px_plane::Size;
use std::alloc::Global;
use std::marker::Model;

/// What is kept of the motion of the coding units that were set, for each block of 8x8 of a picture.
///
/// It stands for the list of these units in the order in which they were set. Where two cover a place, the first counts.
#[derive(Debug, Drop)]
pub struct MotionGrid {
    size: Size,
    // In rows from the top.
    cells: Vec<Option<Cell>>,
}

impl Model for MotionGrid {
    ghost use Rattle.motion_grid.specs.Cells.{Cells, AreCells};

    ghost Value = { Cells };

    ghost view = { λ g. record { size = g.size; cells = g.cells.items } };

    ghost invariant = { λ g. AreCells (record { size = g.size; cells = g.cells.items }) };
}

// How many blocks of 8 cover a side.
fn blocks_of(side: u32) -> usize
    requires { side ≤ 4096 }
    ensures value { result ≡ blocks side }
    ensures few { result ≤ 512 }
{
    ((side + 7) / 8) as usize
}

impl MotionGrid {
    /// A grid for a picture of this size. No unit is set.
    ///
    /// # Errors
    ///
    /// `NoMemory` where the allocator refuses the cells.
    pub fn new(alloc: Global, size: Size) -> Result<MotionGrid, NoMemory>
        ensures size { IfOk result (λ g. g.size ≡ size) }
        ensures empty { IfOk result (λ g. HasMotion g []) }
    {
        let area = blocks_of(size.w()) * blocks_of(size.h());
        let cells = vec![in alloc; None; area]?;
        Ok(MotionGrid { size, cells })
    }

    /// Forgets all units.
    pub fn clear(&mut self)
        ensures size { self.new.size ≡ self.old.size }
        ensures empty { HasMotion self.new [] }
    {
        empty(&mut self.cells);
    }

    /// Sets the unit of side 2^log2 at (x, y), with the vector by which it was copied, or `None` where it wasn't. It lies in the coded picture, at
    /// multiples of its side, which is 8, 16 or 32.
    pub fn set(&mut self, block: CodingBlock, vector: Option<Vector>)
        requires low { 3 ≤ block.log2 }
        requires high { block.log2 ≤ 5 }
        requires column { block.x % 2 ^ block.log2 ≡ 0 }
        requires row { block.y % 2 ^ block.log2 ≡ 0 }
        requires across { block.x + 2 ^ block.log2 ≤ coded self.old.size.w }
        requires down { block.y + 2 ^ block.log2 ≤ coded self.old.size.h }
        ensures size { self.new.size ≡ self.old.size }
        ensures set { (units : List Moving) → HasMotion self.old units → (kind : Kind) → HasMotion self.new (units ++ coded_unit block kind vector ∷ []) }
    {
        let columns = blocks_of(self.size.w());
        let left = (block.x / 8) as usize;
        let top = (block.y / 8) as usize;
        let side = 1 << (block.log2 - 3);
        fill_square(&mut self.cells, columns, left, top, side, Cell { vector });
    }

    // What is kept of the block with a place.
    fn cell(&self, x: u32, y: u32) -> Option<Cell>
        ensures { result ≡ cell_at self.now x y }
    {
        let (column, row) = ((x / 8) as usize, (y / 8) as usize);
        let columns = blocks_of(self.size.w());
        if column >= columns {
            return None;
        }
        let rows = blocks_of(self.size.h());
        if row >= rows {
            return None;
        }
        self.cells[row * columns + column]
    }

    /// The vector of the unit that covers a place, `None` in it where the unit wasn't copied; `None` where no unit covers
    /// the place.
    pub fn vector_at(&self, x: u32, y: u32) -> Option<Option<Vector>>
        ensures { (units : List Moving) → HasMotion self.now units
            → result ≡ option_map (λ unit. unit.vector) (unit_at units x y) }
    {
        let cell = self.cell(x, y)?;
        Some(cell.vector)
    }

    // The vector at the place before (x, y) in both directions (6.4.2).
    fn before(&self, x: u32, y: u32) -> Option<Vector>
        ensures { result ≡ kept_before self.now x y }
    {
        if x == 0 || y == 0 {
            return None;
        }
        self.cell(x - 1, y - 1)?.vector
    }

    /// The merge vector of a block of side 2^log2 at (x, y): that of the one merging candidate (8.5.3.2.2).
    pub fn merge(&self, block: CodingBlock) -> Vector
        requires low { 3 ≤ block.log2 }
        requires high { block.log2 ≤ 5 }
        requires across { block.x < coded self.now.size.w }
        requires down { block.y < coded self.now.size.h }
        ensures { (units : List Moving) → HasMotion self.now units → result ≡ motion.merge units block }
    {
        let (_w, _h) = (self.size.w(), self.size.h());
        merge_vector(self, block)
    }

    /// The two motion vector predictors of a block of side 2^log2 at (x, y) (8.5.3.2.6 and 8.5.3.2.7).
    pub fn predictors(&self, block: CodingBlock) -> (Vector, Vector)
        requires low { 3 ≤ block.log2 }
        requires high { block.log2 ≤ 5 }
        requires across { block.x < coded self.now.size.w }
        requires down { block.y < coded self.now.size.h }
        ensures { (units : List Moving) → HasMotion self.now units → result ≡ motion.predictors units block }
    {
        let n = side(block.log2);
        let (_w, _h) = (self.size.w(), self.size.h());
        let left = self
            .before(block.x, block.y + n + 1)
            .or(self.before(block.x, block.y + n));
        let above = self
            .before(block.x + n + 1, block.y)
            .or(self.before(block.x + n, block.y))
            .or(self.before(block.x, block.y));
        two_of(left, above)
    }
}

impl CodedVectors for MotionGrid {
    ghost use Rattle.motion_grid.specs.Cells.{HasMotion};

    ghost stands_for = { HasMotion };

    fn vector_before(&self, x: u32, y: u32) -> Option<Vector> {
        self.before(x, y)
    }
}
