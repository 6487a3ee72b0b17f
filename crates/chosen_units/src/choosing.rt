//! Coding units that are chosen after those that are set in a grid.
ghost use Rattle.std.specs.Prelude.{◌≡◌, ◌++◌, ◌∷◌, [], ◌<◌, ◌≤◌, ℕ, List, length, take};
ghost use Rattle.h265_model.specs.Motion as motion;
ghost use Rattle.h265_model.specs.Motion.{Moving, coded_after, kind_vector};
ghost use Rattle.motion_grid.specs.Cells.{HasMotion, unit_at};
ghost use Rattle.chosen_units.specs.Chosen.{IsCodedWith};

use crate::chosen::{Chosen, vector_among};
use crate::leaves::MoveLeaves;
use arrayvec::ArrayVec;
use h265_model::{CodingBlock, MoveKind, MoveLeaf, Vector};
use motion_grid::{CodedVectors, MotionGrid, merge_vector};
use std::marker::Model;

/// The units that a grid stands for, and at most 16 units of a coding tree unit that are chosen after them, in coding
/// order. The grid is not changed.
#[derive(Drop)]
pub struct ChosenUnits<'a> {
    motion: &'a MotionGrid,
    chosen: ArrayVec<Chosen, 16>,
}

impl<'a> Model for ChosenUnits<'a> {
    ghost use Rattle.chosen_units.specs.Chosen.{Choosing, AreChosen, units_of};

    ghost Value = { Choosing };

    ghost view = { λ c. record { motion = c.motion.now; units = units_of c.chosen.items } };

    ghost invariant = { λ c. AreChosen c.motion.now c.chosen.items };
}

impl<'a> ChosenUnits<'a> {
    /// None yet.
    pub fn new(motion: &'a MotionGrid) -> ChosenUnits<'a>
        ensures { result ≡ record { motion = motion.now; units = [] } }
    {
        ChosenUnits {
            motion,
            chosen: ArrayVec::new(),
        }
    }

    /// How many units are chosen.
    pub fn len(&self) -> usize
        ensures value { result ≡ length self.now.units }
        ensures few { result ≤ 16 }
    {
        self.chosen.len()
    }

    // The vector of the first unit that covers a place, if it was copied.
    fn vector_at(&self, x: u32, y: u32) -> Option<Vector>
        ensures { (units : List Moving) → IsCodedWith self.now units → result ≡ motion.vector_in (unit_at units x y) }
    {
        match self.motion.vector_at(x, y) {
            Some(vector) => vector,
            None => vector_among(self.chosen.as_slice(), x, y),
        }
    }

    /// The merge vector of a block after the units of the grid and the chosen ones (8.5.3.2.2).
    pub fn merge_vector(&self, block: CodingBlock) -> Vector
        requires low { 3 ≤ block.log2 }
        requires high { block.log2 ≤ 5 }
        requires across { block.x < 4096 }
        requires down { block.y < 4096 }
        ensures { (before : List Moving) → HasMotion self.now.motion before
            → result ≡ motion.merge (coded_after before self.now.units) block }
    {
        merge_vector(self, block)
    }

    // The vector by which a unit is copied, if it is: the merge vector of a skip.
    fn vector_of(&self, unit: MoveLeaf) -> Option<Vector>
        requires low { 3 ≤ unit.block.log2 }
        requires high { unit.block.log2 ≤ 5 }
        requires across { unit.block.x < 4096 }
        requires down { unit.block.y < 4096 }
        ensures { (before : List Moving) → HasMotion self.now.motion before
            → result ≡ kind_vector (motion.merge (coded_after before self.now.units) unit.block) unit.kind }
    {
        match unit.kind {
            MoveKind::Skip => Some(self.merge_vector(unit.block)),
            MoveKind::Move(vector) => Some(vector),
            MoveKind::Pcm => None,
            MoveKind::Intra(_) => None,
        }
    }

    /// Chooses a unit after the ones so far.
    pub fn push(&mut self, unit: MoveLeaf)
        requires room { length self.old.units < 16 }
        requires low { 3 ≤ unit.block.log2 }
        requires high { unit.block.log2 ≤ 5 }
        requires across { unit.block.x < 4096 }
        requires down { unit.block.y < 4096 }
        ensures motion { self.new.motion ≡ self.old.motion }
        ensures units { self.new.units ≡ self.old.units ++ unit ∷ [] }
    {
        let vector = self.vector_of(unit);
        self.chosen.push(Chosen { unit, vector });
    }

    /// Keeps the first `count` of the chosen units.
    pub fn truncate(&mut self, count: usize)
        ensures motion { self.new.motion ≡ self.old.motion }
        ensures units { self.new.units ≡ take count self.old.units }
    {
        self.chosen.truncate(count);
    }

    /// The units that are chosen, in coding order.
    pub fn leaves(&self) -> MoveLeaves
        ensures { result ≡ self.now.units }
    {
        let mut leaves = MoveLeaves::new();
        for one in self.chosen.as_slice() {
            leaves.push(one.unit);
        }
        leaves
    }
}

impl<'a> CodedVectors for ChosenUnits<'a> {
    ghost use Rattle.chosen_units.specs.Chosen.{IsCodedWith};

    ghost stands_for = { IsCodedWith };

    fn vector_before(&self, x: u32, y: u32) -> Option<Vector> {
        if x == 0 || y == 0 {
            return None;
        }
        self.vector_at(x - 1, y - 1)
    }
}
