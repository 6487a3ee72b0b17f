//! Coding units in coding order.
ghost use Rattle.std.specs.Prelude.{◌≡◌, ◌∷◌, [], ◌++◌, ◌<◌, ◌≤◌, length, take};

use h265_model::{CodingBlock, MoveKind, MoveLeaf};
use std::marker::Model;

// How many there are at most: the squares of 8 of a coding tree unit.
const MOST: usize = 16;

// What stands behind the last one.
pub(crate) const BLANK: MoveLeaf = MoveLeaf {
    block: CodingBlock {
        x: 0,
        y: 0,
        log2: 3,
    },
    kind: MoveKind::Pcm,
};

/// The coding units of a coding tree, at most 16, in coding order.
#[derive(Debug, Drop)]
pub struct MoveLeaves {
    units: [MoveLeaf; MOST],
    count: usize,
}

impl Model for MoveLeaves {
    ghost use Rattle.std.specs.Prelude.{◌≡◌, ◌≤◌, List, length, take};
    ghost use Rattle.h265_model.specs.declared.moves.MoveLeaf.{MoveLeaf as Unit};

    ghost Value = { List Unit };

    ghost view = { λ l. take l.count l.units };

    ghost invariant = { λ l. (l.count ≤ 16) × (length l.units ≡ 16) };
}

impl MoveLeaves {
    /// None yet.
    pub fn new() -> MoveLeaves
        ensures { result ≡ [] }
    {
        MoveLeaves {
            units: [BLANK; MOST],
            count: 0,
        }
    }

    /// How many there are.
    pub fn len(&self) -> usize
        ensures value { result ≡ length self.now }
        ensures few { result ≤ 16 }
    {
        self.count
    }

    /// The units, in coding order.
    pub fn as_slice(&self) -> &[MoveLeaf]
        ensures { result.now ≡ self.now }
    {
        &self.units[..self.count]
    }

    /// Adds a unit at the end.
    pub fn push(&mut self, unit: MoveLeaf)
        requires { length self.old < 16 }
        ensures { self.new ≡ self.old ++ unit ∷ [] }
    {
        self.units[self.count] = unit;
        self.count += 1;
    }

    /// Keeps the first `count` units.
    pub fn truncate(&mut self, count: usize)
        ensures { self.new ≡ take count self.old }
    {
        self.count = self.count.min(count);
    }
}
