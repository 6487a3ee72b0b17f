//! Chosen units with their vectors.
ghost use Rattle.std.specs.Prelude.{◌≡◌, ◌^◌, ◌≤◌};
ghost use Rattle.h265_model.specs.declared.leaf.Kind.{Kind};
ghost use Rattle.h265_model.specs.Plain as plain;
ghost use Rattle.h265_model.specs.Plain.{leaf_with};
ghost use Rattle.h265_model.specs.Motion as motion;
ghost use Rattle.motion_grid.specs.Cells.{unit_at};
ghost use Rattle.chosen_units.specs.Chosen.{IsSmall, AreSmall, movings};

use crate::leaves::BLANK;
use h265_model::{CodingBlock, MoveLeaf, Vector};

/// A unit that is chosen, with the vector by which it is copied, if it is.
#[derive(Clone, Copy, Debug)]
pub(crate) struct Chosen {
    pub unit: MoveLeaf,
    pub vector: Option<Vector>,
}

impl Default for Chosen {
    fn default() -> Chosen {
        Chosen {
            unit: BLANK,
            vector: None,
        }
    }
}

// The side of a block.
fn side(log2: u32) -> u32
    requires low { 3 ≤ log2 }
    requires high { log2 ≤ 5 }
    ensures value { result ≡ 2 ^ log2 }
    ensures few { result ≤ 32 }
{
    match log2 {
        3 => 8,
        4 => 16,
        _ => 32,
    }
}

// Whether a place lies in a block.
fn covers(block: CodingBlock, x: u32, y: u32) -> bool
    requires { IsSmall block }
    ensures { (kind : Kind) → result ≡ plain.covers x y (leaf_with block kind) }
{
    let n = side(block.log2);
    block.x <= x && x < block.x + n && block.y <= y && y < block.y + n
}

/// The vector of the first of these units that covers a place, if it was copied.
pub(crate) fn vector_among(list: &[Chosen], x: u32, y: u32) -> Option<Vector>
    requires { AreSmall list.now }
    ensures { result ≡ motion.vector_in (unit_at (movings list.now) x y) }
{
    for one in list {
        if covers(one.unit.block, x, y) {
            return one.vector;
        }
    }
    None
}
