//! The cheapest coding unit of a block, but a skip.
ghost use Rattle.std.specs.Prelude.{◌≡◌, ◌<◌, ◌≤◌};
ghost use Rattle.h265_model.specs.Plain.{leaf_with};
ghost use Rattle.h265_model.specs.Motion as motion;
ghost use Rattle.h265_model.specs.MotionChoice.{one_unit};
ghost use Rattle.px_plane.specs.Planes.{picture_of};
ghost use Rattle.vector_search.specs.Copies.{IsBlockOf};
ghost use Rattle.unit_choice.specs.Units.{IsNearKind, unskipped_plan};

use block_choice::coded_leaf;
use h265_model::{CodingBlock, Kind, MoveKind, MoveLeaf};
use leaf_cost::Best;
use vector_search::VectorSearch;

/// A coding unit, and what it is taken to cost.
#[derive(Clone, Copy, Debug, PartialEq, Eq)]
pub struct PlannedUnit {
    pub cost: u32,
    pub unit: MoveLeaf,
}

// What a copy by a vector is taken to cost.
const MOVE_COST: u32 = 16;

// What is coded of a unit that isn't moved.
fn still_kind(kind: Kind) -> MoveKind
    ensures value { result ≡ motion.still_kind kind }
    ensures near { IsNearKind result }
{
    match kind {
        Kind::Skip => MoveKind::Skip,
        Kind::Pcm => MoveKind::Pcm,
        Kind::Intra(mode) => MoveKind::Intra(mode),
    }
}

// The unit of a block that isn't moved.
fn still(block: CodingBlock, best: Best) -> PlannedUnit
    ensures cost { result.cost ≡ best.cost }
    ensures unit { result.unit ≡ motion.still (leaf_with block best.kind) }
    ensures near { IsNearKind result.unit.kind }
{
    PlannedUnit {
        cost: best.cost,
        unit: MoveLeaf {
            block,
            kind: still_kind(best.kind),
        },
    }
}

/// The cheapest unit of a block: a copy by the first vector that is tried and names the same block, or a mode or samples.
///
/// The modes are tried first only as far as one of them costs less than a copy by a vector.
pub(crate) fn unskipped(vectors: &mut VectorSearch, effort: u32, block: CodingBlock) -> PlannedUnit
    requires effort { effort ≤ 2 }
    requires block { IsBlockOf vectors.old block }
    ensures same { vectors.new ≡ vectors.old }
    ensures planned { unskipped_plan (picture_of vectors.old.last) (picture_of vectors.old.current) vectors.old.current.size effort block
        ≡ one_unit result.cost result.unit }
    ensures block { result.unit.block ≡ block }
    ensures near { IsNearKind result.unit.kind }
    ensures most { result.cost ≤ 24600 }
{
    let current = vectors.current();
    if let Some(cheap) = coded_leaf(current, effort, block, MOVE_COST) {
        return still(block, cheap);
    }
    if let Some(vector) = vectors.first_copy(block) {
        return PlannedUnit {
            cost: MOVE_COST,
            unit: MoveLeaf {
                block,
                kind: MoveKind::Move(vector),
            },
        };
    }
    still(block, coded_leaf(current, effort, block, u32::MAX).unwrap())
}
