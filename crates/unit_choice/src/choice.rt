//! The choice of one coding unit.
ghost use Rattle.std.specs.Prelude.{◌≡◌, ◌<◌, ◌≤◌, ◌%◌, List};
ghost use Rattle.h265_model.specs.Motion as motion;
ghost use Rattle.h265_model.specs.Motion.{Moving};
ghost use Rattle.h265_model.specs.MotionChoice.{unit_plan, one_unit};
ghost use Rattle.px_plane.specs.Planes.{picture_of};
ghost use Rattle.vector_search.specs.Copies.{IsBlockOf};
ghost use Rattle.unit_choice.specs.Units.{IsNearKind};

use crate::units::{PlannedUnit, unskipped};
use h265_model::{CodingBlock, MoveKind, MoveLeaf, Vector};
use px_plane::Picture;
use std::marker::Model;
use vector_search::VectorSearch;

/// The choice of the coding units of a coding tree unit.
#[derive(Drop)]
pub struct UnitChoice<'a> {
    vectors: VectorSearch<'a>,
    effort: u32,
}

impl<'a> Model for UnitChoice<'a> {
    ghost use Rattle.std.specs.Prelude.{◌≤◌};
    ghost use Rattle.unit_choice.specs.Units.{Trial};

    ghost Value = { Trial };

    ghost view = { λ c. record { search = c.vectors; effort = c.effort } };

    ghost invariant = { λ c. c.effort ≤ 2 };
}

impl<'a> UnitChoice<'a> {
    /// The choice in the coding tree unit at (x, y) of the picture `current` after the picture `last`. The effort
    /// (0 to 2) names the modes that are tried.
    pub fn new(
        last: &'a Picture,
        current: &'a Picture,
        effort: u32,
        x: u32,
        y: u32,
    ) -> UnitChoice<'a>
        requires effort { effort ≤ 2 }
        requires sizes { last.now.size ≡ current.now.size }
        requires x { x < 4096 }
        requires y { y < 4096 }
        requires whole_x { x % 32 ≡ 0 }
        requires whole_y { y % 32 ≡ 0 }
        ensures { result ≡ record { search = record { last = last.now; current = current.now; x = x; y = y }; effort = effort } }
    {
        UnitChoice {
            vectors: VectorSearch::new(last, current, x, y),
            effort,
        }
    }

    /// The coding unit of least cost of a block whose merge vector this is: a skip, a copy by a vector that is tried, a
    /// mode that is tried, or samples.
    pub fn best_unit(&mut self, merge: Vector, block: CodingBlock) -> PlannedUnit
        requires block { IsBlockOf self.old.search block }
        ensures same { self.new ≡ self.old }
        ensures planned { (units : List Moving) → motion.merge units block ≡ merge
            → unit_plan (picture_of self.old.search.last) (picture_of self.old.search.current) self.old.search.current.size
            self.old.effort units block
            ≡ one_unit result.cost result.unit }
        ensures block { result.unit.block ≡ block }
        ensures near { IsNearKind result.unit.kind }
        ensures most { result.cost ≤ 24600 }
    {
        if self.vectors.is_copy(block, merge) {
            return PlannedUnit {
                cost: 1,
                unit: MoveLeaf {
                    block,
                    kind: MoveKind::Skip,
                },
            };
        }
        unskipped(&mut self.vectors, self.effort, block)
    }
}
