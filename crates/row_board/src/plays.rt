// The rule of the board's table, and what each step on it tells.
use crate::knowledge::Knowledge;
use crate::piece::Piece;
use atomic_table::{Join, Play, Split, TableRule};
use row_core::RowJob;
use std::snapshot::Snapshot;

/// What the table is made with.
#[derive(Drop)]
pub struct Terms<J> {
    pub jobs: Snapshot<Vec<J>>,
}

pub struct InOrder;

impl<J: RowJob> TableRule<Piece<J>, Knowledge, Terms<J>> for InOrder {
    ghost use Rattle.std.specs.Prelude.{map};
    ghost use Rattle.row_board.specs.Rows.{Kept, job_fits, opening_view};

    ghost holds = { λ terms. Kept (job_fits J.plan J.begun) };

    ghost first = { λ terms. opening_view (map J.plan terms.jobs.value.items) };
}

pub struct Claim;

impl<J: RowJob> Play<Piece<J>, Knowledge> for Claim {
    ghost use Rattle.row_board.specs.Rows.{claimed, job_fits};

    ghost then = { claimed (job_fits J.plan J.begun) };
}

pub struct LayDown;

impl<J> Play<Piece<J>, Knowledge> for LayDown {
    ghost use Rattle.row_board.specs.Rows.{laid};

    ghost then = { laid };
}

pub struct PickUp;

impl<J> Play<Piece<J>, Knowledge> for PickUp {
    ghost use Rattle.row_board.specs.Rows.{picked_up};

    ghost then = { picked_up };
}

pub struct Publish;

impl<J> Play<Piece<J>, Knowledge> for Publish {
    ghost use Rattle.row_board.specs.Rows.{published};

    ghost then = { published };
}

pub struct Lose;

impl<J> Play<Piece<J>, Knowledge> for Lose {
    ghost use Rattle.row_board.specs.Rows.{lost};

    ghost then = { lost };
}

pub struct Take;

impl<J> Play<Piece<J>, Knowledge> for Take {
    ghost use Rattle.row_board.specs.Rows.{synced};

    ghost then = { synced };
}

pub struct Halve;

impl Split<Knowledge> for Halve {
    ghost use Rattle.row_board.specs.Rows.{lighter, newcomer};

    ghost left = { lighter };

    ghost right = { newcomer };
}

pub struct Merge;

impl Join<Knowledge> for Merge {
    ghost use Rattle.row_board.specs.Rows.{merged, spent};

    ghost both = { merged };

    ghost spent = { spent };
}
