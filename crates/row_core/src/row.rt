//! The state of a row.
ghost use Rattle.std.specs.Prelude.{◌≡◌};
ghost use Rattle.h265_model.specs.Wave.{unclaimed};

use std::marker::Model;

/// What was done of a row, and how many of its coding tree units are coded.
#[derive(Clone, Copy, Debug)]
pub(crate) struct Row {
    pub(crate) claimed: bool,
    pub(crate) synced: bool,
    pub(crate) published: bool,
    pub(crate) lost: bool,
    pub(crate) finished: bool,
    pub(crate) coded: u32,
}

impl Model for Row {
    ghost use Rattle.h265_model.specs.Wave.{RowState};

    ghost Value = { RowState };

    ghost view = { λ r. record {
      claimed = r.claimed;
      synced = r.synced;
      published = r.published;
      lost = r.lost;
      finished = r.finished;
      coded = r.coded;
    } };

    ghost inverse = { λ r. record {
      claimed = r.claimed;
      synced = r.synced;
      published = r.published;
      lost = r.lost;
      finished = r.finished;
      coded = r.coded;
    } };
}

impl Row {
    // A row that nobody took.
    pub(crate) fn unclaimed() -> Row
        ensures { result ≡ unclaimed }
    {
        Row {
            claimed: false,
            synced: false,
            published: false,
            lost: false,
            finished: false,
            coded: 0,
        }
    }
}
