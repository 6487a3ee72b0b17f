//! What happens to a row.
ghost use Rattle.std.specs.Prelude.{◌≡◌};
ghost use Rattle.h265_model.specs.Wave.{row_of_event};
ghost use Rattle.row_core.specs.Events.{event_of};

use thiserror::Error;

/// What happens to a row of coding tree units, by its number from the top, from 0.
#[derive(Clone, Copy, Debug, PartialEq, Eq)]
pub enum RowEvent {
    /// A worker takes the row.
    Claim(u32),
    /// It takes the contexts of the row above.
    Sync(u32),
    /// It codes one more coding tree unit.
    Code(u32),
    /// It hands on its contexts, after two coding tree units.
    Publish(u32),
    /// It has all of its bytes.
    Finish(u32),
    /// It is given up before it handed on its contexts.
    Lose(u32),
}

impl RowEvent {
    /// The row.
    pub fn row(self) -> u32
        ensures { result ≡ row_of_event (event_of self) }
    {
        match self {
            RowEvent::Claim(row)
            | RowEvent::Sync(row)
            | RowEvent::Code(row)
            | RowEvent::Publish(row)
            | RowEvent::Finish(row)
            | RowEvent::Lose(row) => row,
        }
    }
}

/// The event can't happen to the row as it is.
#[derive(Clone, Copy, Debug, PartialEq, Eq, Error)]
#[error("not lawful: {event:?}")]
pub struct NotLawful {
    pub event: RowEvent,
}
