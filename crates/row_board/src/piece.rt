// What stands in the slots of a board.
use row_core::Contexts;

/// What a row's slot has.
#[derive(Drop)]
pub enum Piece<J> {
    /// Nothing: the row's job or contexts were taken.
    Nothing,
    /// The job of a row that nobody claimed.
    Job(J),
    /// The contexts of a published row, which the row below takes.
    Shown(Contexts),
}
