// What a row seat knows, as plain data.
use std::collections::LinkedList;

/// How far a claimed row is.
pub enum Stage {
    /// It was neither published nor lost.
    Open,
    Published,
    Lost,
}

/// A row that a seat claimed.
pub struct Claimed {
    pub row: u64,
    pub stage: Stage,
    /// Whether it took the contexts of the row above.
    pub synced: bool,
}

/// What a row seat knows. No value of it is made.
pub struct Knowledge {
    /// Its share of the board. One that was joined into another has none.
    pub weight: u64,
    /// How many units each row has.
    pub width: u64,
    /// The contexts that each row hands on, and the bytes that it gives.
    pub want: LinkedList<LinkedList<u64>>,
    pub give: LinkedList<LinkedList<u64>>,
    /// The rows that it claimed.
    pub rows: LinkedList<Claimed>,
    pub met_none: bool,
    /// How many words it found by claims and syncs, the number of the last one, and that word.
    pub found: u64,
    pub place: u64,
    pub last: u64,
    /// 0, or 1 more than the open row whose slot is in hand in the midst of a call.
    pub picked: u64,
}
