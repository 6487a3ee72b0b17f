// A claimed row.
ghost use Rattle.std.specs.Prelude.{◌≡◌};

use std::marker::Model;

/// A row that was claimed, seen as its number.
#[derive(Debug, Drop)]
pub struct Row {
    number: u32,
}

impl Model for Row {
    ghost use Rattle.std.specs.Prelude.{ℕ};

    ghost Value = { ℕ };

    ghost view = { λ row. row.number };
}

impl Row {
    pub(crate) fn new(number: u32) -> Row
        ensures { result ≡ number }
    {
        Row { number }
    }

    /// Its number, from the top.
    pub fn number(&self) -> u32
        ensures { result ≡ self.now }
    {
        self.number
    }
}
