//! Histories, which contracts see as lists.
ghost use Rattle.std.specs.Prelude.{◌≡◌};

use crate::Entry;
use std::marker::Model;

/// A history: the entries in the order in which they were accepted.
#[derive(Debug, Drop)]
pub struct History {
    vec: Vec<Entry>,
}

impl Model for History {
    ghost use Rattle.std.specs.Prelude.{List};
    ghost use Rattle.recorder_model.specs.declared.entry.Entry.{Entry};

    ghost Value = { List Entry };

    ghost view = { λ a. a.vec.items };
}

impl History {
    /// Takes the `Vec`.
    pub fn from_vec(vec: Vec<Entry>) -> Self
        ensures { result ≡ vec.items }
    {
        History { vec }
    }

    /// Gives it back.
    pub fn into_vec(self) -> Vec<Entry>
        ensures { result.items ≡ self }
    {
        self.vec
    }

    /// Lends the list.
    pub fn as_slice(&self) -> &[Entry]
        ensures { result.now ≡ self.now }
    {
        &self.vec
    }
}
