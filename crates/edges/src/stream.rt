//! The standard output.
ghost use Rattle.std.specs.Prelude.{◌≡◌, None, Some, [], IsOkUnless};
ghost use Rattle.std.specs.FinMap.{empty};
ghost use Rattle.recorder_model.specs.Files.{WhereTold};
ghost use Rattle.edges.specs.Causes.{HasWriteCause};
ghost use Rattle.edges.specs.Counts.{faults_after};

use crate::transfer::write_whole;
use crate::{Sink, WriteError};
use std::io;
use std::marker::Model;

/// The standard output. It doesn't tell its text: contracts see its count of faults.
#[derive(Drop)]
pub struct StreamSink<'a, R> {
    host: &'a R,
    faults: u64,
}

impl<'a, R> Model for StreamSink<'a, R> {
    ghost use Rattle.std.specs.Prelude.{ℕ};

    ghost Value = { ℕ };

    ghost view = { λ s. s.faults };
}

impl<'a, R: Print> StreamSink<'a, R> {
    /// No fault yet. It takes no memory, and keeps what it borrows.
    pub fn new(host: &'a R) -> StreamSink<'a, R>
        ensures { result ≡ 0 }
    {
        StreamSink { host, faults: 0 }
    }
}

impl<'a, R: Print> Sink for StreamSink<'a, R> {
    ghost text = { λ _. None };

    ghost faults = { λ s. s };

    ghost beside = { λ _. Some ([], empty) };

    fn write(&mut self, piece: &[u8]) -> Result<(), WriteError>
        ensures cause { HasWriteCause self.old self.new result }
        ensures after { self.new ≡ faults_after self.old result }
        ensures failed { IsOkUnless result WriteError.Failed }
    {
        let outcome = write_whole(&mut io::writer(self.host), piece);
        if outcome.is_err() {
            self.faults = self.faults.saturating_add(1);
        }
        outcome
    }
}
