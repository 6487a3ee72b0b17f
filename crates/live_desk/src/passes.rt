//! The passes of a desk.
ghost use Rattle.std.specs.Prelude.{◌≡◌};

use desk_state::DeskState;
use std::marker::Model;
use turn_lock::Pass;

/// A client's right to play its script.
///
/// Contracts see what the pass knows, whose it is, its next line, how many lines there are, and whether it is stopped.
#[derive(Drop)]
pub struct ClientPass {
    pub(crate) pass: Pass<DeskState>,
    pub(crate) client: u32,
    pub(crate) next: u32,
    pub(crate) lines: u32,
    pub(crate) stopped: bool,
}

impl Model for ClientPass {
    ghost use Rattle.live_desk.specs.Passes.{Client, IsClient};

    ghost Value = { Client };

    ghost view = { λ p. record { table = p.pass.table; knows = p.pass.knows; client = p.client; next = p.next; lines = p.lines; stopped = p.stopped } };

    ghost invariant = { λ p. IsClient (record { table = p.pass.table; knows = p.pass.knows; client = p.client; next = p.next; lines = p.lines; stopped = p.stopped }) };
}

impl ClientPass {
    /// Whose pass it is.
    pub fn client(&self) -> u32
        ensures { result ≡ self.now.client }
    {
        self.client
    }

    /// How many lines it has played.
    pub fn next(&self) -> u32
        ensures { result ≡ self.now.next }
    {
        self.next
    }

    /// Whether want of memory stopped it.
    pub fn is_stopped(&self) -> bool
        ensures { result ≡ self.now.stopped }
    {
        self.stopped
    }
}

/// The recorder's right to take jobs.
///
/// Contracts see its desk and what it knows: its own number comes first, with its takes, and then the clients that were folded
/// in, each with its lines.
#[derive(Drop)]
pub struct RecorderPass {
    pub(crate) pass: Pass<DeskState>,
}

impl Model for RecorderPass {
    ghost use Rattle.turn_lock.specs.Standing.{Standing};
    ghost use Rattle.live_desk.specs.Passes.{IsRecorder};

    ghost Value = { Standing };

    ghost view = { λ p. p.pass };

    ghost invariant = { λ p. IsRecorder p.pass };
}
