//! Where bytes come from.
ghost use Rattle.std.specs.Prelude.{ℕ, ◌≤◌, List, Option, length, IfOk};
ghost use Rattle.frame_read.specs.Sources.{StillTold, Takes, HasCause};

use thiserror::Error;

/// A read failed.
#[derive(Clone, Copy, Debug, PartialEq, Eq, Error)]
#[error("the bytes cannot be read")]
pub struct ReadFailed;

/// Bytes that come one after another. What it tells before a call, it tells after it.
pub trait Source {
    /// The bytes to come, where it tells them.
    ghost left: { Self → Option (List ℕ) };

    /// How often a read failed. It never falls.
    ghost faults: { Self → ℕ };

    /// Takes some of the bytes to come: none only at their end, or where there is no room for one. A read that fails takes
    /// none.
    fn read(&mut self, out: &mut [u8]) -> Result<usize, ReadFailed>
        ensures bound { IfOk result (λ count. count ≤ length out.new) }
        ensures taken { StillTold (left self.old) (left self.new) (λ before after. Takes out.new before after result) }
        ensures cause { HasCause (faults self.old) (faults self.new) result };
}
