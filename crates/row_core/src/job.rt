//! What codes a row.
ghost use Rattle.std.specs.Prelude.{◌≡◌, ◌≤◌, ◌<◌, ◌+◌, Bool, true, false, ℕ, List, Option, OnOk, IfOk};
ghost use Rattle.row_core.specs.Plan.{Plan, HandsOn};

use cabac_tables::Contexts;
use h265_model::NoMemory;

/// What codes a row of coding tree units, one unit after another.
///
/// `begin` comes once and first, then `code_next` as often as the row has units, then `finish`. After `NoMemory` it is spent:
/// nothing more is known of it.
pub trait RowJob: Send + Drop {
    /// What it was made to do. It never changes.
    ghost plan: { Self → Plan };

    /// Whether it was begun.
    ghost begun: { Self → Bool };

    /// The contexts that it inherited.
    ghost inherits: { Self → Option (List ℕ) };

    /// How many units it has coded.
    ghost coded: { Self → ℕ };

    /// How many units the row has, at least 1.
    fn width(&self) -> u32
        ensures value { result ≡ (plan self.now).width }
        ensures some { 1 ≤ result };

    /// Begins the row with the contexts that it takes from the row above, if it takes any (9.3.1).
    fn begin(&mut self, inherited: Option<Contexts>)
        requires fresh { begun self.old ≡ false }
        ensures begun { begun self.new ≡ true }
        ensures inherited { inherits self.new ≡ inherited }
        ensures coded { coded self.new ≡ 0 }
        ensures plan { plan self.new ≡ plan self.old };

    /// Codes the next unit.
    fn code_next(&mut self) -> Result<(), NoMemory>
        requires begun { begun self.old ≡ true }
        requires left { coded self.old < (plan self.old).width }
        ensures begun { OnOk result (begun self.new ≡ true) }
        ensures inherited { OnOk result (inherits self.new ≡ inherits self.old) }
        ensures coded { OnOk result (coded self.new ≡ coded self.old + 1) }
        ensures plan { OnOk result (plan self.new ≡ plan self.old) };

    /// The contexts after the units that are coded. After the second they are what the row below inherits.
    fn contexts(&self) -> Contexts
        requires begun { begun self.now ≡ true }
        ensures { coded self.now ≡ 2 → result ≡ (plan self.now).second (inherits self.now) };

    /// The bytes of the row, all units of which are coded.
    fn finish(self) -> Result<Vec<u8>, NoMemory>
        requires begun { begun self ≡ true }
        requires all { coded self ≡ (plan self).width }
        ensures { IfOk result (λ bytes. bytes.items ≡ (plan self).bytes (inherits self)) };

    /// What it hands on is the bytes of contexts, where what it inherits is.
    ghost hands_on: { (job : Self) → HandsOn (plan job) };
}
