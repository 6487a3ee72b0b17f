//! What takes coding units.
ghost use Rattle.std.specs.Prelude.{◌≡◌, ◌<◌, ◌≤◌, ◌+◌, ◌*◌, ◌%◌, ◌^◌, ◌++◌, ◌∷◌, [], List, length, IsTrue};
ghost use Rattle.h265_model.specs.Plain.{coded};
ghost use Rattle.h265_model.specs.Motion.{has_source};
ghost use Rattle.h265_model.specs.Tree.{thirds, ReadUnit, Copied, Moved, Samples, Levels};
ghost use Rattle.px_plane.specs.Planes.{Planes};
ghost use Rattle.leaf_sink.specs.Units.{unit, HasAvailable, AreResiduals, levels_of};

use crate::Residuals;
use h265_model::{CodingBlock, Vector};

/// What takes the coding units of a picture, in the order of coding (7.3.8.5).
///
/// It stands for lists of units that were taken: it need not keep any. A call adds one unit to such a list, if all that is available to the unit
/// (6.4.1) is covered by those taken before.
pub trait LeafSink {
    /// The picture before, which copies are made from. Its size is that of the picture whose units are taken.
    ghost last: { Self → Planes };

    /// The lists of units that it stands for.
    ghost stands_for: { Self → List ReadUnit → Type 0 };

    /// Takes a unit that is copied by the merge vector (8.5.3.2.2).
    fn copied(&mut self, block: CodingBlock, vector: Vector)
        requires low { 3 ≤ block.log2 }
        requires high { block.log2 ≤ 5 }
        requires column { block.x % 2 ^ block.log2 ≡ 0 }
        requires row { block.y % 2 ^ block.log2 ≡ 0 }
        requires across { block.x + 2 ^ block.log2 ≤ coded (last self.old).size.w }
        requires down { block.y + 2 ^ block.log2 ≤ coded (last self.old).size.h }
        requires source { IsTrue (has_source (last self.old).size block vector) }
        ensures last { last self.new ≡ last self.old }
        ensures taken { (units : List ReadUnit) → stands_for self.old units → HasAvailable (last self.old).size units block.x block.y
            → stands_for self.new (units ++ unit block (Copied vector) ∷ []) };

    /// Takes a unit that is copied by a vector of its own (8.5.3.2.1).
    fn moved(&mut self, block: CodingBlock, vector: Vector)
        requires low { 3 ≤ block.log2 }
        requires high { block.log2 ≤ 5 }
        requires column { block.x % 2 ^ block.log2 ≡ 0 }
        requires row { block.y % 2 ^ block.log2 ≡ 0 }
        requires across { block.x + 2 ^ block.log2 ≤ coded (last self.old).size.w }
        requires down { block.y + 2 ^ block.log2 ≤ coded (last self.old).size.h }
        requires source { IsTrue (has_source (last self.old).size block vector) }
        ensures last { last self.new ≡ last self.old }
        ensures taken { (units : List ReadUnit) → stands_for self.old units → HasAvailable (last self.old).size units block.x block.y
            → stands_for self.new (units ++ unit block (Moved vector) ∷ []) };

    /// Takes a unit of samples: those of the three components, one after another, each in rows from the top (7.3.8.7).
    fn samples(&mut self, block: CodingBlock, samples: &[u8])
        requires low { 3 ≤ block.log2 }
        requires high { block.log2 ≤ 5 }
        requires column { block.x % 2 ^ block.log2 ≡ 0 }
        requires row { block.y % 2 ^ block.log2 ≡ 0 }
        requires across { block.x + 2 ^ block.log2 ≤ coded (last self.old).size.w }
        requires down { block.y + 2 ^ block.log2 ≤ coded (last self.old).size.h }
        requires long { length samples.now ≡ 2 ^ block.log2 * 2 ^ block.log2 + 2 ^ block.log2 * 2 ^ block.log2 + 2 ^ block.log2 * 2 ^ block.log2 }
        ensures last { last self.new ≡ last self.old }
        ensures taken { (units : List ReadUnit) → stands_for self.old units → HasAvailable (last self.old).size units block.x block.y
            → stands_for self.new (units ++ unit block (Samples (thirds (2 ^ block.log2 * 2 ^ block.log2) samples.now)) ∷ []) };

    /// Takes a unit of an intra mode (0 to 34) with its levels (7.3.8.8).
    fn levels(&mut self, block: CodingBlock, mode: u32, residuals: Residuals)
        requires low { 3 ≤ block.log2 }
        requires high { block.log2 ≤ 5 }
        requires column { block.x % 2 ^ block.log2 ≡ 0 }
        requires row { block.y % 2 ^ block.log2 ≡ 0 }
        requires across { block.x + 2 ^ block.log2 ≤ coded (last self.old).size.w }
        requires down { block.y + 2 ^ block.log2 ≤ coded (last self.old).size.h }
        requires mode { mode < 35 }
        requires long { AreResiduals block.log2 residuals }
        ensures last { last self.new ≡ last self.old }
        ensures taken { (units : List ReadUnit) → stands_for self.old units → HasAvailable (last self.old).size units block.x block.y
            → stands_for self.new (units ++ unit block (Levels mode (levels_of block.log2 residuals.entry)) ∷ []) };
}
