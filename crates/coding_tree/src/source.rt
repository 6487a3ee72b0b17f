//! Where the levels and samples of coding units come from.
ghost use Rattle.std.specs.Prelude.{◌≡◌, ◌<◌};
ghost use Rattle.h265_model.specs.Tree.{Source};
ghost use Rattle.coding_tree.specs.Filled.{HasLevels, HasSamples};

use bin_items::{Block, Leaf};

/// Gives the levels and the samples of each coding unit and component.
///
/// Components are 0 (G), 1 (B) and 2 (R). A block that is filled has the unit's side. Neither call changes what the source means.
pub trait LevelSource {
    /// The levels and samples that it gives.
    ghost source: { Self → Source };

    /// Fills a block with the levels of a unit, from -255 to 255.
    fn levels(&mut self, leaf: Leaf, component: u32, out: &mut Block)
        requires component { component < 3 }
        requires side { out.old.log2 ≡ leaf.block.log2 }
        ensures levels { HasLevels (source self.old) leaf component out.new }
        ensures kept { source self.new ≡ source self.old };

    /// Fills a block with the samples of a unit, from 0 to 255.
    fn samples(&mut self, leaf: Leaf, component: u32, out: &mut Block)
        requires component { component < 3 }
        requires side { out.old.log2 ≡ leaf.block.log2 }
        ensures samples { HasSamples (source self.old) leaf component out.new }
        ensures kept { source self.new ≡ source self.old };
}
