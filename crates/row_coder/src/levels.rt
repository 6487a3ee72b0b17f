//! The levels and samples of a picture.
ghost use Rattle.std.specs.Prelude.{◌≡◌};
ghost use Rattle.std.specs.Arc.{arc_value};

use crate::predicted::{fill_levels, fill_samples};
use bin_items::{Block, Leaf};
use coding_tree::LevelSource;
use px_plane::Picture;
use std::alloc::Global;
use std::marker::Model;
use std::sync::Arc;

/// The levels and the samples that a picture gives of its coding units. Contracts see the picture.
///
/// Its levels are samples less prediction. Levels and samples are 0 for a unit whose place isn't at multiples of its side or that isn't wholly in
/// the coded picture, and levels are 0 for a unit without an intra mode.
#[derive(Drop)]
pub struct PictureLevels {
    picture: Arc<Picture, Global>,
}

impl Model for PictureLevels {
    ghost use Rattle.std.specs.Arc.{arc_value};
    ghost use Rattle.px_plane.specs.Planes.{Planes};

    ghost Value = { Planes };

    ghost view = { λ s. arc_value s.picture };
}

impl PictureLevels {
    /// The levels and samples of this picture. It takes no memory.
    pub fn new(now: Arc<Picture, Global>) -> PictureLevels
        ensures { result ≡ arc_value now }
    {
        PictureLevels { picture: now }
    }
}

impl LevelSource for PictureLevels {
    ghost use Rattle.px_plane.specs.Planes.{picture_of};
    ghost use Rattle.row_coder.specs.Sources.{picture_source};

    ghost source = { λ s. picture_source s.size (picture_of s) };

    fn levels(&mut self, leaf: Leaf, component: u32, out: &mut Block) {
        fill_levels(&self.picture, component, leaf, out);
    }

    fn samples(&mut self, leaf: Leaf, component: u32, out: &mut Block) {
        fill_samples(&self.picture, component, leaf, out);
    }
}

/// The same of a picture that is lent.
#[derive(Drop)]
pub(crate) struct LentLevels<'a> {
    pub(crate) lent: &'a Picture,
}

impl<'a> LevelSource for LentLevels<'a> {
    ghost use Rattle.px_plane.specs.Planes.{picture_of};
    ghost use Rattle.row_coder.specs.Sources.{picture_source};

    ghost source = { λ s. picture_source s.lent.now.size (picture_of s.lent.now) };

    fn levels(&mut self, leaf: Leaf, component: u32, out: &mut Block) {
        fill_levels(self.lent, component, leaf, out);
    }

    fn samples(&mut self, leaf: Leaf, component: u32, out: &mut Block) {
        fill_samples(self.lent, component, leaf, out);
    }
}
