//! Two pictures, of which one is drawn.
ghost use Rattle.std.specs.Prelude.{◌≡◌, ◌<◌, ◌≤◌, ◌+◌, ◌*◌, ◌%◌, ◌^◌, ◌++◌, ◌∷◌, [], List, length, Some, IsTrue, IfOk};
ghost use Rattle.h265_model.specs.Plain.{Picture as ThePicture, coded};
ghost use Rattle.h265_model.specs.Tree.{thirds, ReadUnit, Content, Copied, Moved, Samples, Levels, vector_of};
ghost use Rattle.h265_model.specs.Motion.{has_source, no_motion};
ghost use Rattle.h265_model.specs.Rebuild.{rebuild};
ghost use Rattle.px_plane.specs.Planes.{Planes, black, planes_of, picture_of, Stores};
ghost use Rattle.leaf_sink.specs.Units.{unit, HasAvailable, AreResiduals, levels_of};
ghost use Rattle.canvas.specs.Drawing.{Draws, AreWhole, AreStill};

use crate::marks::{ctu_of, is_marked, set_mark};
use crate::predicted::draw_component;
use crate::side::{area, side};
use crate::source::{is_still, moved};
use h265_model::{CodingBlock, NoMemory, Vector};
use leaf_sink::{LeafSink, Residuals};
use px_plane::{Picture, Size};
use std::alloc::Global;
use std::marker::Model;

/// The last picture, and the one that is drawn from its coding units as they are read.
///
/// It stands for the units that were taken since the picture was begun: wherever they are, the picture that is drawn has their samples. Elsewhere
/// it may have any. No call takes memory but `new`, and none but `keep` changes the last picture. A copy without motion writes nothing where the two
/// pictures are the same already.
#[derive(Debug, Drop)]
pub struct Canvas {
    last: Picture,
    drawn: Picture,
    // For each coding tree unit, in rows from the top, whether the two pictures may differ there.
    changed: Vec<bool>,
    // Room for the samples of one component of a unit.
    room: [u8; 1024],
}

impl Model for Canvas {
    ghost use Rattle.canvas.specs.Drawing.{Pictures, ArePictures};
    ghost use Rattle.canvas.specs.Marks.{AreMarked};

    ghost Value = { Pictures };

    ghost view = { λ c. record { last = c.last; drawn = c.drawn } };

    ghost invariant = { λ c. ArePictures (record { last = c.last; drawn = c.drawn })
        × AreMarked (record { last = c.last; drawn = c.drawn }) c.changed.items };
}

impl Canvas {
    /// A canvas for pictures of this size. The last picture is of zeros, and no unit is drawn.
    ///
    /// # Errors
    ///
    /// `NoMemory` where the allocator refuses one of the planes, or the marks.
    pub fn new(alloc: Global, size: Size) -> Result<Canvas, NoMemory>
        ensures last { IfOk result (λ c. c.last ≡ black size) }
        ensures empty { IfOk result (λ c. Draws c []) }
    {
        let last = Picture::black(alloc, size)?;
        let drawn = Picture::black(alloc, size)?;
        let ctus = ((size.w() + 31) / 32) as usize * ((size.h() + 31) / 32) as usize;
        let changed = vec![in alloc; false; ctus]?;
        Ok(Canvas {
            last,
            drawn,
            changed,
            room: [0; 1024],
        })
    }

    /// The last picture.
    pub fn last(&self) -> &Picture
        ensures { result.now ≡ self.now.last }
    {
        &self.last
    }

    /// The picture that is drawn.
    pub fn drawn(&self) -> &Picture
        ensures drawn { result.now ≡ self.now.drawn }
        ensures size { result.now.size ≡ self.now.last.size }
    {
        &self.drawn
    }

    /// Begins a picture: none of its units is drawn.
    pub fn begin(&mut self)
        ensures last { self.new.last ≡ self.old.last }
        ensures empty { Draws self.new [] }
    {}

    /// Makes the picture that is drawn the last one. If its units covered it, then it is the picture that they rebuild after the last one, and where
    /// none was copied, after any.
    pub fn keep(&mut self)
        ensures last { self.new.last ≡ self.old.drawn }
        ensures drawn { self.new.drawn ≡ self.old.last }
        ensures size { self.new.last.size ≡ self.old.last.size }
        ensures rebuilt { (units : List ReadUnit) → Draws self.old units → AreWhole self.old.last.size units → (before : ThePicture) → Stores self.old.last before
            → planes_of self.new.last ≡ rebuild self.old.last.size before units }
        ensures still { (units : List ReadUnit) → Draws self.old units → AreWhole self.old.last.size units → AreStill units → (before : ThePicture)
            → planes_of self.new.last ≡ rebuild self.old.last.size before units }
    {
        std::mem::swap(&mut self.last, &mut self.drawn);
    }

    // Copies a block of the last picture to another place.
    fn copy_moved(&mut self, block: CodingBlock, vector: Vector)
        requires low { 3 ≤ block.log2 }
        requires high { block.log2 ≤ 5 }
        requires column { block.x % 2 ^ block.log2 ≡ 0 }
        requires row { block.y % 2 ^ block.log2 ≡ 0 }
        requires across { block.x + 2 ^ block.log2 ≤ coded self.old.last.size.w }
        requires down { block.y + 2 ^ block.log2 ≤ coded self.old.last.size.h }
        requires source { IsTrue (has_source self.old.last.size block vector) }
        ensures last { self.new.last ≡ self.old.last }
        ensures drawn { (units : List ReadUnit) (content : Content) → vector_of content ≡ Some vector → Draws self.old units
            → Draws self.new (units ++ unit block content ∷ []) }
    {
        let n = side(block.log2);
        let size = self.last.size();
        let (from_x, from_y) = (moved(block.x, vector.x), moved(block.y, vector.y));
        self.drawn
            .copy_block(&self.last, from_x, from_y, block.x, block.y, n);
        set_mark(&mut self.changed, ctu_of(size, block), true);
    }

    // Copies a block of the last picture to the same place, if the two pictures may differ there.
    fn copy_still(&mut self, block: CodingBlock)
        requires low { 3 ≤ block.log2 }
        requires high { block.log2 ≤ 5 }
        requires column { block.x % 2 ^ block.log2 ≡ 0 }
        requires row { block.y % 2 ^ block.log2 ≡ 0 }
        requires across { block.x + 2 ^ block.log2 ≤ coded self.old.last.size.w }
        requires down { block.y + 2 ^ block.log2 ≤ coded self.old.last.size.h }
        requires source { IsTrue (has_source self.old.last.size block no_motion) }
        ensures last { self.new.last ≡ self.old.last }
        ensures drawn { (units : List ReadUnit) (content : Content) → vector_of content ≡ Some no_motion → Draws self.old units
            → Draws self.new (units ++ unit block content ∷ []) }
    {
        let ctu = ctu_of(self.last.size(), block);
        if !is_marked(&self.changed, ctu) {
            return;
        }
        let n = side(block.log2);
        self.drawn
            .copy_block(&self.last, block.x, block.y, block.x, block.y, n);
        if n == 32 {
            set_mark(&mut self.changed, ctu, false);
        }
    }

    // Copies a block of the last picture.
    fn copy(&mut self, block: CodingBlock, vector: Vector)
        requires low { 3 ≤ block.log2 }
        requires high { block.log2 ≤ 5 }
        requires column { block.x % 2 ^ block.log2 ≡ 0 }
        requires row { block.y % 2 ^ block.log2 ≡ 0 }
        requires across { block.x + 2 ^ block.log2 ≤ coded self.old.last.size.w }
        requires down { block.y + 2 ^ block.log2 ≤ coded self.old.last.size.h }
        requires source { IsTrue (has_source self.old.last.size block vector) }
        ensures last { self.new.last ≡ self.old.last }
        ensures drawn { (units : List ReadUnit) (content : Content) → vector_of content ≡ Some vector → Draws self.old units
            → Draws self.new (units ++ unit block content ∷ []) }
    {
        if is_still(vector) {
            self.copy_still(block);
        } else {
            self.copy_moved(block, vector);
        }
    }
}

impl LeafSink for Canvas {
    ghost last = { λ c. c.last };

    ghost stands_for = { λ c units. Draws c units };

    fn copied(&mut self, block: CodingBlock, vector: Vector) {
        self.copy(block, vector);
    }

    fn moved(&mut self, block: CodingBlock, vector: Vector) {
        self.copy(block, vector);
    }

    fn samples(&mut self, block: CodingBlock, samples: &[u8]) {
        let n = side(block.log2);
        let area = area(block.log2);
        self.drawn
            .put_block(0, block.x, block.y, n, &samples[..area]);
        self.drawn
            .put_block(1, block.x, block.y, n, &samples[area..2 * area]);
        self.drawn
            .put_block(2, block.x, block.y, n, &samples[2 * area..3 * area]);
        let ctu = ctu_of(self.last.size(), block);
        set_mark(&mut self.changed, ctu, true);
    }

    fn levels(&mut self, block: CodingBlock, mode: u32, residuals: Residuals) {
        let Canvas {
            last,
            drawn,
            changed,
            room,
        } = self;
        draw_component(drawn, room, 0, block, mode, residuals.luma);
        draw_component(drawn, room, 1, block, mode, residuals.cb);
        draw_component(drawn, room, 2, block, mode, residuals.cr);
        set_mark(changed, ctu_of(last.size(), block), true);
    }
}
