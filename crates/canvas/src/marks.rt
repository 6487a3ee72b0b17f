//! Which coding tree units may differ between the two pictures.
ghost use Rattle.std.specs.Prelude.{◌≡◌, ◌<◌, ◌*◌, length, slice_index_or, true};
ghost use Rattle.h265_model.specs.Plain.{coded, ctus};
ghost use Rattle.canvas.specs.Marks.{ctu_at, IsMarked};

use h265_model::CodingBlock;
use px_plane::Size;

/// The number of the coding tree unit with a block, in rows from the top (6.5.1).
#[inline(always)]
pub(crate) fn ctu_of(size: Size, block: CodingBlock) -> usize
    requires across { block.x < coded size.w }
    requires down { block.y < coded size.h }
    ensures value { result ≡ ctu_at size block.x block.y }
    ensures within { result < ctus size.w * ctus size.h }
{
    let (_w, h) = (size.w(), size.h());
    let _rows = (h + 31) / 32;
    let columns = ((size.w() + 31) / 32) as usize;
    (block.y / 32) as usize * columns + (block.x / 32) as usize
}

/// Whether a coding tree unit has a mark.
#[inline(always)]
pub(crate) fn is_marked(marks: &[bool], ctu: usize) -> bool
    requires { ctu < length marks.now }
    ensures { result ≡ slice_index_or marks.now ctu true }
{
    marks[ctu]
}

/// Sets the mark of a coding tree unit.
#[inline(always)]
pub(crate) fn set_mark(marks: &mut [bool], ctu: usize, mark: bool)
    requires { ctu < length marks.old }
    ensures long { length marks.new ≡ length marks.old }
    ensures set { IsMarked marks.old marks.new ctu mark }
{
    marks[ctu] = mark;
}
