//! Laws over the reading of coding tree units, of whatever bytes. Each function does nothing: its clause is the law.
#![tactic(auto)]

ghost use Rattle.read_laws.specs.Laws.{EachReadTreeIsLawful, EachReadSliceIsLawful, EachReadSegmentIsLawful, EachReadPictureIsDrawn, EachPlaceIsDrawnOnce, EachStillCopyIsLeftOut, EachPictureIsDrawnInPlace};

/// What is read of a coding tree unit is a lawful tree of sound units.
pub fn each_read_tree_is_lawful()
    ensures { EachReadTreeIsLawful }
{}

/// What is read of a slice is a lawful tree for each coding tree unit of the picture.
pub fn each_read_slice_is_lawful()
    ensures { EachReadSliceIsLawful }
{}

/// What is read of a segment is a lawful tree for each coding tree unit of its row.
pub fn each_read_segment_is_lawful()
    ensures { EachReadSegmentIsLawful }
{}

/// What is read of a whole picture draws it, whatever it is drawn over.
pub fn each_read_picture_is_drawn()
    ensures { EachReadPictureIsDrawn }
{}

/// Each place of a picture is drawn by one unit alone.
pub fn each_place_is_drawn_once()
    ensures { EachPlaceIsDrawnOnce }
{}

/// Copies without motion may be left out where a picture is drawn over the one before.
pub fn each_still_copy_is_left_out()
    ensures { EachStillCopyIsLeftOut }
{}

/// A picture is drawn in the place of the one before by the units that change it.
pub fn each_picture_is_drawn_in_place()
    ensures { EachPictureIsDrawnInPlace }
{}
