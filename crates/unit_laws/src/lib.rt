//! Laws over coding units, coding tree units and rows where blocks may move. Each function does nothing: its clause is the law.
#![tactic(auto)]

ghost use Rattle.unit_laws.specs.Laws.{EachVectorIsRead, EachUnitIsRead, EachUnitTreeIsRead, EachRowIsStill, EachUnitRowIsRead, EachCodedUnitIsFit, EachUnitRowIsWellFormed, EachUnitRowIsSubstream, EachSegmentIsStill, EachUnitPictureIsRebuilt};

/// Each vector that is written as a difference is read back.
pub fn each_vector_is_read()
    ensures { EachVectorIsRead }
{}

/// Each coding unit is read back where blocks may move.
pub fn each_unit_is_read()
    ensures { EachUnitIsRead }
{}

/// Each coding tree unit is read back where blocks may move.
pub fn each_unit_tree_is_read()
    ensures { EachUnitTreeIsRead }
{}

/// Rows without moved units are those of streams in which nothing moves.
pub fn each_row_is_still()
    ensures { EachRowIsStill }
{}

/// Each row of coding tree units is read back where blocks may move, in a slice and as a segment.
pub fn each_unit_row_is_read()
    ensures { EachUnitRowIsRead }
{}

/// The items of each row are well formed where blocks may move, in a slice and as a segment.
pub fn each_unit_row_is_well_formed()
    ensures { EachUnitRowIsWellFormed }
{}

/// Each picture is rebuilt from what is read of its units, where blocks may move.
pub fn each_unit_picture_is_rebuilt()
    ensures { EachUnitPictureIsRebuilt }
{}

/// The bytes of each row can be a substream where blocks may move.
pub fn each_unit_row_is_substream()
    ensures { EachUnitRowIsSubstream }
{}

/// The segments of rows without moved units are those of leaves.
pub fn each_segment_is_still()
    ensures { EachSegmentIsStill }
{}

/// The units that are coded have modes and short vectors.
pub fn each_coded_unit_is_fit()
    ensures { EachCodedUnitIsFit }
{}
