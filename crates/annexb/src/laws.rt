//! What holds of the definitions.
ghost use Rattle.annexb.specs.Laws.{EachUnitIsReadBack};

/// What `append_unit` appends to an empty list is read by `units` as that one NAL unit, where its payload doesn't end in a zero
/// and the second byte of its header isn't one.
pub fn each_unit_is_read_back()
    ensures { EachUnitIsReadBack }
{}
