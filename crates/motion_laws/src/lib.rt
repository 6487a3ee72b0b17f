//! Laws over streams with moved blocks. Each function does nothing: its clause is the law.
#![tactic(auto)]

ghost use Rattle.motion_laws.specs.Laws.{EachMovedChoiceIsLawful, EachMovedStreamIsDecoded};

/// The units that are chosen where blocks may move are lawful, and those that are copied are so of equal blocks.
pub fn each_moved_choice_is_lawful()
    ensures { EachMovedChoiceIsLawful }
{}

/// The stream of each list of pictures with moved blocks is decoded to them.
pub fn each_moved_stream_is_decoded()
    ensures { EachMovedStreamIsDecoded }
{}
