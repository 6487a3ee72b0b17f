//! Laws over streams with a slice segment for each row. Each function does nothing: its clause is the law.
#![tactic(auto)]

ghost use Rattle.segment_laws.specs.Laws.{EachSegmentHeadIsRead, EachSegmentHeadIsSpelled, EachSegmentedStreamIsDecoded};

/// Each slice segment header is read back.
pub fn each_segment_head_is_read()
    ensures { EachSegmentHeadIsRead }
{}

/// Nothing but its spelling is read as a slice segment header.
pub fn each_segment_head_is_spelled()
    ensures { EachSegmentHeadIsSpelled }
{}

/// The stream of each list of pictures in a segment for each row is decoded to them.
pub fn each_segmented_stream_is_decoded()
    ensures { EachSegmentedStreamIsDecoded }
{}
