//! Streams with hashes, segments and moved blocks that are computed, and streams that are refused.
#![tactic(auto)]

ghost use Rattle.stream_examples.specs.Laws.{BlackIsRead};

/// The stream of a black picture is decoded to it.
pub fn the_black_stream_is_read()
    ensures { BlackIsRead }
{}
