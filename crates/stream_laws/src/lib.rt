//! What streams of every kind have in common, and the law of those of pictures alone. The function does nothing: its clause is the law.
#![tactic(auto)]

ghost use Rattle.stream_laws.specs.Laws.{EachPlainStreamIsDecoded};

/// The stream of each list of pictures alone is decoded to them.
pub fn each_plain_stream_is_decoded()
    ensures { EachPlainStreamIsDecoded }
{}
