//! Laws of streams of every kind: pictures alone, with hashes, in segments, or with moved blocks. Each function does nothing: its clause is the law.
#![tactic(auto)]

ghost use Rattle.extra_laws.specs.Laws.{EachExtraStreamIsDecoded, EachBeginningIsDecoded};

/// The stream of each list of pictures, whatever it has besides them, is decoded to them.
pub fn each_extra_stream_is_decoded()
    ensures { EachExtraStreamIsDecoded }
{}

/// The pieces of a stream so far are decoded to the pictures so far.
pub fn each_beginning_is_decoded()
    ensures { EachBeginningIsDecoded }
{}
