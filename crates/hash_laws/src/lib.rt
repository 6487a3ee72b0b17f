//! Laws over streams with a hash after each picture. Each function does nothing: its clause is the law.
#![tactic(auto)]

ghost use Rattle.hash_laws.specs.Laws.{EachHashedStreamIsDecoded};

/// The stream of each list of pictures with their hashes is decoded to them.
pub fn each_hashed_stream_is_decoded()
    ensures { EachHashedStreamIsDecoded }
{}
