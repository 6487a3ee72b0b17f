//! What holds of the definitions.
ghost use Rattle.stream_decode.specs.Laws.{EachReadingIsDecoding};

/// Reading a stream picture by picture is decoding it, whatever its bytes are (8.1.1).
pub fn each_reading_is_decoding()
    ensures { EachReadingIsDecoding }
{}
