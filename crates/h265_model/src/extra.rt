//! What a stream has besides its pictures.

/// How pictures are cut into NAL units, and what stands beside them.
#[derive(Clone, Copy, Debug, PartialEq, Eq)]
pub enum Extra {
    /// A slice for each picture.
    Plain,
    /// A slice for each picture, and a decoded picture hash after it (D.2.19).
    Hash,
    /// A slice segment for each row of coding tree units (7.3.6.1).
    Segments,
    /// A slice for each picture, in which blocks may be copied from other places of the picture before (8.5.3).
    Moves,
}
