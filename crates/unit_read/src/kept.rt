//! What is kept of a coding unit.
use bin_items::Kind;
use h265_model::Vector;

/// What the grids keep of a coding unit: its kind, where a moved one counts as PCM, and the vector by which it was copied, if it was.
#[derive(Clone, Copy)]
pub(crate) struct Kept {
    pub kind: Kind,
    pub vector: Option<Vector>,
}
