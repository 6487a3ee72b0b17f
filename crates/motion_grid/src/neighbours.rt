//! Vectors of neighbours, and what is made of them.
ghost use Rattle.std.specs.Prelude.{◌≡◌, ℕ, ◌+◌, ◌^◌, ◌<◌, ◌≤◌, ◌∷◌, [], List};
ghost use Rattle.h265_model.specs.Motion as motion;
ghost use Rattle.h265_model.specs.Motion.{Moving, vector_before};

use h265_model::{CodingBlock, Vector};

/// The vector where nothing moves.
pub(crate) const NO_MOTION: Vector = Vector { x: 0, y: 0 };

/// The two motion vector predictors from the first vectors of the neighbours on the left and above (8.5.3.2.6).
pub(crate) fn two_of(left: Option<Vector>, above: Option<Vector>) -> (Vector, Vector)
    ensures { result ≡ motion.two_of left above }
{
    match (left, above) {
        (None, b) => (b.unwrap_or(NO_MOTION), NO_MOTION),
        (Some(a), Some(b)) if a.x != b.x || a.y != b.y => (a, b),
        (Some(a), _) => (a, NO_MOTION),
    }
}

/// The side of a block.
pub(crate) fn side(log2: u32) -> u32
    requires low { 3 ≤ log2 }
    requires high { log2 ≤ 5 }
    ensures value { result ≡ 2 ^ log2 }
    ensures few { result ≤ 32 }
{
    match log2 {
        3 => 8,
        4 => 16,
        _ => 32,
    }
}

/// What tells the vectors of coding units that are coded already.
pub trait CodedVectors {
    /// The lists of units that it stands for.
    ghost stands_for: { Self → List Moving → Type 0 };

    /// The vector at the place before (x, y) in both directions, where it is available and of a unit that was copied
    /// (6.4.2).
    fn vector_before(&self, x: u32, y: u32) -> Option<Vector>
        ensures { (units : List Moving) → stands_for self.now units → result ≡ vector_before units x y };
}

// The vector of one of the five neighbours of a block of side `n`, the first that has one.
fn neighbour<V: CodedVectors>(vectors: &V, x: u32, y: u32, n: u32) -> Option<Vector>
    requires x { x < 4096 }
    requires y { y < 4096 }
    requires n { n ≤ 32 }
    ensures { (units : List Moving) → V.stands_for vectors.now units
        → result ≡ motion.first_vector (vector_before units x (y + n) ∷ vector_before units (x + n) y
        ∷ vector_before units (x + n + 1) y ∷ vector_before units x (y + n + 1) ∷ vector_before units x y ∷ []) }
{
    let left = vectors.vector_before(x, y + n);
    if left.is_some() {
        return left;
    }
    let above = vectors.vector_before(x + n, y);
    if above.is_some() {
        return above;
    }
    let right = vectors.vector_before(x + n + 1, y);
    if right.is_some() {
        return right;
    }
    let below = vectors.vector_before(x, y + n + 1);
    below.or(vectors.vector_before(x, y))
}

/// The merge vector of a block of side 2^log2 at (x, y): that of the one merging candidate (8.5.3.2.2).
pub fn merge_vector<V: CodedVectors>(vectors: &V, block: CodingBlock) -> Vector
    requires low { 3 ≤ block.log2 }
    requires high { block.log2 ≤ 5 }
    requires across { block.x < 4096 }
    requires down { block.y < 4096 }
    ensures { (units : List Moving) → V.stands_for vectors.now units → result ≡ motion.merge units block }
{
    let n = side(block.log2);
    neighbour(vectors, block.x, block.y, n).unwrap_or(NO_MOTION)
}
