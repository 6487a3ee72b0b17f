//! Comparing rows of samples.
ghost use Rattle.std.specs.Prelude.{◌≡◌, ℕ, ◌<◌, length, slice_index, IsTrue, ◌↔◌};
ghost use Rattle.px_plane.specs.Blocks.{HasLength, IsFront};

/// A part of a row: as many samples of each plane.
#[derive(Clone, Copy)]
pub(crate) struct RowPart<'a> {
    pub g: &'a [u8],
    pub b: &'a [u8],
    pub r: &'a [u8],
}

// Whether two rows are equal. It looks at all samples, which goes many at a time.
fn is_same(a: &[u8], b: &[u8]) -> bool
    requires { length a.now ≡ length b.now }
    ensures { IsTrue result ↔ ((i : ℕ) → i < length a.now → slice_index a.now i ≡ slice_index b.now i) }
{
    let mut same = true;
    for i in 0..a.len() {
        same &= a[i] == b[i];
    }
    same
}

/// How many positions stand before the first that differs in some plane.
pub(crate) fn equal_front(a: RowPart, b: RowPart, n: usize) -> usize
    requires long { HasLength a n }
    requires as_long { HasLength b n }
    ensures { IsFront a.entry b.entry n result }
{
    if is_same(a.g, b.g) && is_same(a.b, b.b) && is_same(a.r, b.r) {
        return n;
    }
    for i in 0..n {
        if a.g[i] != b.g[i] || a.b[i] != b.b[i] || a.r[i] != b.r[i] {
            return i;
        }
    }
    n
}
