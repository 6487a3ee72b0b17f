//! Comparing squares with what vectors name in the picture before.
ghost use Rattle.std.specs.Prelude.{◌≡◌, ◌↔◌, ◌+◌, ◌<◌, ◌≤◌, ℕ, length, nat_le, slice_index, IsTrue, if◌then◌else◌, Some, None};
ghost use Rattle.h265_model.specs.Plain.{coded};
ghost use Rattle.px_plane.specs.Planes.{picture_of};
ghost use Rattle.vector_search.specs.Copies.{source_of, AreSameRows, IsMoved};

use h265_model::Vector;
use px_plane::Picture;

// A place from which `n` places lie in a picture of this side.
fn within(from: u32, n: u32, limit: u32) -> Option<u32>
    requires from { from ≤ 8192 }
    requires n { n ≤ 32 }
    ensures { result ≡ (if nat_le (from + n) limit then Some from else None) }
{
    if from + n <= limit { Some(from) } else { None }
}

// Along one axis, the place from which `n` places come by a part of a vector, if all of them lie in a picture of this side.
fn source(at: u32, n: u32, part: i32, limit: u32) -> Option<u32>
    requires at { at ≤ 4096 }
    requires n { n ≤ 32 }
    requires limit { limit ≤ 4096 }
    ensures { result ≡ source_of limit n at part }
{
    let distance = part.unsigned_abs();
    if part < 0 {
        if distance > at {
            return None;
        }
        return within(at - distance, n, limit);
    }
    if distance > limit {
        return None;
    }
    within(at + distance, n, limit)
}

// Whether two rows are equal. It looks at all samples, which goes many at a time.
#[inline(always)]
fn is_same_row(a: &[u8], b: &[u8]) -> bool
    requires { length a.now ≡ length b.now }
    ensures { IsTrue result ↔ ((i : ℕ) → i < length a.now → slice_index a.now i ≡ slice_index b.now i) }
{
    let mut same = true;
    for i in 0..a.len() {
        same &= a[i] == b[i];
    }
    same
}

// Whether a square of side `n` of one component equals that of the picture before at another place, up to the first row that differs.
#[inline(always)]
fn is_same_plane(
    last: &Picture,
    current: &Picture,
    component: u32,
    from: (u32, u32),
    to: (u32, u32),
    n: u32,
) -> bool
    requires component { component < 3 }
    requires sizes { last.now.size ≡ current.now.size }
    requires n { n ≤ 32 }
    requires from_near { from.1 ≤ 4096 }
    requires to_near { to.1 ≤ 4096 }
    requires from_x { from.0 + n ≤ coded current.now.size.w }
    requires from_y { from.1 + n ≤ coded current.now.size.h }
    requires to_x { to.0 + n ≤ coded current.now.size.w }
    requires to_y { to.1 + n ≤ coded current.now.size.h }
    ensures { IsTrue result ↔ AreSameRows (picture_of last.now) (picture_of current.now) component from.0 from.1 to.0 to.1 n n }
{
    for j in 0..n {
        let before = last.row(component, from.0, from.1 + j, n);
        let now = current.row(component, to.0, to.1 + j, n);
        if !is_same_row(before, now) {
            return false;
        }
    }
    true
}

// Whether a square of side `n` equals that of the picture before at another place, up to the first row of a component that differs.
#[inline(always)]
fn is_same_square(
    last: &Picture,
    current: &Picture,
    from: (u32, u32),
    to: (u32, u32),
    n: u32,
) -> bool
    requires sizes { last.now.size ≡ current.now.size }
    requires n { n ≤ 32 }
    requires from_near { from.1 ≤ 4096 }
    requires to_near { to.1 ≤ 4096 }
    requires from_x { from.0 + n ≤ coded current.now.size.w }
    requires from_y { from.1 + n ≤ coded current.now.size.h }
    requires to_x { to.0 + n ≤ coded current.now.size.w }
    requires to_y { to.1 + n ≤ coded current.now.size.h }
    ensures { IsTrue result
        ↔ ((c : ℕ) → c < 3 → AreSameRows (picture_of last.now) (picture_of current.now) c from.0 from.1 to.0 to.1 n n) }
{
    for component in 0..3u32 {
        if !is_same_plane(last, current, component, from, to, n) {
            return false;
        }
    }
    true
}

// A side rounded up to a multiple of 8.
fn coded_side(side: u32) -> u32
    requires { side ≤ 4096 }
    ensures value { result ≡ coded side }
    ensures bound { result ≤ 4096 }
{
    (side + 7) / 8 * 8
}

/// Whether the square of side `n` at (x, y) equals the one of the picture before that the vector names, wholly in the coded picture.
#[inline(always)]
pub(crate) fn is_moved(
    last: &Picture,
    current: &Picture,
    x: u32,
    y: u32,
    n: u32,
    vector: Vector,
) -> bool
    requires sizes { last.now.size ≡ current.now.size }
    requires n { n ≤ 32 }
    requires across { x + n ≤ coded current.now.size.w }
    requires down { y + n ≤ coded current.now.size.h }
    ensures { IsTrue result ↔ IsMoved (picture_of last.now) (picture_of current.now) current.now.size x y n vector }
{
    let size = current.size();
    let Some(from_x) = source(x, n, vector.x, coded_side(size.w())) else {
        return false;
    };
    let Some(from_y) = source(y, n, vector.y, coded_side(size.h())) else {
        return false;
    };
    is_same_square(last, current, (from_x, from_y), (x, y), n)
}
