//! Where two pictures differ.
ghost use Rattle.std.specs.Prelude.{◌≡◌, ℕ, ◌+◌, ◌^◌, ◌<◌, ◌≤◌, length, slice_index, IsTrue, ◌↔◌, IfSome, IsNone};
ghost use Rattle.frame_paints.specs.Parts.{SameBetween, SameIn, SameBeside, IsPiece, IsPlaced, IsPartOf};

use px_plane::{Picture, Rect};

// Whether two rows are equal. It looks at all samples, which goes many at a time.
fn is_same(a: &[u8], b: &[u8]) -> bool
    requires { length a.now ≡ length b.now }
    ensures { IsTrue result ↔ ((i : ℕ) → i < length a.now → slice_index a.now i ≡ slice_index b.now i) }
{
    let mut same = true;
    for i in 0..a.len() {
        same &= a[i] == b[i];
    }
    same
}

// How many samples are looked at together.
const CHUNK: usize = 64;

// How many samples two rows have in common from their beginning on, of which a number is known.
fn front_from(a: &[u8], b: &[u8], known: usize) -> u32
    requires length { length a.now ≡ length b.now }
    requires short { length a.now < 2 ^ 32 }
    requires known { (i : ℕ) → i < known → i < length a.now → slice_index a.now i ≡ slice_index b.now i }
    ensures within { result ≤ length a.now }
    ensures same { (i : ℕ) → i < result → slice_index a.now i ≡ slice_index b.now i }
{
    for i in known..a.len() {
        if a[i] != b[i] {
            return i as u32;
        }
    }
    a.len() as u32
}

// How many samples two rows have in common from their beginning on.
fn same_front(a: &[u8], b: &[u8]) -> u32
    requires length { length a.now ≡ length b.now }
    requires short { length a.now < 2 ^ 32 }
    ensures within { result ≤ length a.now }
    ensures same { (i : ℕ) → i < result → slice_index a.now i ≡ slice_index b.now i }
{
    let chunks = a.len() / CHUNK;
    for chunk in 0..chunks {
        let at = chunk * CHUNK;
        if !is_same(&a[at..at + CHUNK], &b[at..at + CHUNK]) {
            return front_from(a, b, at);
        }
    }
    front_from(a, b, chunks * CHUNK)
}

// Behind which of their samples two rows are the same up to their end, of which a number is known.
fn back_from(a: &[u8], b: &[u8], known: usize) -> u32
    requires length { length a.now ≡ length b.now }
    requires short { length a.now < 2 ^ 32 }
    requires within { known ≤ length a.now }
    requires known { (i : ℕ) → known ≤ i → i < length a.now → slice_index a.now i ≡ slice_index b.now i }
    ensures within { result ≤ length a.now }
    ensures same { (i : ℕ) → result ≤ i → i < length a.now → slice_index a.now i ≡ slice_index b.now i }
{
    for done in 0..known {
        let i = known - 1 - done;
        if a[i] != b[i] {
            return i as u32 + 1;
        }
    }
    0
}

// Behind which of their samples two rows are the same up to their end.
fn same_back(a: &[u8], b: &[u8]) -> u32
    requires length { length a.now ≡ length b.now }
    requires short { length a.now < 2 ^ 32 }
    ensures within { result ≤ length a.now }
    ensures same { (i : ℕ) → result ≤ i → i < length a.now → slice_index a.now i ≡ slice_index b.now i }
{
    let n = a.len();
    let chunks = n / CHUNK;
    for chunk in 0..chunks {
        let end = n - chunk * CHUNK;
        if !is_same(&a[end - CHUNK..end], &b[end - CHUNK..end]) {
            return back_from(a, b, end);
        }
    }
    back_from(a, b, n - chunks * CHUNK)
}

// Whether two pictures are the same at `n` places of a row, from (x, y) on.
fn row_same(a: &Picture, b: &Picture, x: u32, y: u32, n: u32) -> bool
    requires sizes { b.now.size ≡ a.now.size }
    requires across { x + n ≤ a.now.size.w }
    requires down { y < a.now.size.h }
    ensures { IsTrue result → SameBetween a.now b.now x (x + n) y (y + 1) }
{
    for component in 0..3 {
        if !is_same(a.row(component, x, y, n), b.row(component, x, y, n)) {
            return false;
        }
    }
    true
}

// The first column from `left` up to `right` in which they differ in a row, or `right`.
fn first_column(a: &Picture, b: &Picture, left: u32, right: u32, y: u32) -> u32
    requires sizes { b.now.size ≡ a.now.size }
    requires across { (left ≤ right) × (right ≤ a.now.size.w) }
    requires down { y < a.now.size.h }
    ensures within { (left ≤ result) × (result ≤ right) }
    ensures same { SameBetween a.now b.now left result y (y + 1) }
{
    let n = right - left;
    let green = same_front(a.row(0, left, y, n), b.row(0, left, y, n));
    let blue = same_front(a.row(1, left, y, green), b.row(1, left, y, green));
    let red = same_front(a.row(2, left, y, blue), b.row(2, left, y, blue));
    left + red
}

// The column behind the last one from `left` up to `right` in which they differ in a row, or `left`.
fn last_column(a: &Picture, b: &Picture, left: u32, right: u32, y: u32) -> u32
    requires sizes { b.now.size ≡ a.now.size }
    requires across { (left ≤ right) × (right ≤ a.now.size.w) }
    requires down { y < a.now.size.h }
    ensures within { (left ≤ result) × (result ≤ right) }
    ensures same { SameBetween a.now b.now result right y (y + 1) }
{
    let n = right - left;
    let green = same_back(a.row(0, left, y, n), b.row(0, left, y, n));
    let blue = same_back(a.row(1, left, y, n), b.row(1, left, y, n));
    let red = same_back(a.row(2, left, y, n), b.row(2, left, y, n));
    left + green.max(blue).max(red)
}

/// The first of the rows from `top` up to `bottom` in which they differ at `n` places from `x` on, or `bottom`.
pub(crate) fn first_row(a: &Picture, b: &Picture, x: u32, n: u32, top: u32, bottom: u32) -> u32
    requires sizes { b.now.size ≡ a.now.size }
    requires across { x + n ≤ a.now.size.w }
    requires down { (top ≤ bottom) × (bottom ≤ a.now.size.h) }
    ensures within { (top ≤ result) × (result ≤ bottom) }
    ensures same { SameBetween a.now b.now x (x + n) top result }
{
    for y in top..bottom {
        if !row_same(a, b, x, y, n) {
            return y;
        }
    }
    bottom
}

/// The row behind the last one from `top` up to `bottom` in which they differ at `n` places from `x` on, or `top`.
pub(crate) fn last_row(a: &Picture, b: &Picture, x: u32, n: u32, top: u32, bottom: u32) -> u32
    requires sizes { b.now.size ≡ a.now.size }
    requires across { x + n ≤ a.now.size.w }
    requires down { (top ≤ bottom) × (bottom ≤ a.now.size.h) }
    ensures within { (top ≤ result) × (result ≤ bottom) }
    ensures same { SameBetween a.now b.now x (x + n) result bottom }
{
    for done in 0..bottom - top {
        let y = bottom - 1 - done;
        if !row_same(a, b, x, y, n) {
            return y + 1;
        }
    }
    top
}

// The columns from `left` up to `right` beside which they are the same in all rows from `top` up to `bottom`.
fn columns(a: &Picture, b: &Picture, left: u32, right: u32, top: u32, bottom: u32) -> (u32, u32)
    requires sizes { b.now.size ≡ a.now.size }
    requires across { (left ≤ right) × (right ≤ a.now.size.w) }
    requires down { (top ≤ bottom) × (bottom ≤ a.now.size.h) }
    ensures first { (left ≤ result.0) × (result.0 ≤ right) }
    ensures last { (left ≤ result.1) × (result.1 ≤ right) }
    ensures before { SameBetween a.now b.now left result.0 top bottom }
    ensures behind { SameBetween a.now b.now result.1 right top bottom }
{
    let mut first = right;
    let mut last = left;
    for y in top..bottom {
        first = first_column(a, b, left, first, y);
        last = last_column(a, b, last, right, y);
    }
    (first, last)
}

/// The part of a rectangle beside which two pictures are the same, or `None` where they are the same in all of it.
pub(crate) fn differing(a: &Picture, b: &Picture, rect: Rect) -> Option<Rect>
    requires sizes { b.now.size ≡ a.now.size }
    requires piece { IsPiece a.now.size rect }
    ensures piece { IfSome result (IsPiece a.now.size) }
    ensures part { IfSome result (IsPartOf rect) }
    ensures beside { IfSome result (SameBeside a.now b.now rect) }
    ensures same { IsNone result → SameIn a.now b.now rect }
{
    let _size = a.size();
    let bottom = rect.y + rect.h;
    let right = rect.x + rect.w;
    let first = first_row(a, b, rect.x, rect.w, rect.y, bottom);
    let last = last_row(a, b, rect.x, rect.w, first, bottom);
    let (left, right) = columns(a, b, rect.x, right, first, last);
    if first >= last || left >= right {
        return None;
    }
    Some(Rect {
        x: left,
        y: first,
        w: right - left,
        h: last - first,
    })
}

/// The part of the rows from `top` up to `bottom` beside which the frame is as what is shown.
pub(crate) fn changed(shown: &Picture, frame: &Picture, top: u32, bottom: u32) -> Option<Rect>
    requires sizes { frame.now.size ≡ shown.now.size }
    requires down { (top ≤ bottom) × (bottom ≤ shown.now.size.h) }
    ensures { IfSome result (IsPlaced shown.now.size) }
{
    let w = shown.size().w();
    let first = first_row(shown, frame, 0, w, top, bottom);
    let last = last_row(shown, frame, 0, w, first, bottom);
    let (left, right) = columns(shown, frame, 0, w, first, last);
    if first >= last || left >= right {
        return None;
    }
    Some(Rect {
        x: left,
        y: first,
        w: right - left,
        h: last - first,
    })
}
