//! Parts of rows, wherever they lie.
ghost use Rattle.std.specs.Prelude.{◌^◌, ◌<◌, ◌≤◌, length};

use px_plane::Picture;

/// The samples of a component at `n` places of a row, from (x, y) on; none where not all of them lie on the desktop.
pub(crate) fn row_at(picture: &Picture, component: u32, x: u32, y: u32, n: u32) -> &[u8]
    ensures within { length result.now ≤ n }
    ensures fits { length result.now < 2 ^ 32 }
{
    let size = picture.size();
    if component < 3 && y < size.h() && x <= size.w() && n <= size.w() - x {
        picture.row(component, x, y, n)
    } else {
        &[]
    }
}

// Whether two rows are equal. It looks at all samples, which goes many at a time.
fn is_same(a: &[u8], b: &[u8]) -> bool {
    let n = a.len().min(b.len());
    let mut same = true;
    for i in 0..n {
        same &= a[i] == b[i];
    }
    same
}

/// How many samples two rows have in common from their beginning on.
pub(crate) fn common_front(a: &[u8], b: &[u8]) -> u32
    requires { length a.now < 2 ^ 32 }
    ensures { result ≤ length a.now }
{
    let n = a.len().min(b.len());
    if is_same(a, b) {
        return n as u32;
    }
    for i in 0..n {
        if a[i] != b[i] {
            return i as u32;
        }
    }
    n as u32
}

/// How many samples two rows of the same length have in common up to their end.
pub(crate) fn common_back(a: &[u8], b: &[u8]) -> u32
    requires { length a.now < 2 ^ 32 }
    ensures { result ≤ length a.now }
{
    let n = a.len().min(b.len());
    if is_same(a, b) {
        return n as u32;
    }
    for done in 0..n {
        if a[n - 1 - done] != b[n - 1 - done] {
            return done as u32;
        }
    }
    n as u32
}
