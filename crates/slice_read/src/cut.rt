//! Where entry points cut the bytes of slice data.
ghost use Rattle.std.specs.Prelude.{◌≡◌};
ghost use Rattle.h265_model.specs.Slice.{cut_after};
ghost use Rattle.slice_read.specs.Cuts.{cost, Cuts};

// How many bytes this byte takes after those two, with its emulation prevention (7.4.2.1).
fn cost(p: u8, q: u8, byte: u8) -> u32
    ensures { result ≡ cost p q byte }
{
    if p == 0 && q == 0 && byte <= 3 { 2 } else { 1 }
}

/// How many of these bytes without emulation prevention take `n` bytes with it, or nothing where none do (entry_point_offset_minus1, 7.4.7.1).
pub(crate) fn cut(bytes: &[u8], n: u32) -> Option<usize>
    ensures { Cuts result (cut_after 255 255 n bytes.now) bytes.now }
{
    let (mut p, mut q) = (255, 255);
    let mut left = n;
    let mut at = 0;
    while left > 0 {
        if at == bytes.len() {
            return None;
        }
        let byte = bytes[at];
        let takes = cost(p, q, byte);
        if takes > left {
            return None;
        }
        p = if takes == 2 { 3 } else { q };
        q = byte;
        left -= takes;
        at += 1;
    }
    Some(at)
}
