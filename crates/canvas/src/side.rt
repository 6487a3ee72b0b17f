//! The sides and areas of blocks.
ghost use Rattle.std.specs.Prelude.{◌≡◌, ◌≤◌, ◌*◌, ◌^◌};

/// The side of a block.
#[inline(always)]
pub(crate) fn side(log2: u32) -> u32
    requires low { 3 ≤ log2 }
    requires high { log2 ≤ 5 }
    ensures value { result ≡ 2 ^ log2 }
    ensures most { result ≤ 32 }
{
    match log2 {
        3 => 8,
        4 => 16,
        _ => 32,
    }
}

/// How many samples a block has.
#[inline(always)]
pub(crate) fn area(log2: u32) -> usize
    requires low { 3 ≤ log2 }
    requires high { log2 ≤ 5 }
    ensures value { result ≡ 2 ^ log2 * 2 ^ log2 }
    ensures most { result ≤ 1024 }
{
    match log2 {
        3 => 64,
        4 => 256,
        _ => 1024,
    }
}
