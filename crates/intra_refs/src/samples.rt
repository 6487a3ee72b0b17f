//! The reference samples of a block, as they are kept.
ghost use Rattle.std.specs.Prelude.{◌≡◌, ◌+◌, ◌*◌, ◌%◌, ◌≤◌, ◌^◌, length, slice_index, take};

use std::marker::Model;

/// The 4n + 1 reference samples of a block of side n: from the lowest on the left up to the corner, and on to the last above.
#[derive(Drop)]
pub struct Refs {
    log2: u32,
    line: [u8; 129],
}

impl Model for Refs {
    ghost use Rattle.std.specs.Prelude.{ℕ, List, take, ◌*◌, ◌+◌, ◌^◌, ◌≤◌};
    ghost use Rattle.intra_refs.specs.Neighbours.{References};

    ghost Value = { References };

    ghost view = { λ r. record { log2 = r.log2; samples = take (4 * 2 ^ r.log2 + 1) r.line } };

    ghost invariant = { λ r. (3 ≤ r.log2) × (r.log2 ≤ 5) };
}

/// The side of a block.
pub(crate) fn side_of(log2: u32) -> u32
    requires low { 3 ≤ log2 }
    requires high { log2 ≤ 5 }
    ensures value { result ≡ 2 ^ log2 }
    ensures whole { result % 8 ≡ 0 }
    ensures least { 8 ≤ result }
    ensures bound { result ≤ 32 }
{
    match log2 {
        3 => 8,
        4 => 16,
        _ => 32,
    }
}

impl Refs {
    /// The first 4n + 1 samples of a line.
    pub(crate) fn of(log2: u32, line: [u8; 129]) -> Refs
        requires low { 3 ≤ log2 }
        requires high { log2 ≤ 5 }
        ensures samples { result.samples ≡ take (4 * 2 ^ log2 + 1) line }
        ensures side { result.log2 ≡ log2 }
    {
        Refs { log2, line }
    }

    /// The base-2 logarithm of the side n: 3, 4 or 5.
    pub fn log2(&self) -> u32
        ensures value { result ≡ self.now.log2 }
        ensures low { 3 ≤ result }
        ensures high { result ≤ 5 }
    {
        self.log2
    }

    /// All samples, in the order of search.
    pub fn samples(&self) -> &[u8]
        ensures value { result.now ≡ self.now.samples }
        ensures whole { length result.now ≡ 4 * 2 ^ self.now.log2 + 1 }
        ensures some { 33 ≤ length result.now }
        ensures most { length result.now ≤ 129 }
    {
        let count = (4 * side_of(self.log2) + 1) as usize;
        &self.line[..count]
    }

    /// One sample.
    pub fn get(&self, index: u32) -> u8
        requires { index ≤ 4 * 2 ^ self.now.log2 }
        ensures { result ≡ slice_index self.now.samples index }
    {
        self.samples()[index as usize]
    }
}
