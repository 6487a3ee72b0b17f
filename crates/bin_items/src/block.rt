//! Square blocks of levels.
ghost use Rattle.std.specs.Prelude.{◌≡◌, ◌≤◌, ◌<◌, ◌^◌, length, replicate, get_or, set, pos};
ghost use Rattle.bin_items.specs.Square.{area, place, with_row};

use std::marker::Model;

/// A square of numbers, as levels, predictions or samples, with a side of 8, 16 or 32.
///
/// Contracts see the base-2 logarithm of its side, and its numbers in rows from the top.
#[derive(Debug, Drop)]
pub struct Block {
    log2: u32,
    // In rows without gaps.
    values: [i16; 1024],
}

impl Model for Block {
    ghost use Rattle.std.specs.Prelude.{take, ◌≤◌};
    ghost use Rattle.bin_items.specs.Square.{Square, area};

    ghost Value = { Square };

    ghost view = { λ b. record { log2 = b.log2; levels = take (area b.log2) b.values } };

    ghost invariant = { λ b. (3 ≤ b.log2) × (b.log2 ≤ 5) };
}

impl Block {
    /// A block of zeros. The base-2 logarithm of its side is from 3 to 5.
    pub fn zero(log2: u32) -> Block
        requires from { 3 ≤ log2 }
        requires to { log2 ≤ 5 }
        ensures { result ≡ record { log2 = log2; levels = replicate (area log2) (pos 0) } }
    {
        Block {
            log2,
            values: [0; 1024],
        }
    }

    /// The base-2 logarithm of the side.
    pub fn log2(&self) -> u32
        ensures value { result ≡ self.now.log2 }
        ensures from { 3 ≤ self.now.log2 }
        ensures to { self.now.log2 ≤ 5 }
        ensures whole { length self.now.levels ≡ area self.now.log2 }
    {
        self.log2
    }

    /// The number at column `x` and row `y`.
    pub fn get(&self, x: u32, y: u32) -> i16
        requires column { x < 2 ^ self.now.log2 }
        requires row { y < 2 ^ self.now.log2 }
        ensures { result ≡ get_or self.now.levels (place self.now.log2 x y) (pos 0) }
    {
        self.values[((y << self.log2) + x) as usize]
    }

    /// Sets the number at column `x` and row `y`.
    pub fn set(&mut self, x: u32, y: u32, value: i16)
        requires column { x < 2 ^ self.old.log2 }
        requires row { y < 2 ^ self.old.log2 }
        ensures { self.new ≡ record self.old { levels = set self.old.levels (place self.old.log2 x y) value } }
    {
        self.values[((y << self.log2) + x) as usize] = value;
    }

    /// Sets the numbers of row `y`, of which there are as many as the side is long.
    pub fn set_row(&mut self, y: u32, row: &[i16])
        requires in_block { y < 2 ^ self.old.log2 }
        requires as_many { length row.now ≡ 2 ^ self.old.log2 }
        ensures { self.new ≡ record self.old { levels = with_row self.old.log2 y row.now self.old.levels } }
    {
        let at = (y << self.log2) as usize;
        self.values[at..at + row.len()].copy_from_slice(row);
    }

    /// All numbers, in rows from the top.
    pub fn as_slice(&self) -> &[i16]
        ensures { result.now ≡ self.now.levels }
    {
        &self.values[..1 << (2 * self.log2)]
    }
}
