//! Writing bits.
ghost use Rattle.std.specs.Prelude.{◌≡◌, ◌+◌, ◌-◌, ◌<◌, ◌≤◌, ◌^◌, ◌%◌, ◌++◌, ℤ, pos, neg_ℤ, ◌<ℤ◌, [], false, length, replicate, OnOk, OnErr, IfOk};
ghost use Rattle.h265_model.specs.Bits.{u, ue, se, alignment, bits, bytes};
ghost use Rattle.bit_string.specs.Parts.{Begins};

use h265_model::NoMemory;
use std::alloc::Global;
use std::marker::Model;

/// A string of bits that grows at its end.
///
/// Contracts see the bits written so far. A call that answers `NoMemory` wrote nothing.
#[derive(Debug, Drop)]
pub struct BitWriter {
    bytes: Vec<u8>,
    // Its low `held` bits are the last ones, which aren't a whole byte yet.
    last: u8,
    held: u32,
}

impl Model for BitWriter {
    ghost use Rattle.std.specs.Prelude.{List, Bool, ◌++◌, ◌<◌};
    ghost use Rattle.h265_model.specs.Bits.{bits, u};

    ghost Value = { List Bool };

    ghost view = { λ w. bits w.bytes.items ++ u w.held w.last };

    ghost invariant = { λ w. w.held < 8 };
}

impl BitWriter {
    /// No bits yet.
    pub fn new(alloc: Global) -> BitWriter
        ensures { result ≡ [] }
    {
        BitWriter {
            bytes: Vec::new(alloc),
            last: 0,
            held: 0,
        }
    }

    /// Writes u(n): the `n` low bits of `v`, the most significant first (7.2).
    pub fn put(&mut self, n: u32, v: u32) -> Result<(), NoMemory>
        requires some_bits { 0 < n }
        requires most_bits { n ≤ 32 }
        requires below { v < 2 ^ n }
        ensures ok { OnOk result (self.new ≡ self.old ++ u n v) }
        ensures err { OnErr result (self.new ≡ self.old) }
    {
        self.put_code(0, n, v)
    }

    /// Writes ue(v) (9.2).
    pub fn ue(&mut self, v: u32) -> Result<(), NoMemory>
        requires { v < 2 ^ 32 - 1 }
        ensures ok { OnOk result (self.new ≡ self.old ++ ue v) }
        ensures err { OnErr result (self.new ≡ self.old) }
    {
        let zeros = (v + 1).ilog2();
        self.put_code(zeros, zeros + 1, v + 1)
    }

    /// Writes se(v) (9.2.2).
    pub fn se(&mut self, v: i32) -> Result<(), NoMemory>
        requires { neg_ℤ (pos (2 ^ 31)) <ℤ v }
        ensures ok { OnOk result (self.new ≡ self.old ++ se v) }
        ensures err { OnErr result (self.new ≡ self.old) }
    {
        let size = v.unsigned_abs();
        self.ue(if v > 0 { 2 * size - 1 } else { 2 * size })
    }

    /// Writes a 1 and zeros to the byte: `byte_alignment` and `rbsp_trailing_bits` (7.3.2.11, 7.3.2.12).
    pub fn align_one(&mut self) -> Result<(), NoMemory>
        ensures ok { OnOk result (self.new ≡ self.old ++ alignment (length self.old)) }
        ensures whole { OnOk result (length self.new % 8 ≡ 0) }
        ensures err { OnErr result (self.new ≡ self.old) }
    {
        let zeros = 7 - self.held;
        self.put(zeros + 1, 1 << zeros)
    }

    /// The bits as bytes, of which there is a whole number.
    pub fn into_bytes(self) -> Vec<u8>
        requires { length self % 8 ≡ 0 }
        ensures { result.items ≡ bytes self }
    {
        let BitWriter {
            bytes,
            last: _,
            held: _,
        } = self;
        let _all = bytes.as_slice();
        bytes
    }

    // Zeros, and then the `n` low bits of `v`.
    fn put_code(&mut self, zeros: u32, n: u32, v: u32) -> Result<(), NoMemory>
        requires few_zeros { zeros < 32 }
        requires most_bits { n ≤ 32 }
        requires below { v < 2 ^ n }
        ensures ok { OnOk result (self.new ≡ self.old ++ (replicate zeros false ++ u n v)) }
        ensures err { OnErr result (self.new ≡ self.old) }
    {
        let start = self.bytes.len();
        match append_code(&mut self.bytes, self.last, self.held, zeros, n, v) {
            Ok(last) => {
                self.last = last;
                self.held = (self.held + zeros + n) % 8;
                Ok(())
            }
            Err(refused) => {
                self.bytes.truncate(start);
                Err(refused)
            }
        }
    }
}

// Appends zeros and the bits of v after the bits that are held, and gives a byte whose low bits are held then.
fn append_code(
    bytes: &mut Vec<u8>,
    last: u8,
    held: u32,
    zeros: u32,
    n: u32,
    v: u32,
) -> Result<u8, NoMemory>
    requires few_held { held < 8 }
    requires few_zeros { zeros < 32 }
    requires most_bits { n ≤ 32 }
    requires below { v < 2 ^ n }
    ensures ok { IfOk result (λ after. bits bytes.new.items ++ u ((held + zeros + n) % 8) after
        ≡ (bits bytes.old.items ++ u held last) ++ (replicate zeros false ++ u n v)) }
    ensures kept { Begins bytes.old.items bytes.new.items }
{
    let middle = append_bits(bytes, last, held, zeros, 0)?;
    append_bits(bytes, middle, (held + zeros) % 8, n, v)
}

fn append_bits(bytes: &mut Vec<u8>, last: u8, held: u32, n: u32, v: u32) -> Result<u8, NoMemory>
    requires few_held { held < 8 }
    requires most_bits { n ≤ 32 }
    requires below { v < 2 ^ n }
    ensures ok { IfOk result (λ after. bits bytes.new.items ++ u ((held + n) % 8) after
        ≡ (bits bytes.old.items ++ u held last) ++ u n v) }
    ensures kept { Begins bytes.old.items bytes.new.items }
{
    let word = (last as u64) << n | v as u64;
    append_bytes(bytes, word, held + n)?;
    Ok((word & 0xff) as u8)
}

// Appends the whole bytes of the low `count` bits of a word.
fn append_bytes(bytes: &mut Vec<u8>, word: u64, count: u32) -> Result<(), NoMemory>
    requires { count ≤ 64 }
    ensures ok { OnOk result (bits bytes.new.items ++ u (count % 8) word ≡ bits bytes.old.items ++ u count word) }
    ensures kept { Begins bytes.old.items bytes.new.items }
{
    let mut left = count;
    while left >= 8 {
        left -= 8;
        bytes.push((word >> left & 0xff) as u8)?;
    }
    Ok(())
}
