//! Reading bits.
ghost use Rattle.std.specs.Prelude.{◌≡◌, ◌+◌, ◌*◌, ◌/◌, ◌<◌, ◌≤◌, ◌^◌, ◌-◌, length, option_map, MatchOption, IfSome};
ghost use Rattle.h265_model.specs.Bits.{read_u, read_ue, read_se, read_alignment, bits, value};
ghost use Rattle.bit_string.specs.Parts.{Cursor, moved_to, code_of, Moves};

use std::marker::Model;

/// Reads a string of bits from its front.
///
/// Contracts see the bits that are left and the place where they begin. A call that answers `None` leaves both as they were.
#[derive(Debug, Drop)]
pub struct BitReader<'a> {
    bytes: &'a [u8],
    // The next bit is this one of this byte, the most significant being bit 0.
    index: usize,
    bit: u32,
}

impl<'a> Model for BitReader<'a> {
    ghost use Rattle.std.specs.Prelude.{◌+◌, ◌*◌, ◌<◌, ◌≤◌, length, drop};
    ghost use Rattle.h265_model.specs.Bits.{bits};
    ghost use Rattle.bit_string.specs.Parts.{Cursor};

    ghost Value = { Cursor };

    ghost view = { λ r. record { left = drop (8 * r.index + r.bit) (bits r.bytes.now); place = 8 * r.index + r.bit } };

    ghost invariant = { λ r. (r.bit < 8) × (8 * r.index + r.bit ≤ 8 * length r.bytes.now) };
}

impl<'a> BitReader<'a> {
    /// A reader that stands at bit 0.
    pub fn new(bytes: &'a [u8]) -> BitReader<'a>
        ensures whole { result ≡ record { left = bits bytes.now; place = 0 } }
        ensures total { result.place + length result.left ≡ 8 * length bytes.now }
    {
        BitReader {
            bytes,
            index: 0,
            bit: 0,
        }
    }

    /// Reads u(n), and nothing exactly past the end (7.2).
    pub fn bits(&mut self, n: u32) -> Option<u32>
        requires { n ≤ 32 }
        ensures value { result ≡ option_map (λ found. found.0) (read_u n self.old.left) }
        ensures after { self.new ≡ moved_to (option_map (λ found. found.1) (read_u n self.old.left)) self.old }
        ensures total { self.new.place + length self.new.left ≡ self.old.place + length self.old.left }
    {
        let end = self.bit + n;
        let count = end.div_ceil(8);
        if self.bytes.len() - self.index < count as usize {
            return None;
        }
        let word = word_of(&self.bytes[self.index..self.index + count as usize]);
        self.index += (end / 8) as usize;
        self.bit = end % 8;
        Some((word >> (8 * count - end) & ((1 << n) - 1)) as u32)
    }

    /// Reads ue(v), and nothing exactly where the input ends within the code or it has more than 31 leading zeros (9.2).
    pub fn ue(&mut self) -> Option<u32>
        ensures most { IfSome result (λ v. v < 2 ^ 32 - 1) }
        ensures value { result ≡ option_map (λ found. found.0) (read_ue self.old.left) }
        ensures after { self.new ≡ moved_to (option_map (λ found. found.1) (read_ue self.old.left)) self.old }
        ensures total { self.new.place + length self.new.left ≡ self.old.place + length self.old.left }
    {
        let mut ahead = self.twin();
        let zeros = ahead.zeros()?;
        let low = ahead.bits(zeros)?;
        *self = ahead;
        Some((1 << zeros) - 1 + low)
    }

    /// Reads se(v), and nothing exactly where `ue` reads nothing (9.2.2).
    pub fn se(&mut self) -> Option<i32>
        ensures value { result ≡ option_map (λ found. found.0) (read_se self.old.left) }
        ensures after { self.new ≡ moved_to (option_map (λ found. found.1) (read_se self.old.left)) self.old }
        ensures total { self.new.place + length self.new.left ≡ self.old.place + length self.old.left }
    {
        let code = self.ue()?;
        let half = (code / 2) as i32;
        Some(if code % 2 == 1 { half + 1 } else { -half })
    }

    /// Reads a 1 and zeros to the byte, and nothing exactly where the bits up to the byte aren't these (7.3.2.11, 7.3.2.12).
    pub fn align_one(&mut self) -> Option<()>
        ensures value { result ≡ option_map (λ _. tt) (read_alignment self.old.left) }
        ensures after { self.new ≡ moved_to (read_alignment self.old.left) self.old }
        ensures total { self.new.place + length self.new.left ≡ self.old.place + length self.old.left }
    {
        let mut ahead = self.twin();
        let zeros = 7 - ahead.bit;
        if ahead.bits(zeros + 1)? != 1 << zeros {
            return None;
        }
        *self = ahead;
        Some(())
    }

    /// How many bits were read.
    pub fn place(&self) -> u64
        requires { self.now.place + length self.now.left < 2 ^ 64 }
        ensures { result ≡ self.now.place }
    {
        8 * self.index as u64 + u64::from(self.bit)
    }

    /// How many whole bytes are left.
    pub fn bytes_left(&self) -> usize
        ensures { result ≡ length self.now.left / 8 }
    {
        self.bytes.len() - self.index - self.bit.div_ceil(8) as usize
    }

    fn twin(&self) -> BitReader<'a>
        ensures { result ≡ self.now }
    {
        BitReader {
            bytes: self.bytes,
            index: self.index,
            bit: self.bit,
        }
    }

    // Reads at most 31 zeros and a one, and says how many zeros.
    fn zeros(&mut self) -> Option<u32>
        ensures found { MatchOption result (read_ue self.old.left ≡ None)
            (λ n. (n < 32) × (read_ue self.old.left ≡ code_of n (read_u n self.new.left)) × Moves self.old self.new) }
    {
        for zeros in 0..32 {
            if self.bits(1)? == 1 {
                return Some(zeros);
            }
        }
        None
    }
}

// The number that the bits of at most eight bytes spell.
fn word_of(bytes: &[u8]) -> u64
    requires { length bytes.now ≤ 8 }
    ensures { result ≡ value (bits bytes.now) }
{
    let mut word = 0;
    for byte in bytes {
        word = word << 8 | u64::from(*byte);
    }
    word
}
