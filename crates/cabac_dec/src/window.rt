//! The offset and the bits behind it.
ghost use Rattle.std.specs.Prelude.{◌≡◌, ◌+◌, ◌-◌, ◌*◌, ◌<◌, ◌≤◌, ◌↔◌, ◌^◌, length, take, nat_le, IsTrue};
ghost use Rattle.h265_model.specs.Bits.{bits, value};
ghost use Rattle.cabac_dec.specs.State.{Reading, left, offset_after, Aligns, Takes};

use std::marker::Model;

/// ivlOffset in the ten highest bits of a word, and bits not read yet below it, as many as `ahead`.
#[derive(Debug, Drop)]
pub(crate) struct Window<'a> {
    bytes: &'a [u8],
    // The first byte that isn't in the word.
    next: usize,
    value: u64,
    ahead: u32,
}

impl<'a> Model for Window<'a> {
    ghost use Rattle.std.specs.Prelude.{◌*◌, ◌-◌, ◌/◌, ◌^◌};
    ghost use Rattle.cabac_dec.specs.State.{Reading, IsWindow};

    ghost Value = { Reading };

    ghost view = { λ w. record { bytes = w.bytes.now; place = 8 * w.next - w.ahead; offset = w.value / 2 ^ 54; ahead = w.ahead } };

    ghost invariant = { λ w. IsWindow w.bytes.now w.next w.value w.ahead };
}

impl<'a> Window<'a> {
    /// The offset 0 before the byte `next`.
    pub(crate) fn at(bytes: &'a [u8], next: usize) -> Window<'a>
        requires { next ≤ length bytes.now }
        ensures { result ≡ record { bytes = bytes.now; place = 8 * next; offset = 0; ahead = 0 } }
    {
        Window {
            bytes,
            next,
            value: 0,
            ahead: 0,
        }
    }

    /// Sees to it that so many bits are at hand, and says whether they are there.
    #[inline(always)]
    pub(crate) fn has(&mut self, count: u32) -> bool
        requires { count ≤ 20 }
        ensures same { self.new ≡ record self.old { ahead = self.new.ahead } }
        ensures ready { IsTrue result → count ≤ self.new.ahead }
        ensures there { result ≡ nat_le count (length (left self.old)) }
    {
        if count <= self.ahead {
            return true;
        }
        self.refill(count)
    }

    // Takes up four bytes, or those that are left.
    #[inline(always)]
    fn refill(&mut self, count: u32) -> bool
        requires few { count ≤ 20 }
        requires more { self.old.ahead < count }
        ensures same { self.new ≡ record self.old { ahead = self.new.ahead } }
        ensures ready { IsTrue result → count ≤ self.new.ahead }
        ensures there { result ≡ nat_le count (length (left self.old)) }
    {
        let rest = &self.bytes[self.next..];
        let some = rest.len().min(4);
        let digits = 8 * some as u32;
        let word = word_of(rest);
        self.value += (word as u64) << (54 - self.ahead - digits);
        self.next += some;
        self.ahead += digits;
        count <= self.ahead
    }

    /// The offset after `count` more bits.
    #[inline(always)]
    pub(crate) fn head(&self, count: u32) -> u32
        requires few { count ≤ 20 }
        requires ready { count ≤ self.now.ahead }
        ensures { result ≡ offset_after count self.now }
    {
        (self.value >> (54 - count)) as u32
    }

    /// Reads `count` bits into the offset, and lessens it.
    #[inline(always)]
    pub(crate) fn advance(&mut self, count: u32, less: u32)
        requires few { count ≤ 20 }
        requires ready { count ≤ self.old.ahead }
        requires least { less ≤ offset_after count self.old }
        requires most { offset_after count self.old < less + 1024 }
        ensures { self.new ≡ record self.old {
          place = self.old.place + count;
          offset = offset_after count self.old - less;
          ahead = self.old.ahead - count;
        } }
    {
        self.value = (self.value - ((less as u64) << (54 - count))) << count;
        self.ahead -= count;
    }

    /// Whether the offset is below a limit.
    #[inline(always)]
    pub(crate) fn is_below(&self, limit: u32) -> bool
        requires { limit < 1024 }
        ensures { IsTrue result ↔ self.now.offset < limit }
    {
        self.value < (limit as u64) << 54
    }

    /// Where the byte is that follows the stop bit, which is the bit read last, and its zeros (7.3.2.5).
    pub(crate) fn aligned(&self) -> Option<usize>
        requires { 0 < self.now.place }
        ensures { Aligns result self.now }
    {
        let spare = self.ahead % 8;
        let at = self.next - (self.ahead / 8) as usize;
        if u32::from(self.bytes[at - 1]) & ((2 << spare) - 1) != 1 << spare {
            return None;
        }
        Some(at)
    }

    /// How many bytes there are.
    pub(crate) fn len(&self) -> usize
        ensures { result ≡ length self.now.bytes }
    {
        self.bytes.len()
    }

    /// Fills `out` with samples from the byte that follows the stop bit and its zeros, and gives the window behind them (7.3.8.7).
    pub(crate) fn samples(&self, out: &mut [u8]) -> Option<Window<'a>>
        requires { 0 < self.now.place }
        ensures { Takes result (length out.old) out.new self.now }
    {
        let at = self.aligned()?;
        let rest = &self.bytes[at..];
        if rest.len() < out.len() {
            return None;
        }
        let count = out.len();
        out.copy_from_slice(&rest[..count]);
        Some(Window::at(self.bytes, at + count))
    }
}

// The number of the first four bytes, or of fewer where no more are there.
#[inline(always)]
fn word_of(bytes: &[u8]) -> u32
    ensures { result ≡ value (bits (take 4 bytes.now)) }
{
    if bytes.len() < 4 {
        return short_word(bytes);
    }
    u32::from_be_bytes([bytes[0], bytes[1], bytes[2], bytes[3]])
}

#[cold]
#[inline(never)]
fn short_word(bytes: &[u8]) -> u32
    requires { length bytes.now < 4 }
    ensures { result ≡ value (bits (take 4 bytes.now)) }
{
    let mut word = 0;
    for byte in bytes {
        word = word << 8 | u32::from(*byte);
    }
    word
}
