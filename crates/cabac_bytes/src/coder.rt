//! The coder.
ghost use Rattle.std.specs.Prelude.{◌≡◌, ℕ, ◌+◌, ◌*◌, ◌^◌, ◌<◌, ◌≤◌, List, [], false, length, OnOk, OnErr, IfOk, if◌then◌else◌};
ghost use Rattle.h265_model.specs.declared.Item.{Item};
ghost use Rattle.h265_model.specs.Engine as engine;
ghost use Rattle.h265_model.specs.Binarise.{bypass_bins, fl};
ghost use Rattle.h265_model.specs.Code.{Plain, Ended, code, contexts_after};
ghost use Rattle.h265_model.specs.declared.Place.TheVariants as places;
ghost use Rattle.cabac_bytes.specs.Pending.{limit};
ghost use Rattle.cabac_bytes.specs.State.{State, phase_of, stands_for, Advances, Scales, Steps, Follows, Ends, Fills};

use crate::pending::PendingBytes;
use bin_items::{Bin, BinSink, NoMemory, Place};
use cabac_tables::{Contexts, lps};
use std::alloc::Global;
use std::marker::Model;

/// The arithmetic code of bins and samples, over bytes.
#[derive(Debug, Drop)]
pub struct ByteCoder {
    pending: PendingBytes,
    // The number behind the bytes, and how many digits it has but for a carry.
    low: u64,
    width: u32,
    // 0 after a terminating bin 1.
    range: u32,
    contexts: Contexts,
}

impl Model for ByteCoder {
    ghost use Rattle.cabac_bytes.specs.State.{State, IsState};

    ghost Value = { State };

    ghost view = { λ s. record { pending = s.pending; low = s.low; range = s.range; width = s.width; contexts = s.contexts } };

    ghost invariant = { λ s. IsState (record { pending = s.pending; low = s.low; range = s.range; width = s.width; contexts = s.contexts }) };
}

impl ByteCoder {
    /// A coder of no items from these contexts. It takes no memory.
    pub fn new(alloc: Global, contexts: Contexts) -> ByteCoder
        ensures phase { phase_of result ≡ Plain }
        ensures stands_for { stands_for result [] contexts }
    {
        ByteCoder {
            pending: PendingBytes::new(alloc),
            low: 0,
            width: 9,
            range: 510,
            contexts,
        }
    }

    // Another range, and a number of so many digits behind the bytes: four whole bytes of it are passed on.
    #[inline(always)]
    fn advance(&mut self, low: u64, range: u32, width: u32) -> Result<(), NoMemory>
        requires least { 256 ≤ range }
        requires most { range ≤ 510 }
        requires from { 9 ≤ width }
        requires to { width ≤ 61 }
        requires room { low + range ≤ limit self.old.pending.held * 2 ^ width }
        ensures ok { OnOk result (Advances (record self.old { low = low; range = range; width = width }) self.new) }
        ensures err { OnErr result (self.new ≡ self.old) }
    {
        if width <= 41 {
            self.low = low;
            self.range = range;
            self.width = width;
            return Ok(());
        }
        let rest = width - 32;
        self.pending.pass_four(low >> rest)?;
        self.low = low & ((1 << rest) - 1);
        self.range = range;
        self.width = rest;
        Ok(())
    }

    // The range, of at least 4, doubles until it is at least 256, and the number with it (9.3.5.4).
    #[inline(always)]
    fn renormalise(&mut self, low: u64, range: u32, doublings: u32) -> Result<(), NoMemory>
        requires least { 4 ≤ range }
        requires less { range < 510 }
        requires doublings { doublings ≡ engine.doublings range }
        requires room { low + range ≤ limit self.old.pending.held * 2 ^ self.old.width }
        ensures ok { OnOk result (Scales (record self.old { low = low; range = range }) self.new) }
        ensures err { OnErr result (self.new ≡ self.old) }
    {
        self.advance(low << doublings, range << doublings, self.width + doublings)
    }

    #[inline(always)]
    fn context_bin(&mut self, n: u32, value: bool) -> Result<(), NoMemory>
        requires not_ended { 0 < self.old.range }
        requires in_range { n < 130 }
        ensures ok { OnOk result (Steps (places.Context n) value self.old self.new) }
        ensures err { OnErr result (self.new ≡ self.old) }
    {
        let state = self.contexts.get(n);
        let small = lps(state, self.range >> 6 & 3);
        let large = self.range - small;
        let likely = value == (state & 1 == 1);
        let (low, range, doublings) = share(likely, small, large);
        self.renormalise(self.low + low as u64, range, doublings)?;
        self.contexts.step(n, value);
        Ok(())
    }

    #[inline(always)]
    fn bypass_few(&mut self, value: u32, count: u32) -> Result<(), NoMemory>
        requires not_ended { 0 < self.old.range }
        requires some { 0 < count }
        requires few { count ≤ 20 }
        requires below { value < 2 ^ count }
        ensures ok { OnOk result (Follows (bypass_bins (fl count value)) self.old self.new) }
        ensures err { OnErr result (self.new ≡ self.old) }
    {
        self.advance(
            (self.low << count) + value as u64 * self.range as u64,
            self.range,
            self.width + count,
        )
    }

    fn go_on(&mut self) -> Result<(), NoMemory>
        requires not_ended { 0 < self.old.range }
        ensures ok { OnOk result (Steps places.Terminate false self.old self.new) }
        ensures err { OnErr result (self.new ≡ self.old) }
    {
        let range = self.range - 2;
        self.renormalise(self.low, range, doublings(range))
    }

    // A terminating bin 1: the last digit is a 1, and zeros follow to the byte (9.3.5.6).
    fn end_run(&mut self) -> Result<(), NoMemory>
        requires not_ended { 0 < self.old.range }
        ensures ok { OnOk result (Ends self.old self.new) }
        ensures err { OnErr result (self.new ≡ self.old) }
    {
        let number = (self.low + (self.range - 2) as u64) / 2 * 2 + 1;
        let count = (self.width + 7) / 8;
        self.pending
            .close(number << (8 * count - self.width), count)?;
        self.low = 0;
        self.width = 9;
        self.range = 0;
        Ok(())
    }

    fn fill(&mut self, samples: &[u8]) -> Result<(), NoMemory>
        requires ended { self.old.range ≡ 0 }
        requires some { 0 < length samples.now }
        ensures ok { OnOk result (Fills samples.now self.old self.new) }
        ensures err { OnErr result (self.new ≡ self.old) }
    {
        self.pending.append(samples)?;
        self.low = 0;
        self.width = 9;
        self.range = 510;
        Ok(())
    }

    /// The contexts as they are now.
    pub fn contexts(&self) -> Contexts
        ensures { (list : List Item) (contexts : List ℕ) → stands_for self.now list contexts → result ≡ contexts_after list contexts }
    {
        self.contexts
    }

    /// The bytes of the code, after a terminating bin 1.
    pub fn finish(self) -> Result<Vec<u8>, NoMemory>
        requires { phase_of self ≡ Ended }
        ensures { IfOk result (λ bytes. (list : List Item) (contexts : List ℕ) → stands_for self list contexts → bytes.items ≡ code list contexts) }
    {
        let ByteCoder {
            pending,
            low: _,
            width: _,
            range: _,
            contexts: _,
        } = self;
        Ok(pending.into_bytes())
    }
}

// How often a range of at least 4 doubles until it is at least 256.
#[inline(always)]
fn doublings(range: u32) -> u32
    requires some { 4 ≤ range }
    requires less { range ≤ 510 }
    ensures { result ≡ engine.doublings range }
{
    range.leading_zeros() - 23
}

// What a bin of a context adds to the number, what it leaves of the range, and how often that doubles: the more probable value has the
// lower share. It computes both, and picks without a branch.
#[inline(always)]
fn share(likely: bool, small: u32, large: u32) -> (u32, u32, u32)
    requires from { 6 ≤ small }
    requires to { small ≤ 240 }
    requires least { 128 ≤ large }
    requires most { large < 510 }
    ensures low { result.0 ≡ (if likely then 0 else large) }
    ensures range { result.1 ≡ (if likely then large else small) }
    ensures doublings { result.2 ≡ engine.doublings result.1 }
{
    let once = large >> 8 ^ 1;
    let often = doublings(small);
    if likely {
        (0, large, once)
    } else {
        (large, small, often)
    }
}

impl BinSink for ByteCoder {
    ghost phase = { λ s. phase_of s };

    ghost stands_for = { λ s list contexts. stands_for s list contexts };

    #[inline(always)]
    fn bin(&mut self, bin: Bin) -> Result<(), NoMemory> {
        match bin.place {
            Place::Context(n) => self.context_bin(n, bin.value),
            Place::Bypass => self.bypass_few(bin.value as u32, 1),
            Place::Terminate => {
                if bin.value {
                    return self.end_run();
                }
                self.go_on()
            }
        }
    }

    fn pcm(&mut self, samples: &[u8]) -> Result<(), NoMemory> {
        self.fill(samples)
    }

    #[inline(always)]
    fn bypass(&mut self, value: u32, count: u32) -> Result<(), NoMemory> {
        let mut left = count;
        while left > 20 {
            left -= 16;
            self.bypass_few(value >> left & 65535, 16)?;
        }
        if left == 0 {
            return Ok(());
        }
        self.bypass_few(value & ((1 << left) - 1), left)?;
        Ok(())
    }
}
