//! The coder.
ghost use Rattle.std.specs.Prelude.{◌≡◌, ℕ, ◌+◌, ◌*◌, ◌^◌, ◌<◌, ◌≤◌, List, [], false, length, OnOk, OnErr, IfOk};
ghost use Rattle.h265_model.specs.declared.Item.{Item};
ghost use Rattle.h265_model.specs.Code.{Plain, Ended, code, contexts_after};
ghost use Rattle.h265_model.specs.declared.Place.TheVariants as places;
ghost use Rattle.cabac_enc.specs.State.{phase_of, stands_for, Shifts, Scales, Steps, Ends, Fills};

use crate::bits::{append, append_bytes, to_bytes};
use bin_items::{Bin, BinSink, NoMemory, Place};
use cabac_tables::{Contexts, lps};
use std::alloc::Global;
use std::marker::Model;

/// The arithmetic code of bins and samples, over a list of bits into which each carry goes at once.
#[derive(Debug, Drop)]
pub struct Coder {
    alloc: Global,
    bits: Vec<bool>,
    // The nine digits behind the bits.
    low: u32,
    // 0 after a terminating bin 1.
    range: u32,
    after_samples: bool,
    contexts: Contexts,
}

impl Model for Coder {
    ghost use Rattle.cabac_enc.specs.State.{State, IsState};

    ghost Value = { State };

    ghost view = { λ s. record { bits = s.bits.items; low = s.low; range = s.range; after_samples = s.after_samples; contexts = s.contexts } };

    ghost invariant = { λ s. IsState (record { bits = s.bits.items; low = s.low; range = s.range; after_samples = s.after_samples; contexts = s.contexts }) };
}

impl Coder {
    /// A coder of no items from these contexts. It takes no memory.
    pub fn new(alloc: Global, contexts: Contexts) -> Coder
        ensures phase { phase_of result ≡ Plain }
        ensures stands_for { stands_for result [] contexts }
    {
        Coder {
            alloc,
            bits: Vec::new(alloc),
            low: 0,
            range: 510,
            after_samples: false,
            contexts,
        }
    }

    // So many more digits of a number: all but its last nine go to the bits.
    fn shift(&mut self, number: u32, range: u32, count: u32) -> Result<(), NoMemory>
        requires few { count ≤ 7 }
        requires fits { number < 1024 * 2 ^ count }
        requires least { 256 ≤ range }
        requires most { range ≤ 510 }
        ensures ok { OnOk result (Shifts number range count self.old self.new) }
        ensures err { OnErr result (self.new ≡ self.old) }
    {
        append(&mut self.bits, number / 512, count)?;
        self.low = number % 512;
        self.range = range;
        self.after_samples = false;
        Ok(())
    }

    // The range, of at least 4, doubles until it is at least 256, and the number with it (9.3.5.4).
    fn renormalise(&mut self, low: u32, range: u32) -> Result<(), NoMemory>
        requires some { 4 ≤ range }
        requires less { range < 510 }
        requires fits { low < 1024 }
        ensures ok { OnOk result (Scales low range self.old self.new) }
        ensures err { OnErr result (self.new ≡ self.old) }
    {
        let doublings = range.leading_zeros() - 23;
        self.shift(low << doublings, range << doublings, doublings)
    }

    // The less probable value has the upper share (9.3.5.3).
    fn context_bin(&mut self, n: u32, value: bool) -> Result<(), NoMemory>
        requires not_ended { 0 < self.old.range }
        requires in_range { n < 130 }
        ensures ok { OnOk result (Steps (places.Context n) value self.old self.new) }
        ensures err { OnErr result (self.new ≡ self.old) }
    {
        let state = self.contexts.get(n);
        let small = lps(state, self.range / 64 % 4);
        let large = self.range - small;
        if value == (state % 2 == 1) {
            self.renormalise(self.low, large)?;
        } else {
            self.renormalise(self.low + large, small)?;
        }
        self.contexts.step(n, value);
        Ok(())
    }

    // Each value has half of the doubled range (9.3.5.5).
    fn bypass_bin(&mut self, value: bool) -> Result<(), NoMemory>
        requires not_ended { 0 < self.old.range }
        ensures ok { OnOk result (Steps places.Bypass value self.old self.new) }
        ensures err { OnErr result (self.new ≡ self.old) }
    {
        self.shift(2 * self.low + value as u32 * self.range, self.range, 1)
    }

    fn go_on(&mut self) -> Result<(), NoMemory>
        requires not_ended { 0 < self.old.range }
        ensures ok { OnOk result (Steps places.Terminate false self.old self.new) }
        ensures err { OnErr result (self.new ≡ self.old) }
    {
        self.renormalise(self.low, self.range - 2)
    }

    // A terminating bin 1: the last digit is a 1, and zeros follow to the byte (9.3.5.6).
    fn end_run(&mut self) -> Result<(), NoMemory>
        requires not_ended { 0 < self.old.range }
        ensures ok { OnOk result (Ends self.old self.new) }
        ensures err { OnErr result (self.new ≡ self.old) }
    {
        let number = (self.low + (self.range - 2)) / 2 * 2 + 1;
        let zeros = 7 - (self.bits.len() % 8) as u32;
        append(&mut self.bits, number << zeros, 9 + zeros)?;
        self.low = 0;
        self.range = 0;
        self.after_samples = false;
        Ok(())
    }

    fn fill(&mut self, samples: &[u8]) -> Result<(), NoMemory>
        ensures ok { OnOk result (Fills samples.now self.old self.new) }
        ensures err { OnErr result (self.new ≡ self.old) }
    {
        append_bytes(&mut self.bits, samples)?;
        self.low = 0;
        self.range = 510;
        self.after_samples = true;
        Ok(())
    }

    /// The contexts as they are now.
    pub fn contexts(&self) -> Contexts
        ensures { (list : List Item) (contexts : List ℕ) → stands_for self.now list contexts → result ≡ contexts_after list contexts }
    {
        self.contexts
    }

    /// The bytes of the code, after a terminating bin 1.
    pub fn finish(self) -> Result<Vec<u8>, NoMemory>
        requires { phase_of self ≡ Ended }
        ensures { IfOk result (λ bytes. (list : List Item) (contexts : List ℕ) → stands_for self list contexts → bytes.items ≡ code list contexts) }
    {
        to_bytes(self.alloc, &self.bits)
    }
}

impl BinSink for Coder {
    ghost phase = { λ s. phase_of s };

    ghost stands_for = { λ s list contexts. stands_for s list contexts };

    fn bin(&mut self, bin: Bin) -> Result<(), NoMemory> {
        match bin.place {
            Place::Context(n) => self.context_bin(n, bin.value),
            Place::Bypass => self.bypass_bin(bin.value),
            Place::Terminate => {
                if bin.value {
                    return self.end_run();
                }
                self.go_on()
            }
        }
    }

    fn pcm(&mut self, samples: &[u8]) -> Result<(), NoMemory> {
        self.fill(samples)
    }
}
