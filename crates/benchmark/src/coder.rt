//! The arithmetic code: context bins without a pattern and such as can be foretold, bypass bins, and samples. `checks/coder.c` does
//! the same in C.
use crate::measure::{Mode, Work, measure};
use crate::noise::noise;
use crate::trouble::Trouble;
use bin_items::{Bin, BinSink, Place};
use cabac_bytes::ByteCoder;
use cabac_tables::{Contexts, SliceKind};
use std::alloc::Global;
use std::rt::Clock;

const END: Bin = Bin {
    value: true,
    place: Place::Terminate,
};

// A byte below this is a bin 1.
#[derive(Drop)]
struct ContextBins<'a> {
    noise: &'a [u8],
    below: u8,
}

impl<'a> Work for ContextBins<'a> {
    fn round(&mut self, alloc: Global) -> Result<usize, Trouble> {
        let mut coder = ByteCoder::new(alloc, Contexts::start(SliceKind::I));
        for pair in self.noise.chunks_exact(2) {
            coder.bin(Bin {
                value: pair[0] < self.below,
                place: Place::Context(u32::from(pair[1] / 2)),
            })?;
        }
        coder.bin(END)?;
        Ok(coder.finish()?.len())
    }
}

#[derive(Drop)]
struct BypassBins<'a> {
    noise: &'a [u8],
}

impl<'a> Work for BypassBins<'a> {
    fn round(&mut self, alloc: Global) -> Result<usize, Trouble> {
        let mut coder = ByteCoder::new(alloc, Contexts::start(SliceKind::I));
        for pair in self.noise.chunks_exact(2) {
            coder.bypass(u32::from(pair[0]) << 8 | u32::from(pair[1]), 16)?;
        }
        coder.bin(END)?;
        Ok(coder.finish()?.len())
    }
}

// The samples of a coding unit of 32 by 32 at a time.
#[derive(Drop)]
struct Samples<'a> {
    noise: &'a [u8],
}

impl<'a> Work for Samples<'a> {
    fn round(&mut self, alloc: Global) -> Result<usize, Trouble> {
        let mut coder = ByteCoder::new(alloc, Contexts::start(SliceKind::I));
        for samples in self.noise.chunks_exact(3072) {
            coder.bin(END)?;
            coder.pcm(samples)?;
        }
        coder.bin(END)?;
        Ok(coder.finish()?.len())
    }
}

/// Codes 2^20 bins or samples of each kind, or 2^12 where no time is taken. A speed counts eight bins as a byte.
pub fn run<R: Clock + Print>(rt: &R, alloc: Global, mode: Mode) -> Result<(), Trouble> {
    let count = match mode {
        Mode::Once => 1 << 12,
        Mode::Timed => 1 << 20,
    };
    let pairs = noise(alloc, 2 * count)?;
    let mut bins = ContextBins {
        noise: &pairs,
        below: 128,
    };
    measure(rt, alloc, mode, "random context bins", count / 8, &mut bins)?;
    bins.below = 1;
    measure(rt, alloc, mode, "predictable bins", count / 8, &mut bins)?;
    let bits = noise(alloc, count / 8)?;
    let mut bypass = BypassBins { noise: &bits };
    measure(rt, alloc, mode, "bypass bins", count / 8, &mut bypass)?;
    let bytes = noise(alloc, count)?;
    let mut samples = Samples { noise: &bytes };
    measure(rt, alloc, mode, "samples", count, &mut samples)
}
