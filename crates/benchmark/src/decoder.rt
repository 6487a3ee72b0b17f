//! The arithmetic decoding engine, over the code of bins without a pattern and such as can be foretold, of bypass bins, and of samples.
//! `checks/decoder.c` does the same in C.
use crate::measure::{Mode, Work, measure};
use crate::noise::noise;
use crate::trouble::Trouble;
use bin_items::{Bin, BinSink};
use cabac_bytes::ByteCoder;
use cabac_dec::{Contexts, Decoder, Place};
use cabac_tables::SliceKind;
use std::alloc::Global;
use std::rt::Clock;

const END: Bin = Bin {
    value: true,
    place: Place::Terminate,
};

// The code of bins of which those are 1 whose byte is below a limit, each under the context of the next byte.
fn context_code(alloc: Global, noise: &[u8], below: u8) -> Result<Vec<u8>, Trouble> {
    let mut coder = ByteCoder::new(alloc, Contexts::start(SliceKind::I));
    for pair in noise.chunks_exact(2) {
        coder.bin(Bin {
            value: pair[0] < below,
            place: Place::Context(u32::from(pair[1] / 2)),
        })?;
    }
    coder.bin(END)?;
    Ok(coder.finish()?)
}

fn bypass_code(alloc: Global, noise: &[u8]) -> Result<Vec<u8>, Trouble> {
    let mut coder = ByteCoder::new(alloc, Contexts::start(SliceKind::I));
    for byte in noise {
        coder.bypass(u32::from(*byte), 8)?;
    }
    coder.bin(END)?;
    Ok(coder.finish()?)
}

fn sample_code(alloc: Global, noise: &[u8]) -> Result<Vec<u8>, Trouble> {
    let mut coder = ByteCoder::new(alloc, Contexts::start(SliceKind::I));
    for samples in noise.chunks_exact(3072) {
        coder.bin(END)?;
        coder.pcm(samples)?;
    }
    coder.bin(END)?;
    Ok(coder.finish()?)
}

#[derive(Drop)]
struct ContextBins<'a> {
    code: &'a [u8],
    noise: &'a [u8],
}

impl<'a> Work for ContextBins<'a> {
    fn round(&mut self, _: Global) -> Result<usize, Trouble> {
        let Some(mut decoder) = Decoder::new(self.code, Contexts::start(SliceKind::I)) else {
            return Err(Trouble::Refused);
        };
        let mut ones = 0usize;
        for pair in self.noise.chunks_exact(2) {
            let Some(bin) = decoder.bin(Place::Context(u32::from(pair[1] / 2))) else {
                return Err(Trouble::Refused);
            };
            ones = ones.wrapping_add(bin as usize);
        }
        Ok(ones)
    }
}

#[derive(Drop)]
struct BypassBins<'a> {
    code: &'a [u8],
    calls: usize,
}

impl<'a> Work for BypassBins<'a> {
    fn round(&mut self, _: Global) -> Result<usize, Trouble> {
        let Some(mut decoder) = Decoder::new(self.code, Contexts::start(SliceKind::I)) else {
            return Err(Trouble::Refused);
        };
        let mut sum = 0usize;
        for _ in 0..self.calls {
            let Some(value) = decoder.bypass(16) else {
                return Err(Trouble::Refused);
            };
            sum = sum.wrapping_add(value as usize);
        }
        Ok(sum)
    }
}

// The samples of a coding unit of 32 by 32 at a time.
#[derive(Drop)]
struct Samples<'a> {
    code: &'a [u8],
    calls: usize,
}

impl<'a> Work for Samples<'a> {
    fn round(&mut self, _: Global) -> Result<usize, Trouble> {
        let Some(mut decoder) = Decoder::new(self.code, Contexts::start(SliceKind::I)) else {
            return Err(Trouble::Refused);
        };
        let mut samples = [0; 3072];
        let mut sum = 0usize;
        for _ in 0..self.calls {
            let Some(true) = decoder.bin(Place::Terminate) else {
                return Err(Trouble::Refused);
            };
            let Some(()) = decoder.pcm(&mut samples) else {
                return Err(Trouble::Refused);
            };
            sum = sum.wrapping_add(samples[sum % 3072] as usize);
        }
        Ok(sum)
    }
}

/// Reads 2^20 bins or samples of each kind, or 2^12 where no time is taken. A speed counts eight bins as a byte.
pub fn run<R: Clock + Print>(rt: &R, alloc: Global, mode: Mode) -> Result<(), Trouble> {
    let count = match mode {
        Mode::Once => 1 << 12,
        Mode::Timed => 1 << 20,
    };
    let pairs = noise(alloc, 2 * count)?;
    let random = context_code(alloc, &pairs, 128)?;
    let mut bins = ContextBins {
        code: &random,
        noise: &pairs,
    };
    measure(
        rt,
        alloc,
        mode,
        "random context bins read",
        count / 8,
        &mut bins,
    )?;
    let likely = context_code(alloc, &pairs, 1)?;
    let mut bins = ContextBins {
        code: &likely,
        noise: &pairs,
    };
    measure(
        rt,
        alloc,
        mode,
        "predictable bins read",
        count / 8,
        &mut bins,
    )?;
    let bits = noise(alloc, count / 8)?;
    let code = bypass_code(alloc, &bits)?;
    let mut bypass = BypassBins {
        code: &code,
        calls: count / 16,
    };
    measure(rt, alloc, mode, "bypass bins read", count / 8, &mut bypass)?;
    let bytes = noise(alloc, count)?;
    let code = sample_code(alloc, &bytes)?;
    let mut samples = Samples {
        code: &code,
        calls: count / 3072,
    };
    measure(rt, alloc, mode, "samples read", count, &mut samples)
}
