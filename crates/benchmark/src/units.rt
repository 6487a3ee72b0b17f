//! NAL units: written with emulation prevention, and read.
use crate::measure::{Mode, Work, measure};
use crate::noise::noise;
use crate::trouble::Trouble;
use annexb::{append_unit, units};
use std::alloc::Global;
use std::rt::Clock;

#[derive(Drop)]
struct Writing<'a> {
    payload: &'a [u8],
    out: Vec<u8>,
}

impl<'a> Work for Writing<'a> {
    fn round(&mut self, _: Global) -> Result<usize, Trouble> {
        self.out.clear();
        append_unit(&mut self.out, [0x28, 1], self.payload)?;
        Ok(self.out.len())
    }
}

#[derive(Drop)]
struct Reading<'a> {
    stream: &'a [u8],
}

impl<'a> Work for Reading<'a> {
    fn round(&mut self, alloc: Global) -> Result<usize, Trouble> {
        match units(alloc, self.stream) {
            Ok(found) => Ok(found.all().len()),
            Err(_) => Err(Trouble::Refused),
        }
    }
}

/// Writes and reads one NAL unit of noise and one of zeros: 16 MiB each, or 64 KiB where no time is taken.
pub fn run<R: Clock + Print>(rt: &R, alloc: Global, mode: Mode) -> Result<(), Trouble> {
    let count = match mode {
        Mode::Once => 1 << 16,
        Mode::Timed => 1 << 24,
    };
    let mut noise = noise(alloc, count)?;
    noise.push(0x80)?;
    run_one(rt, alloc, mode, "NAL unit of noise", &noise)?;
    let mut zeros = vec![in alloc; 0u8; count]?;
    zeros.push(0x80)?;
    run_one(rt, alloc, mode, "NAL unit of zeros", &zeros)
}

fn run_one<R: Clock + Print>(
    rt: &R,
    alloc: Global,
    mode: Mode,
    name: &str,
    payload: &[u8],
) -> Result<(), Trouble> {
    let mut writing = Writing {
        payload,
        out: Vec::new(alloc),
    };
    println!(rt; "{name}")?;
    measure(rt, alloc, mode, "written", payload.len(), &mut writing)?;
    let mut reading = Reading {
        stream: writing.out.as_slice(),
    };
    measure(rt, alloc, mode, "read", reading.stream.len(), &mut reading)
}
