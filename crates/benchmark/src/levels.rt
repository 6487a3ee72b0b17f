//! Levels of blocks of 32 by 32 without a pattern, read. `checks/levels.c` does the same in C.
ghost use Rattle.std.specs.Prelude.{◌≡◌, ◌<◌, IsTrue};
ghost use Rattle.h265_model.specs.Residual.{AreLevels};

use crate::measure::{Mode, Work, measure};
use crate::noise::noise;
use crate::trouble::Trouble;
use bin_items::{Bin, BinSink, Block};
use cabac_bytes::ByteCoder;
use cabac_dec::{Contexts, Decoder, Place};
use cabac_tables::SliceKind;
use residual_code::{cbf, write_residual};
use residual_read::read_residual;
use std::alloc::Global;
use std::rt::Clock;

const END: Bin = Bin {
    value: true,
    place: Place::Terminate,
};

// Whether all levels are from -255 to 255.
fn are_levels(levels: &[i16]) -> bool
    ensures { IsTrue result → AreLevels levels.now }
{
    for level in levels {
        if level.unsigned_abs() > 255 {
            return false;
        }
    }
    true
}

// A block of levels from -128 to 127, or of a 32nd of these.
fn block_of(noise: &[u8], small: bool) -> Block
    ensures { result.log2 ≡ 5 }
{
    let mut block = Block::zero(5);
    for (place, byte) in noise.iter().enumerate() {
        let place = (place % 1024) as u32;
        let level = i16::from(*byte) - 128;
        block.set(
            place % 32,
            place / 32,
            if small { level / 32 } else { level },
        );
    }
    block
}

// The code of a block for each 1,024 bytes.
fn level_code(alloc: Global, noise: &[u8], small: bool) -> Result<Vec<u8>, Trouble> {
    let mut coder = ByteCoder::new(alloc, Contexts::start(SliceKind::I));
    for bytes in noise.chunks_exact(1024) {
        let block = block_of(bytes, small);
        if !cbf(&block) || !are_levels(block.as_slice()) {
            return Err(Trouble::Refused);
        }
        write_residual(&mut coder, &block, 0, 0)?;
    }
    coder.bin(END)?;
    Ok(coder.finish()?)
}

#[derive(Drop)]
struct Levels<'a> {
    code: &'a [u8],
    blocks: usize,
}

impl<'a> Work for Levels<'a> {
    fn round(&mut self, _: Global) -> Result<usize, Trouble> {
        let Some(mut decoder) = Decoder::new(self.code, Contexts::start(SliceKind::I)) else {
            return Err(Trouble::Refused);
        };
        let mut block = Block::zero(5);
        let mut sum = 0usize;
        for _ in 0..self.blocks {
            let Some(()) = read_residual(&mut decoder, 0, 0, &mut block) else {
                return Err(Trouble::Refused);
            };
            let place = (sum % 1024) as u32;
            let level = block.get(place % 32, place / 32);
            sum = sum.wrapping_add(level.unsigned_abs() as usize);
        }
        Ok(sum)
    }
}

/// Reads 2^18 levels of each kind, or 2^12 where no time is taken. A speed counts a level as a byte.
pub fn run<R: Clock + Print>(rt: &R, alloc: Global, mode: Mode) -> Result<(), Trouble> {
    let blocks = match mode {
        Mode::Once => 4,
        Mode::Timed => 256,
    };
    let bytes = noise(alloc, 1024 * blocks)?;
    let code = level_code(alloc, &bytes, false)?;
    let mut levels = Levels {
        code: &code,
        blocks,
    };
    measure(
        rt,
        alloc,
        mode,
        "levels of noise read",
        1024 * blocks,
        &mut levels,
    )?;
    let code = level_code(alloc, &bytes, true)?;
    let mut levels = Levels {
        code: &code,
        blocks,
    };
    measure(
        rt,
        alloc,
        mode,
        "small levels read",
        1024 * blocks,
        &mut levels,
    )
}
