//! One work, measured.
use crate::trouble::Trouble;
use std::alloc::Global;
use std::rt::Clock;
use std::time::Instant;

/// Whether works are done once, or often and by the clock.
#[derive(Clone, Copy, PartialEq, Eq)]
pub enum Mode {
    Once,
    Timed,
}

/// Something that is done again and again.
pub trait Work {
    /// Does it once, and counts something of what was done, so that it can't be left out.
    fn round(&mut self, alloc: Global) -> Result<usize, Trouble>;
}

// So many rounds are timed, and the shortest one counts.
const ROUNDS: u32 = 20;

/// Measures a work that handles so many bytes a round.
pub fn measure<R: Clock + Print, W: Work>(
    rt: &R,
    alloc: Global,
    mode: Mode,
    name: &str,
    bytes: usize,
    work: &mut W,
) -> Result<(), Trouble> {
    let count = work.round(alloc)?;
    println!(rt; "{name}: {count}")?;
    if mode == Mode::Once {
        return Ok(());
    }
    let mut shortest = u128::MAX;
    for _ in 0..ROUNDS {
        let start = Instant::now(rt)?;
        if work.round(alloc)? != count {
            return Err(Trouble::Refused);
        }
        shortest = shortest.min(start.elapsed(rt)?.as_micros());
    }
    let micros = shortest.max(1);
    let speed = bytes as u128 / micros;
    println!(rt; "  {micros} microseconds, {speed} MB/s")?;
    Ok(())
}
