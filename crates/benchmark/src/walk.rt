//! A stream, read picture by picture.
use crate::measure::{Mode, Work, measure};
use crate::trouble::Trouble;
use std::alloc::Global;
use std::rt::Clock;
use stream_decode::Reader;

#[derive(Drop)]
struct Walk<'a> {
    stream: &'a [u8],
}

impl<'a> Work for Walk<'a> {
    fn round(&mut self, alloc: Global) -> Result<usize, Trouble> {
        if self.stream.len() >= 1 << 32 {
            return Err(Trouble::Refused);
        }
        let Ok(mut reader) = Reader::new(alloc, self.stream) else {
            return Err(Trouble::Refused);
        };
        let mut pictures = 0usize;
        for _ in 0..u32::MAX {
            match reader.next() {
                Ok(true) => pictures = pictures.wrapping_add(1),
                Ok(false) => return Ok(pictures),
                Err(_) => return Err(Trouble::Refused),
            }
        }
        Err(Trouble::Refused)
    }
}

/// Reads all pictures of a stream, one after another, and counts them.
pub fn run<R: Clock + Print>(
    rt: &R,
    alloc: Global,
    mode: Mode,
    stream: &[u8],
) -> Result<(), Trouble> {
    let mut walk = Walk { stream };
    measure(rt, alloc, mode, "pictures read", stream.len(), &mut walk)
}
