//! Many streams, each read to its end or to the NAL unit that fails.
use crate::trouble::Trouble;
use std::alloc::Global;
use std::rt::Clock;
use std::time::Instant;
use stream_decode::{DecodeError, Reader};

// What reading a stream came to.
#[derive(Clone, Copy)]
enum Read {
    Pictures(u32),
    Bad { at: u32 },
}

// A failure to read a stream.
fn failed(error: DecodeError) -> Result<Read, Trouble> {
    match error {
        DecodeError::BadStream { at } => Ok(Read::Bad { at }),
        DecodeError::NoMemory => Err(Trouble::NoMemory),
    }
}

// Reads all pictures of a stream.
fn read_stream(alloc: Global, stream: &[u8]) -> Result<Read, Trouble> {
    if stream.len() >= 1 << 32 {
        return Err(Trouble::Refused);
    }
    let mut reader = match Reader::new(alloc, stream) {
        Ok(reader) => reader,
        Err(error) => return failed(error),
    };
    for pictures in 0..u32::MAX {
        match reader.next() {
            Ok(true) => {}
            Ok(false) => return Ok(Read::Pictures(pictures)),
            Err(error) => return failed(error),
        }
    }
    Err(Trouble::Refused)
}

// The bytes of one stream, behind its length in four bytes, and those of the others.
fn split_first(streams: &[u8]) -> Option<(&[u8], &[u8])> {
    let (length, rest) = streams.split_at_checked(4)?;
    let length = u32::from_be_bytes([length[0], length[1], length[2], length[3]]);
    rest.split_at_checked(length as usize)
}

/// Reads streams one after another, each behind its length in four bytes, the most significant one first. Says of each how many pictures it has or which
/// NAL unit fails, and how many microseconds that took.
pub fn run<R: Clock + Print>(rt: &R, alloc: Global, streams: &[u8]) -> Result<(), Trouble> {
    let mut rest = streams;
    for _ in 0..streams.len() {
        let Some((stream, others)) = split_first(rest) else {
            return Ok(());
        };
        let start = Instant::now(rt)?;
        let answer = read_stream(alloc, stream)?;
        let micros = start.elapsed(rt)?.as_micros();
        match answer {
            Read::Pictures(count) => println!(rt; "pictures {count} {micros}")?,
            Read::Bad { at } => println!(rt; "unit {at} {micros}")?,
        }
        rest = others;
    }
    Ok(())
}
