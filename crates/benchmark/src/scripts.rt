//! Paint scripts, read.
use crate::measure::{Mode, Work, measure};
use crate::trouble::Trouble;
use paint_script::read_script;
use std::alloc::Global;
use std::rt::Clock;

#[derive(Drop)]
struct Reading<'a> {
    text: &'a [u8],
}

impl<'a> Work for Reading<'a> {
    fn round(&mut self, alloc: Global) -> Result<usize, Trouble> {
        if self.text.len() >= 1 << 32 {
            return Err(Trouble::Refused);
        }
        match read_script(alloc, self.text) {
            Ok(script) => Ok(script.lines() as usize),
            Err(_) => Err(Trouble::Refused),
        }
    }
}

// A first line, and then as many of these lines as fit so many bytes.
fn repeated(alloc: Global, first: &[u8], line: &[u8], count: usize) -> Result<Vec<u8>, Trouble> {
    let mut text = Vec::new(alloc);
    text.reserve(count)?;
    text.extend_from_slice(first)?;
    for _ in 0..count / line.len().max(1) {
        text.extend_from_slice(line)?;
    }
    Ok(text)
}

fn read_script_of<R: Clock + Print>(
    rt: &R,
    alloc: Global,
    mode: Mode,
    name: &str,
    first: &[u8],
    line: &[u8],
) -> Result<(), Trouble> {
    let count = match mode {
        Mode::Once => 1 << 16,
        Mode::Timed => 1 << 24,
    };
    let text = repeated(alloc, first, line, count)?;
    let mut reading = Reading { text: &text };
    measure(rt, alloc, mode, name, text.len(), &mut reading)
}

fn read_lines<R: Clock + Print>(
    rt: &R,
    alloc: Global,
    mode: Mode,
    name: &str,
    line: &[u8],
) -> Result<(), Trouble> {
    read_script_of(rt, alloc, mode, name, b"", line)
}

fn read_copies<R: Clock + Print>(
    rt: &R,
    alloc: Global,
    mode: Mode,
    name: &str,
    line: &[u8],
) -> Result<(), Trouble> {
    read_script_of(rt, alloc, mode, name, b"paint 2\n", line)
}

/// Reads scripts of fills, of the largest and of the shortest blits, of cuts, and of copies: 16 MiB each, or 64 KiB where no time is taken.
pub fn run<R: Clock + Print>(rt: &R, alloc: Global, mode: Mode) -> Result<(), Trouble> {
    read_lines(rt, alloc, mode, "fills", b"fill 12 345 678 90 a1b2c3\n")?;
    let mut blit = b"blit 0 0 64 64 ".to_vec(alloc)?;
    for _ in 0..4096 {
        blit.extend_from_slice(b"09a5fe")?;
    }
    blit.push(b'\n')?;
    read_lines(rt, alloc, mode, "largest blits", &blit)?;
    read_lines(rt, alloc, mode, "shortest blits", b"blit 0 0 1 1 09a5fe\n")?;
    read_lines(rt, alloc, mode, "cuts", b"cut\n")?;
    let copy = b"copy 12 345 678 90 12 329\n";
    read_copies(rt, alloc, mode, "copies", copy)?;
    read_copies(rt, alloc, mode, "shortest copies", b"copy 0 0 1 1 0 0\n")
}
