//! Measures the crates. With the name of a group, `units`, `planes`, `scripts`, `coder`, `decoder`, `levels` or `blocks`, it says how long each of its works takes at best; with
//! no word it does each work once, with no clock, and says what was done. With `walk` and a file it says how long a walk of that stream's pictures takes, and with
//! `streams` and a file what reading each of many streams comes to (`checks/hostile`).
#![tactic(auto)]

mod blocks;
mod coder;
mod decoder;
mod levels;
mod measure;
mod noise;
mod planes;
mod scripts;
mod streams;
mod trouble;
mod units;
mod walk;

use measure::Mode;
use std::alloc::Global;
use std::rt::{Clock, Env};
use std::{env, fs};
use trouble::Trouble;

fn main(rt: HostRuntime) -> Result<(), Trouble> {
    let alloc = rt.alloc();
    let mut words = env::args(&rt)?;
    let _program = words.next();
    match (words.next(), words.next()) {
        (None, _) => run_all(&rt, alloc),
        (Some(word), None) => run_group(&rt, alloc, word.as_str()),
        (Some(word), Some(file)) => {
            let stream = fs::read(&rt, file.as_str())?;
            run_stream(&rt, alloc, word.as_str(), &stream)
        }
    }
}

fn run_all<R: Clock + Print>(rt: &R, alloc: Global) -> Result<(), Trouble> {
    units::run(rt, alloc, Mode::Once)?;
    planes::run(rt, alloc, Mode::Once)?;
    scripts::run(rt, alloc, Mode::Once)?;
    coder::run(rt, alloc, Mode::Once)?;
    decoder::run(rt, alloc, Mode::Once)?;
    levels::run(rt, alloc, Mode::Once)?;
    blocks::run(rt, alloc, Mode::Once)
}

fn run_stream<R: Clock + Print>(
    rt: &R,
    alloc: Global,
    word: &str,
    stream: &[u8],
) -> Result<(), Trouble> {
    match word {
        "walk" => walk::run(rt, alloc, Mode::Timed, stream),
        "streams" => streams::run(rt, alloc, stream),
        _ => Err(Trouble::NoSuchGroup),
    }
}

fn run_group<R: Clock + Print>(rt: &R, alloc: Global, word: &str) -> Result<(), Trouble> {
    match word {
        "units" => units::run(rt, alloc, Mode::Timed),
        "planes" => planes::run(rt, alloc, Mode::Timed),
        "scripts" => scripts::run(rt, alloc, Mode::Timed),
        "coder" => coder::run(rt, alloc, Mode::Timed),
        "decoder" => decoder::run(rt, alloc, Mode::Timed),
        "levels" => levels::run(rt, alloc, Mode::Timed),
        "blocks" => blocks::run(rt, alloc, Mode::Timed),
        _ => Err(Trouble::NoSuchGroup),
    }
}
