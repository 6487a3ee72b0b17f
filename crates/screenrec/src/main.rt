//! Replays paint scripts on one desktop, and writes the cut pictures as a lossless H.265 stream; reads such streams back.
#![tactic(auto)]

mod alone;
mod coder;
mod complaint;
mod decode;
mod demo;
mod outcome;
mod paint_file;
mod recording;
mod report;
mod serial;
mod stage;
mod stream_file;
mod together;

pub use complaint::Complaint;
pub use decode::run_decode;
pub use demo::run_demo;
use edges::{DiskShelf, StreamSink};
use gate::NoGate;
use h265_model::NoMemory;
pub use outcome::{Outcome, Status};
pub use recorder_model::{Cause, LimitKind};
pub use recording::run;
pub use serial::run_serial;
use std::alloc::Global;
use std::io::ErrorKind;
use std::process::ExitCode;
use std::rt::Env;
use std::{env, fs};

/// Serves the words by the call that the first of them name, and exits with the number of the status. Where that isn't 0,
/// one line on standard error says why.
fn main(rt: HostRuntime) -> ExitCode {
    // The number of a standard stream that is closed would go to the next file that is opened, and OUT would get the
    // report. So these three take such numbers, and a write to one of them fails.
    let _first = fs::open(&rt, "/dev/null");
    let _second = fs::open(&rt, "/dev/null");
    let _third = fs::open(&rt, "/dev/null");
    let alloc = rt.alloc();
    let texts = match arguments(&rt, alloc) {
        Ok(texts) => texts,
        Err(status) => return finish(&rt, status),
    };
    let Ok(words) = borrowed(alloc, &texts) else {
        return finish(&rt, Status::NoMemory);
    };
    let mut shelf = DiskShelf::new(alloc, &rt);
    let mut report = StreamSink::new(&rt);
    let first = words.first().copied().unwrap_or("");
    let second = words.get(1).copied().unwrap_or("");
    let outcome = match (first, second) {
        ("serial", _) | ("hash" | "segments" | "moves", "serial") => {
            run_serial(alloc, &words, &mut shelf, &mut report)
        }
        ("demo", _) => run_demo(alloc, &words, &mut report),
        ("decode", _) => run_decode(alloc, &words, &mut shelf, &mut report),
        _ => run(&rt, alloc, &words, &mut shelf, &mut report, &NoGate),
    };
    finish(&rt, outcome.status)
}

// The words after the program's name. Words that aren't UTF-8 are in no row of the table.
fn arguments<R: Env + AllocGlobal>(rt: &R, alloc: Global) -> Result<Vec<String>, Status> {
    let args = match env::args(rt) {
        Ok(args) => args,
        Err(error) if error.kind() == ErrorKind::OutOfMemory => return Err(Status::NoMemory),
        Err(_) => return Err(Status::Usage),
    };
    let mut texts = Vec::new(alloc);
    for word in args.skip(1) {
        if texts.push(word).is_err() {
            return Err(Status::NoMemory);
        }
    }
    Ok(texts)
}

fn borrowed<'a>(alloc: Global, texts: &'a [String]) -> Result<Vec<&'a str>, NoMemory> {
    let mut words = Vec::new(alloc);
    for text in texts {
        words.push(text.as_str())?;
    }
    Ok(words)
}

fn finish<R: Eprint>(rt: &R, status: Status) -> ExitCode {
    if status != Status::Ok {
        let _ = rt.eprintln(Complaint(status));
    }
    ExitCode::from(status.number())
}

#[cfg(test)]
mod tests;
