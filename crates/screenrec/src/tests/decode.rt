//! Streams decoded over files in memory, and what is refused.
use crate::{Outcome, Status, run_decode, run_serial};
use edges::{CalmShelf, MemoryShelf, MemorySink};
use h265_model::NoMemory;
use std::alloc::Global;
use std::test::Fail;

// What a decoding leaves.
#[derive(Drop)]
struct Left {
    outcome: Outcome,
    shelf: MemoryShelf,
    report: MemorySink,
}

// Decodes the stream in `i`, or another file, to `o`, which holds `old`. The lists name the writes that fail.
fn decode(
    alloc: Global,
    file: &str,
    stream: &[u8],
    writes: &[(u32, u32)],
    reports: &[(u32, u32)],
) -> Result<Left, NoMemory> {
    let mut shelf = MemoryShelf::new(alloc, &[], writes)?;
    shelf.put("i", stream)?;
    shelf.put("o", b"old")?;
    let mut report = MemorySink::new(alloc, reports)?;
    let words = ["decode", file, "o"];
    let outcome = run_decode(alloc, &words, &mut shelf, &mut report);
    Ok(Left {
        outcome,
        shelf,
        report,
    })
}

// Whether OUT holds these bytes.
fn holds(left: &Left, bytes: &[u8]) -> bool {
    match left.shelf.file("o") {
        Some(held) => held == bytes,
        None => false,
    }
}

// The stream of a script on 32x32, whose first picture alone is an IDR picture.
fn recorded(alloc: Global, script: &str) -> Result<Vec<u8>, Fail> {
    let mut shelf = CalmShelf::new(alloc)?;
    shelf.put("f", script.as_bytes())?;
    let mut report = MemorySink::new(alloc, &[])?;
    let words = ["serial", "32x32", "0", "0", "o", "f"];
    let outcome = run_serial(alloc, &words, &mut shelf, &mut report);
    if outcome.status != Status::Ok {
        return Err(Fail::from("not recorded"));
    }
    Ok(Vec::from_slice(alloc, shelf.file("o").ok_or("no stream")?)?)
}

// One picture of one colour, as a frame.
fn one_frame(alloc: Global) -> Result<Vec<u8>, NoMemory> {
    let mut frame = Vec::from_slice(alloc, b"P6\n32 32\n255\n")?;
    for _ in 0..1024 {
        frame.push(0xff)?;
        frame.push(0x80)?;
        frame.push(0x40)?;
    }
    Ok(frame)
}

const ONE_COLOUR: &str = "fill 0 0 32 32 ff8040\ncut\n";

#[test]
fn pictures_come_back(rt: HostRuntime) -> Result<(), Fail> {
    let alloc = rt.alloc();
    let frame = one_frame(alloc)?;
    let rows: [(&str, &[u8], &str); 2] = [
        (ONE_COLOUR, &frame, "pictures 1\nsize 32x32\nbytes 3085\n"),
        ("", b"", "pictures 0\nsize 32x32\nbytes 0\n"),
    ];
    for (script, frames, text) in rows {
        let left = decode(alloc, "i", &recorded(alloc, script)?, &[], &[])?;
        assert_eq!(rt; left.outcome.status, Status::Ok);
        assert_eq!(rt; left.outcome.written, frames.len() as u64);
        assert!(rt; holds(&left, frames));
        assert_eq!(rt; left.report.text(), text.as_bytes());
    }
    Ok(())
}

#[test]
fn streams_that_are_refused(rt: HostRuntime) -> Result<(), Fail> {
    let alloc = rt.alloc();
    let mut other_end = recorded(alloc, "cut\n")?;
    let _last = other_end.pop();
    other_end.push(0x81)?;
    let mut shorter = recorded(alloc, "cut\ncut\n")?;
    let _last = shorter.pop();
    let rows: [(&[u8], u32); 4] = [(b"", 0), (b"\x44", 0), (&other_end, 3), (&shorter, 4)];
    for (stream, at) in rows {
        let left = decode(alloc, "i", stream, &[], &[])?;
        assert_eq!(rt; left.outcome.status, Status::BadStream { at });
        assert_eq!(rt; left.outcome.written, 0);
        assert!(rt; holds(&left, b"old"));
        assert!(rt; left.report.text().is_empty());
    }
    Ok(())
}

#[test]
fn calls_that_fail(rt: HostRuntime) -> Result<(), Fail> {
    let alloc = rt.alloc();
    let stream = recorded(alloc, ONE_COLOUR)?;
    let missing = decode(alloc, "missing", &stream, &[], &[])?;
    assert_eq!(rt; missing.outcome.status, Status::InputFault { file: 0 });
    let unmade = decode(alloc, "i", &stream, &[(0, 0)], &[])?;
    assert_eq!(rt; unmade.outcome.status, Status::SinkFault);
    assert!(rt; holds(&unmade, b"old"));
    let stopped = decode(alloc, "i", &stream, &[(1, 3)], &[])?;
    assert_eq!(rt; stopped.outcome.status, Status::SinkFault);
    assert_eq!(rt; stopped.outcome.written, 0);
    assert!(rt; holds(&stopped, b"P6\n"));
    let unreported = decode(alloc, "i", &stream, &[], &[(0, 3)])?;
    assert_eq!(rt; unreported.outcome.status, Status::ReportFault);
    assert_eq!(rt; unreported.outcome.written, 3085);
    assert_eq!(rt; unreported.report.text(), b"pic".as_slice());
    Ok(())
}
