//! Whole recordings over files in memory, and what is refused.
mod cases;
mod decode;
mod demo;
mod extras;
mod faults;
mod large;
mod moves;
mod together;

use super::*;
use cases::{CASES, Case};
use edges::{CalmShelf, MemorySink};
use std::test::Fail;

// The digest FNV-1a of 64 bits.
fn digest(bytes: &[u8]) -> u64 {
    let mut digest: u64 = 0xcbf2_9ce4_8422_2325;
    for byte in bytes {
        digest = (digest ^ u64::from(*byte)).wrapping_mul(0x0000_0100_0000_01b3);
    }
    digest
}

// Records the script over a shelf in memory, and compares what comes of it, and of its stream decoded.
fn record(rt: &(impl std::process::Abort + AllocGlobal), case: &Case) -> Result<(), Fail> {
    let alloc = rt.alloc();
    let mut shelf = CalmShelf::new(alloc)?;
    shelf.put("f", case.script.as_bytes())?;
    let mut report = MemorySink::new(alloc, &[])?;
    let words = ["serial", case.size, case.effort, case.key, "o", "f"];
    let outcome = run_serial(alloc, &words, &mut shelf, &mut report);
    let stream = shelf.file("o").ok_or("no stream")?;
    let (pictures, paints, bytes) = (case.pictures, case.paints, case.bytes);
    let text = format!(in alloc; "pictures {pictures}\npaints {paints}\nbytes {bytes}\n")?;
    assert_eq!(rt; outcome.status, Status::Ok);
    assert_eq!(rt; outcome.written, bytes);
    assert_eq!(rt; stream.len() as u64, bytes);
    assert_eq!(rt; digest(stream), case.digest);
    assert_eq!(rt; report.text(), text.as_bytes());
    let decoded = run_decode(alloc, &["decode", "o", "p"], &mut shelf, &mut report);
    assert_eq!(rt; decoded.status, Status::Ok);
    assert_eq!(rt; digest(shelf.file("p").ok_or("no frames")?), case.frames);
    Ok(())
}

#[test]
fn streams_are_those_of_the_model(rt: HostRuntime) -> Result<(), Fail> {
    for case in &CASES {
        record(&rt, case)?;
    }
    Ok(())
}

// The stream of a script of one text, so many times.
struct Long {
    size: &'static str,
    effort: &'static str,
    key: &'static str,
    block: &'static str,
    times: usize,
    bytes: usize,
    digest: u64,
}

// Each third cut finds nothing changed.
const CHANGES: &str = "fill 3 1 9 7 80c0ff\ncut\nfill 5 2 4 4 102030\ncut\ncut\n";

// The count of pictures in a header begins anew after 256 pictures, and at each IDR picture. The values are the independent model's.
const LONG: [Long; 5] = [
    Long {
        size: "32x32",
        effort: "0",
        key: "0",
        block: "cut\n",
        times: 258,
        bytes: 7_520,
        digest: 0x60ca_4a94_5572_16e2,
    },
    Long {
        size: "31x33",
        effort: "1",
        key: "0",
        block: CHANGES,
        times: 100,
        bytes: 87_493,
        digest: 0x2c26_f5ff_008b_2eda,
    },
    Long {
        size: "31x33",
        effort: "1",
        key: "1",
        block: CHANGES,
        times: 100,
        bytes: 132_976,
        digest: 0xbad1_c0c7_b339_65e7,
    },
    Long {
        size: "31x33",
        effort: "1",
        key: "7",
        block: CHANGES,
        times: 100,
        bytes: 93_863,
        digest: 0x19eb_8e98_3799_69c6,
    },
    Long {
        size: "9x9",
        effort: "2",
        key: "7",
        block: CHANGES,
        times: 100,
        bytes: 63_240,
        digest: 0x154c_1304_07df_02c1,
    },
];

#[test]
fn long_streams_are_those_of_the_model(rt: HostRuntime) -> Result<(), Fail> {
    let alloc = rt.alloc();
    for case in &LONG {
        let mut shelf = CalmShelf::new(alloc)?;
        shelf.put("f", &repeated(alloc, case.block, case.times)?)?;
        let mut report = MemorySink::new(alloc, &[])?;
        let words = ["serial", case.size, case.effort, case.key, "o", "f"];
        let outcome = run_serial(alloc, &words, &mut shelf, &mut report);
        let stream = shelf.file("o").ok_or("no stream")?;
        assert_eq!(rt; outcome.status, Status::Ok);
        assert_eq!(rt; stream.len(), case.bytes);
        assert_eq!(rt; digest(stream), case.digest);
    }
    Ok(())
}

// The status of these words over a shelf in memory with this paint file; a refusal makes no file.
fn refused<R: std::process::Abort + AllocGlobal>(
    rt: &R,
    words: &[&str],
    paint: &[u8],
) -> Result<Status, Fail> {
    let alloc = rt.alloc();
    let mut shelf = CalmShelf::new(alloc)?;
    shelf.put("f", paint)?;
    let mut report = MemorySink::new(alloc, &[])?;
    let outcome = run_serial(alloc, words, &mut shelf, &mut report);
    assert!(rt; shelf.file("o").is_none());
    assert!(rt; report.text().is_empty());
    assert!(rt; outcome.order.as_slice().is_empty());
    assert_eq!(rt; outcome.written, 0);
    Ok(outcome.status)
}

#[test]
fn words_that_are_in_no_row(rt: HostRuntime) -> Result<(), Fail> {
    let rows: [&[&str]; 10] = [
        &[],
        &[""],
        &["serial", "0x5", "0", "1", "o", "f"],
        &["serial", "032x32", "0", "1", "o", "f"],
        &["serial", "4097x1", "0", "1", "o", "f"],
        &["serial", "4096x2161", "0", "1", "o", "f"],
        &["serial", "32x32", "3", "1", "o", "f"],
        &[
            "serial",
            "32x32",
            "0",
            "1111111111111111111111111111111111111111",
            "o",
            "f",
        ],
        &["demo", "1"],
        &["record", "32x32", "1", "0", "0", "o"],
    ];
    for words in rows {
        assert_eq!(rt; refused(&rt, words, b"cut\n")?, Status::Usage);
    }
    Ok(())
}

#[test]
fn first_bad_lines(rt: HostRuntime) -> Result<(), Fail> {
    let rows: [(&[u8], u32, Cause); 14] = [
        (b"fill 0 0 0 5 ffffff\n", 1, Cause::ZeroSize),
        (b"cut", 1, Cause::NoLineFeed),
        (b"cut\ncut \n", 2, Cause::WordCount),
        (b"\n", 1, Cause::UnknownCommand),
        (b"fill 00 0 1 1 ffffff\n", 1, Cause::BadNumber),
        (b"fill 65536 0 1 1 ffffff\n", 1, Cause::BadNumber),
        (b"fill 0 0 1 1 FFFFFF\n", 1, Cause::BadColour),
        (b"blit 0 0 2 1 ff0000\n", 1, Cause::BadColour),
        (b"blit 0 0 65 64 0\n", 1, Cause::TooManyPixels),
        (b"copy 0 0 1 1 0 0\n", 1, Cause::UnknownCommand),
        (b"paint 2\ncopy 0 0 1 1 0\n", 2, Cause::WordCount),
        (b"cut\npaint 2\n", 2, Cause::UnknownCommand),
        (b"paint 2\npaint 2\n", 2, Cause::UnknownCommand),
        (b"paint 2", 1, Cause::NoLineFeed),
    ];
    for (paint, line, cause) in rows {
        let status = refused(&rt, &["serial", "32x32", "0", "1", "o", "f"], paint)?;
        assert_eq!(rt;
            status,
            Status::BadPaint {
                file: 0,
                line,
                cause
            }
        );
    }
    Ok(())
}

// A file of this text, so many times.
fn repeated(alloc: Global, block: &str, times: usize) -> Result<Vec<u8>, NoMemory> {
    let mut bytes = Vec::new(alloc);
    for _ in 0..times {
        bytes.extend_from_slice(block.as_bytes())?;
    }
    Ok(bytes)
}

#[test]
fn limits(rt: HostRuntime) -> Result<(), Fail> {
    let alloc = rt.alloc();
    let words = ["serial", "32x32", "0", "1", "o", "f"];
    let (which, more) = (LimitKind::Lines, LimitKind::Cuts);
    let mut paint = repeated(alloc, "cut\n", 4_194_304)?;
    assert_eq!(rt; refused(&rt, &words, &paint)?, Status::Limit { which });
    paint.push(b'\n')?;
    assert_eq!(rt; refused(&rt, &words, &paint)?, Status::TooLarge { file: 0 });
    let paint = repeated(alloc, "cut\n", 65_537)?;
    assert_eq!(rt;
        refused(&rt, &words, &paint)?,
        Status::Limit { which: more }
    );
    Ok(())
}

#[test]
fn faults_of_the_disk(rt: HostRuntime) -> Result<(), Fail> {
    let alloc = rt.alloc();
    let mut shelf = DiskShelf::new(alloc, &rt);
    let mut report = MemorySink::new(alloc, &[])?;
    let words = ["serial", "32x32", "0", "1", "o", "missing"];
    let missing = run_serial(alloc, &words, &mut shelf, &mut report);
    assert_eq!(rt; missing.status, Status::InputFault { file: 0 });
    std::fs::write(&rt, "f", "cut\n")?;
    let words = ["serial", "32x32", "0", "1", ".", "f"];
    let directory = run(&rt, alloc, &words, &mut shelf, &mut report, &NoGate);
    assert_eq!(rt; directory.status, Status::SinkFault);
    assert_eq!(rt; directory.written, 0);
    assert!(rt; report.text().is_empty());
    Ok(())
}

#[test]
fn a_report_that_fails(rt: HostRuntime) -> Result<(), Fail> {
    let alloc = rt.alloc();
    let mut shelf = CalmShelf::new(alloc)?;
    shelf.put("f", b"cut\n")?;
    let mut report = MemorySink::new(alloc, &[(0, 3)])?;
    let words = ["serial", "32x32", "0", "1", "o", "f"];
    let outcome = run(&rt, alloc, &words, &mut shelf, &mut report, &NoGate);
    assert_eq!(rt; outcome.status, Status::ReportFault);
    assert_eq!(rt; outcome.written, 4693);
    assert_eq!(rt; report.text(), b"pic".as_slice());
    Ok(())
}

#[test]
fn words_that_are_not_served(rt: HostRuntime) -> Result<(), Fail> {
    let alloc = rt.alloc();
    let mut report = MemorySink::new(alloc, &[])?;
    for words in [
        ["serial", "0"],
        ["demo", "18446744073709551616"],
        ["demo", "00"],
    ] {
        let other = run_demo(alloc, &words, &mut report);
        assert_eq!(rt; other.status, Status::Usage);
    }
    Ok(())
}

#[test]
fn complaints(rt: HostRuntime) -> Result<(), Fail> {
    let (file, line, cause) = (3, 17, Cause::WordCount);
    let rows = [
        (Status::Ok, 0, ""),
        (Status::Usage, 1, "usage"),
        (
            Status::BadPaint { file, line, cause },
            2,
            "bad paint: file 3 line 17: WordCount",
        ),
        (
            Status::Limit {
                which: LimitKind::Cuts,
            },
            3,
            "limit: Cuts",
        ),
        (Status::InputFault { file }, 4, "cannot read: file 3"),
        (Status::SinkFault, 5, "cannot write"),
        (Status::ReportFault, 6, "cannot report"),
        (Status::NoMemory, 7, "no memory"),
        (Status::TooLarge { file }, 8, "too large: file 3"),
        (Status::BadStream { at: 5 }, 9, "bad stream: unit 5"),
    ];
    for (status, number, text) in rows {
        let complaint = Complaint(status);
        assert_eq!(rt; status.number(), number);
        assert_eq!(rt; format!(in rt.alloc(); "{complaint}")?.as_str(), text);
    }
    Ok(())
}
