//! Streams with the hash of each picture, and with a slice segment for each row. The values are the independent model's.
use super::digest;
use super::together::merged;
use crate::{Status, run, run_decode, run_serial};
use edges::{CalmShelf, MemorySink};
use gate::NoGate;
use std::alloc::Global;
use std::process::Abort;
use std::test::Fail;

// A script and the words before those of its files, what its recording reports, and the digest of its stream.
#[derive(Drop)]
pub(super) struct Extra<'a> {
    pub(super) words: [&'static str; 5],
    pub(super) script: &'a str,
    pub(super) pictures: u32,
    pub(super) paints: u32,
    pub(super) bytes: u64,
    pub(super) digest: u64,
}

// Each third cut finds nothing changed.
const CHANGES: &str = "fill 3 1 9 7 80c0ff\ncut\nfill 5 2 4 4 102030\ncut\ncut\n";

const CHANGES_TWICE: &str =
    "fill 3 1 9 7 80c0ff\ncut\nfill 5 2 4 4 102030\ncut\ncut\nfill 3 1 9 7 80c0ff\ncut\nfill 5 2 4 4 102030\ncut\ncut\n";

const WIDE: &str =
    "fill 0 0 70 40 ffffff\nfill 10 10 30 3 203040\ncut\ncut\nfill 40 30 30 10 0000ff\ncut\n";

const TALL: &str =
    "fill 0 0 70 100 ffffff\nfill 10 10 30 63 203040\ncut\ncut\nfill 40 30 30 70 0000ff\ncut\ncut\n";

const HASHED: [Extra<'static>; 4] = [
    Extra {
        words: ["hash", "serial", "32x32", "0", "1"],
        script: "cut\n",
        pictures: 1,
        paints: 0,
        bytes: 4_751,
        digest: 0x8c21_e007_7358_970a,
    },
    Extra {
        words: ["hash", "serial", "33x17", "1", "2"],
        script: CHANGES_TWICE,
        pictures: 6,
        paints: 4,
        bytes: 2_576,
        digest: 0x26fb_b97d_f80f_8b20,
    },
    Extra {
        words: ["hash", "serial", "70x40", "2", "0"],
        script: WIDE,
        pictures: 3,
        paints: 3,
        bytes: 965,
        digest: 0xdf08_ab4d_bf44_4bcf,
    },
    Extra {
        words: ["hash", "serial", "1x1", "0", "0"],
        script: "",
        pictures: 0,
        paints: 0,
        bytes: 75,
        digest: 0xc958_9a1a_63a2_2a71,
    },
];

const SEGMENTED: [Extra<'static>; 4] = [
    Extra {
        words: ["segments", "serial", "64x64", "0", "1"],
        script: "cut\n",
        pictures: 1,
        paints: 0,
        bytes: 18_530,
        digest: 0x81b5_1070_b719_f0d7,
    },
    Extra {
        words: ["segments", "serial", "33x70", "1", "0"],
        script: CHANGES,
        pictures: 3,
        paints: 2,
        bytes: 1_004,
        digest: 0xf4a0_21d7_1bfe_cc73,
    },
    Extra {
        words: ["segments", "serial", "70x100", "2", "2"],
        script: TALL,
        pictures: 4,
        paints: 3,
        bytes: 2_234,
        digest: 0x47e5_da57_9ad3_d248,
    },
    Extra {
        words: ["segments", "serial", "40x8", "0", "3"],
        script: "",
        pictures: 0,
        paints: 0,
        bytes: 74,
        digest: 0x88d6_8781_b316_c68a,
    },
];

// The frames of the stream in `o`, decoded.
fn frames_of(alloc: Global, shelf: &mut CalmShelf) -> Result<Vec<u8>, Fail> {
    let mut report = MemorySink::new(alloc, &[])?;
    let outcome = run_decode(alloc, &["decode", "o", "d"], shelf, &mut report);
    if outcome.status != Status::Ok {
        return Err(Fail::from("not decoded"));
    }
    Ok(Vec::from_slice(alloc, shelf.file("d").ok_or("no frames")?)?)
}

// Records the script, and compares what comes of it. Its frames are those of the script's plain stream.
pub(super) fn record(rt: &(impl Abort + AllocGlobal), case: &Extra<'_>) -> Result<(), Fail> {
    let alloc = rt.alloc();
    let mut shelf = CalmShelf::new(alloc)?;
    shelf.put("f", case.script.as_bytes())?;
    let mut report = MemorySink::new(alloc, &[])?;
    let [kind, command, size, effort, key] = case.words;
    let words = [kind, command, size, effort, key, "o", "f"];
    let outcome = run_serial(alloc, &words, &mut shelf, &mut report);
    assert_eq!(rt; outcome.status, Status::Ok);
    assert_eq!(rt; outcome.written, case.bytes);
    assert_eq!(rt; digest(shelf.file("o").ok_or("no stream")?), case.digest);
    let (pictures, paints, bytes) = (case.pictures, case.paints, case.bytes);
    let text = format!(in alloc; "pictures {pictures}\npaints {paints}\nbytes {bytes}\n")?;
    assert_eq!(rt; report.text(), text.as_bytes());
    let frames = frames_of(alloc, &mut shelf)?;
    let mut other = MemorySink::new(alloc, &[])?;
    let words = ["serial", size, effort, key, "o", "f"];
    let plain = run_serial(alloc, &words, &mut shelf, &mut other);
    assert_eq!(rt; plain.status, Status::Ok);
    assert!(rt; frames_of(alloc, &mut shelf)? == frames);
    Ok(())
}

#[test]
fn streams_with_hashes(rt: HostRuntime) -> Result<(), Fail> {
    for case in &HASHED {
        record(&rt, case)?;
    }
    Ok(())
}

#[test]
fn streams_in_segments(rt: HostRuntime) -> Result<(), Fail> {
    for case in &SEGMENTED {
        record(&rt, case)?;
    }
    Ok(())
}

#[test]
fn two_clients_with_hashes(rt: HostRuntime) -> Result<(), Fail> {
    let alloc = rt.alloc();
    let files: [&[u8]; 2] = [
        b"fill 0 0 32 32 ff0000\ncut\n",
        b"fill 4 4 20 40 00ff00\ncut\ncut\n",
    ];
    let mut shelf = CalmShelf::new(alloc)?;
    shelf.put("a", files[0])?;
    shelf.put("b", files[1])?;
    let mut report = MemorySink::new(alloc, &[])?;
    let words = ["hash", "record", "40x33", "2", "0", "2", "o", "a", "b"];
    let outcome = run(&rt, alloc, &words, &mut shelf, &mut report, &NoGate);
    assert_eq!(rt; outcome.status, Status::Ok);
    shelf.put(
        "m",
        &merged(alloc, files[0], files[1], outcome.order.as_slice())?,
    )?;
    let mut other = MemorySink::new(alloc, &[])?;
    let words = ["hash", "serial", "40x33", "0", "2", "p", "m"];
    let serial = run_serial(alloc, &words, &mut shelf, &mut other);
    assert_eq!(rt; serial.status, Status::Ok);
    assert_eq!(rt; serial.written, outcome.written);
    assert_eq!(rt; shelf.file("o"), shelf.file("p"));
    assert_eq!(rt; report.text(), other.text());
    Ok(())
}

// Puts a recording of one black picture into a shelf, and tells its stream.
fn black_picture(alloc: Global, kind: &str, size: &str) -> Result<Vec<u8>, Fail> {
    let mut shelf = CalmShelf::new(alloc)?;
    shelf.put("f", b"cut\n")?;
    let mut report = MemorySink::new(alloc, &[])?;
    let words = [kind, "serial", size, "0", "1", "o", "f"];
    let outcome = run_serial(alloc, &words, &mut shelf, &mut report);
    if outcome.status != Status::Ok {
        return Err(Fail::from("not recorded"));
    }
    Ok(Vec::from_slice(alloc, shelf.file("o").ok_or("no stream")?)?)
}

// A stream without its bytes from this one on, and then these once more.
fn cut_at(alloc: Global, stream: &[u8], at: usize, again: bool) -> Result<Vec<u8>, Fail> {
    if at > stream.len() {
        return Err(Fail::from("too short"));
    }
    let (front, back) = stream.split_at(at);
    let mut changed = Vec::from_slice(alloc, front)?;
    if again {
        changed.extend_from_slice(back)?;
        changed.extend_from_slice(back)?;
    }
    Ok(changed)
}

// What decoding a stream answers.
fn decoded(alloc: Global, stream: &[u8]) -> Result<Status, Fail> {
    let mut shelf = CalmShelf::new(alloc)?;
    shelf.put("o", stream)?;
    let mut report = MemorySink::new(alloc, &[])?;
    Ok(run_decode(alloc, &["decode", "o", "d"], &mut shelf, &mut report).status)
}

// The plain stream of the same picture has 4693 bytes. The last byte of the first digest stands 24 bytes after these: 4 of a start code, 2 of a
// header, 3 of the message, and 15 of the digest.
#[test]
fn hashes_that_are_refused(rt: HostRuntime) -> Result<(), Fail> {
    let alloc = rt.alloc();
    let stream = black_picture(alloc, "hash", "32x32")?;
    if stream.len() != 4_751 {
        return Err(Fail::from("another length"));
    }
    for bit in 0..8u8 {
        let mut flipped = Vec::from_slice(alloc, &stream)?;
        flipped[4_717] ^= 1 << bit;
        assert_eq!(rt; decoded(alloc, &flipped)?, Status::BadStream { at: 4 });
    }
    let repeated = cut_at(alloc, &stream, 4_693, true)?;
    assert_eq!(rt; decoded(alloc, &repeated)?, Status::BadStream { at: 5 });
    Ok(())
}

// The second row's NAL unit begins here, of 18530 bytes.
const SECOND_ROW: usize = 9303;

#[test]
fn segments_that_are_refused(rt: HostRuntime) -> Result<(), Fail> {
    let alloc = rt.alloc();
    let stream = black_picture(alloc, "segments", "64x64")?;
    let short = cut_at(alloc, &stream, SECOND_ROW, false)?;
    assert_eq!(rt; decoded(alloc, &short)?, Status::BadStream { at: 4 });
    let repeated = cut_at(alloc, &stream, SECOND_ROW, true)?;
    assert_eq!(rt; decoded(alloc, &repeated)?, Status::BadStream { at: 5 });
    Ok(())
}

#[test]
fn words_of_no_row(rt: HostRuntime) -> Result<(), Fail> {
    let alloc = rt.alloc();
    let rows: [&[&str]; 8] = [
        &["segments", "serial", "32x64", "0", "1", "o", "f"],
        &["segments", "record", "64x64", "1", "0", "1", "o", "f"],
        &["moves", "record", "64x64", "1", "0", "1", "o", "f"],
        &["moves"],
        &["serial", "moves", "32x32", "0", "1", "o", "f"],
        &["hash", "decode", "i", "o"],
        &["hash"],
        &["serial", "hash", "32x32", "0", "1", "o", "f"],
    ];
    for words in rows {
        let mut shelf = CalmShelf::new(alloc)?;
        shelf.put("f", b"cut\n")?;
        let mut report = MemorySink::new(alloc, &[])?;
        let serial = run_serial(alloc, words, &mut shelf, &mut report);
        assert_eq!(rt; serial.status, Status::Usage, "{words:?}");
        let served = run(&rt, alloc, words, &mut shelf, &mut report, &NoGate);
        assert_eq!(rt; served.status, Status::Usage, "{words:?}");
        assert!(rt; shelf.file("o").is_none());
    }
    Ok(())
}
