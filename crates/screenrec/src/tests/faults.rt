//! Recordings of two cuts over files in memory, with calls that fail, and scripts that are cut off.
use super::digest;
use crate::{Cause, Outcome, Status, run, run_serial};
use edges::{MemoryShelf, MemorySink};
use gate::NoGate;
use h265_model::NoMemory;
use recorder_model::Entry;
use std::alloc::Global;
use std::test::Fail;

// What a recording leaves.
#[derive(Drop)]
struct Left {
    outcome: Outcome,
    shelf: MemoryShelf,
    report: MemorySink,
}

// Records the two cuts of `f`, or another file, to `o`, which holds `old`. The lists name the calls that fail.
fn record(
    alloc: Global,
    file: &str,
    reads: &[u32],
    writes: &[(u32, u32)],
    reports: &[(u32, u32)],
) -> Result<Left, NoMemory> {
    let mut shelf = MemoryShelf::new(alloc, reads, writes)?;
    shelf.put("f", b"cut\ncut\n")?;
    shelf.put("o", b"old")?;
    let mut report = MemorySink::new(alloc, reports)?;
    let words = ["serial", "32x32", "0", "0", "o", file];
    let outcome = run_serial(alloc, &words, &mut shelf, &mut report);
    Ok(Left {
        outcome,
        shelf,
        report,
    })
}

// OUT is as it was, and nothing was recorded.
fn is_untouched(rt: &impl std::process::Abort, left: &Left) {
    assert_eq!(rt; left.shelf.file("o"), Some(b"old".as_slice()));
    assert!(rt; left.outcome.order.as_slice().is_empty());
    assert_eq!(rt; left.outcome.written, 0);
    assert!(rt; left.report.text().is_empty());
}

#[test]
fn appends_that_fail(rt: HostRuntime) -> Result<(), Fail> {
    let alloc = rt.alloc();
    let whole = record(alloc, "f", &[], &[], &[])?;
    let stream = whole.shelf.file("o").ok_or("no stream")?;
    assert_eq!(rt; whole.outcome.status, Status::Ok);
    assert_eq!(rt; digest(stream), 0xb5524a7f10d24362);
    // The number of the write, how many bytes it takes, how many OUT has then, and how many are counted.
    let rows = [
        (1, 0, 0, 0),
        (1, 3, 3, 0),
        (2, 0, 74, 74),
        (2, 3, 77, 74),
        (3, 0, 4693, 4693),
        (3, 3, 4696, 4693),
        (3, 5, 4698, 4693),
    ];
    for (number, taken, stored, written) in rows {
        let left = record(alloc, "f", &[], &[(number, taken)], &[])?;
        assert_eq!(rt; left.outcome.status, Status::SinkFault);
        assert_eq!(rt; left.outcome.written, written);
        assert_eq!(rt; left.outcome.order.as_slice().len(), 2);
        assert_eq!(rt; left.shelf.file("o"), stream.get(..stored));
        assert!(rt; left.report.text().is_empty());
    }
    Ok(())
}

// Whether an order has both cuts of one client, and the take of the first one alone, after its cut.
fn has_first_take(order: &[Entry]) -> bool {
    let (client, number) = (0, 0);
    let first = Entry::Line { client, index: 0 };
    let second = Entry::Line { client, index: 1 };
    let take = Entry::Take { number };
    if order.len() != 3 || order[0] != first {
        return false;
    }
    order[1] == second && order[2] == take || order[1] == take && order[2] == second
}

#[test]
fn an_append_beside_a_client_that_fails(rt: HostRuntime) -> Result<(), Fail> {
    let alloc = rt.alloc();
    let whole = record(alloc, "f", &[], &[], &[])?;
    let stream = whole.shelf.file("o").ok_or("no stream")?;
    assert_eq!(rt; digest(stream), 0xb5524a7f10d24362);
    let mut shelf = MemoryShelf::new(alloc, &[], &[(2, 7)])?;
    shelf.put("a", b"cut\ncut\n")?;
    let mut report = MemorySink::new(alloc, &[])?;
    let words = ["record", "32x32", "1", "0", "0", "o", "a"];
    let outcome = run(&rt, alloc, &words, &mut shelf, &mut report, &NoGate);
    assert_eq!(rt; outcome.status, Status::SinkFault);
    assert_eq!(rt; outcome.written, 74);
    assert!(rt; has_first_take(outcome.order.as_slice()));
    assert!(rt; shelf.file("o").is_some());
    assert_eq!(rt; shelf.file("o"), stream.get(..81));
    assert!(rt; report.text().is_empty());
    Ok(())
}

#[test]
fn a_create_that_fails(rt: HostRuntime) -> Result<(), Fail> {
    for taken in [0, 3] {
        let left = record(rt.alloc(), "f", &[], &[(0, taken)], &[])?;
        assert_eq!(rt; left.outcome.status, Status::SinkFault);
        is_untouched(&rt, &left);
    }
    Ok(())
}

#[test]
fn a_file_that_is_not_read(rt: HostRuntime) -> Result<(), Fail> {
    let rows: [(&str, &[u32]); 2] = [("f", &[0]), ("missing", &[])];
    for (file, reads) in rows {
        let left = record(rt.alloc(), file, reads, &[], &[])?;
        assert_eq!(rt; left.outcome.status, Status::InputFault { file: 0 });
        is_untouched(&rt, &left);
    }
    Ok(())
}

#[test]
fn reports_that_fail(rt: HostRuntime) -> Result<(), Fail> {
    for (taken, text) in [(0, ""), (3, "pic")] {
        let left = record(rt.alloc(), "f", &[], &[], &[(0, taken)])?;
        let stream = left.shelf.file("o").ok_or("no stream")?;
        assert_eq!(rt; left.outcome.status, Status::ReportFault);
        assert_eq!(rt; left.outcome.written, 4704);
        assert_eq!(rt; digest(stream), 0xb5524a7f10d24362);
        assert_eq!(rt; left.report.text(), text.as_bytes());
    }
    Ok(())
}

// The status of a recording of this script.
fn status_of(alloc: Global, script: &[u8]) -> Result<Status, NoMemory> {
    let mut shelf = MemoryShelf::new(alloc, &[], &[])?;
    shelf.put("f", script)?;
    let mut report = MemorySink::new(alloc, &[])?;
    let words = ["serial", "32x32", "0", "1", "o", "f"];
    Ok(run_serial(alloc, &words, &mut shelf, &mut report).status)
}

// What is answered for the front of a script whose lines are good: its last line has no line feed, or there is none.
fn status_of_front(front: &[u8]) -> Status {
    let mut line = 1;
    let mut is_whole = true;
    for byte in front {
        is_whole = *byte == b'\n';
        if is_whole {
            line = u32::wrapping_add(line, 1);
        }
    }
    if is_whole {
        return Status::Ok;
    }
    Status::BadPaint {
        file: 0,
        line,
        cause: Cause::NoLineFeed,
    }
}

#[test]
fn scripts_that_are_cut_off(rt: HostRuntime) -> Result<(), Fail> {
    let rows = [
        "fill 1 2 3 4 a0b0c0\nblit 0 0 1 2 000000ffffff\ncut\n",
        "fill 0 0 0 5 ffffff\n",
        "cut\ncut \n",
        "fill 00 0 1 1 ffffff\n",
        "fill 65536 0 1 1 ffffff\n",
        "fill 0 0 1 1 FFFFFF\n",
        "blit 0 0 2 1 ff0000\n",
        "blit 0 0 65 64 0\n",
        "paint 2\nfill 0 0 1 1 a0b0c0\ncopy 0 0 3 4 1 0\ncut\ncopy",
    ];
    for row in rows {
        for length in 0..row.len() {
            let front = row.as_bytes().get(..length).unwrap_or(&[]);
            assert_eq!(rt; status_of(rt.alloc(), front)?, status_of_front(front));
        }
    }
    Ok(())
}

// The first line of a file of version 2 is counted, and it stands nowhere else.
#[test]
fn scripts_of_version_2_that_are_refused(rt: HostRuntime) -> Result<(), Fail> {
    for (script, line, cause) in [
        ("copy 0 0 1 1 0 0\n", 1, Cause::UnknownCommand),
        ("paint 2\ncopy 0 0 1 1 0\n", 2, Cause::WordCount),
        ("cut\npaint 2\n", 2, Cause::UnknownCommand),
        ("paint 2\npaint 2\n", 2, Cause::UnknownCommand),
        ("paint 2", 1, Cause::NoLineFeed),
    ] {
        assert_eq!(rt;
            status_of(rt.alloc(), script.as_bytes())?,
            Status::BadPaint {
                file: 0,
                line,
                cause
            },
            "{script}"
        );
    }
    Ok(())
}
