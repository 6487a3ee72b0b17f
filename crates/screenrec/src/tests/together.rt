//! Recordings of several clients, each compared with one of its lines in the order in which they were accepted.
ghost use Rattle.std.specs.Prelude.{◌≡◌, ◌≤◌, ◌<◌, ◌-◌, ◌+◌, ◌^◌, length, OnOk, IfOk};
ghost use Rattle.std.specs.Option.{IfSome};
ghost use Rattle.paint_script.specs.Spellable.{IsSpellable, IsOfVersion};

use super::digest;
use crate::stream_file::line_at;
use crate::{LimitKind, NoMemory, Outcome, Status, run, run_serial};
use edges::{CalmShelf, DiskShelf, MemorySink};
use gate::{Gate, NoGate};
use paint_script::{Script, read_script, write_script};
use recorder_model::{Cause, Entry, Line};
use std::alloc::Global;
use std::process::Abort;
use std::sync::Wait;
use std::sync::atomic::{AtomicU64, Ordering};
use std::test::Fail;
use std::thread::Threads;
use std::{fs, hint};

const RED: &[u8] = b"fill 0 0 32 32 ff0000\ncut\n";

const GREEN: &[u8] = b"fill 0 0 32 32 00ff00\ncut\n";

const TWO_DOTS: &[u8] = b"fill 0 0 1 1 ff0000\nfill 0 0 1 1 00ff00\ncut\n";

// Of version 2: moves all that is shown, so that each order of the lines shows something else.
const MOVES: &[u8] = b"paint 2\ncopy 0 0 30 31 2 1\nfill 0 0 7 5 2040c0\ncopy 9 9 20 20 8 7\ncut\n";

// How long a gate holds a client, in turns.
const PATIENCE: u32 = 1_000_000_000;

// Holds one client after a line of its own until the other has played a line.
#[derive(Drop)]
struct Holds {
    client: u32,
    after: u32,
    until: u32,
    played: AtomicU64,
    gave_up: AtomicU64,
}

impl Holds {
    fn new(client: u32, after: u32, until: u32) -> Holds {
        Holds {
            client,
            after,
            until,
            played: AtomicU64::new(0),
            gave_up: AtomicU64::new(0),
        }
    }
}

impl Gate for Holds {
    fn line_played(&self, client: u32, index: u32) {
        if client != self.client {
            if index == self.until {
                self.played.store(1, Ordering::SeqCst);
            }
            return;
        }
        if index != self.after {
            return;
        }
        for _ in 0..PATIENCE {
            if self.played.load(Ordering::SeqCst) > 0 {
                return;
            }
            hint::spin_loop();
        }
        self.gave_up.store(1, Ordering::SeqCst);
    }

    fn row_published(&self, _row: u32) {}

    fn row_taken(&self, _row: u32) {}
}

// Holds row 0, once it showed its contexts, until row 1 took them.
#[derive(Drop)]
struct HoldsRow {
    taken: AtomicU64,
    gave_up: AtomicU64,
}

impl Gate for HoldsRow {
    fn line_played(&self, _client: u32, _index: u32) {}

    fn row_published(&self, row: u32) {
        if row > 0 {
            return;
        }
        for _ in 0..PATIENCE {
            if self.taken.load(Ordering::SeqCst) > 0 {
                return;
            }
            hint::spin_loop();
        }
        self.gave_up.store(1, Ordering::SeqCst);
    }

    fn row_taken(&self, row: u32) {
        if row == 1 {
            self.taken.store(1, Ordering::SeqCst);
        }
    }
}

// Whether each client's lines come in order, all of them, and each take after its cut, which is the last line of a script.
fn is_played(order: &[Entry], lines: u32, takes: u32) -> bool {
    let mut next = [0u32; 2];
    let (mut cuts, mut taken) = (0u32, 0u32);
    for entry in order {
        match *entry {
            Entry::Line { client, index } => {
                if client > 1 || index >= lines || next[client as usize] != index {
                    return false;
                }
                next[client as usize] = index + 1;
                if index + 1 == lines {
                    cuts = cuts.saturating_add(1);
                }
            }
            Entry::Take { number } => {
                if number != taken || number >= cuts {
                    return false;
                }
                taken = number.saturating_add(1);
            }
        }
    }
    next == [lines, lines] && taken == takes
}

// Where a line stands in an order; past the end, if nowhere.
fn place_of(order: &[Entry], line: Entry) -> usize {
    for index in 0..order.len() {
        if order[index] == line {
            return index;
        }
    }
    order.len()
}

// A line that is no blit.
fn twin_of(line: &Line) -> Option<Line>
    requires { IsSpellable line.now }
    ensures spellable { IfSome result IsSpellable }
    ensures version { IfSome result (IsOfVersion 2) }
{
    match line {
        Line::Fill { rect, colour } => Some(Line::Fill {
            rect: *rect,
            colour: *colour,
        }),
        Line::Blit { .. } => None,
        Line::Copy { rect, to_x, to_y } => Some(Line::Copy {
            rect: *rect,
            to_x: *to_x,
            to_y: *to_y,
        }),
        Line::Cut => Some(Line::Cut),
    }
}

// Adds a line of the script, if it has so many, to a script of version 2.
fn add_line(merged: &mut Script, script: &Script, index: u32) -> Result<(), Fail>
    requires { length merged.old.lines < 2 ^ 32 - 1 }
    ensures { OnOk result (length merged.new.lines ≤ length merged.old.lines + 1) }
{
    if merged.version() != 2 || index >= script.lines() {
        return Err(Fail::from("no such line"));
    }
    let line = twin_of(line_at(script, index)).ok_or("a blit")?;
    merged.add(line)?;
    Ok(())
}

// The text of one script of the lines in the order in which they were accepted: those of clients 0, 2, .. are the first file's, and those of
// clients 1, 3, .. the second one's.
pub(super) fn merged(
    alloc: Global,
    first: &[u8],
    second: &[u8],
    order: &[Entry],
) -> Result<Vec<u8>, Fail> {
    if first.len().max(second.len()) > 1000 {
        return Err(Fail::from("too long"));
    }
    let first = read_script(alloc, first)?;
    let second = read_script(alloc, second)?;
    let mut merged = Script::empty_of(alloc, 2);
    for entry in order {
        if merged.lines() > 1000 {
            return Err(Fail::from("too many lines"));
        }
        match *entry {
            Entry::Line { client, index } if client % 2 == 0 => {
                add_line(&mut merged, &first, index)?;
            }
            Entry::Line { index, .. } => add_line(&mut merged, &second, index)?,
            Entry::Take { .. } => {}
        }
    }
    Ok(write_script(alloc, &merged)?)
}

// Records two files, each for so many clients by turns, and compares what comes of it with the merged script's stream.
fn record_all<R: Threads + Wait + Sync + Abort + AllocGlobal, G: Gate + Sync>(
    rt: &R,
    workers: &str,
    files: [&[u8]; 2],
    times: u32,
    counts: (u32, u32),
    gate: &G,
) -> Result<Outcome, Fail> {
    let alloc = rt.alloc();
    let mut shelf = CalmShelf::new(alloc)?;
    shelf.put("a", files[0])?;
    shelf.put("b", files[1])?;
    let mut report = MemorySink::new(alloc, &[])?;
    let mut words = ["record", "32x32", workers, "0", "0", "o"].to_vec(alloc)?;
    for _ in 0..times {
        words.push("a")?;
        words.push("b")?;
    }
    let outcome = run(rt, alloc, &words, &mut shelf, &mut report, gate);
    assert_eq!(rt; outcome.status, Status::Ok);
    let text = merged(alloc, files[0], files[1], outcome.order.as_slice())?;
    shelf.put("m", &text)?;
    let mut other = MemorySink::new(alloc, &[])?;
    let words = ["serial", "32x32", "0", "0", "p", "m"];
    let serial = run_serial(alloc, &words, &mut shelf, &mut other);
    assert_eq!(rt; serial.status, Status::Ok);
    assert_eq!(rt; serial.written, outcome.written);
    assert!(rt; shelf.file("o").is_some());
    assert_eq!(rt; shelf.file("o"), shelf.file("p"));
    assert_eq!(rt; report.text(), other.text());
    let (pictures, paints) = counts;
    let bytes = outcome.written;
    let text = format!(in alloc; "pictures {pictures}\npaints {paints}\nbytes {bytes}\n")?;
    assert_eq!(rt; report.text(), text.as_bytes());
    Ok(outcome)
}

// Records two files of so many lines each, of which the last alone is a cut.
fn record_both<R: Threads + Wait + Sync + Abort + AllocGlobal, G: Gate + Sync>(
    rt: &R,
    workers: &str,
    files: [&[u8]; 2],
    lines: u32,
    gate: &G,
) -> Result<Outcome, Fail> {
    let paints = lines.saturating_sub(1).saturating_mul(2);
    let outcome = record_all(rt, workers, files, 1, (2, paints), gate)?;
    assert!(rt; is_played(outcome.order.as_slice(), lines, 2));
    Ok(outcome)
}

// As many clients as there may be; half of them have a file of version 2, and copy.
#[test]
fn sixty_four_clients_of_both_versions(rt: HostRuntime) -> Result<(), Fail> {
    record_all(&rt, "4", [TWO_DOTS, MOVES], 32, (64, 160), &NoGate)?;
    Ok(())
}

#[test]
fn any_number_of_workers(rt: HostRuntime) -> Result<(), Fail> {
    for workers in ["1", "2", "64"] {
        record_both(&rt, workers, [RED, GREEN], 2, &NoGate)?;
    }
    Ok(())
}

#[test]
fn a_client_that_waits_for_another(rt: HostRuntime) -> Result<(), Fail> {
    let gate = Holds::new(0, 0, 0);
    let outcome = record_both(&rt, "2", [RED, GREEN], 2, &gate)?;
    let order = outcome.order.as_slice();
    let (client, index) = (1, 0);
    let other = place_of(order, Entry::Line { client, index });
    let (client, index) = (0, 1);
    assert!(rt; other < place_of(order, Entry::Line { client, index }));
    assert_eq!(rt; gate.gave_up.load(Ordering::SeqCst), 0);
    Ok(())
}

#[test]
fn a_client_that_plays_all_while_another_is_held(rt: HostRuntime) -> Result<(), Fail> {
    for held in [0u32, 1] {
        let gate = Holds::new(held, 0, 2);
        let outcome = record_both(&rt, "1", [TWO_DOTS, TWO_DOTS], 3, &gate)?;
        let order = outcome.order.as_slice();
        let (client, index) = (held ^ 1, 2);
        let last = place_of(order, Entry::Line { client, index });
        let (client, index) = (held, 1);
        assert!(rt; last < place_of(order, Entry::Line { client, index }));
        assert_eq!(rt; gate.gave_up.load(Ordering::SeqCst), 0);
    }
    Ok(())
}

// The stream is the independent model's.
#[test]
fn a_row_that_is_held_until_the_next_one_follows(rt: HostRuntime) -> Result<(), Fail> {
    let alloc = rt.alloc();
    let gate = HoldsRow {
        taken: AtomicU64::new(0),
        gave_up: AtomicU64::new(0),
    };
    let mut shelf = CalmShelf::new(alloc)?;
    shelf.put("a", b"cut\n")?;
    let mut report = MemorySink::new(alloc, &[])?;
    let words = ["record", "64x64", "2", "0", "1", "o", "a"];
    let outcome = run(&rt, alloc, &words, &mut shelf, &mut report, &gate);
    assert_eq!(rt; outcome.status, Status::Ok);
    assert_eq!(rt; gate.taken.load(Ordering::SeqCst), 1);
    assert_eq!(rt; gate.gave_up.load(Ordering::SeqCst), 0);
    let stream = shelf.file("o").ok_or("no stream")?;
    assert_eq!(rt; stream.len(), 18_529);
    assert_eq!(rt; digest(stream), 0x7ab4_324f_78ee_7b21);
    Ok(())
}

// The status of a recording of two files that is refused; nothing is recorded.
fn refused<R: Threads + Wait + Sync + Abort + AllocGlobal>(
    rt: &R,
    words: &[&str],
    files: [&[u8]; 2],
) -> Result<Status, Fail> {
    let alloc = rt.alloc();
    let mut shelf = CalmShelf::new(alloc)?;
    shelf.put("a", files[0])?;
    shelf.put("b", files[1])?;
    let mut report = MemorySink::new(alloc, &[])?;
    let outcome = run(rt, alloc, words, &mut shelf, &mut report, &NoGate);
    assert!(rt; shelf.file("o").is_none());
    assert!(rt; report.text().is_empty());
    assert!(rt; outcome.order.as_slice().is_empty());
    assert_eq!(rt; outcome.written, 0);
    Ok(outcome.status)
}

#[test]
fn words_of_no_recording(rt: HostRuntime) -> Result<(), Fail> {
    let rows: [&[&str]; 6] = [
        &["record", "32x32", "1", "0", "0", "o"],
        &["record", "32x32", "0", "0", "0", "o", "a"],
        &["record", "32x32", "65", "0", "0", "o", "a"],
        &["record", "32x32", "1", "3", "0", "o", "a"],
        &["record", "0x32", "1", "0", "0", "o", "a"],
        &["record", "32x32", "1", "0", "65536", "o", "a"],
    ];
    for words in rows {
        assert_eq!(rt; refused(&rt, words, [RED, GREEN])?, Status::Usage);
    }
    Ok(())
}

#[test]
fn first_bad_files(rt: HostRuntime) -> Result<(), Fail> {
    let words = ["record", "32x32", "1", "0", "0", "o", "a", "b"];
    let rows: [([&[u8]; 2], u32, u32, Cause); 3] = [
        ([RED, b"cut\ncut \n"], 1, 2, Cause::WordCount),
        ([b"\n", b"cut"], 0, 1, Cause::UnknownCommand),
        ([b"", b"cut"], 1, 1, Cause::NoLineFeed),
    ];
    for (files, file, line, cause) in rows {
        assert_eq!(rt;
            refused(&rt, &words, files)?,
            Status::BadPaint { file, line, cause }
        );
    }
    Ok(())
}

#[test]
fn cuts_of_both_files_count(rt: HostRuntime) -> Result<(), Fail> {
    let words = ["record", "32x32", "1", "0", "0", "o", "a", "b"];
    let mut cuts = Vec::new(rt.alloc());
    for _ in 0..65_536 {
        cuts.extend_from_slice(b"cut\n")?;
    }
    let which = LimitKind::Cuts;
    assert_eq!(rt;
        refused(&rt, &words, [&cuts, b"cut\n"])?,
        Status::Limit { which }
    );
    assert_eq!(rt;
        refused(&rt, &words, [b"cut\n", &cuts])?,
        Status::Limit { which }
    );
    Ok(())
}

#[test]
fn lines_of_both_files_count(rt: HostRuntime) -> Result<(), Fail> {
    let words = ["record", "32x32", "1", "0", "0", "o", "a", "b"];
    let mut lines = Vec::new(rt.alloc());
    for _ in 0..500_000 {
        lines.extend_from_slice(b"fill 0 0 1 1 000000\n")?;
    }
    let mut more = lines.clone()?;
    more.extend_from_slice(b"cut\n")?;
    let which = LimitKind::Lines;
    assert_eq!(rt;
        refused(&rt, &words, [&lines, &more])?,
        Status::Limit { which }
    );
    assert_eq!(rt;
        refused(&rt, &words, [&more, &lines])?,
        Status::Limit { which }
    );
    Ok(())
}

#[test]
fn a_second_file_that_is_too_large(rt: HostRuntime) -> Result<(), Fail> {
    let words = ["record", "32x32", "1", "0", "0", "o", "a", "b"];
    let mut large = Vec::new(rt.alloc());
    for _ in 0..4_194_304 {
        large.extend_from_slice(b"cut\n")?;
    }
    large.push(b'\n')?;
    assert_eq!(rt;
        refused(&rt, &words, [RED, &large])?,
        Status::TooLarge { file: 1 }
    );
    Ok(())
}

// 72 rows of two coding tree units, more than there can be workers.
#[test]
fn more_rows_than_workers(rt: HostRuntime) -> Result<(), Fail> {
    let alloc = rt.alloc();
    let mut shelf = CalmShelf::new(alloc)?;
    shelf.put(
        "a",
        b"fill 0 0 40 2300 204060\nfill 9 100 20 2000 ff8000\ncut\nfill 3 7 30 2222 01fe80\ncut\n",
    )?;
    let mut report = MemorySink::new(alloc, &[])?;
    let words = ["record", "40x2300", "64", "1", "0", "o", "a"];
    let outcome = run(&rt, alloc, &words, &mut shelf, &mut report, &NoGate);
    assert_eq!(rt; outcome.status, Status::Ok);
    let mut other = MemorySink::new(alloc, &[])?;
    let words = ["serial", "40x2300", "1", "0", "p", "a"];
    let serial = run_serial(alloc, &words, &mut shelf, &mut other);
    assert_eq!(rt; serial.status, Status::Ok);
    assert!(rt; shelf.file("o").is_some());
    assert_eq!(rt; shelf.file("o"), shelf.file("p"));
    assert_eq!(rt; report.text(), other.text());
    Ok(())
}

#[test]
fn real_files(rt: HostRuntime) -> Result<(), Fail> {
    let alloc = rt.alloc();
    let mut shelf = DiskShelf::new(alloc, &rt);
    let mut report = MemorySink::new(alloc, &[(0, 3)])?;
    fs::write(&rt, "a", "cut\n")?;
    fs::write(&rt, "b", "cut\n")?;
    let words = ["record", "32x32", "1", "0", "0", "o", "a", "missing"];
    let missing = run(&rt, alloc, &words, &mut shelf, &mut report, &NoGate);
    assert_eq!(rt; missing.status, Status::InputFault { file: 1 });
    let words = ["record", "32x32", "1", "0", "0", ".", "a", "b"];
    let directory = run(&rt, alloc, &words, &mut shelf, &mut report, &NoGate);
    assert_eq!(rt; directory.status, Status::SinkFault);
    assert!(rt; directory.order.as_slice().is_empty());
    assert_eq!(rt; directory.written, 0);
    let words = ["record", "32x32", "2", "0", "0", "o", "a", "b"];
    let outcome = run(&rt, alloc, &words, &mut shelf, &mut report, &NoGate);
    assert_eq!(rt; outcome.status, Status::ReportFault);
    assert!(rt; is_played(outcome.order.as_slice(), 1, 2));
    assert_eq!(rt; report.text(), b"pic".as_slice());
    let mut stream = Vec::new(alloc);
    let mut file = fs::open(&rt, "o")?;
    std::io::Read::read_to_end(&mut file, &mut stream)?;
    assert_eq!(rt; stream.len() as u64, outcome.written);
    Ok(())
}
