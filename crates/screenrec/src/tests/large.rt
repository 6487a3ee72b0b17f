//! Four clients on a desktop of 1920x1080, each of which writes letters into a window of its own.
ghost use Rattle.std.specs.Prelude.{◌<◌};

use crate::{Status, run, run_serial};
use edges::{CalmShelf, MemorySink};
use gate::NoGate;
use recorder_model::Entry;
use std::alloc::Global;
use std::test::Fail;

// How many letters a client writes.
const LETTERS: u32 = 48;

// The files, and how often each cuts.
const FILES: [(&str, u32); 4] = [("a", 3), ("b", 3), ("c", 2), ("d", 2)];

// Paints a letter of 8x16 pixels, dark on white.
fn write_letter(text: &mut String, alloc: Global, client: u32, number: u32) -> Result<(), Fail>
    requires { (client < 4) × (number < 48) }
{
    let left = 960 * (client % 2) + 80 + 10 * (number % 24);
    let top = 540 * (client / 2) + 80 + 20 * (number / 24);
    let blit = format!(in alloc; "blit {left} {top} 8 16 ")?;
    text.push_str(&blit)?;
    for place in 0..128u32 {
        let is_dark = place * (number + 3) % 7 < 2;
        text.push_str(if is_dark { "101010" } else { "ffffff" })?;
    }
    text.push('\n')?;
    Ok(())
}

// A client's file: a window with its title, and letters, with a cut after each 16 of them, as often as it cuts.
fn window(alloc: Global, client: u32, cuts: u32) -> Result<String, Fail>
    requires { client < 4 }
{
    let (left, top) = (960 * (client % 2) + 60, 540 * (client / 2) + 40);
    let frame = "600 400 f0f0f0";
    let title = "600 24 3050a0";
    let mut text = format!(in alloc; "fill {left} {top} {frame}\nfill {left} {top} {title}\n")?;
    for number in 0..LETTERS {
        write_letter(&mut text, alloc, client, number)?;
        if number % 16 == 15 && number / 16 < cuts {
            text.push_str("cut\n")?;
        }
    }
    Ok(text)
}

// The files of all clients.
fn windows(alloc: Global) -> Result<Vec<String>, Fail> {
    let mut files = Vec::new(alloc);
    for client in 0..4u32 {
        let (_, cuts) = FILES[client as usize];
        files.push(window(alloc, client, cuts)?)?;
    }
    Ok(files)
}

// The lines in the order in which they were accepted.
fn merged(alloc: Global, files: &[String], order: &[Entry]) -> Result<String, Fail> {
    let mut text = String::new(alloc);
    for entry in order {
        if let Entry::Line { client, index } = *entry {
            let file = files.get(client as usize).ok_or("no such client")?;
            let line = file.lines().nth(index as usize).ok_or("no such line")?;
            text.push_str(line)?;
            text.push('\n')?;
        }
    }
    Ok(text)
}

#[test]
fn four_windows_on_a_large_desktop(rt: HostRuntime) -> Result<(), Fail> {
    let alloc = rt.alloc();
    let files = windows(alloc)?;
    let mut shelf = CalmShelf::new(alloc)?;
    for i in 0..4 {
        let (name, _) = FILES[i];
        let file = files.get(i).ok_or("no such client")?;
        shelf.put(name, file.as_bytes())?;
    }
    let mut report = MemorySink::new(alloc, &[])?;
    let words = [
        "record",
        "1920x1080",
        "4",
        "1",
        "5",
        "o",
        "a",
        "b",
        "c",
        "d",
    ];
    let outcome = run(&rt, alloc, &words, &mut shelf, &mut report, &NoGate);
    assert_eq!(rt; outcome.status, Status::Ok);
    let bytes = outcome.written;
    let text = format!(in alloc; "pictures 10\npaints 200\nbytes {bytes}\n")?;
    assert_eq!(rt; report.text(), text.as_bytes());
    let merged = merged(alloc, &files, outcome.order.as_slice())?;
    shelf.put("m", merged.as_bytes())?;
    let mut other = MemorySink::new(alloc, &[])?;
    let words = ["serial", "1920x1080", "1", "5", "p", "m"];
    let serial = run_serial(alloc, &words, &mut shelf, &mut other);
    assert_eq!(rt; serial.status, Status::Ok);
    assert!(rt; shelf.file("o").is_some());
    assert_eq!(rt; shelf.file("o"), shelf.file("p"));
    assert_eq!(rt; report.text(), other.text());
    Ok(())
}
