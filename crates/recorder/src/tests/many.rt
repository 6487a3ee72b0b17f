//! A session of eight clients, compared with a session of one client that plays their lines in the order in which they were accepted.
ghost use Rattle.std.specs.Prelude.{◌≡◌, ◌≤◌, ◌<◌, ◌+◌, ◌∷◌, ◌++◌, ◌^◌, ◌-◌, [], length, IfOk, OnOk};
ghost use Rattle.paint_script.specs.Spellable.{IsSpellable, IsOfVersion};
ghost use Rattle.desk_state.specs.Standing.{most_entries};

use super::mark;
use crate::{Entry, NoMemory, RecordEnd, Recording, Session};
use edges::MemorySink;
use gate::NoGate;
use h265_model::{Rect, Rgb};
use live_desk::{Scripts, Size};
use paint_script::Script;
use picture_encoder::Encoder;
use recorder_model::Line;
use std::alloc::Global;
use std::sync::Wait;
use std::test::Fail;
use std::thread::Threads;

// How many clients there are, how many lines each has, and how many pictures all cut.
const CLIENTS: u32 = 8;

const LINES: u32 = 200;

const CUTS: u32 = 80;

// Line number `index` of a client: each twentieth one is a cut.
fn line_of(client: u32, index: u32) -> Line
    requires { (client < 8) × (index < 200) }
    ensures spellable { IsSpellable result }
    ensures version { IsOfVersion 1 result }
{
    if index % 20 == 19 {
        return Line::Cut;
    }
    let rect = Rect {
        x: 7 * client + index % 50,
        y: index % 64,
        w: 1 + index % 9,
        h: 1 + client,
    };
    let colour = Rgb {
        r: client as u8,
        g: index as u8,
        b: 200,
    };
    Line::Fill { rect, colour }
}

fn script_of(alloc: Global, client: u32) -> Result<Script, NoMemory>
    requires { client < 8 }
    ensures { IfOk result (λ script. length script.lines ≡ 200) }
{
    let mut script = Script::empty(alloc);
    for index in 0..LINES {
        script.add(line_of(client, index))?;
    }
    Ok(script)
}

fn add_script(scripts: &mut Scripts, script: Script) -> Result<(), NoMemory>
    ensures { OnOk result (scripts.new ≡ scripts.old ++ script.lines ∷ []) }
{
    match scripts.add(script) {
        Ok(()) => Ok(()),
        Err(_) => Err(NoMemory),
    }
}

// The scripts of all clients.
fn all_scripts(alloc: Global) -> Result<Scripts, NoMemory>
    ensures few { IfOk result (λ scripts. most_entries scripts < 2 ^ 32 - 1) }
{
    let mut scripts = Scripts::one(alloc, script_of(alloc, 0)?)?;
    for client in 1..CLIENTS {
        let script = script_of(alloc, client)?;
        add_script(&mut scripts, script)?;
    }
    Ok(scripts)
}

// The script of the lines in the order in which they were accepted.
fn merged(alloc: Global, order: &[Entry]) -> Result<Script, Fail> {
    let mut merged = Script::empty(alloc);
    for entry in order {
        if let Entry::Line { client, index } = *entry {
            let is_full = merged.version() != 1 || merged.lines() >= CLIENTS * LINES;
            if client >= CLIENTS || index >= LINES || is_full {
                return Err(Fail::from("no such line"));
            }
            merged.add(line_of(client, index))?;
        }
    }
    Ok(merged)
}

// Whether each client's lines come in order, all of them, and each take after its cut.
fn is_played(order: &[Entry]) -> bool {
    let mut next = [0u32; 8];
    let (mut cuts, mut taken) = (0u32, 0u32);
    for entry in order {
        match *entry {
            Entry::Line { client, index } => {
                if client >= CLIENTS || index >= LINES || next[client as usize] != index {
                    return false;
                }
                next[client as usize] = index + 1;
                if index % 20 == 19 {
                    cuts = cuts.saturating_add(1);
                }
            }
            Entry::Take { number } => {
                if number != taken || number >= cuts {
                    return false;
                }
                taken = number.saturating_add(1);
            }
        }
    }
    next == [LINES; 8] && taken == CUTS
}

// Records these scripts on a desktop of 96x64, which is three tiles wide and two high.
fn record<R: Threads + Wait + Sync>(
    rt: &R,
    alloc: Global,
    scripts: Scripts,
    workers: u32,
    sink: &mut MemorySink,
) -> Result<Recording, NoMemory>
    requires few { most_entries scripts < 2 ^ 32 - 1 }
    requires workers { (1 ≤ workers) × (workers ≤ 64) }
{
    let Some(size) = Size::new(96, 64) else {
        return Err(NoMemory);
    };
    let encoder = Encoder::new(alloc, size, 0, 0)?;
    let session = Session::new(alloc, encoder, scripts)?;
    Ok(session.run(rt, workers, sink, &NoGate))
}

// The scripts of one client that plays the lines in this order.
fn replay_of(alloc: Global, order: &[Entry]) -> Result<Scripts, Fail>
    ensures few { IfOk result (λ scripts. most_entries scripts < 2 ^ 32 - 1) }
{
    let script = merged(alloc, order)?;
    if script.lines() > CLIENTS * LINES {
        return Err(Fail::from("too many lines"));
    }
    Ok(Scripts::one(alloc, script)?)
}

// How long the stream is of one client that plays the lines in this order, and its digest.
fn mark_of_replay<R: Threads + Wait + Sync + std::process::Abort>(
    rt: &R,
    alloc: Global,
    order: &[Entry],
) -> Result<(usize, u32), Fail> {
    let scripts = replay_of(alloc, order)?;
    let mut sink = MemorySink::new(alloc, &[])?;
    let recording = record(rt, alloc, scripts, 1, &mut sink)?;
    let written = sink.text().len() as u64;
    assert!(rt; !recording.lost && recording.end == RecordEnd::Ok { written });
    Ok(mark(sink.text()))
}

// The order in which one client plays all its lines after another, without takes.
fn one_after_another(alloc: Global) -> Result<Vec<Entry>, NoMemory> {
    let mut order = Vec::new(alloc);
    for number in 0..CLIENTS * LINES {
        let (client, index) = (number / LINES, number % LINES);
        order.push(Entry::Line { client, index })?;
    }
    Ok(order)
}

// An independent model in Python gave the stream.
#[test]
fn a_replay_is_that_of_the_model(rt: HostRuntime) -> Result<(), Fail> {
    let order = one_after_another(rt.alloc())?;
    assert_eq!(rt;
        mark_of_replay(&rt, rt.alloc(), &order)?,
        (177_521, 3_999_810_619)
    );
    Ok(())
}

#[test]
fn eight_clients_play_what_a_replay_plays(rt: HostRuntime) -> Result<(), Fail> {
    let mut sink = MemorySink::new(rt.alloc(), &[])?;
    let scripts = all_scripts(rt.alloc())?;
    let recording = record(&rt, rt.alloc(), scripts, 4, &mut sink)?;
    let written = sink.text().len() as u64;
    assert!(rt; !recording.lost && recording.end == RecordEnd::Ok { written });
    assert!(rt; is_played(&recording.order));
    assert_eq!(rt;
        mark_of_replay(&rt, rt.alloc(), &recording.order)?,
        mark(sink.text())
    );
    Ok(())
}
