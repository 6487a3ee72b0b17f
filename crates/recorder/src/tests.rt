//! Sessions of two clients. An independent model of the recorder in Python gave the streams of all orders of their lines.
mod many;

ghost use Rattle.std.specs.Prelude.{◌≡◌, ◌≤◌, ◌<◌, length, IfOk};
ghost use Rattle.paint_script.specs.Spellable.{IsSpellable, IsOfVersion, IsSpellableRect};
ghost use Rattle.desk_state.specs.Standing.{most_entries};

use crate::{Entry, NoMemory, RecordEnd, Recording, Session, play_all, record_all};
use edges::MemorySink;
use gate::{Gate, NoGate};
use h265_model::{Rect, Rgb};
use live_desk::{Desk, Scripts, Size};
use paint_script::Script;
use picture_encoder::Encoder;
use recorder_model::Line;
use std::alloc::Global;
use std::hint;
use std::sync::Wait;
use std::sync::atomic::{AtomicU64, Ordering};
use std::test::Fail;
use std::thread::Threads;

// The stream of an order: the clients whose lines are accepted one after another, how long the stream is before its last piece and with it, and its digest.
struct Stream {
    clients: [u32; 4],
    short: usize,
    long: usize,
    digest: u32,
}

const STREAMS: [Stream; 6] = [
    Stream {
        clients: [0, 0, 1, 1],
        short: 537,
        long: 975,
        digest: 1737535348,
    },
    Stream {
        clients: [0, 1, 0, 1],
        short: 882,
        long: 893,
        digest: 2736094465,
    },
    Stream {
        clients: [0, 1, 1, 0],
        short: 882,
        long: 893,
        digest: 2736094465,
    },
    Stream {
        clients: [1, 0, 0, 1],
        short: 647,
        long: 658,
        digest: 2366304081,
    },
    Stream {
        clients: [1, 0, 1, 0],
        short: 647,
        long: 658,
        digest: 2366304081,
    },
    Stream {
        clients: [1, 1, 0, 0],
        short: 581,
        long: 1152,
        digest: 2112904952,
    },
];

// How long the parameter sets are.
const FIRST: usize = 74;

// How long a gate holds a client, in turns.
const PATIENCE: u32 = 1_000_000_000;

// Holds client 0 after its first line until client 1 has played a line.
#[derive(Drop)]
struct UntilPlayed {
    played: AtomicU64,
    gave_up: AtomicU64,
}

impl Gate for UntilPlayed {
    fn line_played(&self, client: u32, index: u32) {
        if client == 1 {
            self.played.store(1, Ordering::SeqCst);
            return;
        }
        if index > 0 {
            return;
        }
        for _ in 0..PATIENCE {
            if self.played.load(Ordering::SeqCst) > 0 {
                return;
            }
            hint::spin_loop();
        }
        self.gave_up.store(1, Ordering::SeqCst);
    }

    fn row_published(&self, _row: u32) {}

    fn row_taken(&self, _row: u32) {}
}

fn fill(rect: Rect, colour: Rgb) -> Line
    requires { IsSpellableRect rect }
    ensures spellable { IsSpellable result }
    ensures version { IsOfVersion 1 result }
{
    Line::Fill { rect, colour }
}

// One paint and one cut.
fn script(alloc: Global, rect: Rect, colour: Rgb) -> Result<Script, NoMemory>
    requires { IsSpellableRect rect }
    ensures { IfOk result (λ script. length script.lines ≡ 2) }
{
    let mut script = Script::empty(alloc);
    script.add(fill(rect, colour))?;
    script.add(Line::Cut)?;
    Ok(script)
}

// fill 0 0 20 20 ff0000 and cut; fill 8 4 30 10 00ff40 and cut.
fn two_scripts(alloc: Global) -> Result<Scripts, NoMemory>
    ensures few { IfOk result (λ scripts. most_entries scripts < 9) }
{
    let corner = Rect {
        x: 0,
        y: 0,
        w: 20,
        h: 20,
    };
    let red = Rgb { r: 255, g: 0, b: 0 };
    let bar = Rect {
        x: 8,
        y: 4,
        w: 30,
        h: 10,
    };
    let green = Rgb {
        r: 0,
        g: 255,
        b: 64,
    };
    let mut scripts = Scripts::one(alloc, script(alloc, corner, red)?)?;
    let second = script(alloc, bar, green)?;
    if scripts.add(second).is_err() {
        return Err(NoMemory);
    }
    Ok(scripts)
}

// A session of both clients on a desktop of one tile.
fn record_both<R: Threads + Wait + Sync, G: Gate + Sync>(
    rt: &R,
    alloc: Global,
    workers: u32,
    sink: &mut MemorySink,
    gate: &G,
) -> Result<Recording, NoMemory>
    requires { (1 ≤ workers) × (workers ≤ 64) }
{
    let Some(size) = Size::new(32, 32) else {
        return Err(NoMemory);
    };
    let encoder = Encoder::new(alloc, size, 1, 0)?;
    let session = Session::new(alloc, encoder, two_scripts(alloc)?)?;
    Ok(session.run(rt, workers, sink, gate))
}

// The clients whose lines were accepted, one after another, if each client's two lines come in order, and each take after its cut.
fn clients_of(order: &[Entry], takes: u32) -> Option<[u32; 4]> {
    let mut clients = [0u32; 4];
    let mut next = [0u32; 2];
    let (mut lines, mut cuts, mut taken) = (0usize, 0u32, 0u32);
    for entry in order {
        match *entry {
            Entry::Line { client, index } => {
                if client > 1 || lines > 3 || index > 1 || next[client as usize] != index {
                    return None;
                }
                next[client as usize] = index + 1;
                clients[lines] = client;
                cuts = cuts.saturating_add(index);
                lines += 1;
            }
            Entry::Take { number } => {
                if number != taken || number >= cuts {
                    return None;
                }
                taken = number.saturating_add(1);
            }
        }
    }
    if lines != 4 || taken != takes {
        return None;
    }
    Some(clients)
}

// The stream of an order with so many takes.
fn stream_of(order: &[Entry], takes: u32) -> Option<&'static Stream> {
    let clients = clients_of(order, takes)?;
    for stream in &STREAMS {
        if stream.clients == clients {
            return Some(stream);
        }
    }
    None
}

// How many bytes there are, and their digest.
fn mark(bytes: &[u8]) -> (usize, u32) {
    let mut digest: u32 = 1;
    for byte in bytes {
        digest = digest.wrapping_mul(31).wrapping_add(u32::from(*byte));
    }
    (bytes.len(), digest)
}

#[test]
fn any_number_of_workers_records_both_clients(rt: HostRuntime) -> Result<(), Fail> {
    for workers in [1u32, 2, 64] {
        assert!(rt; workers >= 1 && workers <= 64);
        let mut sink = MemorySink::new(rt.alloc(), &[])?;
        let recording = record_both(&rt, rt.alloc(), workers, &mut sink, &NoGate)?;
        let want = stream_of(&recording.order, 2).ok_or("the order isn't lawful")?;
        let written = want.long as u64;
        assert!(rt; !recording.lost && recording.end == RecordEnd::Ok { written });
        assert_eq!(rt; mark(sink.text()), (want.long, want.digest));
    }
    Ok(())
}

#[test]
fn clients_play_beside_each_other(rt: HostRuntime) -> Result<(), Fail> {
    let gate = UntilPlayed {
        played: AtomicU64::new(0),
        gave_up: AtomicU64::new(0),
    };
    let mut sink = MemorySink::new(rt.alloc(), &[])?;
    let recording = record_both(&rt, rt.alloc(), 2, &mut sink, &gate)?;
    assert!(rt; gate.gave_up.load(Ordering::SeqCst) == 0);
    let clients = clients_of(&recording.order, 2).ok_or("the order isn't lawful")?;
    assert!(rt; clients != [0, 0, 1, 1]);
    Ok(())
}

#[test]
fn clients_play_on_after_a_fault(rt: HostRuntime) -> Result<(), Fail> {
    for call in 0..3u32 {
        let mut sink = MemorySink::new(rt.alloc(), &[(call, 5)])?;
        let recording = record_both(&rt, rt.alloc(), 2, &mut sink, &NoGate)?;
        let want = stream_of(&recording.order, call).ok_or("the order isn't lawful")?;
        let whole = [0, FIRST, want.short][call as usize];
        let written = whole as u64;
        assert!(rt; !recording.lost && recording.end == RecordEnd::SinkFault { written });
        assert!(rt; sink.text().len() == whole.saturating_add(5));
    }
    Ok(())
}

#[test]
fn one_thread_plays_and_then_records(rt: HostRuntime) -> Result<(), Fail> {
    let size = Size::new(32, 32).ok_or("no size")?;
    let scripts = two_scripts(rt.alloc())?;
    let (desk, mut clients, mut recorder) = Desk::new(rt.alloc(), size, scripts)?;
    let mut encoder = Encoder::new(rt.alloc(), size, 1, 0)?;
    let mut sink = MemorySink::new(rt.alloc(), &[])?;
    let mut second = clients.pop().expect(&rt, "two passes");
    let mut first = clients.pop().expect(&rt, "two passes");
    play_all(&rt, &desk, &mut second, &NoGate)?;
    play_all(&rt, &desk, &mut first, &NoGate)?;
    assert!(rt; first.next() == 2 && second.next() == 2);
    let end = record_all(
        &rt,
        &desk,
        &mut recorder,
        &mut encoder,
        2,
        4,
        &mut sink,
        &NoGate,
    );
    assert!(rt; end == RecordEnd::Ok { written: 1152 });
    assert_eq!(rt; mark(sink.text()), (1152, 2112904952));
    Ok(())
}
