//! Clients that play their scripts.
ghost use Rattle.std.specs.Prelude.{◌≡◌, ◌<◌, ◌≤◌, ◌^◌, List, length, true, false, slice_index_or, OnOk, OnErr};
ghost use Rattle.std.specs.List.{All, Any};
ghost use Rattle.turn_lock.specs.Turns.{Begins};
ghost use Rattle.live_desk.specs.Passes.{Client};
ghost use Rattle.live_desk.specs.Desks.{IsSameClient};
ghost use Rattle.live_desk.specs.Turned.{IsKept};
ghost use Rattle.recorder.specs.Players.{IsAt, HasEnded, HaveEnded, AreFolded};

use gate::Gate;
use h265_model::NoMemory;
use live_desk::{ClientPass, Desk, PlayError, RecorderPass};
use std::sync::Wait;
use std::thread;
use std::thread::Threads;

/// Plays the client's script to its end, and calls the gate after each accepted line.
///
/// # Errors
///
/// `NoMemory` where a cut met want of memory. The desk is then marked as lost, and the client's other lines aren't played.
pub fn play_all<R: Wait, G: Gate>(
    rt: &R,
    desk: &Desk,
    pass: &mut ClientPass,
    gate: &G,
) -> Result<(), NoMemory>
    requires desk { pass.old.table ≡ desk.now }
    ensures same { IsSameClient pass.old pass.new }
    ensures kept { IsKept pass.old.knows pass.new.knows }
    ensures begins { Begins pass.old.knows.seen pass.new.knows.seen }
    ensures done { OnOk result (pass.new.next ≡ pass.new.lines) }
    ensures runs { OnOk result (pass.old.stopped ≡ false → pass.new.stopped ≡ false) }
    ensures lost { OnErr result (pass.new.knows.saw ≡ true) }
    ensures stopped { OnErr result (pass.new.stopped ≡ true) }
    ensures left { OnErr result (pass.new.next < pass.new.lines) }
{
    for _ in rt.forever() {
        let index = pass.next();
        match desk.play(rt, pass) {
            Ok(_) => gate.line_played(pass.client(), index),
            Err(PlayError::Done) => return Ok(()),
            Err(PlayError::NoMemory) => {
                desk.mark_lost(rt, pass);
                return Err(NoMemory);
            }
        }
    }
    unreachable!()
}

// Plays one client's script, as far as it gets. Where it doesn't end, the pass is stopped.
fn play_one<R: Wait, G: Gate>(rt: &R, desk: &Desk, pass: &mut ClientPass, gate: &G)
    requires { IsAt desk.now pass.old }
    ensures { HasEnded desk.now pass.old pass.new }
{
    // A client that met want of memory is known by its pass.
    let _ = play_all(rt, desk, pass, gate);
}

// Plays each client's script on a thread of its own, where one can be made.
fn play_each<R: Threads + Wait + Sync, G: Gate + Sync>(
    rt: &R,
    desk: &Desk,
    clients: &mut [ClientPass],
    gate: &G,
)
    requires { All (IsAt desk.now) clients.old }
    ensures { HaveEnded desk.now clients.old clients.new }
{
    let threads = clients.len();
    if threads > 0 {
        thread::for_each_mut(
            rt,
            clients,
            threads,
            &|_, pass: &mut ClientPass|
                requires { IsAt desk.now pass.old }
                ensures { HasEnded desk.entry.now pass.old pass.new }
            { play_one(rt, desk, pass, gate) },
        );
    }
}

// Plays all clients' scripts, each on a thread of its own where one can be made.
pub(crate) fn play_clients<R: Threads + Wait + Sync, G: Gate + Sync>(
    rt: &R,
    desk: &Desk,
    clients: &mut Vec<ClientPass>,
    gate: &G,
)
    requires { All (IsAt desk.now) clients.old.items }
    ensures { HaveEnded desk.now clients.old.items clients.new.items }
{
    play_each(rt, desk, clients.as_mut_slice(), gate);
}

// Whether a client met want of memory.
pub(crate) fn any_stopped(clients: &[ClientPass]) -> bool
    ensures none { result ≡ false → All (λ pass. pass.stopped ≡ false) clients.now }
    ensures some { result ≡ true → Any (λ pass. pass.stopped ≡ true) clients.now }
{
    clients.iter().any(|pass| pass.is_stopped())
}

// Folds all clients' passes into the recorder's.
pub(crate) fn fold_all(
    desk: &Desk,
    recorder: RecorderPass,
    clients: Vec<ClientPass>,
) -> RecorderPass
    requires recorder { recorder.table ≡ desk.now }
    requires clients { All (IsAt desk.now) clients.items }
    ensures { AreFolded recorder clients.items result }
{
    let mut whole = recorder;
    for client in clients {
        whole = desk.fold(whole, client);
    }
    whole
}
