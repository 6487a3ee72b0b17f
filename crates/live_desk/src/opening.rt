// The passes of a new desk.
ghost use Rattle.std.specs.Prelude.{◌≡◌, ◌≤◌, ◌+◌, [], length, map, vec_capacity, IfOk};
ghost use Rattle.live_desk.specs.Opening.{AreFreshPasses, AreClients};

use crate::passes::ClientPass;
use desk_state::DeskState;
use h265_model::NoMemory;
use paint_script::Scripts;
use std::alloc::Global;
use turn_lock::Pass;

// How many lines each script has.
pub(crate) fn lengths_of(alloc: Global, scripts: &Scripts) -> Result<Vec<u32>, NoMemory>
    ensures { IfOk result (λ lengths. lengths.items ≡ map length scripts.now) }
{
    let mut lengths = Vec::new(alloc);
    for client in 0..scripts.count() {
        lengths.push(scripts.script(client).unwrap().lines())?;
    }
    Ok(lengths)
}

// Gives each client its pass, in order.
pub(crate) fn hand_out(passes: Vec<Pass<DeskState>>, lengths: &[u32], clients: &mut Vec<ClientPass>)
    requires few { length lengths.now ≤ 64 }
    requires room { (clients.old.items ≡ []) × (length lengths.now ≤ vec_capacity clients.old) }
    requires fresh { AreFreshPasses passes.items lengths.now }
    ensures { AreClients passes.items (length lengths.now) clients.new.items }
{
    for pass in passes {
        let client = clients.len();
        clients.push_reserved(ClientPass {
            pass,
            client: client as u32,
            next: 0,
            lines: lengths[client],
            stopped: false,
        });
    }
}
