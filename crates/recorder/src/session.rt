//! A recording from its scripts to its end.
ghost use Rattle.std.specs.Prelude.{◌≡◌, ◌≤◌, ◌<◌, ◌-◌, ◌^◌, List, [], ◌∷◌, ◌++◌, length, IfOk};
ghost use Rattle.std.specs.List.{All};
ghost use Rattle.std.specs.Thread.{IsSync};
ghost use Rattle.recorder_model.specs.Files.{WhereTold};
ghost use Rattle.recorder_model.specs.Painting.{pictures};
ghost use Rattle.recorder_model.specs.Histories.{takes};
ghost use Rattle.desk_state.specs.Standing.{most_entries};
ghost use Rattle.recorder.specs.Ends.{Ends, HasEndCause, HasRecorded, seen_pictures};
ghost use Rattle.recorder.specs.Players.{IsAt, HaveEnded};
ghost use Rattle.recorder.specs.Beside.{IsRecordable};
ghost use Rattle.recorder.specs.Sessions.{IsOrder, all_cuts};
ghost use Rattle.picture_encoder.specs.Coded.{StandsFor};

use crate::clients::{any_stopped, fold_all, play_clients};
use crate::record::{RecordEnd, record_all};
use edges::Sink;
use gate::Gate;
use h265_model::NoMemory;
use live_desk::{ClientPass, Desk, RecorderPass};
use paint_script::Scripts;
use picture_encoder::Encoder;
use recorder_model::Entry;
use std::alloc::Global;
use std::marker::Model;
use std::sync::Wait;
use std::thread;
use std::thread::Threads;

/// A desk with its passes, at which nothing was played, and an encoder that has coded nothing. Contracts see the settings and the scripts.
#[derive(Drop)]
pub struct Session {
    desk: Desk,
    clients: Vec<ClientPass>,
    recorder: RecorderPass,
    encoder: Encoder,
    // How many cuts the scripts ask for.
    cuts: u32,
}

impl Model for Session {
    ghost use Rattle.std.specs.Prelude.{◌≡◌, ◌<◌, ◌-◌, ◌^◌, []};
    ghost use Rattle.picture_encoder.specs.Coded.{StandsFor};
    ghost use Rattle.live_desk.specs.Desks.{IsOpened};
    ghost use Rattle.recorder.specs.Sessions.{Scripted, all_cuts};

    ghost Value = { Scripted };

    ghost view = { λ s. record { settings = s.encoder.settings; scripts = s.recorder.knows.setting.scripts } };

    ghost invariant = { λ s. IsOpened s.recorder.knows.setting s.desk s.clients.items s.recorder
        × (s.encoder.settings.size ≡ s.recorder.knows.setting.size)
        × (s.encoder.last.size ≡ s.encoder.settings.size)
        × StandsFor s.encoder []
        × (s.cuts ≡ all_cuts s.recorder.knows.setting.scripts)
        × (s.cuts < 2 ^ 32 - 1) };
}

/// What was recorded.
#[derive(Debug, Drop)]
pub struct Recording {
    /// The order in which the lines were accepted and the pictures were taken.
    pub order: Vec<Entry>,
    /// Whether a client met want of memory.
    pub lost: bool,
    /// How the recorder ended.
    pub end: RecordEnd,
}

// How many cuts the scripts ask for.
fn cuts_of(scripts: &Scripts) -> u32
    requires { most_entries scripts.now < 2 ^ 32 - 1 }
    ensures { result ≡ all_cuts scripts.now }
{
    let mut cuts = 0;
    for client in 0..scripts.count() {
        cuts += scripts.script(client).unwrap().cuts();
    }
    cuts
}

// Plays all clients' scripts on this thread and others, and records in a thread beside them, or after them where none can be made.
fn play_and_record<R: Threads + Wait + Sync, K: Sink + Send, G: Gate + Sync>(
    rt: &R,
    desk: &Desk,
    clients: &mut Vec<ClientPass>,
    recorder: &mut RecorderPass,
    encoder: &mut Encoder,
    cuts: u32,
    workers: u32,
    sink: &mut K,
    gate: &G,
) -> RecordEnd
    requires clients { All (IsAt desk.now) clients.old.items }
    requires recorder { IsRecordable desk.now recorder.old encoder.old cuts workers }
    ensures clients { HaveEnded desk.now clients.old.items clients.new.items }
    ensures recorder { HasRecorded recorder.old recorder.new }
    ensures ended { Ends encoder.old.settings (seen_pictures recorder.new.knows) cuts (takes recorder.new.knows.seen) (K.text sink.old) (K.text sink.new) result }
    ensures cause { HasEndCause (K.faults sink.old) (K.faults sink.new) result }
    ensures beside { WhereTold (K.beside sink.old) (K.beside sink.new) (λ was now. now ≡ was) }
    ensures through { K.through sink.new ≡ K.through sink.old }
{
    let mut record = || -> RecordEnd
        requires { IsSync R.row × IsSync G.row × IsRecordable desk.now recorder.now encoder.now cuts workers }
        ensures pass { HasRecorded recorder.entry.now recorder.exit.now }
        ensures ended { Ends encoder.entry.now.settings (seen_pictures recorder.exit.now.knows) cuts (takes recorder.exit.now.knows.seen) (K.text sink.entry.now) (K.text sink.exit.now) result }
        ensures cause { HasEndCause (K.faults sink.entry.now) (K.faults sink.exit.now) result }
        ensures beside { WhereTold (K.beside sink.entry.now) (K.beside sink.exit.now) (λ was now. now ≡ was) }
        ensures through { K.through sink.exit.now ≡ K.through sink.entry.now }
    { record_all(rt, desk, recorder, encoder, cuts, workers, sink, gate) };
    let mut play = ||
        requires { IsSync R.row × IsSync G.row × All (IsAt desk.now) clients.now.items }
        ensures { HaveEnded desk.entry.now clients.entry.now.items clients.exit.now.items }
    { play_clients(rt, desk, clients, gate) };
    let (end, ()) = thread::join_mut(rt, &mut record, &mut play);
    end
}

impl Session {
    /// Opens a desk for the scripts of 1 to 64 clients, of the size of the encoder's pictures. The encoder has coded none, and is that of the recording.
    ///
    /// # Errors
    ///
    /// `NoMemory` where the allocator refuses. The scripts are then given up.
    pub fn new(alloc: Global, encoder: Encoder, scripts: Scripts) -> Result<Session, NoMemory>
        requires fresh { StandsFor encoder [] }
        requires sized { encoder.last.size ≡ encoder.settings.size }
        requires few { most_entries scripts < 2 ^ 32 - 1 }
        ensures settings { IfOk result (λ session. session.settings ≡ encoder.settings) }
        ensures scripts { IfOk result (λ session. session.scripts ≡ scripts) }
    {
        let cuts = cuts_of(&scripts);
        let (desk, clients, recorder) = Desk::new(alloc, encoder.size(), scripts)?;
        Ok(Session {
            desk,
            clients,
            recorder,
            encoder,
            cuts,
        })
    }

    /// Plays each client's script to its end on a thread of its own, and records beside them the pictures that they cut: so many workers (1 to 64) code
    /// the rows of each picture, and its piece of the stream is appended to the sink. Where no thread can be made, the caller plays the clients one after
    /// another and then records. It may wait for ever.
    ///
    /// A client that meets want of memory marks the desk as lost and ends. Clients play on after a fault of the sink.
    pub fn run<R: Threads + Wait + Sync, K: Sink + Send, G: Gate + Sync>(
        self,
        rt: &R,
        workers: u32,
        sink: &mut K,
        gate: &G,
    ) -> Recording
        requires workers { (1 ≤ workers) × (workers ≤ 64) }
        ensures order { IsOrder self.scripts result.order.items result.lost result.end }
        ensures ended { Ends self.settings (pictures self.settings.size self.scripts result.order.items) (all_cuts self.scripts) (takes result.order.items)
            (K.text sink.old) (K.text sink.new) result.end }
        ensures cause { HasEndCause (K.faults sink.old) (K.faults sink.new) result.end }
        ensures beside { WhereTold (K.beside sink.old) (K.beside sink.new) (λ was now. now ≡ was) }
        ensures through { K.through sink.new ≡ K.through sink.old }
    {
        let Session {
            desk,
            mut clients,
            mut recorder,
            mut encoder,
            cuts,
        } = self;
        let end = play_and_record(
            rt,
            &desk,
            &mut clients,
            &mut recorder,
            &mut encoder,
            cuts,
            workers,
            sink,
            gate,
        );
        let lost = any_stopped(&clients);
        let recorder = fold_all(&desk, recorder, clients);
        Recording {
            order: desk.close(recorder),
            lost,
            end,
        }
    }
}
