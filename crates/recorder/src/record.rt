//! The recorder: it takes jobs from a desk, and appends the piece of each picture.
ghost use Rattle.std.specs.Prelude.{◌≡◌, ◌≤◌, ◌<◌, ◌-◌, ◌^◌, [], IfSome, MatchOption};
ghost use Rattle.recorder_model.specs.Files.{WhereTold};
ghost use Rattle.recorder_model.specs.Histories.{takes};
ghost use Rattle.picture_encoder.specs.Coded.{StandsFor};
ghost use Rattle.live_desk.specs.Passes.{fresh_recorder};
ghost use Rattle.recorder.specs.Ends.{Ends, HasEndCause, HasRecorded, HasCoded, SawMark, seen_pictures};
ghost use Rattle.recorder.specs.Jobs.{IsNextJob, HasNoJob, end_after};

use crossbeam_utils::Backoff;
use edges::{Sink, WriteError};
use gate::Gate;
use live_desk::{Desk, Job, RecorderPass, Taken};
use picture_encoder::Encoder;
use std::sync::Wait;
use std::thread::Threads;

/// How the recorder ended. `written` is the number of bytes in pieces that were appended whole.
#[derive(Clone, Copy, Debug, PartialEq, Eq)]
pub enum RecordEnd {
    /// All jobs that were wanted were taken, and the piece of each was appended.
    Ok { written: u64 },
    /// A piece was not appended whole.
    SinkFault { written: u64 },
    /// The allocator refused, or `written` would have passed the last value of a u64.
    NoMemory { written: u64 },
    /// The desk was marked as lost, and each cut was taken.
    Ended { written: u64 },
}

// Waits for the next job. `None` where the desk was marked as lost, and each cut was taken.
fn wait_for_job(rt: &impl Wait, desk: &Desk, pass: &mut RecorderPass) -> Option<Job>
    requires desk { pass.old.table ≡ desk.now }
    requires before { HasRecorded pass.old pass.old }
    ensures pass { HasRecorded pass.old pass.new }
    ensures job { IfSome result (λ job. IsNextJob pass.old.knows pass.new.knows job) }
    ensures none { MatchOption result (HasNoJob pass.old.knows pass.new.knows) (λ job. Unit {0}) }
{
    let backoff = Backoff::new();
    for _ in rt.forever() {
        match desk.take(rt, pass) {
            Taken::Job(job) => return Some(job),
            Taken::NotYet { seen: _ } => backoff.snooze(),
            Taken::Ended { seen: _ } => return None,
        }
    }
    unreachable!()
}

// How the recorder ends where the sink refused a piece.
fn ended_by(error: WriteError, written: u64) -> RecordEnd
    ensures { result ≡ end_after error written }
{
    match error {
        WriteError::Failed => RecordEnd::SinkFault { written },
        WriteError::NoMemory => RecordEnd::NoMemory { written },
    }
}

/// Takes `cuts` jobs from the desk, codes the picture of each by so many workers (1 to 64), and appends the stream's pieces to the sink: first the
/// parameter sets, and then one piece for each picture, in order. Nothing is appended after a fault.
///
/// The pass has taken no job, and the encoder, of the desk's size, has coded no picture.
pub fn record_all<R: Threads + Wait + Sync, K: Sink, G: Gate + Sync>(
    rt: &R,
    desk: &Desk,
    pass: &mut RecorderPass,
    encoder: &mut Encoder,
    cuts: u32,
    workers: u32,
    sink: &mut K,
    gate: &G,
) -> RecordEnd
    requires fresh { pass.old ≡ fresh_recorder desk.now pass.old.knows.setting }
    requires size { encoder.old.settings.size ≡ pass.old.knows.setting.size }
    requires sized { encoder.old.last.size ≡ encoder.old.settings.size }
    requires none { StandsFor encoder.old [] }
    requires few { cuts < 2 ^ 32 - 1 }
    requires workers { (1 ≤ workers) × (workers ≤ 64) }
    ensures pass { HasRecorded pass.old pass.new }
    ensures ended { Ends encoder.old.settings (seen_pictures pass.new.knows) cuts (takes pass.new.knows.seen) (K.text sink.old) (K.text sink.new) result }
    ensures lost { SawMark pass.new.knows result }
    ensures coded { HasCoded encoder.new pass.new.knows result }
    ensures cause { HasEndCause (K.faults sink.old) (K.faults sink.new) result }
    ensures beside { WhereTold (K.beside sink.old) (K.beside sink.new) (λ was now. now ≡ was) }
    ensures through { K.through sink.new ≡ K.through sink.old }
{
    let Ok(sets) = encoder.first() else {
        return RecordEnd::NoMemory { written: 0 };
    };
    if let Err(error) = sink.write(&sets) {
        return ended_by(error, 0);
    }
    let mut written = sets.len() as u64;
    for _ in 0..cuts {
        let Some(job) = wait_for_job(rt, desk, pass) else {
            return RecordEnd::Ended { written };
        };
        let Ok(piece) = encoder.next(rt, &job, workers, gate) else {
            return RecordEnd::NoMemory { written };
        };
        let Some(more) = written.checked_add(piece.len() as u64) else {
            return RecordEnd::NoMemory { written };
        };
        if let Err(error) = sink.write(&piece) {
            return ended_by(error, written);
        }
        written = more;
    }
    RecordEnd::Ok { written }
}
