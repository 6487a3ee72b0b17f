//! The scripts of several clients, recorded together.
ghost use Rattle.std.specs.Prelude.{◌≡◌, ◌≤◌, ◌<◌, ◌^◌, ◌-◌, ◌∷◌, [], List, length, IfOk};
ghost use Rattle.std.specs.List.{All};
ghost use Rattle.recorder_model.specs.declared.line.Line.{Line};
ghost use Rattle.recorder_model.specs.Files.{WhereTold, Rose, file_at};
ghost use Rattle.recorder_model.specs.Painting.{pictures};
ghost use Rattle.recorder_model.specs.Histories.{takes};
ghost use Rattle.recorder_model.specs.Headline.{IsPlayed};
ghost use Rattle.edges.specs.Causes.{HasWriteCause};
ghost use Rattle.edges.specs.Sunk.{IsThere};
ghost use Rattle.paint_script.specs.Spellable.{AreSpellable};
ghost use Rattle.command_line.specs.Views.{settings_view, IsOfClients, RowIsWithinLimits, texts};
ghost use Rattle.desk_state.specs.Standing.{most_entries};
ghost use Rattle.command_line.specs.declared.row.Row.TheVariants as row;
ghost use Rattle.recorder.specs.Ends.{HasEndCause};
ghost use Rattle.recorder.specs.Sessions.{IsOrder, all_cuts};
ghost use Rattle.screenrec.specs.Accepted.{AreFew};
ghost use Rattle.screenrec.specs.Alone.{IsAfterReading, IsOfReport, sink_result};
ghost use Rattle.screenrec.specs.Answers.{counts, HasCauses, IsSilent};
ghost use Rattle.screenrec.specs.Recording.{Does, record_task, IsServed, RefusesTask, IsOfFile, LeavesTask, ReportsTask, IsComplete};
ghost use Rattle.screenrec.specs.Served.{record_view};
ghost use Rattle.screenrec.specs.Together.{written_of, recorded_status, EndsInFile, IsShortOrder, Reported, ReportsOrder, LeavesScripts};

use crate::alone::status_of;
use crate::coder::encoder_for;
use crate::paint_file::read_paints;
use crate::report::write_report;
use crate::{Outcome, Status};
use command_line::{RecordWords, Settings};
use edges::{FileSink, Shelf, Sink, WriteError};
use gate::Gate;
use h265_model::NoMemory;
use paint_script::Scripts;
use recorder::{RecordEnd, Recording, Session};
use recorder_model::{Entry, History};
use std::alloc::Global;
use std::sync::Wait;
use std::thread::Threads;

/// Serves the words behind `record`: reads the files, plays each client's script on a thread of its own, records the
/// pictures that they cut beside them, and reports. It may wait for ever.
pub fn serve_together<R: Threads + Wait + Sync, F: Shelf + Send, K: Sink, G: Gate + Sync>(
    rt: &R,
    alloc: Global,
    words: &RecordWords<'_>,
    shelf: &mut F,
    report: &mut K,
    gate: &G,
) -> Outcome
    requires within { RowIsWithinLimits (row.Record words.now) }
    ensures words { IsServed result.status }
    ensures causes { HasCauses
        (counts (F.read_faults shelf.old) (F.write_faults shelf.old) (K.faults report.old))
        (counts (F.read_faults shelf.new) (F.write_faults shelf.new) (K.faults report.new))
        result.status }
    ensures refused { RefusesTask result.status result.order result.written }
    ensures named { IsOfFile (texts words.now.files.now) result.status }
    ensures files { WhereTold (F.files shelf.old) (F.files shelf.new) (λ before after.
        LeavesTask (record_task (record_view words.now)) before after result.order result.written result.status) }
    ensures silent { WhereTold (K.text report.old) (K.text report.new) (λ was now. IsSilent result.status was now) }
    ensures beside { WhereTold (K.beside report.old) (K.beside report.new) (λ was now. now ≡ was) }
    ensures through { K.through report.new ≡ K.through report.old }
    ensures reported { WhereTold (F.files shelf.old) (F.files shelf.new) (λ before after.
        WhereTold (K.text report.old) (K.text report.new) (λ was now.
        ReportsTask (record_task (record_view words.now)) before was now result.status result.order result.written)) }
    ensures complete { WhereTold (F.files shelf.old) (F.files shelf.new) (λ before after.
        IsComplete (Does (record_task (record_view words.now))) before
        (counts (F.read_faults shelf.old) (F.write_faults shelf.old) (K.faults report.old))
        (counts (F.read_faults shelf.new) (F.write_faults shelf.new) (K.faults report.new))
        result.status) }
{
    match read_paints(alloc, words.files, shelf) {
        Ok(scripts) => record_scripts(rt, alloc, words, scripts, shelf, report, gate),
        Err(status) => Outcome::refused(alloc, status),
    }
}

// A session of accepted scripts, at which nothing was played.
fn open_session(alloc: Global, settings: &Settings, scripts: Scripts) -> Result<Session, NoMemory>
    requires effort { settings.now.effort ≤ 2 }
    requires extra { IsOfClients settings.now.extra }
    requires few { most_entries scripts < 2 ^ 32 - 1 }
    ensures settings { IfOk result (λ session. session.settings ≡ settings_view settings.now) }
    ensures scripts { IfOk result (λ session. session.scripts ≡ scripts) }
{
    Session::new(alloc, encoder_for(alloc, settings)?, scripts)
}

// Records accepted scripts, and reports them.
fn record_scripts<R: Threads + Wait + Sync, F: Shelf + Send, K: Sink, G: Gate + Sync>(
    rt: &R,
    alloc: Global,
    words: &RecordWords<'_>,
    scripts: Scripts,
    shelf: &mut F,
    report: &mut K,
    gate: &G,
) -> Outcome
    requires within { RowIsWithinLimits (row.Record words.now) }
    requires few { AreFew scripts }
    requires spellable { All AreSpellable scripts }
    ensures status { IsAfterReading result.status }
    ensures sink { HasWriteCause (F.write_faults shelf.old) (F.write_faults shelf.new) (sink_result result.status) }
    ensures reads { F.read_faults shelf.new ≡ F.read_faults shelf.old }
    ensures later { K.faults report.old ≤ K.faults report.new }
    ensures cause { result.status ≡ Status.ReportFault → Rose (K.faults report.old) (K.faults report.new) }
    ensures kept { result.status ≡ Status.Ok → K.faults report.new ≡ K.faults report.old }
    ensures files { WhereTold (F.files shelf.old) (F.files shelf.new) (λ before after.
        LeavesScripts (record_view words.now) scripts before after result.order result.written result.status) }
    ensures text { WhereTold (K.text report.old) (K.text report.new) (λ was now.
        ReportsOrder scripts result.order result.written was now result.status) }
    ensures beside { WhereTold (K.beside report.old) (K.beside report.new) (λ was now. now ≡ was) }
    ensures through { K.through report.new ≡ K.through report.old }
{
    let settings = words.settings;
    let _width = settings.size.w();
    let Ok(session) = open_session(alloc, &settings, scripts) else {
        return Outcome::refused(alloc, Status::NoMemory);
    };
    if let Err(error) = shelf.create(words.out) {
        return Outcome::refused(alloc, status_of(error));
    }
    let recording = record_into(rt, session, words.workers, words.out, shelf, gate);
    finish(alloc, recording, report)
}

// Records a session into a file that was made.
fn record_into<R: Threads + Wait + Sync, F: Shelf + Send, G: Gate + Sync>(
    rt: &R,
    session: Session,
    workers: u32,
    out: &str,
    shelf: &mut F,
    gate: &G,
) -> Recording
    requires workers { (1 ≤ workers) × (workers ≤ 64) }
    requires there { IsThere (F.files shelf.old) out.now }
    ensures order { IsOrder session.scripts result.order.items result.lost result.end }
    ensures files { WhereTold (F.files shelf.old) (F.files shelf.new) (λ before after. file_at before out.now ≡ [] →
        EndsInFile session.settings out.now (pictures session.settings.size session.scripts result.order.items)
        (all_cuts session.scripts) (takes result.order.items) before after result.end) }
    ensures cause { HasEndCause (F.write_faults shelf.old) (F.write_faults shelf.new) result.end }
    ensures reads { F.read_faults shelf.new ≡ F.read_faults shelf.old }
{
    session.run(rt, workers, &mut FileSink::new(shelf, out), gate)
}

// What a recording answers. Where it is whole, it is reported.
fn finish<K: Sink>(alloc: Global, recording: Recording, report: &mut K) -> Outcome
    requires short { recorded_status recording.lost recording.end ≡ Status.Ok → IsShortOrder recording.order.items }
    ensures status { Reported (recorded_status recording.lost recording.end) result.status }
    ensures order { result.order ≡ recording.order.items }
    ensures written { result.written ≡ written_of recording.end }
    ensures later { K.faults report.old ≤ K.faults report.new }
    ensures cause { result.status ≡ Status.ReportFault → Rose (K.faults report.old) (K.faults report.new) }
    ensures kept { result.status ≡ Status.Ok → K.faults report.new ≡ K.faults report.old }
    ensures text { (scripts : List (List Line)) → (recorded_status recording.lost recording.end ≡ Status.Ok → IsPlayed scripts recording.order.items) →
        WhereTold (K.text report.old) (K.text report.new) (λ was now. ReportsOrder scripts recording.order.items (written_of recording.end) was now result.status) }
    ensures beside { WhereTold (K.beside report.old) (K.beside report.new) (λ was now. now ≡ was) }
    ensures through { K.through report.new ≡ K.through report.old }
{
    let Recording { order, lost, end } = recording;
    let written = bytes_written(end);
    let status = match status_at(lost, end) {
        Status::Ok => report_order(alloc, &order, written, report),
        status => status,
    };
    Outcome {
        status,
        order: History::from_vec(order),
        written,
    }
}

// The bytes in whole pieces.
fn bytes_written(end: RecordEnd) -> u64
    ensures { result ≡ written_of end }
{
    match end {
        RecordEnd::Ok { written } => written,
        RecordEnd::SinkFault { written } => written,
        RecordEnd::NoMemory { written } => written,
        RecordEnd::Ended { written } => written,
    }
}

// The status of a recording before its report. Want of memory at a client goes before all else.
fn status_at(lost: bool, end: RecordEnd) -> Status
    ensures { result ≡ recorded_status lost end }
{
    if lost {
        return Status::NoMemory;
    }
    match end {
        RecordEnd::Ok { .. } => Status::Ok,
        RecordEnd::SinkFault { .. } => Status::SinkFault,
        RecordEnd::NoMemory { .. } | RecordEnd::Ended { .. } => Status::NoMemory,
    }
}

// Reports an order that was played. Each picture was cut by a line and then taken, and each other line paints.
fn report_order<K: Sink>(alloc: Global, order: &[Entry], written: u64, report: &mut K) -> Status
    requires short { IsShortOrder order.now }
    ensures status { IsOfReport result }
    ensures later { K.faults report.old ≤ K.faults report.new }
    ensures cause { result ≡ Status.ReportFault → Rose (K.faults report.old) (K.faults report.new) }
    ensures kept { result ≡ Status.Ok → K.faults report.new ≡ K.faults report.old }
    ensures text { (scripts : List (List Line)) → IsPlayed scripts order.now →
        WhereTold (K.text report.old) (K.text report.new) (λ was now. ReportsOrder scripts order.now written was now result) }
    ensures beside { WhereTold (K.beside report.old) (K.beside report.new) (λ was now. now ≡ was) }
    ensures through { K.through report.new ≡ K.through report.old }
{
    let pictures = count_takes(order);
    let paints = order.len() as u32 - 2 * pictures;
    match write_report(alloc, pictures, paints, written, report) {
        Ok(()) => Status::Ok,
        Err(WriteError::Failed) => Status::ReportFault,
        Err(WriteError::NoMemory) => Status::NoMemory,
    }
}

// How many pictures were taken.
fn count_takes(order: &[Entry]) -> u32
    requires { length order.now < 2 ^ 32 }
    ensures { result ≡ takes order.now }
{
    let mut count = 0;
    for entry in order {
        count += taken(entry);
    }
    count
}

// Whether a picture was taken, as a number.
fn taken(entry: &Entry) -> u32
    ensures takes { result ≡ takes (entry.now ∷ []) }
    ensures small { result ≤ 1 }
{
    match entry {
        Entry::Line { .. } => 0,
        Entry::Take { .. } => 1,
    }
}
