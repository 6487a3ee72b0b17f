//! One script alone, recorded in its own order.
ghost use Rattle.std.specs.Prelude.{◌≡◌, ◌≤◌, ℕ, [], ◌∷◌, map, length, IfOk};
ghost use Rattle.std.specs.List.{range_with_len};
ghost use Rattle.recorder_model.specs.declared.entry.Entry.{Entry};
ghost use Rattle.recorder_model.specs.Files.{WhereTold, Rose};
ghost use Rattle.recorder_model.specs.Histories.{own_order};
ghost use Rattle.recorder_model.specs.Headline.{most_lines};
ghost use Rattle.edges.specs.Causes.{HasWriteCause};
ghost use Rattle.screenrec.specs.Answers.{counts, HasCauses, IsSilent};
ghost use Rattle.screenrec.specs.Recording.{Does, serial_task, IsServed, RefusesTask, IsOfFile, LeavesTask, ReportsTask, IsComplete};
ghost use Rattle.command_line.specs.Views.{IsWithinLimits};
ghost use Rattle.screenrec.specs.Served.{serial_view};
ghost use Rattle.screenrec.specs.Alone.{sink_status, sink_result, ReportsScript, IsAfterReading, IsOfReport, IsReported, LeavesScript};

use crate::paint_file::read_paint;
use crate::report::write_report;
use crate::stream_file::write_stream;
use crate::{Outcome, Status};
use command_line::SerialWords;
use edges::{Shelf, Sink, WriteError};
use h265_model::NoMemory;
use paint_script::Script;
use recorder_model::{Entry, History};
use std::alloc::Global;

// The script's lines in order, as entries of client 0.
fn entries(alloc: Global, lines: u32) -> Result<History, NoMemory>
    ensures { IfOk result (λ order. order ≡ map (λ index. Entry.Line 0 index) (range_with_len 0 lines)) }
{
    let mut entries = Vec::new(alloc);
    for index in 0..lines {
        entries.push(Entry::Line { client: 0, index })?;
    }
    Ok(History::from_vec(entries))
}

/// The status of a failed write of the stream.
pub(crate) fn status_of(error: WriteError) -> Status
    ensures { result ≡ sink_status error }
{
    match error {
        WriteError::Failed => Status::SinkFault,
        WriteError::NoMemory => Status::NoMemory,
    }
}

// Reports a script whose stream was written whole.
fn report_script<K: Sink>(alloc: Global, script: &Script, written: u64, report: &mut K) -> Status
    ensures status { IsOfReport result }
    ensures later { K.faults report.old ≤ K.faults report.new }
    ensures cause { result ≡ Status.ReportFault → Rose (K.faults report.old) (K.faults report.new) }
    ensures kept { result ≡ Status.Ok → K.faults report.new ≡ K.faults report.old }
    ensures text { WhereTold (K.text report.old) (K.text report.new) (λ was now. ReportsScript script.now.lines written was now result) }
    ensures beside { WhereTold (K.beside report.old) (K.beside report.new) (λ was now. now ≡ was) }
    ensures through { K.through report.new ≡ K.through report.old }
{
    let cuts = script.cuts();
    let paints = script.lines() - cuts;
    match write_report(alloc, cuts, paints, written, report) {
        Ok(()) => Status::Ok,
        Err(WriteError::Failed) => Status::ReportFault,
        Err(WriteError::NoMemory) => Status::NoMemory,
    }
}

// Writes the stream of an accepted script, and reports it.
fn record_script<F: Shelf, K: Sink>(
    alloc: Global,
    words: &SerialWords<'_>,
    script: &Script,
    shelf: &mut F,
    report: &mut K,
) -> Outcome
    requires within { IsWithinLimits words.now.settings }
    requires few { length script.now.lines ≤ most_lines }
    ensures status { IsAfterReading result.status }
    ensures sink { HasWriteCause (F.write_faults shelf.old) (F.write_faults shelf.new) (sink_result result.status) }
    ensures reads { F.read_faults shelf.new ≡ F.read_faults shelf.old }
    ensures later { K.faults report.old ≤ K.faults report.new }
    ensures cause { result.status ≡ Status.ReportFault → Rose (K.faults report.old) (K.faults report.new) }
    ensures kept { result.status ≡ Status.Ok → K.faults report.new ≡ K.faults report.old }
    ensures files { WhereTold (F.files shelf.old) (F.files shelf.new) (λ before after.
        LeavesScript (serial_view words.now) script.now.lines before after result.order result.written result.status) }
    ensures text { WhereTold (K.text report.old) (K.text report.new) (λ was now.
        ReportsScript script.now.lines result.written was now result.status) }
    ensures own { IsReported result.status → result.order ≡ own_order (script.now.lines ∷ []) }
    ensures beside { WhereTold (K.beside report.old) (K.beside report.new) (λ was now. now ≡ was) }
    ensures through { K.through report.new ≡ K.through report.old }
{
    let _width = words.settings.size.w();
    let Ok(order) = entries(alloc, script.lines()) else {
        return Outcome::refused(alloc, Status::NoMemory);
    };
    let ending = match write_stream(alloc, &words.settings, script, words.out, shelf) {
        Ok(ending) => ending,
        Err(error) => return Outcome::refused(alloc, status_of(error)),
    };
    if let Err(error) = ending.result {
        return Outcome {
            status: status_of(error),
            order,
            written: ending.written,
        };
    }
    let written = ending.written;
    let status = report_script(alloc, script, written, report);
    Outcome {
        status,
        order,
        written,
    }
}

/// Serves the words behind `serial`: reads the one file, writes its stream, and reports.
pub fn serve<F: Shelf, K: Sink>(
    alloc: Global,
    words: &SerialWords<'_>,
    shelf: &mut F,
    report: &mut K,
) -> Outcome
    requires within { IsWithinLimits words.now.settings }
    ensures words { IsServed result.status }
    ensures causes { HasCauses
        (counts (F.read_faults shelf.old) (F.write_faults shelf.old) (K.faults report.old))
        (counts (F.read_faults shelf.new) (F.write_faults shelf.new) (K.faults report.new))
        result.status }
    ensures refused { RefusesTask result.status result.order result.written }
    ensures named { IsOfFile (words.now.file.now ∷ []) result.status }
    ensures files { WhereTold (F.files shelf.old) (F.files shelf.new) (λ before after.
        LeavesTask (serial_task (serial_view words.now)) before after result.order result.written result.status) }
    ensures silent { WhereTold (K.text report.old) (K.text report.new) (λ was now. IsSilent result.status was now) }
    ensures beside { WhereTold (K.beside report.old) (K.beside report.new) (λ was now. now ≡ was) }
    ensures through { K.through report.new ≡ K.through report.old }
    ensures reported { WhereTold (F.files shelf.old) (F.files shelf.new) (λ before after.
        WhereTold (K.text report.old) (K.text report.new) (λ was now.
        ReportsTask (serial_task (serial_view words.now)) before was now result.status result.order result.written)) }
    ensures complete { WhereTold (F.files shelf.old) (F.files shelf.new) (λ before after.
        IsComplete (Does (serial_task (serial_view words.now))) before
        (counts (F.read_faults shelf.old) (F.write_faults shelf.old) (K.faults report.old))
        (counts (F.read_faults shelf.new) (F.write_faults shelf.new) (K.faults report.new))
        result.status) }
{
    match read_paint(alloc, words.file, shelf) {
        Ok(script) => record_script(alloc, words, &script, shelf, report),
        Err(status) => Outcome::refused(alloc, status),
    }
}
