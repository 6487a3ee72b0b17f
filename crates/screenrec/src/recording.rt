//! Every row of words.
ghost use Rattle.std.specs.Prelude.{◌≡◌};
ghost use Rattle.recorder_model.specs.Files.{WhereTold};
ghost use Rattle.command_line.specs.Words.{row_of};
ghost use Rattle.command_line.specs.Views.{texts};
ghost use Rattle.screenrec.specs.Answers.{counts, HasCauses, IsSilent};
ghost use Rattle.screenrec.specs.Recording.{run_service, Answers, RefusesEmpty, NamesFile, Leaves, Reports, IsComplete, TellsDemo, IsCompleteDemo};

use crate::alone::serve;
use crate::decode::serve_decode;
use crate::demo::serve_demo;
use crate::together::serve_together;
use crate::{Outcome, Status};
use command_line::{Row, read_words};
use edges::{Shelf, Sink};
use gate::Gate;
use std::alloc::Global;
use std::sync::Wait;
use std::thread::Threads;

/// Serves every row of words, if it returns.
pub fn run<R: Threads + Wait + Sync, F: Shelf + Send, K: Sink, G: Gate + Sync>(
    rt: &R,
    alloc: Global,
    words: &[&str],
    shelf: &mut F,
    report: &mut K,
    gate: &G,
) -> Outcome
    // Usage comes exactly where the words are in no row, but for want of memory.
    ensures words { Answers (run_service (row_of (texts words.now))) result.status }
    // A fault comes only where its count rose.
    ensures causes { HasCauses
        (counts (F.read_faults shelf.old) (F.write_faults shelf.old) (K.faults report.old))
        (counts (F.read_faults shelf.new) (F.write_faults shelf.new) (K.faults report.new))
        result.status }
    // Where no recording began there is no order, and nothing was written.
    ensures refused { RefusesEmpty (run_service (row_of (texts words.now))) result.status result.order result.written }
    // A file that is named is one of the words.
    ensures named { NamesFile (run_service (row_of (texts words.now))) result.status }
    // What each status says of the scripts, the order and the files; with Ok, that OUT is the stream of the cut pictures,
    // and that H.265 decodes it to them.
    ensures files { WhereTold (F.files shelf.old) (F.files shelf.new) (λ before after.
        Leaves (run_service (row_of (texts words.now))) before after result.status result.order result.written) }
    // The report is written at the end alone,
    ensures silent { WhereTold (K.text report.old) (K.text report.new) (λ was now. IsSilent result.status was now) }
    // what stands beside it stays as it was,
    ensures beside { WhereTold (K.beside report.old) (K.beside report.new) (λ was now. now ≡ was) }
    ensures through { K.through report.new ≡ K.through report.old }
    // and with Ok it grew by its text.
    ensures reported { WhereTold (F.files shelf.old) (F.files shelf.new) (λ before after.
        WhereTold (K.text report.old) (K.text report.new) (λ was now.
        Reports (run_service (row_of (texts words.now))) before was now result.status result.order result.written)) }
    // With good words and files, and where no count rose, only want of memory is between the call and Ok.
    ensures complete { WhereTold (F.files shelf.old) (F.files shelf.new) (λ before after.
        IsComplete (run_service (row_of (texts words.now))) before
        (counts (F.read_faults shelf.old) (F.write_faults shelf.old) (K.faults report.old))
        (counts (F.read_faults shelf.new) (F.write_faults shelf.new) (K.faults report.new))
        result.status) }
    // A demo has no files: its report and that it is complete hang on no shelf.
    ensures told { WhereTold (K.text report.old) (K.text report.new) (λ was now.
        TellsDemo (run_service (row_of (texts words.now))) was now result.status result.order result.written) }
    ensures played { IsCompleteDemo (run_service (row_of (texts words.now))) (K.faults report.old) (K.faults report.new) result.status }
{
    match read_words(words) {
        None => Outcome::refused(alloc, Status::Usage),
        Some(Row::Record(words)) => serve_together(rt, alloc, &words, shelf, report, gate),
        Some(Row::Serial(words)) => serve(alloc, &words, shelf, report),
        Some(Row::Demo(number)) => serve_demo(alloc, number, report),
        Some(Row::Decode(words)) => serve_decode(alloc, &words, shelf, report),
    }
}
