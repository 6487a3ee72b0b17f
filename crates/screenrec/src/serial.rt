//! One script, in its own order, on one thread.
ghost use Rattle.std.specs.Prelude.{◌≡◌};
ghost use Rattle.recorder_model.specs.Files.{WhereTold};
ghost use Rattle.command_line.specs.Words.{row_of};
ghost use Rattle.command_line.specs.Views.{texts};
ghost use Rattle.screenrec.specs.Answers.{counts, HasCauses, IsSilent};
ghost use Rattle.screenrec.specs.Recording.{serial_service, Answers, RefusesEmpty, NamesFile, Leaves, Reports, IsComplete};

use crate::alone::serve;
use crate::{Outcome, Status};
use command_line::{Row, read_words};
use edges::{Shelf, Sink};
use std::alloc::Global;

/// Serves the words `serial SIZE EFFORT KEY OUT FILE`, alone or after `hash`, `segments` or `moves`: replays the paint
/// script FILE on one desktop, and writes its cut pictures to OUT as a lossless H.265 stream. It answers `Usage` for all
/// other words.
pub fn run_serial<F: Shelf, K: Sink>(
    alloc: Global,
    words: &[&str],
    shelf: &mut F,
    report: &mut K,
) -> Outcome
    // Usage comes exactly where the words are in no row, but for want of memory.
    ensures words { Answers (serial_service (row_of (texts words.now))) result.status }
    // A fault comes only where its count rose.
    ensures causes { HasCauses
        (counts (F.read_faults shelf.old) (F.write_faults shelf.old) (K.faults report.old))
        (counts (F.read_faults shelf.new) (F.write_faults shelf.new) (K.faults report.new))
        result.status }
    // Where no recording began there is no order, and nothing was written.
    ensures refused { RefusesEmpty (serial_service (row_of (texts words.now))) result.status result.order result.written }
    // A file that is named is one of the words.
    ensures named { NamesFile (serial_service (row_of (texts words.now))) result.status }
    // What each status says of the scripts, the order and the files; with Ok, that OUT is the stream of the cut pictures,
    // and that H.265 decodes it to them.
    ensures files { WhereTold (F.files shelf.old) (F.files shelf.new) (λ before after.
        Leaves (serial_service (row_of (texts words.now))) before after result.status result.order result.written) }
    // The report is written at the end alone,
    ensures silent { WhereTold (K.text report.old) (K.text report.new) (λ was now. IsSilent result.status was now) }
    // what stands beside it stays as it was,
    ensures beside { WhereTold (K.beside report.old) (K.beside report.new) (λ was now. now ≡ was) }
    ensures through { K.through report.new ≡ K.through report.old }
    // and with Ok it grew by its text.
    ensures reported { WhereTold (F.files shelf.old) (F.files shelf.new) (λ before after.
        WhereTold (K.text report.old) (K.text report.new) (λ was now.
        Reports (serial_service (row_of (texts words.now))) before was now result.status result.order result.written)) }
    // With good words and files, and where no count rose, only want of memory is between the call and Ok.
    ensures complete { WhereTold (F.files shelf.old) (F.files shelf.new) (λ before after.
        IsComplete (serial_service (row_of (texts words.now))) before
        (counts (F.read_faults shelf.old) (F.write_faults shelf.old) (K.faults report.old))
        (counts (F.read_faults shelf.new) (F.write_faults shelf.new) (K.faults report.new))
        result.status) }
{
    match read_words(words) {
        Some(Row::Serial(words)) => serve(alloc, &words, shelf, report),
        _ => Outcome::refused(alloc, Status::Usage),
    }
}
