//! A stream read back: its pictures, written to a file as frames.
ghost use Rattle.std.specs.Prelude.{◌≡◌, ◌≤◌, ◌^◌, [], ◌∷◌, length, IsOk, IfOk, IfErr, OnOk, None};
ghost use Rattle.std.specs.FinMap.{insert};
ghost use Rattle.h265_model.specs.Decode.{decode};
ghost use Rattle.recorder_model.specs.Files.{Files, WhereTold, Rose, file_at};
ghost use Rattle.command_line.specs.Words.{row_of};
ghost use Rattle.command_line.specs.Views.{texts};
ghost use Rattle.edges.specs.Causes.{HasWriteCause};
ghost use Rattle.screenrec.specs.Accepted.{HasInputCause};
ghost use Rattle.screenrec.specs.Alone.{IsAfterReading, IsOfReport, sink_result};
ghost use Rattle.screenrec.specs.Answers.{counts, HasCauses, IsSilent};
ghost use Rattle.screenrec.specs.Decoding.{most_stream_bytes, IsOfDecoding, LeavesStream, ReportsStream, IsCompleteDecoding, IsServable};
ghost use Rattle.screenrec.specs.Recording.{decode_service, Answers, RefusesEmpty, RefusesTask, NamesFile, IsOfFile, Leaves, Reports, IsComplete};
ghost use Rattle.screenrec.specs.Served.{decode_view};
ghost use Rattle.screenrec.specs.Walks.{stream_status, Walks, Checks, HoldsStream, IsOfStream, IsOpened, next_frame, StepsOn, AppendsFrame, EndsFrames, ReportsPictures};

use crate::alone::status_of;
use crate::report::write_decode_report;
use crate::{Outcome, Status};
use command_line::{DecodeWords, Row, read_words};
use edges::{ReadError, Shelf, Sink, WriteError};
use frames::append_frame;
use h265_model::NoMemory;
use px_plane::Size;
use std::alloc::Global;
use stream_decode::{DecodeError, Reader};

/// The most bytes of a stream.
pub const MOST_STREAM_BYTES: u64 = 268_435_456;

/// Serves the words `decode IN OUT`: decodes the stream IN, and writes its pictures to OUT, one frame after another. The
/// whole stream is checked before OUT is made. It answers `Usage` for all other words.
pub fn run_decode<F: Shelf, K: Sink>(
    alloc: Global,
    words: &[&str],
    shelf: &mut F,
    report: &mut K,
) -> Outcome
    // Usage comes exactly where the words are in no row, but for want of memory.
    ensures words { Answers (decode_service (row_of (texts words.now))) result.status }
    // A fault comes only where its count rose.
    ensures causes { HasCauses
        (counts (F.read_faults shelf.old) (F.write_faults shelf.old) (K.faults report.old))
        (counts (F.read_faults shelf.new) (F.write_faults shelf.new) (K.faults report.new))
        result.status }
    // There is no order, and where the words or the stream are refused, nothing was written.
    ensures refused { RefusesEmpty (decode_service (row_of (texts words.now))) result.status result.order result.written }
    // A file that is named is IN.
    ensures named { NamesFile (decode_service (row_of (texts words.now))) result.status }
    // What each status says of the stream and the files; with Ok, that OUT is the frames of the pictures to which H.265
    // decodes IN, and with BadStream, that decoding stops at this NAL unit.
    ensures files { WhereTold (F.files shelf.old) (F.files shelf.new) (λ before after.
        Leaves (decode_service (row_of (texts words.now))) before after result.status result.order result.written) }
    // The report is written at the end alone,
    ensures silent { WhereTold (K.text report.old) (K.text report.new) (λ was now. IsSilent result.status was now) }
    // what stands beside it stays as it was,
    ensures beside { WhereTold (K.beside report.old) (K.beside report.new) (λ was now. now ≡ was) }
    ensures through { K.through report.new ≡ K.through report.old }
    // and with Ok it grew by its text.
    ensures reported { WhereTold (F.files shelf.old) (F.files shelf.new) (λ before after.
        WhereTold (K.text report.old) (K.text report.new) (λ was now.
        Reports (decode_service (row_of (texts words.now))) before was now result.status result.order result.written)) }
    // With a good stream, and where no count rose, only want of memory is between the call and Ok; and a stream at which
    // decoding stops is refused with the number of the NAL unit.
    ensures complete { WhereTold (F.files shelf.old) (F.files shelf.new) (λ before after.
        IsComplete (decode_service (row_of (texts words.now))) before
        (counts (F.read_faults shelf.old) (F.write_faults shelf.old) (K.faults report.old))
        (counts (F.read_faults shelf.new) (F.write_faults shelf.new) (K.faults report.new))
        result.status) }
{
    match read_words(words) {
        Some(Row::Decode(words)) => serve_decode(alloc, &words, shelf, report),
        _ => Outcome::refused(alloc, Status::Usage),
    }
}

/// Serves the words behind `decode`: reads and checks the stream, writes its frames, and reports.
pub(crate) fn serve_decode<F: Shelf, K: Sink>(
    alloc: Global,
    words: &DecodeWords<'_>,
    shelf: &mut F,
    report: &mut K,
) -> Outcome
    ensures words { IsOfDecoding result.status }
    ensures causes { HasCauses
        (counts (F.read_faults shelf.old) (F.write_faults shelf.old) (K.faults report.old))
        (counts (F.read_faults shelf.new) (F.write_faults shelf.new) (K.faults report.new))
        result.status }
    ensures order { result.order ≡ [] }
    ensures refused { RefusesTask result.status result.order result.written }
    ensures named { IsOfFile (words.now.input.now ∷ []) result.status }
    ensures files { WhereTold (F.files shelf.old) (F.files shelf.new) (λ before after.
        LeavesStream (file_at before words.now.input.now) words.now.out.now before after result.order result.written result.status) }
    ensures silent { WhereTold (K.text report.old) (K.text report.new) (λ was now. IsSilent result.status was now) }
    ensures beside { WhereTold (K.beside report.old) (K.beside report.new) (λ was now. now ≡ was) }
    ensures through { K.through report.new ≡ K.through report.old }
    ensures reported { WhereTold (F.files shelf.old) (F.files shelf.new) (λ before after.
        WhereTold (K.text report.old) (K.text report.new) (λ was now.
        ReportsStream (file_at before words.now.input.now) result.written was now result.status)) }
    ensures complete { WhereTold (F.files shelf.old) (F.files shelf.new) (λ before after.
        IsCompleteDecoding (file_at before words.now.input.now)
        (counts (F.read_faults shelf.old) (F.write_faults shelf.old) (K.faults report.old))
        (counts (F.read_faults shelf.new) (F.write_faults shelf.new) (K.faults report.new))
        result.status) }
{
    match read_stream(alloc, words.input, shelf) {
        Ok(bytes) => decode_into(alloc, &bytes, words.out, shelf, report),
        Err(status) => Outcome::refused(alloc, status),
    }
}

// ---- the first walk

// Reads the stream, and walks through it once.
fn read_stream<F: Shelf>(alloc: Global, name: &str, shelf: &mut F) -> Result<Vec<u8>, Status>
    ensures cause { HasInputCause (F.read_faults shelf.old) (F.read_faults shelf.new) result }
    ensures writes { F.write_faults shelf.new ≡ F.write_faults shelf.old }
    ensures status { IfErr result IsOfStream }
    ensures servable { IfOk result (λ bytes. IsServable bytes.items) }
    ensures files { WhereTold (F.files shelf.old) (F.files shelf.new) (λ before after.
        (after ≡ before) × HoldsStream (file_at before name.now) result) }
{
    let bytes = match shelf.read_whole(alloc, name, MOST_STREAM_BYTES) {
        Ok(bytes) => bytes,
        Err(ReadError::Failed) => return Err(Status::InputFault { file: 0 }),
        Err(ReadError::TooLarge) => return Err(Status::TooLarge { file: 0 }),
        Err(ReadError::NoMemory) => return Err(Status::NoMemory),
    };
    if bytes.len() as u64 > MOST_STREAM_BYTES {
        return Err(Status::TooLarge { file: 0 });
    }
    match check(alloc, &bytes) {
        Ok(()) => Ok(bytes),
        Err(error) => Err(refusal(error)),
    }
}

// The status of a stream that isn't read on.
fn refusal(error: DecodeError) -> Status
    ensures { result ≡ stream_status error }
{
    match error {
        DecodeError::BadStream { at } => Status::BadStream { at },
        DecodeError::NoMemory => Status::NoMemory,
    }
}

// Walks through the whole stream, up to the NAL unit at which decoding stops, if it does.
fn check(alloc: Global, bytes: &[u8]) -> Result<(), DecodeError>
    requires { length bytes.now ≤ most_stream_bytes }
    ensures { Checks bytes.now result }
{
    match Reader::new(alloc, bytes) {
        Ok(reader) => walk(reader),
        Err(error) => Err(error),
    }
}

// Reads all pictures.
fn walk(mut reader: Reader<'_>) -> Result<(), DecodeError>
    ensures { Walks reader.entry.stop result }
{
    loop {
        match reader.next() {
            Ok(true) => {}
            Ok(false) => return Ok(()),
            Err(error) => return Err(error),
        }
    }
}

// ---- the second walk

// How the writing of frames ended, and of the frames that were appended whole how many there are and their bytes.
#[derive(Drop)]
struct Written {
    result: Result<(), WriteError>,
    pictures: u32,
    bytes: u64,
}

// Writes the frames of a stream that was checked, and reports them.
fn decode_into<F: Shelf, K: Sink>(
    alloc: Global,
    bytes: &[u8],
    out: &str,
    shelf: &mut F,
    report: &mut K,
) -> Outcome
    requires servable { IsServable bytes.now }
    ensures status { IsAfterReading result.status }
    ensures order { result.order ≡ [] }
    ensures sink { HasWriteCause (F.write_faults shelf.old) (F.write_faults shelf.new) (sink_result result.status) }
    ensures reads { F.read_faults shelf.new ≡ F.read_faults shelf.old }
    ensures later { K.faults report.old ≤ K.faults report.new }
    ensures cause { result.status ≡ Status.ReportFault → Rose (K.faults report.old) (K.faults report.new) }
    ensures kept { result.status ≡ Status.Ok → K.faults report.new ≡ K.faults report.old }
    ensures files { WhereTold (F.files shelf.old) (F.files shelf.new) (λ before after.
        LeavesStream bytes.now out.now before after result.order result.written result.status) }
    ensures text { WhereTold (K.text report.old) (K.text report.new) (λ was now.
        ReportsStream bytes.now result.written was now result.status) }
    ensures beside { WhereTold (K.beside report.old) (K.beside report.new) (λ was now. now ≡ was) }
    ensures through { K.through report.new ≡ K.through report.old }
{
    let Ok(reader) = open(alloc, bytes) else {
        return Outcome::refused(alloc, Status::NoMemory);
    };
    let size = reader.size();
    if let Err(error) = shelf.create(out) {
        return Outcome::refused(alloc, status_of(error));
    }
    let written = write_frames(alloc, reader, out, shelf);
    if let Err(error) = written.result {
        return Outcome::without_order(alloc, status_of(error), written.bytes);
    }
    let status = report_pictures(alloc, written.pictures, size, written.bytes, report);
    Outcome::without_order(alloc, status, written.bytes)
}

// Opens a stream that was checked once more.
fn open(alloc: Global, bytes: &[u8]) -> Result<Reader<'_>, NoMemory>
    requires servable { IsServable bytes.now }
    ensures { IfOk result (λ reader. IsOpened bytes.now reader) }
{
    match Reader::new(alloc, bytes) {
        Ok(reader) => Ok(reader),
        Err(DecodeError::NoMemory) => Err(NoMemory),
        Err(DecodeError::BadStream { .. }) => unreachable!(),
    }
}

// Appends the frames of all pictures to the file.
fn write_frames<F: Shelf>(
    alloc: Global,
    mut reader: Reader<'_>,
    name: &str,
    shelf: &mut F,
) -> Written
    requires whole { reader.stop ≡ None }
    requires few { length reader.pictures ≤ most_stream_bytes }
    ensures cause { HasWriteCause (F.write_faults shelf.old) (F.write_faults shelf.new) result.result }
    ensures reads { F.read_faults shelf.new ≡ F.read_faults shelf.old }
    ensures pictures { OnOk result.result (result.pictures ≡ length reader.entry.pictures) }
    ensures files { WhereTold (F.files shelf.old) (F.files shelf.new) (λ before after. (start : Files) →
        before ≡ insert start name.now [] →
        EndsFrames reader.entry.size reader.entry.pictures name.now start after result.result result.bytes) }
{
    let mut frame = Vec::new(alloc);
    let mut pictures = 0;
    let mut bytes = 0;
    loop {
        match write_next(&mut reader, &mut frame, name, shelf) {
            Ok(Some(count)) => {
                pictures += 1;
                bytes += count;
            }
            Ok(None) => {
                return Written {
                    result: Ok(()),
                    pictures,
                    bytes,
                };
            }
            Err(error) => {
                return Written {
                    result: Err(error),
                    pictures,
                    bytes,
                };
            }
        }
    }
}

// Reads the next picture and appends its frame, and tells the bytes of the frame, or `None` at the end of the stream.
// The buffer is used for each frame anew.
fn write_next<F: Shelf>(
    reader: &mut Reader<'_>,
    frame: &mut Vec<u8>,
    name: &str,
    shelf: &mut F,
) -> Result<Option<u64>, WriteError>
    requires whole { reader.old.stop ≡ None }
    ensures cause { HasWriteCause (F.write_faults shelf.old) (F.write_faults shelf.new) result }
    ensures reads { F.read_faults shelf.new ≡ F.read_faults shelf.old }
    ensures read { StepsOn result reader.old reader.new }
    ensures files { WhereTold (F.files shelf.old) (F.files shelf.new) (λ before after.
        AppendsFrame name.now (next_frame reader.old) before after result) }
{
    match reader.next() {
        Ok(true) => {}
        Ok(false) => return Ok(None),
        Err(DecodeError::NoMemory) => return Err(WriteError::NoMemory),
        Err(DecodeError::BadStream { .. }) => unreachable!(),
    }
    let _width = reader.size().w();
    frame.clear();
    append_frame(frame, reader.picture())?;
    shelf.append(name, frame)?;
    Ok(Some(frame.len() as u64))
}

// Reports the pictures whose frames were written.
fn report_pictures<K: Sink>(
    alloc: Global,
    pictures: u32,
    size: Size,
    bytes: u64,
    report: &mut K,
) -> Status
    ensures status { IsOfReport result }
    ensures later { K.faults report.old ≤ K.faults report.new }
    ensures cause { result ≡ Status.ReportFault → Rose (K.faults report.old) (K.faults report.new) }
    ensures kept { result ≡ Status.Ok → K.faults report.new ≡ K.faults report.old }
    ensures text { WhereTold (K.text report.old) (K.text report.new) (λ was now. ReportsPictures pictures size bytes was now result) }
    ensures beside { WhereTold (K.beside report.old) (K.beside report.new) (λ was now. now ≡ was) }
    ensures through { K.through report.new ≡ K.through report.old }
{
    match write_decode_report(alloc, pictures, size, bytes, report) {
        Ok(()) => Status::Ok,
        Err(WriteError::Failed) => Status::ReportFault,
        Err(WriteError::NoMemory) => Status::NoMemory,
    }
}
