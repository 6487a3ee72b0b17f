//! What a recording reports, and the decoding of a stream.
ghost use Rattle.std.specs.Prelude.{◌≡◌, IfOk};
ghost use Rattle.std.specs.String.{string_bytes};
ghost use Rattle.recorder_model.specs.Files.{WhereTold};
ghost use Rattle.recorder_model.specs.Report.{report_text, decode_text};
ghost use Rattle.edges.specs.Causes.{HasWriteCause};
ghost use Rattle.edges.specs.Sink.{Writes};

use edges::{Sink, WriteError};
use h265_model::NoMemory;
use px_plane::Size;
use std::alloc::Global;

// Three lines: the numbers of pictures, of paints, and of the stream's bytes.
fn text(alloc: Global, pictures: u32, paints: u32, bytes: u64) -> Result<String, NoMemory>
    ensures { IfOk result (λ text. string_bytes text ≡ report_text pictures paints bytes) }
{
    Ok(format!(in alloc; "pictures {pictures}\npaints {paints}\nbytes {bytes}\n")?)
}

/// Writes the report in one call.
///
/// # Errors
///
/// `Failed` only where the report's count of faults rose, and a part of the text may then have been written; `NoMemory`.
pub fn write_report<K: Sink>(
    alloc: Global,
    pictures: u32,
    paints: u32,
    bytes: u64,
    report: &mut K,
) -> Result<(), WriteError>
    ensures text { WhereTold (K.text report.old) (K.text report.new) (λ was now. Writes (report_text pictures paints bytes) was now result) }
    ensures cause { HasWriteCause (K.faults report.old) (K.faults report.new) result }
    ensures beside { WhereTold (K.beside report.old) (K.beside report.new) (λ was now. now ≡ was) }
    ensures through { K.through report.new ≡ K.through report.old }
{
    let Ok(text) = text(alloc, pictures, paints, bytes) else {
        return Err(WriteError::NoMemory);
    };
    report.write(text.as_bytes())
}

// Three lines: the number of pictures, their size, and the bytes of their frames.
fn decoded_text(alloc: Global, pictures: u32, size: Size, bytes: u64) -> Result<String, NoMemory>
    ensures { IfOk result (λ text. string_bytes text ≡ decode_text pictures size.w size.h bytes) }
{
    let (w, h) = (size.w(), size.h());
    Ok(format!(in alloc; "pictures {pictures}\nsize {w}x{h}\nbytes {bytes}\n")?)
}

/// Writes the report of a stream that was decoded in one call.
///
/// # Errors
///
/// `Failed` only where the report's count of faults rose, and a part of the text may then have been written; `NoMemory`.
pub fn write_decode_report<K: Sink>(
    alloc: Global,
    pictures: u32,
    size: Size,
    bytes: u64,
    report: &mut K,
) -> Result<(), WriteError>
    ensures text { WhereTold (K.text report.old) (K.text report.new) (λ was now. Writes (decode_text pictures size.w size.h bytes) was now result) }
    ensures cause { HasWriteCause (K.faults report.old) (K.faults report.new) result }
    ensures beside { WhereTold (K.beside report.old) (K.beside report.new) (λ was now. now ≡ was) }
    ensures through { K.through report.new ≡ K.through report.old }
{
    let Ok(text) = decoded_text(alloc, pictures, size, bytes) else {
        return Err(WriteError::NoMemory);
    };
    report.write(text.as_bytes())
}
