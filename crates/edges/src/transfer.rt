//! Whole reads and writes over a reader and a writer.
ghost use Rattle.std.specs.Prelude.{◌≡◌, IfSome, IsSomeAnd, IsOkUnless};
ghost use Rattle.edges.specs.Shelf.{ReadAnswer};
ghost use Rattle.edges.specs.Sink.{Writes};

use crate::{ReadError, WriteError};
use std::alloc::Global;
use std::io::{ErrorKind, Read, Write};

// How many bytes a reader has room for at first.
const FIRST_ROOM: usize = 64 * 1024;

// All bytes of a reader that has at most `limit` of them. It reads at most one byte more.
pub(crate) fn read_up_to<R: Read + Drop>(
    alloc: Global,
    reader: R,
    limit: u64,
) -> Result<Vec<u8>, ReadError>
    ensures { IfSome (R.remaining reader) (λ bytes. ReadAnswer limit bytes result) }
{
    let Ok(mut bytes) = Vec::with_capacity(alloc, FIRST_ROOM) else {
        return Err(ReadError::NoMemory);
    };
    match reader.take(limit.saturating_add(1)).read_to_end(&mut bytes) {
        Ok(_) if bytes.len() as u64 > limit => Err(ReadError::TooLarge),
        Ok(_) => Ok(bytes),
        Err(error) if error.kind() == ErrorKind::OutOfMemory => Err(ReadError::NoMemory),
        Err(_) => Err(ReadError::Failed),
    }
}

// Writes all of the piece. A write that takes no byte of it is a fault, and one that a signal cut off is tried again.
pub(crate) fn write_whole<W: Write>(writer: &mut W, piece: &[u8]) -> Result<(), WriteError>
    ensures text { IfSome (W.contents writer.old) (λ before. IsSomeAnd (W.contents writer.new) (λ after.
        Writes piece.now before after result)) }
    ensures failed { IsOkUnless result WriteError.Failed }
{
    let mut rest = piece;
    for _ in 0..u64::MAX {
        if rest.is_empty() {
            return Ok(());
        }
        match writer.write(rest) {
            Ok(0) => return Err(WriteError::Failed),
            Ok(count) => rest = &rest[count..],
            Err(error) if error.kind() == ErrorKind::Interrupted => {}
            Err(_) => return Err(WriteError::Failed),
        }
    }
    Err(WriteError::Failed)
}
