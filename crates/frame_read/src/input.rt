//! The bytes of a reader of `std`, such as the standard input.
ghost use Rattle.std.specs.Prelude.{◌≡◌};
ghost use Rattle.std.specs.Io.{ReadsAtMost};
ghost use Rattle.std.specs.Io.KnownBytes.{ReadConsumes};

use crate::{ReadFailed, Source};
use std::io;
use std::io::{Error, ErrorKind, Read};

/// The bytes that a reader gives, with a count of the reads that failed.
#[derive(Drop)]
pub struct InputSource<R: Read> {
    reader: R,
    faults: u64,
    last: Option<Error>,
}

impl<R: Read + Drop> InputSource<R> {
    /// No read failed yet.
    pub fn new(reader: R) -> InputSource<R>
        ensures reader { result.reader ≡ reader }
        ensures faults { result.faults ≡ 0 }
    {
        InputSource {
            reader,
            faults: 0,
            last: None,
        }
    }

    /// Why the last read failed that did.
    pub fn last_error(&self) -> Option<&Error> {
        self.last.as_ref()
    }
}

// One read; one that a signal cut off is tried again.
fn read_some<R: Read>(reader: &mut R, out: &mut [u8]) -> io::Result<usize>
    ensures bound { ReadsAtMost result out.new }
    ensures bytes { ReadConsumes (R.remaining reader.old) (R.remaining reader.new) result out.new }
{
    for _ in 0..u64::MAX {
        match reader.read(out) {
            Err(error) if error.kind() == ErrorKind::Interrupted => {}
            outcome => return outcome,
        }
    }
    Err(Error::from(ErrorKind::Interrupted))
}

impl<R: Read + Drop> Source for InputSource<R> {
    ghost left = { λ s. R.remaining s.reader };

    ghost faults = { λ s. s.faults };

    fn read(&mut self, out: &mut [u8]) -> Result<usize, ReadFailed> {
        match read_some(&mut self.reader, out) {
            Ok(count) => Ok(count),
            Err(error) => {
                self.faults = self.faults.saturating_add(1);
                self.last = Some(error);
                Err(ReadFailed)
            }
        }
    }
}
