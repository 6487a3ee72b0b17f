//! Files in memory that never fail.
ghost use Rattle.std.specs.Prelude.{◌≡◌, ◌++◌, Some, IfOk, OnOk, OnErr, IsOkUnless};
ghost use Rattle.std.specs.Option.{option_copied};
ghost use Rattle.std.specs.FinMap.{empty, get, insert};

use crate::{ReadError, Shelf, WriteError};
use h265_model::NoMemory;
use std::alloc::Global;
use std::collections::BTreeMap;
use std::marker::Model;

/// Files in memory that never fail, seen as a map from names to bytes. A name that was never put reads as an empty file.
#[derive(Drop)]
pub struct CalmShelf {
    alloc: Global,
    files: BTreeMap<String, Vec<u8>>,
}

impl Model for CalmShelf {
    ghost use Rattle.std.specs.Coded.{coded_ℕ, coded_list};
    ghost use Rattle.std.specs.FinMap.{code};
    ghost use Rattle.recorder_model.specs.Files.{Files};
    ghost use Rattle.edges.specs.FileMap.{files_of};

    ghost Value = { Files };

    ghost coded = { code (coded_list coded_ℕ) (coded_list coded_ℕ) };

    ghost view = { λ s. files_of s.files };
}

impl CalmShelf {
    /// No files. It takes no memory.
    pub fn new(alloc: Global) -> Result<CalmShelf, NoMemory>
        ensures { IfOk result (λ shelf. shelf ≡ empty) }
    {
        Ok(CalmShelf {
            alloc,
            files: BTreeMap::new(alloc),
        })
    }

    /// Sets a file. Where there is no memory for it, all files are as they were.
    pub fn put(&mut self, name: &str, bytes: &[u8]) -> Result<(), NoMemory>
        ensures ok { OnOk result (self.new ≡ insert self.old name.now bytes.now) }
        ensures err { OnErr result (self.new ≡ self.old) }
    {
        let bytes = Vec::from_slice(self.alloc, bytes)?;
        let name = String::from_str(self.alloc, name)?;
        self.files.insert(name, bytes)?;
        Ok(())
    }

    /// The bytes of a file, or `None` exactly where there is no such file.
    pub fn file(&self, name: &str) -> Option<&[u8]>
        ensures { option_copied result ≡ get self.now name.now }
    {
        match self.files.get(name) {
            Some(bytes) => Some(bytes.as_slice()),
            None => None,
        }
    }
}

impl Shelf for CalmShelf {
    ghost files = { λ s. Some s };

    ghost read_faults = { λ _. 0 };

    ghost write_faults = { λ _. 0 };

    fn read_whole(&mut self, alloc: Global, name: &str, limit: u64) -> Result<Vec<u8>, ReadError> {
        let bytes = self.file(name).unwrap_or(&[]);
        if bytes.len() as u64 > limit {
            return Err(ReadError::TooLarge);
        }
        Vec::from_slice(alloc, bytes).map_err(|_| ReadError::NoMemory)
    }

    fn create(&mut self, name: &str) -> Result<(), WriteError> {
        self.put(name, &[])?;
        Ok(())
    }

    fn append(&mut self, name: &str, piece: &[u8]) -> Result<(), WriteError> {
        match self.files.get_mut(name) {
            Some(bytes) => extend(bytes, piece),
            None => {
                self.put(name, piece)?;
                Ok(())
            }
        }
    }
}

// Adds the piece to the end.
fn extend(bytes: &mut Vec<u8>, piece: &[u8]) -> Result<(), WriteError>
    ensures ok { OnOk result (bytes.new.items ≡ bytes.old.items ++ piece.now) }
    ensures err { OnErr result (bytes.new.items ≡ bytes.old.items) }
    ensures memory { IsOkUnless result WriteError.NoMemory }
{
    match bytes.extend_from_slice(piece) {
        Ok(()) => Ok(()),
        Err(_) => Err(WriteError::NoMemory),
    }
}
