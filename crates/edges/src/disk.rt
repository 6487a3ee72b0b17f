//! The real files.
ghost use Rattle.std.specs.Prelude.{◌≡◌, ◌≢◌, None, Some, Err, IsOkUnless};
ghost use Rattle.recorder_model.specs.Files.{WhereTold};
ghost use Rattle.edges.specs.Causes.{HasReadCause, HasWriteCause};
ghost use Rattle.edges.specs.Counts.{Disk, after_read, after_create, faults_after};
ghost use Rattle.edges.specs.Shelf.{ReadsWhole, Creates, AppendsTo};

use crate::transfer::{read_up_to, write_whole};
use crate::{ReadError, Shelf, WriteError};
use std::alloc::Global;
use std::fs;
use std::marker::Model;
use std::rt::Files;

// The file that was created last, with its name.
#[derive(Drop)]
struct Created<W> {
    name: String,
    file: W,
}

/// The real files. It tells none of their bytes: contracts see the name of the file that it created last, and its counts.
#[derive(Drop)]
pub struct DiskShelf<'a, R: Files> {
    alloc: Global,
    host: &'a R,
    created: Option<Created<R::File>>,
    read_faults: u64,
    write_faults: u64,
}

impl<'a, R: Files> Model for DiskShelf<'a, R> {
    ghost use Rattle.std.specs.Prelude.{option_map, string_bytes};
    ghost use Rattle.edges.specs.Counts.{Disk};

    ghost Value = { Disk };

    ghost view = { λ s. record { created = option_map (λ c. string_bytes c.name) s.created; read_faults = s.read_faults; write_faults = s.write_faults } };
}

impl<'a, R: Files + Sync> DiskShelf<'a, R> {
    /// No file was created yet. It takes no memory, and keeps what it borrows.
    pub fn new(alloc: Global, host: &'a R) -> DiskShelf<'a, R>
        ensures { result ≡ record { created = None; read_faults = 0; write_faults = 0 } }
    {
        DiskShelf {
            alloc,
            host,
            created: None,
            read_faults: 0,
            write_faults: 0,
        }
    }
}

// Reads a file of the host.
fn read_file<R: Files>(
    alloc: Global,
    host: &R,
    name: &str,
    limit: u64,
) -> Result<Vec<u8>, ReadError> {
    match fs::open(host, name) {
        Ok(file) => read_up_to(alloc, file, limit),
        Err(_) => Err(ReadError::Failed),
    }
}

impl<'a, R: Files + Sync> Shelf for DiskShelf<'a, R> {
    ghost files = { λ _. None };

    ghost read_faults = { λ s. s.read_faults };

    ghost write_faults = { λ s. s.write_faults };

    fn read_whole(&mut self, alloc: Global, name: &str, limit: u64) -> Result<Vec<u8>, ReadError>
        ensures cause { HasReadCause self.old.read_faults self.new.read_faults result }
        ensures writes { self.new.write_faults ≡ self.old.write_faults }
        ensures after { self.new ≡ after_read self.old result }
    {
        let outcome = read_file(alloc, self.host, name, limit);
        if let Err(ReadError::Failed) = outcome {
            self.read_faults = self.read_faults.saturating_add(1);
        }
        outcome
    }

    fn create(&mut self, name: &str) -> Result<(), WriteError>
        ensures cause { HasWriteCause self.old.write_faults self.new.write_faults result }
        ensures reads { self.new.read_faults ≡ self.old.read_faults }
        ensures after { self.new ≡ after_create name.now self.old result }
    {
        let Ok(kept) = String::from_str(self.alloc, name) else {
            return Err(WriteError::NoMemory);
        };
        match fs::create(self.host, name) {
            Ok(file) => {
                self.created = Some(Created { name: kept, file });
                Ok(())
            }
            Err(_) => {
                self.write_faults = self.write_faults.saturating_add(1);
                Err(WriteError::Failed)
            }
        }
    }

    fn append(&mut self, name: &str, piece: &[u8]) -> Result<(), WriteError>
        ensures cause { HasWriteCause self.old.write_faults self.new.write_faults result }
        ensures reads { self.new.read_faults ≡ self.old.read_faults }
        ensures after { self.new ≡ record self.old { write_faults = faults_after self.old.write_faults result } }
        ensures other_file { self.old.created ≢ Some name.now → result ≡ Err WriteError.Failed }
        ensures failed { IsOkUnless result WriteError.Failed }
    {
        let outcome = match &mut self.created {
            Some(created) if created.name.as_str() == name => write_whole(&mut created.file, piece),
            _ => Err(WriteError::Failed),
        };
        if outcome.is_err() {
            self.write_faults = self.write_faults.saturating_add(1);
        }
        outcome
    }
}
