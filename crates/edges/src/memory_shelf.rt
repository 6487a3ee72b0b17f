//! Files in memory, with lists of calls that fail.
ghost use Rattle.std.specs.Prelude.{◌≡◌, ◌++◌, Some, None, [], if◌then◌else◌, IfOk, OnOk, OnErr};
ghost use Rattle.std.specs.Option.{option_copied};
ghost use Rattle.std.specs.FinMap.{empty, get, insert};
ghost use Rattle.recorder_model.specs.Files.{WhereTold, file_at};
ghost use Rattle.edges.specs.Causes.{HasReadCause, HasWriteCause};
ghost use Rattle.edges.specs.MemoryFiles.{MemoryFiles, is_listed, FoundAnswer, ReadsMemory, CreatesMemory, AppendsMemory};
ghost use Rattle.edges.specs.Shelf.{ReadsWhole, Creates, AppendsTo};

use crate::memory::failing_at;
use crate::{CalmShelf, ReadError, Shelf, WriteError};
use h265_model::NoMemory;
use std::alloc::Global;
use std::marker::Model;

/// Files in memory. Reads and writes are counted from 0, `create` and `append` both as writes, and some of them fail: a
/// read is named by its number, a write by its number with how many bytes of its piece it takes first.
///
/// A read of a name without a file is a fault too. Where there is no memory for a call, nothing changes: the next call
/// has that call's number. Counts stay at the last value of a `u64`.
#[derive(Drop)]
pub struct MemoryShelf {
    files: CalmShelf,
    read_faults: u64,
    write_faults: u64,
    reads: u64,
    writes: u64,
    failing_reads: Vec<u32>,
    failing_writes: Vec<(u32, u32)>,
}

impl Model for MemoryShelf {
    ghost use Rattle.edges.specs.MemoryFiles.{MemoryFiles, memory_files_code};

    ghost Value = { MemoryFiles };

    ghost coded = { memory_files_code };

    ghost view = { λ s. record {
      files = s.files;
      read_faults = s.read_faults;
      write_faults = s.write_faults;
      reads = s.reads;
      writes = s.writes;
      failing_reads = s.failing_reads.items;
      failing_writes = s.failing_writes.items;
    } };
}

impl MemoryShelf {
    /// No files, and no call so far.
    pub fn new(
        alloc: Global,
        failing_reads: &[u32],
        failing_writes: &[(u32, u32)],
    ) -> Result<MemoryShelf, NoMemory>
        ensures { IfOk result (λ shelf. shelf ≡ record {
          files = empty;
          read_faults = 0;
          write_faults = 0;
          reads = 0;
          writes = 0;
          failing_reads = failing_reads.now;
          failing_writes = failing_writes.now;
        }) }
    {
        let failing_reads = Vec::from_slice(alloc, failing_reads)?;
        let failing_writes = Vec::from_slice(alloc, failing_writes)?;
        Ok(MemoryShelf {
            files: CalmShelf::new(alloc)?,
            read_faults: 0,
            write_faults: 0,
            reads: 0,
            writes: 0,
            failing_reads,
            failing_writes,
        })
    }

    /// Sets a file. It counts as no write. Where there is no memory for it, all files are as they were.
    pub fn put(&mut self, name: &str, bytes: &[u8]) -> Result<(), NoMemory>
        ensures ok { OnOk result (self.new ≡ record self.old { files = insert self.old.files name.now bytes.now }) }
        ensures err { OnErr result (self.new ≡ self.old) }
    {
        self.files.put(name, bytes)?;
        Ok(())
    }

    /// The bytes of a file, or `None` exactly where there is no such file.
    pub fn file(&self, name: &str) -> Option<&[u8]>
        ensures { option_copied result ≡ get self.now.files name.now }
    {
        self.files.file(name)
    }
}

// Whether the call of this number is in the list.
fn is_failing(failing: &[u32], call: u64) -> bool
    ensures { result ≡ is_listed failing.now call }
{
    for &number in failing {
        if u64::from(number) == call {
            return true;
        }
    }
    false
}

// A copy of a file's bytes, where there are at most `limit` of them, or the answer of a read that fails.
fn copy_of(
    alloc: Global,
    files: &CalmShelf,
    is_failing: bool,
    name: &str,
    limit: u64,
) -> Result<Vec<u8>, ReadError>
    ensures { FoundAnswer limit (if is_failing then None else get files.now name.now) result }
{
    match files.file(name) {
        Some(bytes) if !is_failing => {
            if bytes.len() as u64 > limit {
                return Err(ReadError::TooLarge);
            }
            Vec::from_slice(alloc, bytes).map_err(|_| ReadError::NoMemory)
        }
        _ => Err(ReadError::Failed),
    }
}

// Adds the piece to the end of a file.
fn add(files: &mut CalmShelf, name: &str, piece: &[u8]) -> Result<(), NoMemory>
    ensures ok { OnOk result (files.new ≡ insert files.old name.now (file_at files.old name.now ++ piece.now)) }
    ensures err { OnErr result (files.new ≡ files.old) }
{
    match files.append(name, piece) {
        Ok(()) => Ok(()),
        Err(_) => Err(NoMemory),
    }
}

impl Shelf for MemoryShelf {
    ghost files = { λ s. Some s.files };

    ghost read_faults = { λ s. s.read_faults };

    ghost write_faults = { λ s. s.write_faults };

    fn read_whole(&mut self, alloc: Global, name: &str, limit: u64) -> Result<Vec<u8>, ReadError>
        ensures files { ReadsWhole name.now limit self.old.files self.new.files result }
        ensures cause { HasReadCause self.old.read_faults self.new.read_faults result }
        ensures writes { self.new.write_faults ≡ self.old.write_faults }
        ensures after { ReadsMemory name.now limit self.old self.new result }
    {
        let is_failing = is_failing(&self.failing_reads, self.reads);
        let outcome = copy_of(alloc, &self.files, is_failing, name, limit);
        if let Err(ReadError::NoMemory) = outcome {
            return outcome;
        }
        self.reads = self.reads.saturating_add(1);
        if let Err(ReadError::Failed) = outcome {
            self.read_faults = self.read_faults.saturating_add(1);
        }
        outcome
    }

    fn create(&mut self, name: &str) -> Result<(), WriteError>
        ensures files { Creates name.now self.old.files self.new.files result }
        ensures cause { HasWriteCause self.old.write_faults self.new.write_faults result }
        ensures reads { self.new.read_faults ≡ self.old.read_faults }
        ensures after { CreatesMemory name.now self.old self.new result }
    {
        if failing_at(&self.failing_writes, self.writes).is_some() {
            self.writes = self.writes.saturating_add(1);
            self.write_faults = self.write_faults.saturating_add(1);
            return Err(WriteError::Failed);
        }
        self.files.put(name, &[])?;
        self.writes = self.writes.saturating_add(1);
        Ok(())
    }

    fn append(&mut self, name: &str, piece: &[u8]) -> Result<(), WriteError>
        ensures files { AppendsTo name.now piece.now self.old.files self.new.files result }
        ensures cause { HasWriteCause self.old.write_faults self.new.write_faults result }
        ensures reads { self.new.read_faults ≡ self.old.read_faults }
        ensures after { AppendsMemory name.now piece.now self.old self.new result }
    {
        let Some(taken) = failing_at(&self.failing_writes, self.writes) else {
            add(&mut self.files, name, piece)?;
            self.writes = self.writes.saturating_add(1);
            return Ok(());
        };
        let end = piece.len().min(taken as usize);
        add(&mut self.files, name, &piece[..end])?;
        self.writes = self.writes.saturating_add(1);
        self.write_faults = self.write_faults.saturating_add(1);
        Err(WriteError::Failed)
    }
}
