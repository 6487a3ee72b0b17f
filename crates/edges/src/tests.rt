// Expected bytes are written out by hand.
ghost use Rattle.std.specs.Prelude.{◌≡◌, ◌++◌, OnOk};
ghost use Rattle.recorder_model.specs.Files.{WhereTold, file_at};

use crate::{
    CalmShelf, DiskShelf, FileSink, MemoryShelf, MemorySink, ReadError, Shelf, Sink, StreamSink,
    WriteError,
};
use std::fmt::Display;
use std::io;
use std::test::Fail;

fn read<F: Shelf>(
    shelf: &mut F,
    rt: &HostRuntime,
    name: &str,
    limit: u64,
) -> Result<Vec<u8>, ReadError> {
    shelf.read_whole(rt.alloc(), name, limit)
}

fn write_both<K: Sink>(sink: &mut K, first: &[u8], second: &[u8]) -> Result<(), WriteError>
    ensures text { OnOk result (WhereTold (K.text sink.old) (K.text sink.new) (λ before after. after ≡ before ++ first.now ++ second.now)) }
    ensures beside { WhereTold (K.beside sink.old) (K.beside sink.new) (λ before after. after ≡ before) }
    ensures through { K.through sink.new ≡ K.through sink.old }
{
    sink.write(first)?;
    sink.write(second)
}

// What a sink over a new file wrote stands in the shelf.
fn store(shelf: &mut CalmShelf, name: &str, piece: &[u8]) -> Result<(), WriteError>
    ensures { OnOk result (file_at shelf.new name.now ≡ piece.now) }
{
    shelf.create(name)?;
    let mut sink = FileSink::new(shelf, name);
    write_both(&mut sink, piece, &[])
}

#[test]
fn files_in_memory(rt: HostRuntime) -> Result<(), Fail> {
    let mut shelf = CalmShelf::new(rt.alloc())?;
    assert_eq!(rt; shelf.file("a"), None);
    assert_eq!(rt; read(&mut shelf, &rt, "a", 0)?.as_slice(), b"".as_slice());
    shelf.put("a", b"one")?;
    shelf.append("a", b"two")?;
    shelf.append("b", b"three")?;
    store(&mut shelf, "b", b"!")?;
    assert_eq!(rt; shelf.file("a"), Some(b"onetwo".as_slice()));
    assert_eq!(rt; shelf.file("b"), Some(b"!".as_slice()));
    assert_eq!(rt;
        read(&mut shelf, &rt, "a", 6)?.as_slice(),
        b"onetwo".as_slice()
    );
    assert!(rt; matches!(read(&mut shelf, &rt, "a", 5), Err(ReadError::TooLarge)));
    shelf.create("a")?;
    assert_eq!(rt; shelf.file("a"), Some(b"".as_slice()));
    Ok(())
}

#[test]
fn files_in_memory_without_faults(rt: HostRuntime) -> Result<(), Fail> {
    let mut shelf = MemoryShelf::new(rt.alloc(), &[], &[])?;
    assert_eq!(rt; shelf.file("a"), None);
    assert!(rt; matches!(read(&mut shelf, &rt, "a", 9), Err(ReadError::Failed)));
    shelf.put("a", b"one")?;
    shelf.append("a", b"two")?;
    shelf.append("b", b"three")?;
    assert_eq!(rt; shelf.file("a"), Some(b"onetwo".as_slice()));
    assert_eq!(rt; shelf.file("b"), Some(b"three".as_slice()));
    assert_eq!(rt;
        read(&mut shelf, &rt, "a", 6)?.as_slice(),
        b"onetwo".as_slice()
    );
    assert!(rt; matches!(read(&mut shelf, &rt, "a", 5), Err(ReadError::TooLarge)));
    shelf.create("a")?;
    assert_eq!(rt; shelf.file("a"), Some(b"".as_slice()));
    Ok(())
}

// Calls over one file, some of which fail: which of them end well, and what the file has at last.
struct Calls {
    failing_reads: &'static [u32],
    failing_writes: &'static [(u32, u32)],
    // A read, a create, two appends, and a read.
    are_good: [bool; 5],
    left: &'static [u8],
}

const CALLS: [Calls; 9] = [
    Calls {
        failing_reads: &[],
        failing_writes: &[],
        are_good: [true, true, true, true, true],
        left: b"onetwo",
    },
    Calls {
        failing_reads: &[0],
        failing_writes: &[(3, 0)],
        are_good: [false, true, true, true, true],
        left: b"onetwo",
    },
    Calls {
        failing_reads: &[2, 1],
        failing_writes: &[],
        are_good: [true, true, true, true, false],
        left: b"onetwo",
    },
    Calls {
        failing_reads: &[],
        failing_writes: &[(0, 9)],
        are_good: [true, false, true, true, true],
        left: b"oldonetwo",
    },
    Calls {
        failing_reads: &[],
        failing_writes: &[(1, 0)],
        are_good: [true, true, false, true, true],
        left: b"two",
    },
    Calls {
        failing_reads: &[],
        failing_writes: &[(1, 2), (1, 3)],
        are_good: [true, true, false, true, true],
        left: b"ontwo",
    },
    Calls {
        failing_reads: &[],
        failing_writes: &[(1, 3)],
        are_good: [true, true, false, true, true],
        left: b"onetwo",
    },
    Calls {
        failing_reads: &[],
        failing_writes: &[(2, 9)],
        are_good: [true, true, true, false, true],
        left: b"onetwo",
    },
    Calls {
        failing_reads: &[0, 1],
        failing_writes: &[(0, 0), (2, 1)],
        are_good: [false, false, true, false, false],
        left: b"oldonet",
    },
];

#[test]
fn files_in_memory_with_faults(rt: HostRuntime) -> Result<(), Fail> {
    for calls in &CALLS {
        let mut shelf = MemoryShelf::new(rt.alloc(), calls.failing_reads, calls.failing_writes)?;
        shelf.put("a", b"old")?;
        let are_good = [
            read(&mut shelf, &rt, "a", 9).is_ok(),
            shelf.create("a").is_ok(),
            shelf.append("a", b"one").is_ok(),
            shelf.append("a", b"two").is_ok(),
            read(&mut shelf, &rt, "a", 9).is_ok(),
        ];
        assert_eq!(rt; are_good, calls.are_good);
        assert_eq!(rt; shelf.file("a"), Some(calls.left));
    }
    Ok(())
}

#[test]
fn text_in_memory(rt: HostRuntime) -> Result<(), Fail> {
    let mut sink = MemorySink::new(rt.alloc(), &[(1, 2), (3, 9)])?;
    assert_eq!(rt;
        write_both(&mut sink, b"one", b"two"),
        Err(WriteError::Failed)
    );
    assert_eq!(rt; sink.text(), b"onetw".as_slice());
    assert_eq!(rt;
        write_both(&mut sink, b"six", b"ten"),
        Err(WriteError::Failed)
    );
    assert_eq!(rt; write_both(&mut sink, b"", b"."), Ok(()));
    assert_eq!(rt; sink.text(), b"onetwsixten.".as_slice());
    Ok(())
}

fn needs_send<T: Send>(_: &T) {}

#[test]
fn real_files(rt: HostRuntime) -> Result<(), Fail> {
    let mut shelf = DiskShelf::new(rt.alloc(), &rt);
    needs_send(&shelf);
    assert!(rt;
        matches!(
            read(&mut shelf, &rt, "no_such_file", 9),
            Err(ReadError::Failed)
        )
    );
    assert_eq!(rt; shelf.append("edges_a", b"early"), Err(WriteError::Failed));
    shelf.create("edges_a")?;
    shelf.append("edges_a", b"one")?;
    FileSink::new(&mut shelf, "edges_a").write(b"two")?;
    assert_eq!(rt; shelf.append("edges_b", b"other"), Err(WriteError::Failed));
    assert_eq!(rt; shelf.append("edges_a", b""), Ok(()));
    assert_eq!(rt;
        read(&mut shelf, &rt, "edges_a", 6)?.as_slice(),
        b"onetwo".as_slice()
    );
    assert!(rt;
        matches!(
            read(&mut shelf, &rt, "edges_a", 5),
            Err(ReadError::TooLarge)
        )
    );
    assert_eq!(rt; shelf.create("no_such_folder/a"), Err(WriteError::Failed));
    shelf.append("edges_a", b"three")?;
    assert_eq!(rt;
        read(&mut shelf, &rt, "edges_a", u64::MAX)?.as_slice(),
        b"onetwothree".as_slice()
    );
    shelf.create("edges_a")?;
    assert_eq!(rt;
        read(&mut shelf, &rt, "edges_a", 0)?.as_slice(),
        b"".as_slice()
    );
    std::fs::remove_file(&rt, "edges_a")?;
    Ok(())
}

// A host that takes a few bytes at a time.
struct Trickle {
    most: usize,
}

impl Print for Trickle {
    fn print<D: Display + Drop>(&self, _: D) -> io::Result<()> {
        Ok(())
    }

    fn println<D: Display + Drop>(&self, _: D) -> io::Result<()> {
        Ok(())
    }

    fn write_all(&self, _: &[u8]) -> io::Result<()> {
        Ok(())
    }

    fn write_some(&self, bytes: &[u8]) -> io::Result<usize> {
        Ok(bytes.len().min(self.most))
    }
}

#[test]
fn standard_output(rt: HostRuntime) -> Result<(), Fail> {
    write_both(&mut StreamSink::new(&rt), b"one", b"two\n")?;
    assert_eq!(rt;
        StreamSink::new(&Trickle { most: 2 }).write(b"seven"),
        Ok(())
    );
    assert_eq!(rt;
        StreamSink::new(&Trickle { most: 0 }).write(b"seven"),
        Err(WriteError::Failed)
    );
    assert_eq!(rt; StreamSink::new(&Trickle { most: 0 }).write(b""), Ok(()));
    Ok(())
}

#[test]
fn errors_in_words(rt: HostRuntime) -> Result<(), Fail> {
    let alloc = rt.alloc();
    let rows = [
        (ReadError::Failed, "the file cannot be read"),
        (ReadError::TooLarge, "the file is too large"),
        (ReadError::NoMemory, "no memory"),
    ];
    for (error, text) in rows {
        assert_eq!(rt; format!(in alloc; "{error}")?.as_str(), text);
    }
    let rows = [
        (WriteError::Failed, "the piece cannot be written"),
        (WriteError::NoMemory, "no memory"),
    ];
    for (error, text) in rows {
        assert_eq!(rt; format!(in alloc; "{error}")?.as_str(), text);
    }
    Ok(())
}
