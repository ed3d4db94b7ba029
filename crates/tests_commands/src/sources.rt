ghost use Rattle.std.specs.declared.option.Option.TheVariants.{Some, None};

use outer_io::{
    Document, Failed, MemSink, MemSource, ReadError, Source, StdSink, StdSource, SureSink,
    SureSource, WriteFault, read_document, write_all,
};
use std::io::{self, ErrorKind, Read, Write};
use std::test::Fail;

/// How many bytes the document has, or why there is none.
fn size_of(read: Result<Document, ReadError>) -> Result<usize, ReadError> {
    match read {
        Ok(document) => Ok(document.bytes().len()),
        Err(error) => Err(error),
    }
}

/// The limit of a reading of ten bytes in pieces of three, the number of the read that fails,
/// and what comes of it.
static READS: [(u32, u32, Result<usize, ReadError>); 9] = [
    (9, 9, Err(ReadError::TooLong)),
    (10, 9, Ok(10)),
    (11, 9, Ok(10)),
    (10, 0, Err(ReadError::ReadFault)),
    (10, 1, Err(ReadError::ReadFault)),
    (10, 2, Err(ReadError::ReadFault)),
    (10, 3, Err(ReadError::ReadFault)),
    // The read that tells the end, and one that is not made.
    (10, 4, Err(ReadError::ReadFault)),
    (10, 5, Ok(10)),
];

#[test]
fn a_document_comes_whole_within_its_limit_and_each_read_fails_in_turn(
    rt: HostRuntime,
) -> Result<(), Fail> {
    for (limit, failing, size) in &READS {
        let mut source = MemSource::new(rt.alloc(), b"0123456789", 3, &[*failing])?;
        let read = read_document(rt.alloc(), &mut source, *limit);
        assert!(rt; size_of(read) == *size, "limit {limit}, read {failing}");
    }
    Ok(())
}

/// The number of the write that fails, of ten bytes in pieces of three, and what was written.
static WRITES: [(u32, &str); 5] = [
    (0, ""),
    (1, "012"),
    (2, "012345"),
    (3, "012345678"),
    (4, "0123456789"),
];

#[test]
fn each_write_fails_in_turn(rt: HostRuntime) -> Result<(), Fail> {
    for (failing, front) in &WRITES {
        let mut sink = MemSink::new(rt.alloc(), 10, 3, &[*failing])?;
        let outcome = write_all(&mut sink, b"0123456789");
        let is_whole = outcome.is_ok() == (front.len() == 10);
        assert!(rt; is_whole && sink.bytes() == front.as_bytes());
    }
    Ok(())
}

#[test]
fn a_sure_sink_keeps_what_fits_of_a_sure_source(rt: HostRuntime) -> Result<(), Fail> {
    let mut source = SureSource::new(rt.alloc(), b"abcde")?;
    let document = read_document(rt.alloc(), &mut source, 5)?;
    let mut sink = SureSink::new(rt.alloc(), 4)?;
    write_all(&mut sink, document.bytes())?;
    assert!(rt; !sink.whole() && sink.bytes() == b"abcd".as_slice());
    Ok(())
}

#[test]
fn std_readers_and_writers_serve(rt: HostRuntime) -> Result<(), Fail> {
    let mut source = StdSource::new(b"ping".as_slice());
    let document = read_document(rt.alloc(), &mut source, 4)?;
    let mut written = Vec::new(rt.alloc());
    write_all(&mut StdSink::new(&mut written), document.bytes())?;
    assert!(rt; written.as_slice() == b"ping".as_slice());
    Ok(())
}

/// Never ends, gives two bytes a read, and tells nothing of its calls.
#[derive(Drop)]
struct Endless {
    given: u64,
}

impl Source for Endless {
    ghost left = { λ _. None };

    ghost faults = { λ _. 0 };

    fn read(&mut self, piece: &mut [u8]) -> Result<usize, Failed> {
        let count = piece.len().min(2);
        self.given = self.given.saturating_add(count as u64);
        Ok(count)
    }
}

#[test]
fn one_byte_above_the_limit_is_asked_for(rt: HostRuntime) {
    let mut source = Endless { given: 0 };
    let read = read_document(rt.alloc(), &mut source, 9_000);
    assert!(rt; size_of(read) == Err(ReadError::TooLong));
    assert!(rt; source.given == 9_001);
}

/// Gives four bytes; then it fails and ends behind that, or ends and fails behind that.
#[derive(Drop)]
struct Torn {
    reads: u32,
    fails: bool,
}

impl Read for Torn {
    fn read(&mut self, piece: &mut [u8]) -> io::Result<usize> {
        self.reads = self.reads.saturating_add(1);
        if self.reads == 1 {
            Ok(piece.len().min(4))
        } else if self.fails == (self.reads == 2) {
            Err(io::Error::from(ErrorKind::Other))
        } else {
            Ok(0)
        }
    }
}

#[test]
fn no_read_follows_a_fault_or_the_end(rt: HostRuntime) {
    for (fails, size) in [(true, Err(ReadError::ReadFault)), (false, Ok(4))] {
        let mut torn = Torn { reads: 0, fails };
        let read = read_document(rt.alloc(), &mut StdSource::new(&mut torn), 4);
        assert!(rt; size_of(read) == size);
        assert!(rt; torn.reads == 2);
    }
}

/// Takes two bytes, then none once, and then whatever it is given. It counts what it was given.
#[derive(Drop)]
struct Halting {
    writes: u32,
    given: usize,
}

impl Write for Halting {
    fn write(&mut self, piece: &[u8]) -> io::Result<usize> {
        self.writes = self.writes.saturating_add(1);
        self.given = self.given.saturating_add(piece.len());
        match self.writes {
            1 => Ok(piece.len().min(2)),
            2 => Ok(0),
            _ => Ok(piece.len()),
        }
    }

    fn flush(&mut self) -> io::Result<()> {
        Ok(())
    }
}

/// The first write is given all four bytes, and the second, which takes none, the last two.
#[test]
fn a_writer_that_takes_nothing_is_a_write_fault_and_not_tried_again(rt: HostRuntime) {
    let mut halting = Halting {
        writes: 0,
        given: 0,
    };
    let outcome = write_all(&mut StdSink::new(&mut halting), b"abcd");
    assert!(rt; outcome == Err(WriteFault));
    assert!(rt; (halting.writes, halting.given) == (2, 6));
}
