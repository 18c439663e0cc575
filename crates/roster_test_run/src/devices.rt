//! Readers and writers that fail, and then go on.

use crate::runs::{BOOK, REPORT};
use roster_book::{Command, Watched};
use roster_cli_run::{Status, run};
use roster_combine::Open;
use std::alloc::Global;
use std::io;
use std::io::{Read, Write};
use std::process::Abort;
use std::sync::Wait;
use std::test::Fail;
use std::thread::Threads;

/// What is written of a book without a record.
const LINE: &[u8] = b"FAULT 1 1\n";

/// Gives so many bytes at a time, at most. After so many reads one fails, and then it goes on.
#[derive(Drop)]
struct FailingReader<'a> {
    bytes: &'a [u8],
    at_once: usize,
    reads: usize,
    failure: io::ErrorKind,
}

impl Read for FailingReader<'_> {
    fn read(&mut self, buf: &mut [u8]) -> io::Result<usize> {
        if self.reads == 0 {
            self.reads = usize::MAX;
            return Err(io::Error::from(self.failure));
        }
        self.reads -= 1;
        let n = self.bytes.len().min(buf.len()).min(self.at_once);
        let (given, rest) = self.bytes.split_at(n);
        buf[..n].copy_from_slice(given);
        self.bytes = rest;
        Ok(n)
    }
}

/// How a run over this reader ends, and what it writes.
fn over<'a, R: Threads + Wait + Sync>(
    rt: &R,
    alloc: Global,
    reader: FailingReader<'a>,
) -> (Status, Watched<FailingReader<'a>>, Watched<Vec<u8>>) {
    let mut reader = Watched::new(reader);
    let mut writer = Watched::new(Vec::new(alloc));
    let status = run(
        rt,
        alloc,
        Command::Solve,
        1,
        &mut reader,
        &mut writer,
        &Open,
    );
    (status, reader, writer)
}

/// The reader's failure is told, whichever of so many reads fails, and nothing was written.
fn tells_each_read<R: Threads + Wait + Abort + Sync>(
    rt: &R,
    alloc: Global,
    at_once: usize,
    reads: usize,
    failure: io::ErrorKind,
) {
    for reads in 0..reads {
        let reader = FailingReader {
            bytes: BOOK,
            at_once,
            reads,
            failure,
        };
        let (status, reader, writer) = over(rt, alloc, reader);
        assert!(rt; matches!(status, Status::ReadFailed), "after {reads} reads");
        assert!(rt; reader.failed() && !writer.failed());
        assert!(rt; writer.inner().is_empty());
    }
    let reader = FailingReader {
        bytes: BOOK,
        at_once,
        reads: reads.saturating_add(1),
        failure,
    };
    let (status, _, writer) = over(rt, alloc, reader);
    assert!(rt; matches!(status, Status::Answered));
    assert!(rt; writer.inner().as_slice() == REPORT);
    assert!(rt; writer.flushed());
}

#[test]
fn tells_a_failed_reader(rt: HostRuntime) {
    // Reads until each byte is given, and one that meets the end.
    tells_each_read(&rt, rt.alloc(), 1, BOOK.len() + 1, io::ErrorKind::Other);
    tells_each_read(
        &rt,
        rt.alloc(),
        7,
        BOOK.len() / 7 + 2,
        io::ErrorKind::Interrupted,
    );
}

#[test]
fn tells_a_fault_before_the_reader_fails(rt: HostRuntime) {
    let reader = FailingReader {
        bytes: b"jump\nperiod,2024-03\n",
        at_once: 1,
        reads: 7,
        failure: io::ErrorKind::Other,
    };
    let (status, _, writer) = over(&rt, rt.alloc(), reader);
    assert!(rt; matches!(status, Status::Refused));
    assert!(rt; writer.inner().as_slice() == LINE);
}

/// How a writer fails.
#[derive(Clone, Copy)]
enum Failure {
    Error,
    Interrupted,
    TakesNothing,
    Flush,
}

/// Takes three bytes at a time. After so many writes one fails, and then it goes on.
#[derive(Drop)]
struct FailingWriter {
    taken: Vec<u8>,
    writes: u16,
    failure: Failure,
    flushes: u16,
}

impl Write for FailingWriter {
    fn write(&mut self, buf: &[u8]) -> io::Result<usize> {
        if self.writes == 0 {
            self.writes = 1000;
            match self.failure {
                Failure::Error => return Err(io::Error::from(io::ErrorKind::Other)),
                Failure::Interrupted => return Err(io::Error::from(io::ErrorKind::Interrupted)),
                Failure::TakesNothing => return Ok(0),
                Failure::Flush => {}
            }
        }
        self.writes -= 1;
        let n = buf.len().min(3);
        self.taken.extend_from_slice(&buf[..n])?;
        Ok(n)
    }

    fn flush(&mut self) -> io::Result<()> {
        self.flushes = self.flushes.saturating_add(1);
        match self.failure {
            Failure::Flush => Err(io::Error::from(io::ErrorKind::Other)),
            _ => Ok(()),
        }
    }
}

/// The writer's failure is told, and the first bytes of the text were written.
fn tells<R: Threads + Wait + Abort + AllocGlobal + Sync>(
    rt: &R,
    book: &[u8],
    text: &[u8],
    writes: u16,
    failure: Failure,
) {
    let mut reader = Watched::new(book);
    let mut writer = Watched::new(FailingWriter {
        taken: Vec::new(rt.alloc()),
        writes,
        failure,
        flushes: 0,
    });
    let status = run(
        rt,
        rt.alloc(),
        Command::Solve,
        1,
        &mut reader,
        &mut writer,
        &Open,
    );
    assert!(rt; matches!(status, Status::WriteFailed));
    assert!(rt; writer.failed() && !reader.failed());
    let taken = &writer.inner().taken;
    assert!(rt; taken.len() == text.len().min(3 * usize::from(writes)));
    assert!(rt; text.starts_with(taken.as_slice()));
    let flushes = u16::from(matches!(failure, Failure::Flush));
    assert!(rt; writer.inner().flushes == flushes);
}

#[test]
fn tells_a_failed_writer(rt: HostRuntime) {
    // The report has more than 70 bytes, so 20 writes are not all of it, and the line has 10.
    for (book, text, most) in [(BOOK, REPORT, 20), (b"".as_slice(), LINE, 4)] {
        for writes in 0..most {
            tells(&rt, book, text, writes, Failure::Error);
            tells(&rt, book, text, writes, Failure::Interrupted);
            tells(&rt, book, text, writes, Failure::TakesNothing);
        }
        tells(&rt, book, text, 1000, Failure::Flush);
    }
}

/// Else a body that asks whether all is flushed before it flushes would pass a new device over.
#[test]
fn a_new_device_is_flushed_once_for_each_call(rt: HostRuntime) -> Result<(), Fail> {
    let mut writer = Watched::new(FailingWriter {
        taken: Vec::new(rt.alloc()),
        writes: 1000,
        failure: Failure::Error,
        flushes: 0,
    });
    assert!(rt; !writer.flushed());
    for flushes in 1..4 {
        writer.flush()?;
        assert!(rt; writer.flushed());
        assert!(rt; writer.inner().flushes == flushes);
    }
    Ok(())
}
