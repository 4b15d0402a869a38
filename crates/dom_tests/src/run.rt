//! Runs over memory, with readers and writers that fail as a test says. What the program shows of whole runs, of views and of the input's
//! limit is tried on the built program, by `examples/statuses`.

use dom_engine::{FromReader, IntoWriter, RunFault, run};
use std::alloc::Global;
use std::io;
use std::io::{ErrorKind, Read, Write};
use std::process::Abort;
use std::test::Fail;

const SCRIPT: &[u8] = b"p new element div\np append n0 n1\np tree n0\np remove n1\np tree n0\n";

const TEXT: &[u8] =
    b"p ok n1\np ok\np ok (n0 document (n1 element div))\np ok\np ok (n0 document)\n";

/// A reader that may fail at its first read, gives a few of its bytes at each other, and then fails or is at its end.
#[derive(Drop)]
struct Giver<'a> {
    bytes: &'a [u8],
    most: usize,
    first_fault: Option<ErrorKind>,
    fault: Option<ErrorKind>,
}

impl Read for Giver<'_> {
    fn read(&mut self, buf: &mut [u8]) -> io::Result<usize> {
        if let Some(kind) = self.first_fault.take() {
            return Err(kind.into());
        }
        if self.bytes.is_empty() {
            return match self.fault {
                Some(kind) => Err(kind.into()),
                None => Ok(0),
            };
        }
        let count = self.most.min(buf.len()).min(self.bytes.len());
        buf[..count].copy_from_slice(&self.bytes[..count]);
        self.bytes = &self.bytes[count..];
        Ok(count)
    }
}

/// A writer that takes a few bytes at each of so many writes, and then fails or takes nothing more.
#[derive(Drop)]
struct Taker {
    taken: Vec<u8>,
    most: usize,
    writes: usize,
    fault: Option<ErrorKind>,
    flush_fault: Option<ErrorKind>,
}

impl Write for Taker {
    fn write(&mut self, buf: &[u8]) -> io::Result<usize> {
        if self.writes == 0 {
            return match self.fault {
                Some(kind) => Err(kind.into()),
                None => Ok(0),
            };
        }
        self.writes -= 1;
        let count = self.most.min(buf.len());
        self.taken.extend_from_slice(&buf[..count])?;
        Ok(count)
    }

    fn flush(&mut self) -> io::Result<()> {
        match self.flush_fault {
            Some(kind) => Err(kind.into()),
            None => Ok(()),
        }
    }
}

// A reader of these bytes, given so many at a time.
fn giving(bytes: &[u8], most: usize) -> Giver<'_> {
    Giver {
        bytes,
        most,
        first_fault: None,
        fault: None,
    }
}

// A writer that takes all, so many bytes at a time.
fn taking(alloc: Global, most: usize) -> Taker {
    Taker {
        taken: Vec::new(alloc),
        most,
        writes: usize::MAX,
        fault: None,
        flush_fault: None,
    }
}

// Runs what the reader gives into the writer, and compares what is answered and what is taken.
fn check(
    rt: &impl Abort,
    alloc: Global,
    reader: Giver<'_>,
    mut writer: Taker,
    answer: Result<(), RunFault>,
    taken: &[u8],
) {
    let mut source = FromReader::new(reader);
    let mut sink = IntoWriter::new(&mut writer);
    let outcome = run(alloc, &mut source, &mut sink, None);
    assert!(rt; outcome == answer);
    assert!(rt; writer.taken.as_slice() == taken);
}

#[test]
fn one_byte_is_read_and_written_at_a_time(rt: HostRuntime) {
    let alloc = rt.alloc();
    check(
        &rt,
        alloc,
        giving(SCRIPT, 1),
        taking(alloc, 1),
        Ok(()),
        TEXT,
    );
}

#[test]
fn a_failed_read_stops_the_run(rt: HostRuntime) {
    let alloc = rt.alloc();
    // The turn that is open is not ended, so the page's microtask is not run.
    for (first_fault, bytes, taken) in [
        (None, &b"p new element a\np tree n0"[..], &b"p ok n1\n"[..]),
        (None, &b"p micro k\np tree n"[..], &b"p ok\n"[..]),
        (Some(ErrorKind::Interrupted), SCRIPT, &b""[..]),
    ] {
        let reader = Giver {
            bytes,
            most: 4096,
            first_fault,
            fault: Some(ErrorKind::Other),
        };
        check(
            &rt,
            alloc,
            reader,
            taking(alloc, 4096),
            Err(RunFault::Read),
            taken,
        );
    }
}

#[test]
fn each_failed_write_stops_the_run(rt: HostRuntime) {
    let alloc = rt.alloc();
    for kind in [Some(ErrorKind::Other), Some(ErrorKind::Interrupted), None] {
        for writes in 0..TEXT.len() {
            let mut writer = taking(alloc, 1);
            writer.writes = writes;
            writer.fault = kind;
            let fault = Err(RunFault::Write);
            check(
                &rt,
                alloc,
                giving(SCRIPT, 4096),
                writer,
                fault,
                &TEXT[..writes],
            );
        }
    }
    let mut writer = taking(alloc, 4096);
    writer.flush_fault = Some(ErrorKind::Other);
    check(
        &rt,
        alloc,
        giving(SCRIPT, 4096),
        writer,
        Err(RunFault::Write),
        TEXT,
    );
}
