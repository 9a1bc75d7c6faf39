//! Readers and writers that fail.
use crate::tests::failures::HAS_ALL;
use crate::tests::scripts::NOWHERE;
use crate::tests::stock::stock_of;
use assise_console::engine::engine;
use assise_console::fault::EngineFault;
use assise_test_rows::scripts::BACK_AND_ALONE;
use std::alloc::Global;
use std::io;
use std::io::{ErrorKind, Read, Write};
use std::process::Abort;

/// A reader that gives at most seven bytes at a time, and fails once none of its reads is left.
#[derive(Drop)]
struct BrokenReader {
    bytes: &'static [u8],
    left: usize,
    kind: ErrorKind,
}

impl Read for BrokenReader {
    fn read(&mut self, buf: &mut [u8]) -> io::Result<usize> {
        if self.left == 0 {
            return Err(io::Error::from(self.kind));
        }
        self.left -= 1;
        let count = self.bytes.len().min(buf.len()).min(7);
        let (now, later) = self.bytes.split_at(count);
        buf[..count].copy_from_slice(now);
        self.bytes = later;
        Ok(count)
    }
}

/// A writer that fails once none of its writes is left. It counts the calls after the first that failed.
#[derive(Drop)]
struct BrokenWriter {
    left: usize,
    written: usize,
    flushed: bool,
    failed: bool,
    later: usize,
}

impl BrokenWriter {
    fn new(left: usize) -> BrokenWriter {
        BrokenWriter {
            left,
            written: 0,
            flushed: false,
            failed: false,
            later: 0,
        }
    }

    /// One call more, which may be the one that fails.
    fn pass(&mut self) -> io::Result<()> {
        if self.failed {
            self.later = self.later.saturating_add(1);
        }
        if self.left == 0 {
            self.failed = true;
            return Err(io::Error::from(ErrorKind::BrokenPipe));
        }
        self.left -= 1;
        Ok(())
    }
}

impl Write for BrokenWriter {
    fn write(&mut self, buf: &[u8]) -> io::Result<usize> {
        self.pass()?;
        self.written = self.written.saturating_add(buf.len());
        Ok(buf.len())
    }

    fn flush(&mut self) -> io::Result<()> {
        self.flushed = true;
        self.pass()
    }
}

/// Runs a script, and says how the run ended.
fn run<R: Read>(
    alloc: Global,
    rt: &impl Abort,
    reader: &mut R,
    writer: &mut BrokenWriter,
) -> Option<EngineFault> {
    let stock = stock_of(alloc).expect(rt, "no memory");
    engine(alloc, reader, writer, stock, &NOWHERE).err()
}

/// Reads a script with a reader that fails after `left` reads, and says how the run ended and how much it printed.
fn read_in_part(
    alloc: Global,
    rt: &impl Abort,
    left: usize,
    kind: ErrorKind,
) -> (Option<EngineFault>, usize) {
    let bytes = BACK_AND_ALONE.as_bytes();
    let mut reader = BrokenReader { bytes, left, kind };
    let mut writer = BrokenWriter::new(1000);
    let fault = run(alloc, rt, &mut reader, &mut writer);
    (fault, writer.written)
}

#[test]
fn a_reader_that_fails_at_any_call_prints_nothing(rt: HostRuntime) {
    let mut failed = 0;
    for left in 0..100 {
        let ended = read_in_part(rt.alloc(), &rt, left, ErrorKind::PermissionDenied);
        if ended != (None, HAS_ALL.len()) {
            assert_eq!(rt; ended, (Some(EngineFault::Read), 0));
            failed = left + 1;
        }
    }
    assert!(rt; 10 < failed && failed < 100, "{failed} reads");
    let ended = read_in_part(rt.alloc(), &rt, 3, ErrorKind::OutOfMemory);
    assert_eq!(rt; ended, (Some(EngineFault::Memory), 0));
}

#[test]
fn a_writer_that_fails_at_any_call_ends_the_run(rt: HostRuntime) {
    let mut failed = 0;
    for left in 0..1000 {
        let mut reader = BACK_AND_ALONE.as_bytes();
        let mut writer = BrokenWriter::new(left);
        let fault = run(rt.alloc(), &rt, &mut reader, &mut writer);
        if fault.is_some() {
            assert_eq!(rt; fault, Some(EngineFault::Write));
            assert_eq!(rt; writer.later, 0, "a call after the one that failed");
            assert_eq!(rt; failed, left, "a run ended well with fewer writes");
            failed = left + 1;
        } else {
            assert!(rt; writer.flushed && writer.written == HAS_ALL.len());
        }
    }
    assert!(rt; 10 < failed && failed < 1000, "{failed} writes");
}
