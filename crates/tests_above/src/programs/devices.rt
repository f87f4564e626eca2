//! A reader and a writer over memory, for tests. Each fails where a test wants it to.
ghost use Rattle.std.specs.Prelude.{◌≡◌, ◌<◌, [], None, Some};

use std::alloc::Global;
use std::cell::Cell;
use std::io;
use std::io::{ErrorKind, Read, Write};

/// Gives its bytes, at most `step` a call. If `left` is set, each call fails after that many bytes.
#[derive(Drop)]
pub struct Feed<'a> {
    bytes: &'a [u8],
    step: usize,
    left: Option<usize>,
    kind: ErrorKind,
    ghost gives: { 0 < step },
}

impl<'a> Feed<'a> {
    /// A reader that gives all its bytes.
    pub fn new(bytes: &'a [u8], step: usize) -> Feed<'a>
        requires { 0 < step }
        ensures { result.bytes.now ≡ bytes.now }
    {
        Feed {
            bytes,
            step,
            left: None,
            kind: ErrorKind::Other,
        }
    }

    /// A reader that fails after `left` bytes.
    pub fn failing(bytes: &'a [u8], step: usize, left: usize, kind: ErrorKind) -> Feed<'a>
        requires { 0 < step }
        ensures { (result.bytes.now ≡ bytes.now) × (result.left ≡ Some left) }
    {
        Feed {
            bytes,
            step,
            left: Some(left),
            kind,
        }
    }
}

impl Read for Feed<'_> {
    ghost remaining = { λ f. Some f.bytes.now };

    fn read(&mut self, buf: &mut [u8]) -> io::Result<usize> {
        let mut count = buf.len().min(self.bytes.len()).min(self.step);
        if let Some(left) = self.left {
            if left == 0 {
                return Err(io::Error::from(self.kind));
            }
            count = count.min(left);
            self.left = Some(left - count);
        }
        let (given, rest) = self.bytes.split_at(count);
        buf[..count].copy_from_slice(given);
        self.bytes = rest;
        Ok(count)
    }
}

/// How a writer refuses a call.
#[derive(Clone, Copy)]
pub enum Refusal {
    Fails(ErrorKind),
    TakesNone,
}

/// Keeps the bytes that it takes, at most `step` a call. If `left` is set,
/// it refuses each call after that many bytes.
#[derive(Drop)]
pub struct Sink {
    pub bytes: Vec<u8>,
    step: usize,
    left: Option<usize>,
    refusal: Refusal,
    flush_fails: Option<ErrorKind>,
}

impl Sink {
    /// A writer that takes everything.
    pub fn new(alloc: Global) -> Sink
        ensures { result.bytes.items ≡ [] }
    {
        Sink {
            bytes: Vec::new(alloc),
            step: usize::MAX,
            left: None,
            refusal: Refusal::TakesNone,
            flush_fails: None,
        }
    }

    /// A writer that takes no more than `left` bytes.
    pub fn refusing(alloc: Global, step: usize, left: usize, refusal: Refusal) -> Sink
        ensures { (result.bytes.items ≡ []) × (result.left ≡ Some left) }
    {
        Sink {
            bytes: Vec::new(alloc),
            step,
            left: Some(left),
            refusal,
            flush_fails: None,
        }
    }

    /// A writer whose flush fails.
    pub fn unflushed(alloc: Global, kind: ErrorKind) -> Sink
        ensures { result.bytes.items ≡ [] }
    {
        Sink {
            bytes: Vec::new(alloc),
            step: usize::MAX,
            left: None,
            refusal: Refusal::TakesNone,
            flush_fails: Some(kind),
        }
    }
}

impl Write for Sink {
    ghost contents = { λ s. Some s.bytes.items };

    fn write(&mut self, buf: &[u8]) -> io::Result<usize> {
        let mut count = buf.len().min(self.step);
        if let Some(left) = self.left {
            if left == 0 {
                return match self.refusal {
                    Refusal::Fails(kind) => Err(io::Error::from(kind)),
                    Refusal::TakesNone => Ok(0),
                };
            }
            count = count.min(left);
            self.left = Some(left - count);
        }
        self.bytes.extend_from_slice(&buf[..count])?;
        Ok(count)
    }

    fn flush(&mut self) -> io::Result<()> {
        match self.flush_fails {
            Some(kind) => Err(io::Error::from(kind)),
            None => Ok(()),
        }
    }
}

/// What a run has done so far: how often it read and wrote, how many bytes its first reads gave, how
/// many line ends it read and wrote, and whether it read while a whole line had no answer.
#[derive(Drop)]
pub struct Watch {
    pub reads: Cell<usize>,
    pub first_reads: Cell<[usize; 3]>,
    pub writes: Cell<usize>,
    pub ends_read: Cell<usize>,
    pub ends_written: Cell<usize>,
    pub is_late: Cell<bool>,
}

impl Watch {
    /// Nothing was done.
    pub fn new() -> Watch {
        Watch {
            reads: Cell::new(0),
            first_reads: Cell::new([0; 3]),
            writes: Cell::new(0),
            ends_read: Cell::new(0),
            ends_written: Cell::new(0),
            is_late: Cell::new(false),
        }
    }
}

/// How many line ends the bytes have.
fn line_ends(bytes: &[u8]) -> usize {
    bytes.iter().filter(|byte| **byte == b'\n').count()
}

/// Gives its bytes, at most `step` a call, and tells the watch.
#[derive(Drop)]
pub struct WatchedFeed<'a> {
    pub bytes: &'a [u8],
    pub step: usize,
    pub watch: &'a Watch,
}

impl Read for WatchedFeed<'_> {
    ghost remaining = { λ _. None };

    fn read(&mut self, buf: &mut [u8]) -> io::Result<usize> {
        let watch = self.watch;
        let turn = watch.reads.get();
        watch.reads.set(turn.wrapping_add(1));
        if watch.ends_read.get() != watch.ends_written.get() {
            watch.is_late.set(true);
        }
        let count = buf.len().min(self.bytes.len()).min(self.step);
        let mut first_reads = watch.first_reads.get();
        if turn < 3 {
            first_reads[turn] = count;
            watch.first_reads.set(first_reads);
        }
        let (given, rest) = self.bytes.split_at(count);
        buf[..count].copy_from_slice(given);
        self.bytes = rest;
        watch
            .ends_read
            .set(watch.ends_read.get().wrapping_add(line_ends(given)));
        Ok(count)
    }
}

/// Takes everything, and tells the watch.
#[derive(Drop)]
pub struct WatchedSink<'a> {
    pub watch: &'a Watch,
}

impl Write for WatchedSink<'_> {
    ghost contents = { λ _. None };

    fn write(&mut self, buf: &[u8]) -> io::Result<usize> {
        let watch = self.watch;
        watch.writes.set(watch.writes.get().wrapping_add(1));
        watch
            .ends_written
            .set(watch.ends_written.get().wrapping_add(line_ends(buf)));
        Ok(buf.len())
    }

    fn flush(&mut self) -> io::Result<()> {
        Ok(())
    }
}
