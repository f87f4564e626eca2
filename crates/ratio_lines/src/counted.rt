//! `Counted`: readers and writers whose calls a contract can follow, `Calls` for what these calls did, `Moments` for what had moved before
//! each read, and the traits `CalcRead` and `CalcWrite`.
ghost use Rattle.std.specs.Prelude.{◌≡◌, List, ℕ};
ghost use Rattle.std.specs.Borrow.{ftrue};
ghost use Rattle.std.specs.Io.{ReadsAtMost, WritesAtMost};
ghost use Rattle.std.specs.Io.KnownBytes.{ReadConsumes, WriteAppends, Keeps};

use std::io;
use std::io::{ErrorKind, Read, Write};
use std::marker::Model;

/// What the calls of a reader or a writer did so far. The fields are unbounded numbers and lists. They
/// exist only in contracts and proofs, and take no memory. Only its own functions change them.
#[derive(Drop)]
pub struct Calls {
    /// The bytes that calls gave or took.
    pub ghost moved: { List ℕ },
    /// How many calls failed.
    pub ghost failures: { ℕ },
    /// How many writes were interrupted, and counted as no failure.
    pub ghost interrupts: { ℕ },
    /// How many reads said that the reader has ended.
    pub ghost ends: { ℕ },
    /// How many flushes returned `Ok`.
    pub ghost flushes: { ℕ },
    /// How many bytes had moved at the last such flush.
    pub ghost mark: { ℕ },
}

impl Model for Calls {
    ghost also_owns = { λ _. ftrue };
}

impl Calls {
    ghost use Rattle.ratio_lines.specs.Devices.{after_moving, after_failing, after_interrupt, after_ending, after_flushing, no_calls};

    /// No call was made.
    pub fn none() -> Calls
        ensures { result ≡ no_calls }
    {
        Calls {}
    }

    // Changes the calls to `next`, which the caller chooses. Nothing happens at run time.
    fn note(&mut self, _bytes: &[u8])
        ghost next: { Calls }
        ensures { self.new ≡ next }
    {}

    /// A call moved these bytes.
    pub fn note_moved(&mut self, bytes: &[u8])
        ensures { self.new ≡ after_moving self.old bytes.now }
    {
        self.note(bytes)
    }

    /// A call failed.
    pub fn note_failed(&mut self)
        ensures { self.new ≡ after_failing self.old }
    {
        self.note(&[])
    }

    /// A write was interrupted, and may be tried again.
    pub fn note_interrupted(&mut self)
        ensures { self.new ≡ after_interrupt self.old }
    {
        self.note(&[])
    }

    /// A read said that the reader has ended.
    pub fn note_ended(&mut self)
        ensures { self.new ≡ after_ending self.old }
    {
        self.note(&[])
    }

    /// A flush returned `Ok`.
    pub fn note_flushed(&mut self)
        ensures { self.new ≡ after_flushing self.old }
    {
        self.note(&[])
    }
}

/// What a reader had given and its writer had taken before each read so far. Its field exists only in contracts and proofs, and takes no
/// memory. Only its own functions change it.
#[derive(Drop)]
pub struct Moments {
    /// For each read, the bytes that the reader had given before, those that the writer had taken, and how many of these were flushed.
    pub ghost reads: { List (List ℕ × List ℕ × ℕ) },
}

impl Model for Moments {
    ghost also_owns = { λ _. ftrue };
}

impl Moments {
    ghost use Rattle.ratio_lines.specs.Devices.{after_moment, no_moments};

    /// No read was made.
    pub fn none() -> Moments
        ensures { result ≡ no_moments }
    {
        Moments {}
    }

    /// A read begins: of a reader whose calls did this so far, and beside a writer whose calls did that.
    pub fn note(&mut self, _given: &Calls, _taken: &Calls)
        ensures { self.new ≡ after_moment self.old _given.now _taken.now }
    {}
}

/// A reader whose calls are followed, beside those of the writer of its answers.
pub trait CalcRead<W: CalcWrite>: Read {
    ghost use Rattle.ratio_lines.specs.declared.counted.Calls.{Calls};
    ghost use Rattle.ratio_lines.specs.declared.counted.Moments.{Moments};
    ghost use Rattle.ratio_lines.specs.Devices.{after_moment, after_read};

    /// What the calls did so far.
    ghost calls: { Self → Calls };

    /// What the reader had given and the writer had taken before each read.
    ghost moments: { Self → Moments };

    /// Reads as `read` does. A call that returns `Err` has failed.
    fn read_counted(&mut self, buf: &mut [u8], writer: &W) -> io::Result<usize>
        ensures bound { ReadsAtMost result buf.new }
        ensures bytes { ReadConsumes (Self.remaining self.old) (Self.remaining self.new) result buf.new }
        ensures calls { calls self.new ≡ after_read (calls self.old) result buf.new }
        ensures moments { moments self.new ≡ after_moment (moments self.old) (calls self.old) (W.calls writer.now) };
}

/// A writer whose calls are followed.
pub trait CalcWrite: Write {
    ghost use Rattle.ratio_lines.specs.declared.counted.Calls.{Calls};
    ghost use Rattle.ratio_lines.specs.Devices.{Tries, after_flush, after_write};

    /// What the calls did so far.
    ghost calls: { Self → Calls };

    /// Writes as `write` does. A call has failed if it returns
    /// `Err`, or takes no byte though there are some.
    fn write_counted(&mut self, buf: &[u8]) -> io::Result<usize>
        ensures bound { WritesAtMost result buf.now }
        ensures bytes { WriteAppends (Self.contents self.old) (Self.contents self.new) result buf.now }
        ensures calls { calls self.new ≡ after_write (calls self.old) result buf.now };

    /// Writes as `write_counted` does, but a call that was interrupted has not failed.
    fn write_tried(&mut self, buf: &[u8]) -> io::Result<usize>
        ensures bound { WritesAtMost result buf.now }
        ensures bytes { WriteAppends (Self.contents self.old) (Self.contents self.new) result buf.now }
        ensures calls { Tries (calls self.old) (calls self.new) result buf.now };

    /// What the calls did so far, for contracts alone.
    fn calls(&self) -> &Calls
        ensures { result.now ≡ calls self.now };

    /// Flushes as `flush` does.
    fn flush_counted(&mut self) -> io::Result<()>
        ensures bytes { Keeps (Self.contents self.old) (Self.contents self.new) }
        ensures calls { calls self.new ≡ after_flush (calls self.old) result };
}

/// A reader or a writer with its calls followed. To follow them takes no memory.
#[derive(Drop)]
pub struct Counted<D> {
    device: D,
    reads: Calls,
    moments: Moments,
    writes: Calls,
}

impl<D> Model for Counted<D> {
    ghost use Rattle.ratio_lines.specs.Devices.{Followed};

    ghost Value = { Followed D };

    ghost view = { λ c. record { device = c.device; reads = c.reads; moments = c.moments; writes = c.writes } };
}

impl<D> Counted<D> {
    ghost use Rattle.ratio_lines.specs.Devices.{no_calls, no_moments};

    /// The device. No call has been made.
    pub fn new(device: D) -> Counted<D>
        ensures { result ≡ record { device = device; reads = no_calls; moments = no_moments; writes = no_calls } }
    {
        Counted {
            device,
            reads: Calls::none(),
            moments: Moments::none(),
            writes: Calls::none(),
        }
    }

    /// The device.
    pub fn into_inner(self) -> D
        ensures { result ≡ self.device }
    {
        self.device
    }
}

impl<D: Read> Read for Counted<D> {
    ghost use Rattle.ratio_lines.specs.Devices.{after_read};

    ghost remaining = { λ c. D.remaining c.device };

    /// Reads, and notes no moment, since it knows no writer.
    fn read(&mut self, buf: &mut [u8]) -> io::Result<usize>
        ensures bound { ReadsAtMost result buf.new }
        ensures bytes { ReadConsumes (D.remaining self.old.device) (D.remaining self.new.device) result buf.new }
        ensures calls { self.new.reads ≡ after_read self.old.reads result buf.new }
        ensures moments { self.new.moments ≡ self.old.moments }
    {
        match self.device.read(buf) {
            Ok(0) if !buf.is_empty() => {
                self.reads.note_ended();
                Ok(0)
            }
            Ok(n) => {
                self.reads.note_moved(&buf[..n]);
                Ok(n)
            }
            Err(e) => {
                self.reads.note_failed();
                Err(e)
            }
        }
    }
}

impl<D: Read, W: CalcWrite> CalcRead<W> for Counted<D> {
    ghost calls = { λ c. c.reads };

    ghost moments = { λ c. c.moments };

    fn read_counted(&mut self, buf: &mut [u8], writer: &W) -> io::Result<usize> {
        self.moments.note(&self.reads, writer.calls());
        self.read(buf)
    }
}

impl<D: Write> Write for Counted<D> {
    ghost use Rattle.ratio_lines.specs.Devices.{after_flush, after_write};

    ghost contents = { λ c. D.contents c.device };

    fn write(&mut self, buf: &[u8]) -> io::Result<usize>
        ensures bound { WritesAtMost result buf.now }
        ensures bytes { WriteAppends (D.contents self.old.device) (D.contents self.new.device) result buf.now }
        ensures calls { self.new.writes ≡ after_write self.old.writes result buf.now }
    {
        self.write_counted(buf)
    }

    fn flush(&mut self) -> io::Result<()>
        ensures bytes { Keeps (D.contents self.old.device) (D.contents self.new.device) }
        ensures calls { self.new.writes ≡ after_flush self.old.writes result }
    {
        self.flush_counted()
    }
}

impl<D: Write> CalcWrite for Counted<D> {
    ghost calls = { λ c. c.writes };

    fn write_counted(&mut self, buf: &[u8]) -> io::Result<usize> {
        match self.device.write(buf) {
            Ok(0) if !buf.is_empty() => {
                self.writes.note_failed();
                Ok(0)
            }
            Ok(n) => {
                self.writes.note_moved(&buf[..n]);
                Ok(n)
            }
            Err(e) => {
                self.writes.note_failed();
                Err(e)
            }
        }
    }

    fn write_tried(&mut self, buf: &[u8]) -> io::Result<usize> {
        match self.device.write(buf) {
            Ok(0) if !buf.is_empty() => {
                self.writes.note_failed();
                Ok(0)
            }
            Ok(n) => {
                self.writes.note_moved(&buf[..n]);
                Ok(n)
            }
            Err(e) => {
                if e.kind() == ErrorKind::Interrupted {
                    self.writes.note_interrupted();
                } else {
                    self.writes.note_failed();
                }
                Err(e)
            }
        }
    }

    fn calls(&self) -> &Calls {
        &self.writes
    }

    fn flush_counted(&mut self) -> io::Result<()> {
        match self.device.flush() {
            Ok(()) => {
                self.writes.note_flushed();
                Ok(())
            }
            Err(e) => {
                self.writes.note_failed();
                Err(e)
            }
        }
    }
}
