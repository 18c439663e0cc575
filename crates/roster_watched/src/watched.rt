//! Readers and writers that remember how they fared.

ghost use Rattle.std.specs.Prelude.{◌≡◌, ◌<◌, ◌==◌, ◌||◌, ◌&&◌, nat_lt, true, false, length, IfOk, OnOk};
ghost use Rattle.std.specs.Prelude.{OnErr};
ghost use Rattle.std.specs.Io.{ReadsAtMost, WritesAtMost};
ghost use Rattle.std.specs.Io.KnownBytes.{Keeps, ReadConsumes, WriteAppends};

use std::io;
use std::io::{Read, Write};

/// A reader or writer that remembers whether it has failed, and whether it is flushed.
///
/// It has failed if the one inside answered an error, or took none of some bytes. It then stays so.
/// It is flushed if a flush of it ended without an error, and no write was asked of it since: of what was
/// written to the one inside before, nothing is known.
#[derive(Drop)]
pub struct Watched<D> {
    inner: D,
    failed: bool,
    flushed: bool,
}

impl<D> Watched<D> {
    ghost use Rattle.roster_watched.specs.Watch.{inner_of, has_failed, is_flushed};

    /// A reader or writer that hasn't failed yet, and wasn't flushed yet.
    pub fn new(inner: D) -> Watched<D>
        ensures inner { inner_of result ≡ inner }
        ensures open { has_failed result ≡ false }
        ensures unflushed { is_flushed result ≡ false }
    {
        Watched {
            inner,
            failed: false,
            flushed: false,
        }
    }

    /// The reader or writer inside.
    pub fn inner(&self) -> &D
        ensures { result.now ≡ inner_of self.now }
    {
        &self.inner
    }

    /// Whether it has failed.
    pub fn failed(&self) -> bool
        ensures { result ≡ has_failed self.now }
    {
        self.failed
    }

    /// Whether it is flushed.
    pub fn flushed(&self) -> bool
        ensures { result ≡ is_flushed self.now }
    {
        self.flushed
    }
}

impl<R: Read> Read for Watched<R> {
    ghost use Rattle.roster_watched.specs.Watch.{has_failed, is_flushed};

    ghost remaining = { λ w. R.remaining w.inner };

    fn read(&mut self, buf: &mut [u8]) -> io::Result<usize>
        ensures bound { ReadsAtMost result buf.new }
        ensures bytes { ReadConsumes (R.remaining self.old.inner)
            (R.remaining self.new.inner) result buf.new }
        ensures goes { OnOk result (has_failed self.new ≡ has_failed self.old) }
        ensures fails { OnErr result (has_failed self.new ≡ true) }
        ensures flushed { is_flushed self.new ≡ is_flushed self.old }
    {
        let outcome = self.inner.read(buf);
        if outcome.is_err() {
            self.failed = true;
        }
        outcome
    }
}

impl<W: Write> Write for Watched<W> {
    ghost use Rattle.roster_watched.specs.Watch.{has_failed, is_flushed};

    ghost contents = { λ w. W.contents w.inner };

    fn write(&mut self, buf: &[u8]) -> io::Result<usize>
        ensures bound { WritesAtMost result buf.now }
        ensures bytes { WriteAppends (W.contents self.old.inner)
            (W.contents self.new.inner) result buf.now }
        ensures goes { IfOk result (λ n. has_failed self.new
            ≡ (has_failed self.old || (n == 0) && nat_lt 0 (length buf.now))) }
        ensures fails { OnErr result (has_failed self.new ≡ true) }
        ensures flushed { is_flushed self.new ≡ false }
    {
        self.flushed = false;
        let outcome = self.inner.write(buf);
        match &outcome {
            Ok(0) if !buf.is_empty() => self.failed = true,
            Ok(_) => {}
            Err(_) => self.failed = true,
        }
        outcome
    }

    fn flush(&mut self) -> io::Result<()>
        ensures bytes { Keeps (W.contents self.old.inner) (W.contents self.new.inner) }
        ensures goes { OnOk result (has_failed self.new ≡ has_failed self.old) }
        ensures fails { OnErr result (has_failed self.new ≡ true) }
        ensures flushed { OnOk result (is_flushed self.new ≡ true) }
        ensures unflushed { OnErr result (is_flushed self.new ≡ is_flushed self.old) }
    {
        let outcome = self.inner.flush();
        match &outcome {
            Ok(()) => self.flushed = true,
            Err(_) => self.failed = true,
        }
        outcome
    }
}
