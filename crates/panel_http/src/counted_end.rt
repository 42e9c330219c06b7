//! A reader or a writer that counts its failures.
ghost use Rattle.std.specs.Prelude.{◌≡◌, ◌<◌, OnErr, OnOk, IfOk};
ghost use Rattle.std.specs.Io.{ReadsAtMost, WritesAtMost};
ghost use Rattle.std.specs.Io.KnownBytes.{Keeps, ReadConsumes, WriteAppends};
ghost use Rattle.store.specs.Standing.{HasRisen};

use std::io::{self, Read, Write};

/// A reader or a writer, and how often it has failed.
#[derive(Drop)]
pub struct Counted<T> {
    inner: T,
    failures: u64,
}

impl<T> Counted<T> {
    /// An end that has not failed.
    pub fn new(inner: T) -> Counted<T>
        ensures inner { result.inner ≡ inner }
        ensures failures { result.failures ≡ 0 }
    {
        Counted { inner, failures: 0 }
    }

    /// How often it has failed. The count stays at the greatest u64.
    pub fn failures(&self) -> u64
        ensures { result ≡ self.now.failures }
    {
        self.failures
    }

    /// The reader or the writer.
    pub fn into_inner(self) -> T
        ensures { result ≡ self.inner }
    {
        self.inner
    }

    fn count(&mut self)
        ensures risen { HasRisen self.old.failures self.new.failures }
        ensures inner { self.new.inner ≡ self.old.inner }
    {
        self.failures = self.failures.saturating_add(1);
    }
}

impl<R: Read> Read for Counted<R> {
    ghost remaining = { λ counted. R.remaining counted.inner };

    fn read(&mut self, buffer: &mut [u8]) -> io::Result<usize>
        ensures bound { ReadsAtMost result buffer.new }
        ensures bytes { ReadConsumes (R.remaining self.old.inner) (R.remaining self.new.inner) result buffer.new }
        ensures ok { OnOk result (self.new.failures ≡ self.old.failures) }
        ensures err { OnErr result (HasRisen self.old.failures self.new.failures) }
    {
        let outcome = self.inner.read(buffer);
        if outcome.is_err() {
            self.count();
        }
        outcome
    }
}

impl<W: Write> Write for Counted<W> {
    ghost contents = { λ counted. W.contents counted.inner };

    fn write(&mut self, bytes: &[u8]) -> io::Result<usize>
        ensures bound { WritesAtMost result bytes.now }
        ensures bytes { WriteAppends (W.contents self.old.inner) (W.contents self.new.inner) result bytes.now }
        ensures taken { IfOk result (λ count. 0 < count → self.new.failures ≡ self.old.failures) }
        ensures none { IfOk result (λ count. count ≡ 0 → HasRisen self.old.failures self.new.failures) }
        ensures err { OnErr result (HasRisen self.old.failures self.new.failures) }
    {
        let outcome = self.inner.write(bytes);
        if !matches!(outcome, Ok(1..)) {
            self.count();
        }
        outcome
    }

    fn flush(&mut self) -> io::Result<()>
        ensures bytes { Keeps (W.contents self.old.inner) (W.contents self.new.inner) }
        ensures ok { OnOk result (self.new.failures ≡ self.old.failures) }
        ensures err { OnErr result (HasRisen self.old.failures self.new.failures) }
    {
        let outcome = self.inner.flush();
        if outcome.is_err() {
            self.count();
        }
        outcome
    }
}
