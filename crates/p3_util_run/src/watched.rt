//! A reader or a writer whose failures are counted.

ghost use Rattle.std.specs.Prelude.{◌≡◌, OnOk, OnErr, true, false};
ghost use Rattle.std.specs.Io.{ReadsAtMost, WritesAtMost};
ghost use Rattle.std.specs.Io.KnownBytes.{Keeps, ReadConsumes, WriteAppends};
ghost use Rattle.p3_util_run.specs.Watch.{noted, count_after_call, count_after_write, end_after_read};

use std::io;
use std::io::{Read, Write};
use std::marker::Model;

/// How far a reader has read, as far as the results of its reads show.
#[derive(Drop)]
pub enum InputEnd {
    /// No read has found the end of the input.
    Ahead,
    /// The last read yielded no byte though there was room for one. This is the end of the input.
    Reached,
    /// There was another read after the end.
    Passed,
}

/// A reader or a writer, with the number of its failures, how far a reader has read, and whether a
/// writer is flushed. A failure is a call that returns an error of any kind, or a write that takes
/// none of at least one byte. The number stops at `u64::MAX`.
///
/// A `Watched` is flushed if everything that was written through it has been flushed. A new one is
/// flushed, whatever its writer holds.
#[derive(Drop)]
pub struct Watched<T> {
    inner: T,
    failures: u64,
    input_end: InputEnd,
    is_flushed: bool,
}

impl<T> Model for Watched<T> {
    ghost use Rattle.p3_util_run.specs.Watch.{Watch};

    ghost Value = { Watch T };

    ghost view = { λ w. record {
      inner = w.inner;
      failures = w.failures;
      input_end = w.input_end;
      is_flushed = w.is_flushed;
    } };
}

impl<T> Watched<T> {
    /// Watches `inner`, with no failure, no read and no write so far.
    pub fn new(inner: T) -> Self
        ensures inner { result.inner ≡ inner }
        ensures failures { result.failures ≡ 0 }
        ensures input_end { result.input_end ≡ InputEnd.Ahead }
        ensures flushed { result.is_flushed ≡ true }
    {
        Watched {
            inner,
            failures: 0,
            input_end: InputEnd::Ahead,
            is_flushed: true,
        }
    }

    /// The number of failures so far.
    pub fn failures(&self) -> u64
        ensures { result ≡ self.now.failures }
    {
        self.failures
    }

    /// The reader or the writer itself.
    pub fn into_inner(self) -> T
        ensures { result ≡ self.inner }
    {
        let Watched { inner, .. } = self;
        inner
    }

    fn note(&mut self)
        ensures inner { self.new.inner ≡ self.old.inner }
        ensures failures { self.new.failures ≡ noted self.old.failures }
        ensures input_end { self.new.input_end ≡ self.old.input_end }
        ensures flushed { self.new.is_flushed ≡ self.old.is_flushed }
    {
        let Watched { failures, .. } = self;
        *failures = failures.saturating_add(1);
    }
}

impl<R: Read> Watched<R> {
    /// One read of the reader.
    pub fn read(&mut self, buf: &mut [u8]) -> io::Result<usize>
        ensures bound { ReadsAtMost result buf.new }
        ensures bytes { ReadConsumes (R.remaining self.old.inner)
            (R.remaining self.new.inner) result buf.new }
        ensures failures { self.new.failures ≡ count_after_call result self.old.failures }
        ensures input_end { self.new.input_end ≡ end_after_read result buf.new self.old.input_end }
        ensures flushed { self.new.is_flushed ≡ self.old.is_flushed }
    {
        let result = self.inner.read(buf);
        let gives_none = match result {
            Ok(n) => n == 0 && !buf.is_empty(),
            Err(_) => false,
        };
        self.input_end = match self.input_end {
            InputEnd::Ahead if gives_none => InputEnd::Reached,
            InputEnd::Ahead => InputEnd::Ahead,
            InputEnd::Reached | InputEnd::Passed => InputEnd::Passed,
        };
        if result.is_err() {
            self.note();
        }
        result
    }
}

impl<W: Write> Watched<W> {
    /// One write of the writer.
    pub fn write(&mut self, buf: &[u8]) -> io::Result<usize>
        ensures bound { WritesAtMost result buf.now }
        ensures bytes { WriteAppends (W.contents self.old.inner)
            (W.contents self.new.inner) result buf.now }
        ensures failures { self.new.failures ≡ count_after_write result buf.now self.old.failures }
        ensures input_end { self.new.input_end ≡ self.old.input_end }
        ensures unflushed { self.new.is_flushed ≡ false }
    {
        self.is_flushed = false;
        let result = self.inner.write(buf);
        match result {
            Ok(0) if !buf.is_empty() => self.note(),
            Ok(_) => {}
            Err(_) => self.note(),
        }
        result
    }

    /// One flush of the writer, even if nothing was written before.
    pub fn flush(&mut self) -> io::Result<()>
        ensures bytes { Keeps (W.contents self.old.inner) (W.contents self.new.inner) }
        ensures failures { self.new.failures ≡ count_after_call result self.old.failures }
        ensures input_end { self.new.input_end ≡ self.old.input_end }
        ensures flushed { OnOk result (self.new.is_flushed ≡ true) }
        ensures unflushed { OnErr result (self.new.is_flushed ≡ self.old.is_flushed) }
    {
        let result = self.inner.flush();
        match result {
            Ok(()) => self.is_flushed = true,
            Err(_) => self.note(),
        }
        result
    }
}
