//! The two ends of a stream: what is read and what is written, with counts of failures.

ghost use Rattle.std.specs.Prelude.{◌≡◌, ℕ, Bool, false, ◌+◌, ◌-◌, ◌^◌, ◌<◌, ◌≤◌, ◌==◌, List, Option, IfOk, OnOk, OnErr, length};
ghost use Rattle.std.specs.Io.KnownBytes.{Appends, Consumes, Keeps, IsAtEnd, ReadConsumes, WriteAppends};
ghost use Rattle.http_stream.specs.Endpoints.{CountsErr, CountsNone};
ghost use Rattle.http_stream.specs.Watching.{inner_of, failures_of, ended_of};

use std::io;
use std::io::{Read, Write};

/// What is read, with a count of the calls that failed. A call is made only below the greatest count, and none after one that
/// gave no byte: that was the end.
pub trait Source {
    // The bytes that are left to read, where they are known.
    ghost left: { Self → Option (List ℕ) };

    // How many calls failed.
    ghost failures: { Self → ℕ };

    // Whether the last call gave no byte.
    ghost ended: { Self → Bool };

    /// Reads some bytes into the front of `buf`; none at the end alone.
    fn read(&mut self, buf: &mut [u8]) -> io::Result<usize>
        requires failures { failures self.old < 2 ^ 64 - 1 }
        requires open { ended self.old ≡ false }
        ensures bound { IfOk result (λ n. n ≤ length buf.new) }
        ensures bytes { ReadConsumes (left self.old) (left self.new) result buf.new }
        ensures count { CountsErr (failures self.old) (failures self.new) result }
        ensures end { IfOk result (λ n. ended self.new ≡ (n == 0)) };
}

/// What is written, with a count of the calls that failed or took no byte.
pub trait Sink {
    // The bytes that were written, where they are known.
    ghost written: { Self → Option (List ℕ) };

    // How many calls failed or took no byte.
    ghost failures: { Self → ℕ };

    /// Writes some bytes from the front of `buf`.
    fn write(&mut self, buf: &[u8]) -> io::Result<usize>
        requires { failures self.old < 2 ^ 64 - 1 }
        ensures bound { IfOk result (λ n. n ≤ length buf.now) }
        ensures bytes { WriteAppends (written self.old) (written self.new) result buf.now }
        ensures count { CountsNone (failures self.old) (failures self.new) result };
}

/// Any reader or writer, with the count of its calls that failed, from 0. Of a reader it is also stored whether it has ended.
#[derive(Drop)]
pub struct Watched<T> {
    inner: T,
    failures: u64,
    ended: bool,
}

impl<T> Watched<T> {
    /// Begins to watch, at a count of 0. Nothing has ended yet.
    pub fn new(inner: T) -> Self
        ensures inner { inner_of result ≡ inner }
        ensures failures { failures_of result ≡ 0 }
        ensures open { ended_of result ≡ false }
    {
        Watched {
            inner,
            failures: 0,
            ended: false,
        }
    }

    /// Returns how many calls failed.
    pub fn failures(&self) -> u64
        ensures { result ≡ failures_of self.now }
    {
        let Watched {
            inner: _,
            failures,
            ended: _,
        } = self;
        *failures
    }

    /// Gives up the reader or writer.
    pub fn into_inner(self) -> T
        ensures { result ≡ inner_of self }
    {
        let Watched {
            inner,
            failures: _,
            ended: _,
        } = self;
        inner
    }
}

impl<R: Read> Source for Watched<R> {
    ghost left = { λ w. R.remaining (inner_of w) };

    ghost failures = { failures_of };

    ghost ended = { ended_of };

    fn read(&mut self, buf: &mut [u8]) -> io::Result<usize> {
        match self.inner.read(buf) {
            Ok(n) => {
                // A `buf` of no bytes would look like the end; a window never reads into one.
                self.ended = n == 0;
                Ok(n)
            }
            Err(error) => {
                self.failures += 1;
                Err(error)
            }
        }
    }
}

impl<W: Write> Sink for Watched<W> {
    ghost written = { λ w. W.contents (inner_of w) };

    ghost failures = { failures_of };

    fn write(&mut self, buf: &[u8]) -> io::Result<usize> {
        match self.inner.write(buf) {
            // Counted as a failure, since the bytes would never be written.
            Ok(0) => {
                self.failures += 1;
                Ok(0)
            }
            Ok(n) => Ok(n),
            Err(e) => {
                self.failures += 1;
                Err(e)
            }
        }
    }
}
