//! Readers and writers that take pieces, and fail once. They go on afterwards, and count who asks them still.

use std::io;
use std::io::{Read, Write};

/// Gives some bytes, at first a given number and then a piece at a time; then it fails once and gives others, or it ends.
#[derive(Drop)]
pub struct Pieces<'a> {
    bytes: &'a [u8],
    first: usize,
    piece: usize,
    fault: Option<(io::ErrorKind, &'a [u8])>,
    is_over: bool,
    /// How many calls came after it had failed or ended.
    pub late: u32,
}

impl<'a> Pieces<'a> {
    pub fn new(
        bytes: &'a [u8],
        (first, piece): (usize, usize),
        fault: Option<(io::ErrorKind, &'a [u8])>,
    ) -> Self {
        Pieces {
            bytes,
            first,
            piece,
            fault,
            is_over: false,
            late: 0,
        }
    }
}

impl Read for Pieces<'_> {
    fn read(&mut self, buf: &mut [u8]) -> io::Result<usize> {
        if self.is_over {
            self.late = self.late.saturating_add(1);
        }
        self.is_over = self.is_over || self.bytes.is_empty();
        if let (Some((fault, rest)), true) = (self.fault, self.bytes.is_empty()) {
            self.fault = None;
            self.bytes = rest;
            return Err(io::Error::from(fault));
        }
        let n = self.first.min(buf.len());
        self.first = self.piece;
        self.bytes.read(&mut buf[..n])
    }
}

/// Takes some bytes, thirty at a time at most; then it fails or takes none, once, and takes others.
#[derive(Drop)]
pub struct Narrow {
    pub taken: Vec<u8>,
    room: usize,
    fault: Option<io::ErrorKind>,
    is_over: bool,
    /// How many calls came after it had failed or taken none.
    pub late: u32,
}

impl Narrow {
    /// Keeps what it takes after what is here already.
    pub fn new(taken: Vec<u8>, room: usize, fault: Option<io::ErrorKind>) -> Self {
        Narrow {
            taken,
            room,
            fault,
            is_over: false,
            late: 0,
        }
    }
}

impl Write for Narrow {
    fn write(&mut self, buf: &[u8]) -> io::Result<usize> {
        if self.is_over {
            self.late = self.late.saturating_add(1);
            return self.taken.write(buf);
        }
        let n = self.room.min(buf.len()).min(30);
        self.room -= n;
        self.is_over = n == 0;
        match self.fault {
            Some(fault) if n == 0 => Err(io::Error::from(fault)),
            _ => self.taken.write(&buf[..n]),
        }
    }

    fn flush(&mut self) -> io::Result<()> {
        Ok(())
    }
}
