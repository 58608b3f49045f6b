//! Readers that return at most one byte a read and can fail. `HaltingReader` also interrupts reads.
use std::io;
use std::io::{ErrorKind, Read};

/// A read returns one byte, or none if `rest` or the buffer is empty. After `left` more reads,
/// each further read fails with `kind`. If `left` is `None`, no read fails.
#[derive(Drop)]
pub struct NarrowReader<'a> {
    /// The bytes not read yet.
    pub rest: &'a [u8],
    /// How many more reads succeed.
    pub left: Option<usize>,
    pub kind: ErrorKind,
}

impl Read for NarrowReader<'_> {
    fn read(&mut self, buf: &mut [u8]) -> io::Result<usize> {
        if self.left == Some(0) {
            return Err(io::Error::from(self.kind));
        }
        self.left = self.left.map(|left| left.saturating_sub(1));
        match (self.rest, buf.first_mut()) {
            ([byte, rest @ ..], Some(first)) => {
                *first = *byte;
                self.rest = rest;
                Ok(1)
            }
            _ => Ok(0),
        }
    }
}

/// Reads alternate: one returns `Interrupted`, the next is not interrupted. An uninterrupted read
/// returns one byte, or none if `rest` or the buffer is empty. After `reads` more uninterrupted
/// reads, each further uninterrupted read fails with `kind`.
#[derive(Drop)]
pub struct HaltingReader<'a> {
    /// The bytes not read yet.
    pub rest: &'a [u8],
    /// How many more reads succeed.
    pub reads: usize,
    pub kind: ErrorKind,
    /// Whether the last read was interrupted.
    pub is_interrupted: bool,
}

impl<'a> HaltingReader<'a> {
    /// A reader of these bytes. The first read is interrupted.
    pub fn new(bytes: &'a [u8], reads: usize, kind: ErrorKind) -> Self {
        HaltingReader {
            rest: bytes,
            reads,
            kind,
            is_interrupted: false,
        }
    }
}

impl Read for HaltingReader<'_> {
    fn read(&mut self, buf: &mut [u8]) -> io::Result<usize> {
        self.is_interrupted = !self.is_interrupted;
        if self.is_interrupted {
            return Err(io::Error::from(ErrorKind::Interrupted));
        }
        if self.reads == 0 {
            return Err(io::Error::from(self.kind));
        }
        self.reads -= 1;
        match (self.rest, buf.first_mut()) {
            ([byte, rest @ ..], Some(first)) => {
                *first = *byte;
                self.rest = rest;
                Ok(1)
            }
            _ => Ok(0),
        }
    }
}
