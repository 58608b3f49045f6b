//! Writers that take at most one byte in each write. `NarrowWriter` can fail after a number of
//! calls. `HaltingWriter` is interrupted before each byte.
use std::io;
use std::io::{ErrorKind, Write};

/// Each write takes one byte, or none if the buffer is empty. After `left` more calls of `write`
/// and `flush`, each further call returns `BrokenPipe`. If `left` is `None`, the number of calls is
/// not limited. The only other error is out of memory.
#[derive(Drop)]
pub struct NarrowWriter {
    /// The bytes taken.
    pub held: Vec<u8>,
    /// The number of further calls of `write` and `flush` before `BrokenPipe`.
    pub left: Option<usize>,
}

impl NarrowWriter {
    fn spend(&mut self) -> io::Result<()> {
        if self.left == Some(0) {
            return Err(io::Error::from(ErrorKind::BrokenPipe));
        }
        self.left = self.left.map(|left| left.saturating_sub(1));
        Ok(())
    }
}

impl Write for NarrowWriter {
    fn write(&mut self, buf: &[u8]) -> io::Result<usize> {
        self.spend()?;
        match buf.first() {
            Some(byte) => {
                self.held.push(*byte)?;
                Ok(1)
            }
            None => Ok(0),
        }
    }

    fn flush(&mut self) -> io::Result<()> {
        self.spend()
    }
}

/// A write returns `Interrupted` unless the write before it was interrupted. An uninterrupted write
/// takes one byte, or none if the buffer is empty. After `left` more bytes, an uninterrupted write
/// takes nothing and returns 0. If `left` is `None`, the number of bytes is not limited. A flush
/// does nothing. The only other error is out of memory.
#[derive(Drop)]
pub struct HaltingWriter {
    /// The bytes taken.
    pub held: Vec<u8>,
    /// The number of bytes that further writes can take.
    pub left: Option<usize>,
    /// Whether the last write was interrupted.
    pub is_interrupted: bool,
}

impl Write for HaltingWriter {
    fn write(&mut self, buf: &[u8]) -> io::Result<usize> {
        self.is_interrupted = !self.is_interrupted;
        if self.is_interrupted {
            return Err(io::Error::from(ErrorKind::Interrupted));
        }
        match (self.left, buf.first()) {
            (Some(0), _) => Ok(0),
            (_, None) => Ok(0),
            (left, Some(byte)) => {
                self.held.push(*byte)?;
                self.left = left.map(|left| left.saturating_sub(1));
                Ok(1)
            }
        }
    }

    fn flush(&mut self) -> io::Result<()> {
        Ok(())
    }
}
