//! A fake file for the fake file systems of tests, and the error of an unsupported operation.
ghost use Rattle.std.specs.Prelude.{IsErr};

use crate::readers::NarrowReader;
use std::fs::{Metadata, OpenFile};
use std::io;
use std::io::{ErrorKind, Read, Seek, SeekFrom, Write};

/// Returns an error of kind `Unsupported`, for an operation that a fake does not offer.
pub fn unsupported_error<T>() -> io::Result<T>
    ensures { IsErr result }
{
    Err(io::Error::from(ErrorKind::Unsupported))
}

/// A file that can only be read. All operations other than `read` fail with the kind `Unsupported`.
#[derive(Drop)]
pub struct FakeFile<'a> {
    /// Each read of the file returns the result of one read of this reader.
    pub reader: NarrowReader<'a>,
}

impl Read for FakeFile<'_> {
    fn read(&mut self, buf: &mut [u8]) -> io::Result<usize> {
        self.reader.read(buf)
    }
}

impl Write for FakeFile<'_> {
    fn write(&mut self, _buf: &[u8]) -> io::Result<usize> {
        unsupported_error()
    }

    fn flush(&mut self) -> io::Result<()> {
        unsupported_error()
    }
}

impl Seek for FakeFile<'_> {
    fn seek(&mut self, _to: SeekFrom) -> io::Result<u64> {
        unsupported_error()
    }
}

impl OpenFile for FakeFile<'_> {
    fn metadata(&self) -> io::Result<Metadata> {
        unsupported_error()
    }

    fn set_len(&self, _size: u64) -> io::Result<()> {
        unsupported_error()
    }

    fn sync_all(&self) -> io::Result<()> {
        unsupported_error()
    }

    fn sync_data(&self) -> io::Result<()> {
        unsupported_error()
    }
}
