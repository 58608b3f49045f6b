//! A file system without files. `rewrite` takes a file system as a parameter. If the option
//! `load_local_source_contents` is false, `rewrite` reads no file, and a caller can pass `NoFiles`.
ghost use Rattle.std.specs.Prelude.{IsErr};

use std::alloc::Allocator;
use std::fs::{FileTimes, Files, Metadata, OpenFile, OpenOptions, Permissions};
use std::io;
use std::io::{Read, Seek, SeekFrom, Write};

/// A file that cannot be opened. `read`, `write`, `flush`, `seek` and each call of `OpenFile`
/// return `Unsupported`.
#[derive(Drop)]
pub struct NoFile;

/// A file system without files. Each call returns `Unsupported`.
pub struct NoFiles;

fn unsupported_error() -> io::Error {
    io::Error::from(io::ErrorKind::Unsupported)
}

impl Read for NoFile {
    fn read(&mut self, _bytes: &mut [u8]) -> io::Result<usize> {
        Err(unsupported_error())
    }
}

impl Write for NoFile {
    fn write(&mut self, _bytes: &[u8]) -> io::Result<usize> {
        Err(unsupported_error())
    }

    fn flush(&mut self) -> io::Result<()> {
        Err(unsupported_error())
    }
}

impl Seek for NoFile {
    fn seek(&mut self, _to: SeekFrom) -> io::Result<u64> {
        Err(unsupported_error())
    }
}

impl OpenFile for NoFile {
    fn metadata(&self) -> io::Result<Metadata> {
        Err(unsupported_error())
    }

    fn set_len(&self, _size: u64) -> io::Result<()> {
        Err(unsupported_error())
    }

    fn sync_all(&self) -> io::Result<()> {
        Err(unsupported_error())
    }

    fn sync_data(&self) -> io::Result<()> {
        Err(unsupported_error())
    }
}

impl Files for NoFiles {
    type File = NoFile;

    type Dir = NoFile;

    fn open_file(&self, _how: &OpenOptions, _path: &str) -> io::Result<NoFile>
        ensures { IsErr result }
    {
        Err(unsupported_error())
    }

    fn open_dir(&self, _path: &str) -> io::Result<NoFile>
        ensures { IsErr result }
    {
        Err(unsupported_error())
    }

    fn metadata(&self, _path: &str) -> io::Result<Metadata> {
        Err(unsupported_error())
    }

    fn symlink_metadata(&self, _path: &str) -> io::Result<Metadata> {
        Err(unsupported_error())
    }

    fn copy(&self, _from: &str, _to: &str) -> io::Result<u64> {
        Err(unsupported_error())
    }

    fn rename(&self, _from: &str, _to: &str) -> io::Result<()> {
        Err(unsupported_error())
    }

    fn remove_file(&self, _path: &str) -> io::Result<()> {
        Err(unsupported_error())
    }

    fn create_dir(&self, _path: &str) -> io::Result<()> {
        Err(unsupported_error())
    }

    fn remove_dir(&self, _path: &str) -> io::Result<()> {
        Err(unsupported_error())
    }

    fn remove_dir_all<B: Allocator>(&self, _alloc: B, _path: &str) -> io::Result<()> {
        Err(unsupported_error())
    }
}
