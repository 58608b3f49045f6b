// A fake file system of one file, whose reads may fail. Records whether a call tried to open a
// file.
use sourcemap_test_support::files::{FakeFile, unsupported_error};
use sourcemap_test_support::readers::NarrowReader;
use std::alloc::Allocator;
use std::cell::Cell;
use std::fs::{Metadata, OpenOptions};
use std::io;
use std::io::ErrorKind;
use std::rt::Files;

// There is one file, at `path`. Opening it fails with `kind` if `fails_on_open` is true. Reads
// return `bytes`, one byte a read. After `left` reads, each read fails with `kind`. If `left` is
// `None`, no read fails. Opening any other path fails with `NotFound`.
#[derive(Drop)]
pub struct FakeFiles<'a> {
    pub path: &'a str,
    pub bytes: &'a [u8],
    pub left: Option<usize>,
    pub kind: ErrorKind,
    pub fails_on_open: bool,
    pub is_opened: Cell<bool>,
}

// A file system whose one file, at `path`, contains `text`. No call on the file fails. The kind of
// errors is `BrokenPipe`, if a caller sets `left` or `fails_on_open` afterwards.
pub fn files_with<'a>(path: &'a str, text: &'a str) -> FakeFiles<'a> {
    FakeFiles {
        path,
        bytes: text.as_bytes(),
        left: None,
        kind: ErrorKind::BrokenPipe,
        fails_on_open: false,
        is_opened: Cell::new(false),
    }
}

impl<'a> Files for FakeFiles<'a> {
    type File = FakeFile<'a>;

    type Dir = FakeFile<'a>;

    fn open_file(&self, _how: &OpenOptions, path: &str) -> io::Result<FakeFile<'a>> {
        self.is_opened.set(true);
        if path != self.path {
            return Err(io::Error::from(ErrorKind::NotFound));
        }
        if self.fails_on_open {
            return Err(io::Error::from(self.kind));
        }
        Ok(FakeFile {
            reader: NarrowReader {
                rest: self.bytes,
                left: self.left,
                kind: self.kind,
            },
        })
    }

    fn open_dir(&self, _path: &str) -> io::Result<FakeFile<'a>> {
        unsupported_error()
    }

    fn metadata(&self, _path: &str) -> io::Result<Metadata> {
        unsupported_error()
    }

    fn symlink_metadata(&self, _path: &str) -> io::Result<Metadata> {
        unsupported_error()
    }

    fn copy(&self, _from: &str, _to: &str) -> io::Result<u64> {
        unsupported_error()
    }

    fn rename(&self, _from: &str, _to: &str) -> io::Result<()> {
        unsupported_error()
    }

    fn remove_file(&self, _path: &str) -> io::Result<()> {
        unsupported_error()
    }

    fn create_dir(&self, _path: &str) -> io::Result<()> {
        unsupported_error()
    }

    fn remove_dir(&self, _path: &str) -> io::Result<()> {
        unsupported_error()
    }

    fn remove_dir_all<B: Allocator>(&self, _alloc: B, _path: &str) -> io::Result<()> {
        unsupported_error()
    }
}
