//! The errors that this library returns, and the text that each displays.
ghost use Rattle.std.specs.Prelude.{◌≡◌};
ghost use Rattle.sourcemap_errors.specs.declared.errors.Error.TheVariants.{BadJson, InvalidRangeMappingIndex};
ghost use Rattle.sourcemap_errors.specs.declared.errors.Error.TheVariants.{OutOfMemory, Scroll, Utf8};

use std::alloc::{AllocError, AllocFailed};
use std::{fmt, io, str};

/// The result type of this library.
pub type Result<T> = std::result::Result<T, Error>;

/// A range that extends past the end of a buffer.
#[derive(Clone, Copy, Debug, PartialEq, Eq)]
pub struct RangeFault {
    /// Start of the range, in bytes.
    pub start: u64,
    /// Size of the range, in bytes.
    pub size: u64,
    /// Size of the buffer, in bytes.
    pub len: u64,
}

impl fmt::Display for RangeFault {
    ghost use Rattle.std.specs.Prelude.{Some};
    ghost use Rattle.sourcemap_errors.specs.Errors.{range_fault_text};

    ghost output = { λ error. Some (range_fault_text error) };

    fn fmt<W: fmt::Write>(&self, f: &mut fmt::Formatter<W>) -> fmt::Result {
        let RangeFault { start, size, len } = *self;
        write!(f, "{start}+{size} past {len}")
    }
}

/// Why a source map cannot be read from JSON.
#[derive(Clone, Copy, Debug, PartialEq, Eq)]
pub enum JsonFault {
    /// The text is not JSON, is not UTF-8, has more than 127 levels, has a number too large for
    /// `f64`, or escapes one half of a surrogate pair without the other.
    Parse,
    /// The JSON value does not have the expected shape.
    Shape,
}

impl fmt::Display for JsonFault {
    ghost use Rattle.std.specs.Prelude.{Some};
    ghost use Rattle.sourcemap_errors.specs.Errors.{json_fault_text};

    ghost output = { λ error. Some (json_fault_text error) };

    fn fmt<W: fmt::Write>(&self, f: &mut fmt::Formatter<W>) -> fmt::Result {
        match self {
            JsonFault::Parse => f.write_str("the text is not JSON"),
            JsonFault::Shape => f.write_str("a field has the wrong type"),
        }
    }
}

/// The offset of the first byte that is not base64.
#[derive(Clone, Copy, Debug, PartialEq, Eq)]
pub struct Base64Fault {
    /// Offset in bytes.
    pub at: u64,
}

impl fmt::Display for Base64Fault {
    ghost use Rattle.std.specs.Prelude.{Some};
    ghost use Rattle.sourcemap_errors.specs.Errors.{base64_fault_text};

    ghost output = { λ error. Some (base64_fault_text error) };

    fn fmt<W: fmt::Write>(&self, f: &mut fmt::Formatter<W>) -> fmt::Result {
        let at = self.at;
        write!(f, "bad base64 at {at}")
    }
}

/// An error of this library.
#[derive(Debug, Drop)]
pub enum Error {
    /// Reading or writing failed. Kind `InvalidData` can also mean an invalid junk header or, in a
    /// search for a reference, a line that is not UTF-8. Kind `Other` can also mean that such a
    /// search read 2^64 - 1 lines without a reference. Kind `InvalidInput` can also mean that
    /// source contents are to be loaded, but neither `base_path` nor `current_dir` is absolute.
    Io(io::Error),
    /// The bytes are not UTF-8.
    Utf8(str::Utf8Error),
    /// A range extends past the end of a bundle.
    Scroll(RangeFault),
    /// The input cannot be read as the JSON of a source map.
    BadJson(JsonFault),
    /// A segment ends within a number.
    VlqLeftover,
    /// A segment has no number.
    VlqNoValues,
    /// A number has an absolute value of 2^62 or more, or has more than thirteen base64 digits.
    VlqOverflow,
    /// A segment has this many numbers; 1, 4 and 5 are valid. Counts above 4294967295 are
    /// reported as 4294967295.
    BadSegmentSize(u32),
    /// A segment refers to this source id, which does not exist.
    BadSourceReference(u32),
    /// A segment refers to this name id, which does not exist.
    BadNameReference(u32),
    /// The map has another kind than expected, or exceeds a limit.
    IncompatibleSourceMap,
    /// The text is not a data URL of the form that `data_url_bytes` decodes.
    InvalidDataUrl,
    /// The index map cannot be flattened, for this reason.
    CannotFlatten(String),
    /// The bundle does not begin with the magic number.
    InvalidRamBundleMagic,
    /// A module index is not below the module count of an indexed bundle, or the name of a module
    /// file is not a valid module number followed by `.js`.
    InvalidRamBundleIndex,
    /// The table entry of a module is invalid, or a module cannot be split from its bundle.
    InvalidRamBundleEntry,
    /// `is_unbundle_path` is false for the path, or the index map of a bundle has no
    /// `x_facebook_offsets`.
    NotARamBundle,
    /// Never returned; kept for callers that match on it.
    InvalidRangeMappingIndex(Base64Fault),
    /// A byte is not a base64 digit. The `char` has the code of this byte.
    InvalidBase64(char),
    /// Memory ran out.
    OutOfMemory,
}

impl fmt::Display for Error {
    ghost use Rattle.sourcemap_errors.specs.Errors.{error_text};

    ghost output = { error_text };

    fn fmt<W: fmt::Write>(&self, f: &mut fmt::Formatter<W>) -> fmt::Result {
        match self {
            Error::Io(cause) => write!(f, "{cause}"),
            Error::Utf8(cause) => write!(f, "{cause}"),
            Error::Scroll(error) => write!(f, "parse error: {error}"),
            Error::BadJson(error) => write!(f, "bad json: {error}"),
            Error::VlqLeftover => f.write_str("leftover cur/shift in vlq decode"),
            Error::VlqNoValues => f.write_str("vlq decode did not produce any values"),
            Error::VlqOverflow => f.write_str("vlq decode caused an overflow"),
            Error::BadSegmentSize(size) => write!(f, "got {size} segments, expected 4 or 5"),
            Error::BadSourceReference(id) => write!(f, "bad reference to source #{id}"),
            Error::BadNameReference(id) => write!(f, "bad reference to name #{id}"),
            Error::IncompatibleSourceMap => f.write_str(
                "encountered incompatible sourcemap format",
            ),
            Error::InvalidDataUrl => f.write_str("the provided data URL is invalid"),
            Error::CannotFlatten(reason) => write!(
                f,
                "cannot flatten the indexed sourcemap: {reason}"
            ),
            Error::InvalidRamBundleMagic => f.write_str("invalid magic number for ram bundle"),
            Error::InvalidRamBundleIndex => f.write_str("invalid module index in ram bundle"),
            Error::InvalidRamBundleEntry => f.write_str("invalid ram bundle module entry"),
            Error::NotARamBundle => f.write_str("not a ram bundle"),
            Error::InvalidRangeMappingIndex(error) => write!(
                f,
                "invalid range mapping index: {error}"
            ),
            Error::InvalidBase64(byte) => write!(f, "invalid base64 character: {byte}"),
            Error::OutOfMemory => f.write_str("out of memory"),
        }
    }
}

impl std::error::Error for Error {}

impl From<AllocError> for Error {
    ghost from_gives = { λ _ e. e ≡ OutOfMemory };

    fn from(_refused: AllocError) -> Error {
        Error::OutOfMemory
    }
}

impl<T: Drop> From<AllocFailed<T>> for Error {
    ghost from_gives = { λ _ e. e ≡ OutOfMemory };

    fn from(_refused: AllocFailed<T>) -> Error {
        Error::OutOfMemory
    }
}

impl From<io::Error> for Error {
    ghost use Rattle.sourcemap_errors.specs.Errors.{FromIo};

    ghost from_gives = { FromIo };

    fn from(cause: io::Error) -> Error {
        if cause.kind() == io::ErrorKind::OutOfMemory {
            return Error::OutOfMemory;
        }
        Error::Io(cause)
    }
}

impl From<RangeFault> for Error {
    ghost from_gives = { λ error e. e ≡ Scroll error };

    fn from(error: RangeFault) -> Error {
        Error::Scroll(error)
    }
}

impl From<str::Utf8Error> for Error {
    ghost from_gives = { λ error e. e ≡ Utf8 error };

    fn from(error: str::Utf8Error) -> Error {
        Error::Utf8(error)
    }
}

impl From<JsonFault> for Error {
    ghost from_gives = { λ error e. e ≡ BadJson error };

    fn from(error: JsonFault) -> Error {
        Error::BadJson(error)
    }
}

impl From<Base64Fault> for Error {
    ghost from_gives = { λ error e. e ≡ InvalidRangeMappingIndex error };

    fn from(error: Base64Fault) -> Error {
        Error::InvalidRangeMappingIndex(error)
    }
}

impl From<serde_json::Error> for Error {
    ghost use Rattle.sourcemap_errors.specs.Errors.{FromJson};

    ghost from_gives = { FromJson };

    fn from(cause: serde_json::Error) -> Error {
        match cause.classify() {
            serde_json::Category::Memory => Error::OutOfMemory,
            _ => Error::BadJson(JsonFault::Parse),
        }
    }
}
