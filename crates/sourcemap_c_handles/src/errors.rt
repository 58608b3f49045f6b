//! Error codes of the C interface, and reports of errors.
ghost use Rattle.std.specs.Prelude.{◌≡◌, ◌≢◌, ◌≤◌, IfOk, IsErr, length, string_bytes};
ghost use Rattle.sourcemap_errors.specs.declared.errors.Error.TheVariants.{OutOfMemory};
ghost use Rattle.sourcemap_c_handles.specs.Errors.{Finishes, IsWritten, Reports, error_code, error_numbers, failure_numbers, one_number, over};
ghost use Rattle.sourcemap_c_handles.specs.declared.errors.Failure.TheVariants.{Library};

use sourcemap_errors::errors::{Error, JsonFault};
use std::alloc::{AllocError, Global};
use std::fmt;

/// The codes of the C header.
#[derive(Clone, Copy, PartialEq, Eq)]
pub enum Code {
    Ok = 0,
    Io = 1,
    Utf8 = 2,
    Range = 3,
    BadJson = 4,
    VlqLeftover = 5,
    VlqNoValues = 6,
    VlqOverflow = 7,
    BadSegmentSize = 8,
    BadSourceReference = 9,
    BadNameReference = 10,
    Incompatible = 11,
    InvalidDataUrl = 12,
    CannotFlatten = 13,
    InvalidBundleMagic = 14,
    InvalidBundleIndex = 15,
    InvalidBundleEntry = 16,
    NotABundle = 17,
    InvalidRangeIndex = 18,
    InvalidBase64 = 19,
    OutOfMemory = 20,
    Absent = 32,
    WrongKind = 33,
    PastLimit = 34,
}

/// The error of a call from C. `Library` holds an error of the library. The other errors exist only
/// in the C interface.
#[derive(Drop)]
pub enum Failure {
    Library(Error),
    /// The item that the call asks for does not exist, for example a token, a text or a module.
    Absent,
    /// The handle is empty, or the call does not apply to its value.
    WrongKind,
    /// A line would pass 4294967295.
    PastLimit,
}

/// The result of a call before the result is reported to C.
pub type Outcome<T> = std::result::Result<T, Failure>;

/// The struct `sm_error` of the C header.
#[repr(C)]
#[derive(Drop)]
pub struct ErrorReport {
    pub code: u32,
    pub number: u32,
    pub start: u64,
    pub size: u64,
    pub length: u64,
    pub text_length: usize,
    pub text: [u8; 256],
}

impl Code {
    ghost use Rattle.sourcemap_c_handles.specs.Errors.{number_of};

    /// The number of the code in the C header.
    pub fn number(self) -> u32
        ensures { result ≡ number_of self }
    {
        self as u32
    }
}

impl Failure {
    ghost use Rattle.sourcemap_c_handles.specs.Errors.{code_of};

    pub fn code(&self) -> Code
        ensures { result ≡ code_of self.now }
    {
        match self {
            Failure::Library(error) => error_code(error),
            Failure::Absent => Code::Absent,
            Failure::WrongKind => Code::WrongKind,
            Failure::PastLimit => Code::PastLimit,
        }
    }
}

impl fmt::Display for Failure {
    ghost use Rattle.sourcemap_c_handles.specs.Errors.{failure_text};

    ghost output = { failure_text };

    fn fmt<W: fmt::Write>(&self, f: &mut fmt::Formatter<W>) -> fmt::Result {
        match self {
            Failure::Library(error) => write!(f, "{error}"),
            Failure::Absent => f.write_str("there is none"),
            Failure::WrongKind => f.write_str("the handle holds nothing that has this call"),
            Failure::PastLimit => f.write_str("a line would pass 4294967295"),
        }
    }
}

impl From<Error> for Failure {
    ghost from_gives = { λ e failure. failure ≡ Library e };

    fn from(error: Error) -> Failure {
        Failure::Library(error)
    }
}

impl From<AllocError> for Failure {
    ghost from_gives = { λ _ failure. failure ≡ Library OutOfMemory };

    fn from(_refused: AllocError) -> Failure {
        Failure::Library(Error::OutOfMemory)
    }
}

fn error_code(error: &Error) -> Code
    ensures { result ≡ error_code error.now }
{
    match error {
        Error::Io(_) => Code::Io,
        Error::Utf8(_) => Code::Utf8,
        Error::Scroll(_) => Code::Range,
        Error::BadJson(_) => Code::BadJson,
        Error::VlqLeftover => Code::VlqLeftover,
        Error::VlqNoValues => Code::VlqNoValues,
        Error::VlqOverflow => Code::VlqOverflow,
        Error::BadSegmentSize(_) => Code::BadSegmentSize,
        Error::BadSourceReference(_) => Code::BadSourceReference,
        Error::BadNameReference(_) => Code::BadNameReference,
        Error::IncompatibleSourceMap => Code::Incompatible,
        Error::InvalidDataUrl => Code::InvalidDataUrl,
        Error::CannotFlatten(_) => Code::CannotFlatten,
        Error::InvalidRamBundleMagic => Code::InvalidBundleMagic,
        Error::InvalidRamBundleIndex => Code::InvalidBundleIndex,
        Error::InvalidRamBundleEntry => Code::InvalidBundleEntry,
        Error::NotARamBundle => Code::NotABundle,
        Error::InvalidRangeMappingIndex(_) => Code::InvalidRangeIndex,
        Error::InvalidBase64(_) => Code::InvalidBase64,
        Error::OutOfMemory => Code::OutOfMemory,
    }
}

// The fields `number`, `start`, `size` and `length` of an `ErrorReport`.
#[derive(Clone, Copy)]
pub(crate) struct Numbers {
    number: u32,
    start: u64,
    size: u64,
    length: u64,
}

const NO_NUMBERS: Numbers = Numbers {
    number: 0,
    start: 0,
    size: 0,
    length: 0,
};

fn one_number(number: u32) -> Numbers
    ensures { result ≡ one_number number }
{
    Numbers {
        number,
        ..NO_NUMBERS
    }
}

fn error_numbers(error: &Error) -> Numbers
    ensures { result ≡ error_numbers error.now }
{
    match error {
        Error::Scroll(range) => Numbers {
            number: 0,
            start: range.start,
            size: range.size,
            length: range.len,
        },
        Error::BadJson(JsonFault::Parse) => one_number(0),
        Error::BadJson(JsonFault::Shape) => one_number(1),
        Error::BadSegmentSize(size) => one_number(*size),
        Error::BadSourceReference(id) | Error::BadNameReference(id) => one_number(*id),
        Error::InvalidRangeMappingIndex(index) => Numbers {
            start: index.at,
            ..NO_NUMBERS
        },
        Error::InvalidBase64(byte) => one_number(u32::from(*byte)),
        _ => NO_NUMBERS,
    }
}

fn failure_numbers(failure: &Failure) -> Numbers
    ensures { result ≡ failure_numbers failure.now }
{
    match failure {
        Failure::Library(error) => error_numbers(error),
        Failure::Absent | Failure::WrongKind | Failure::PastLimit => NO_NUMBERS,
    }
}

// The maximum length of a written text in bytes. A zero byte follows the text.
const MOST_BYTES: usize = 255;

// Copies the text to `to`, but at most its first 255 bytes. Writes a zero byte after the copied
// bytes. The other bytes of `to` are unchanged.
fn write_text(to: &mut [u8], text: &[u8])
    requires { length to.old ≡ 256 }
    ensures { to.new ≡ over text.now to.old }
{
    let count = text.len().min(MOST_BYTES);
    let (used, rest) = to.split_at_mut(count);
    used.copy_from_slice(&text[..count]);
    rest[0] = 0;
}

impl ErrorReport {
    fn write(&mut self, code: Code, numbers: Numbers, text: &[u8])
        ensures { IsWritten code numbers text.now self.old self.new }
    {
        self.code = code.number();
        self.number = numbers.number;
        self.start = numbers.start;
        self.size = numbers.size;
        self.length = numbers.length;
        self.text_length = text.len();
        write_text(&mut self.text, text);
    }
}

// Writes the report, and returns its code. Reports `OutOfMemory` if the text cannot be allocated.
fn report(alloc: Global, failure: &Failure, to: &mut ErrorReport) -> u32
    ensures { Reports failure.now result to.old to.new }
{
    match failure.to_string(alloc) {
        Ok(text) => {
            to.write(failure.code(), failure_numbers(failure), text.as_bytes());
            failure.code().number()
        }
        Err(_) => {
            to.write(Code::OutOfMemory, NO_NUMBERS, b"out of memory");
            Code::OutOfMemory.number()
        }
    }
}

/// Returns 0 for success. Otherwise writes the report and returns its code.
pub fn finish(alloc: Global, outcome: Outcome<()>, to: &mut ErrorReport) -> u32
    ensures report { Finishes outcome result to.old to.new }
    ensures positive { IsErr outcome → result ≢ 0 }
{
    match outcome {
        Ok(()) => Code::Ok.number(),
        Err(failure) => report(alloc, &failure, to),
    }
}
