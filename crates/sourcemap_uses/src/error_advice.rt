//! Advice on errors, and an exit status for each kind.
ghost use Rattle.std.specs.Prelude.{◌≡◌};
ghost use Rattle.sourcemap_uses.specs.ErrorAdvice.{advice_on, status_of};

use sourcemap::Error;
use sourcemap::errors::JsonFault;

/// What can be done about an error.
#[derive(Clone, Copy, Debug, PartialEq, Eq)]
pub enum Advice {
    /// Read or write again: reading or writing failed, the junk header is invalid, a search for a
    /// reference met a line that is not UTF-8, or contents are to be loaded but neither `base_path`
    /// nor `current_dir` is absolute.
    ReadAgain,
    /// Look at what was fetched: it is not UTF-8, or does not parse as JSON (`JsonFault::Parse`).
    /// It may be an error page.
    LookAtInput,
    /// Fix the tool that wrote the map: the JSON does not have the shape of a map
    /// (`JsonFault::Shape`), or the mappings are invalid or refer to a source or name that does not
    /// exist.
    MendWriter,
    /// Use another call: the map is of another kind, exceeds a limit or cannot be flattened, or the
    /// text is not a data URL of a map.
    UseOtherCall,
    /// Look at the bundle and its index map: the bundle is not a RAM bundle or is incomplete, a
    /// module is missing, is invalid or cannot be split from the bundle, or the index map has no
    /// `x_facebook_offsets`.
    LookAtBundle,
    /// Try again with more memory.
    FreeMemory,
}

/// Returns what can be done about this error.
pub fn advise(error: &Error) -> Advice
    ensures { result ≡ advice_on error.now }
{
    match error {
        Error::Io(_) => Advice::ReadAgain,
        Error::Utf8(_) | Error::BadJson(JsonFault::Parse) => Advice::LookAtInput,
        Error::BadJson(JsonFault::Shape)
        | Error::VlqLeftover
        | Error::VlqNoValues
        | Error::VlqOverflow
        | Error::BadSegmentSize(_)
        | Error::BadSourceReference(_)
        | Error::BadNameReference(_)
        | Error::InvalidBase64(_)
        | Error::InvalidRangeMappingIndex(_) => Advice::MendWriter,
        Error::IncompatibleSourceMap | Error::InvalidDataUrl | Error::CannotFlatten(_) => {
            Advice::UseOtherCall
        }
        Error::Scroll(_)
        | Error::InvalidRamBundleMagic
        | Error::InvalidRamBundleIndex
        | Error::InvalidRamBundleEntry
        | Error::NotARamBundle => Advice::LookAtBundle,
        Error::OutOfMemory => Advice::FreeMemory,
    }
}

/// Returns an exit status for an error: a different one for each kind of error, from 10 on.
pub fn exit_status(error: &Error) -> u8
    ensures { result ≡ status_of error.now }
{
    match error {
        Error::Io(_) => 10,
        Error::Utf8(_) => 11,
        Error::BadJson(JsonFault::Parse) => 12,
        Error::BadJson(JsonFault::Shape) => 13,
        Error::VlqLeftover => 14,
        Error::VlqNoValues => 15,
        Error::VlqOverflow => 16,
        Error::BadSegmentSize(_) => 17,
        Error::BadSourceReference(_) => 18,
        Error::BadNameReference(_) => 19,
        Error::InvalidBase64(_) => 20,
        Error::InvalidRangeMappingIndex(_) => 21,
        Error::IncompatibleSourceMap => 22,
        Error::InvalidDataUrl => 23,
        Error::CannotFlatten(_) => 24,
        Error::Scroll(_) => 25,
        Error::InvalidRamBundleMagic => 26,
        Error::InvalidRamBundleIndex => 27,
        Error::InvalidRamBundleEntry => 28,
        Error::NotARamBundle => 29,
        Error::OutOfMemory => 30,
    }
}
