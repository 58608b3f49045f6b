//! Why a compiled map is not written.
use std::alloc::AllocError;
use std::fmt;

/// Why a compiled map is not written.
#[derive(Clone, Copy, Debug, PartialEq, Eq)]
pub enum WriteError {
    /// There are 4294967296 tokens or more, or the file would have 4294967296 bytes or more.
    TooLarge,
    /// Memory ran out.
    OutOfMemory,
}

impl fmt::Display for WriteError {
    ghost use Rattle.std.specs.Prelude.{Some};
    ghost use Rattle.sourcemap_compiled_write.specs.Errors.{error_text};

    ghost output = { λ error. Some (error_text error) };

    fn fmt<W: fmt::Write>(&self, f: &mut fmt::Formatter<W>) -> fmt::Result {
        match self {
            WriteError::TooLarge => f.write_str("a compiled map of this map has 4 GiB or more"),
            WriteError::OutOfMemory => f.write_str("out of memory"),
        }
    }
}

impl std::error::Error for WriteError {}

impl From<AllocError> for WriteError {
    ghost use Rattle.std.specs.Prelude.{◌≡◌};
    ghost use Rattle.sourcemap_compiled_write.specs.declared.errors.WriteError.TheVariants.{OutOfMemory};

    ghost from_gives = { λ _ e. e ≡ OutOfMemory };

    fn from(_refused: AllocError) -> WriteError {
        WriteError::OutOfMemory
    }
}
