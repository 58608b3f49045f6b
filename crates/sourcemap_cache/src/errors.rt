//! Why a map cannot be compiled.
ghost use Rattle.std.specs.Prelude.{◌≡◌};
ghost use Rattle.sourcemap_cache.specs.declared.errors.CompileError.TheVariants.{Map};

use sourcemap_compiled_write::errors::WriteError;
use sourcemap_errors::errors::Error;
use std::fmt;

/// An error of `compile`.
#[derive(Debug, Drop)]
pub enum CompileError {
    /// `CannotFlatten` for an index map that cannot be flattened, or `OutOfMemory`.
    Map(Error),
    /// The file would have 2^32 bytes or more, or the map has 2^32 tokens or more.
    TooLarge,
}

impl fmt::Display for CompileError {
    ghost use Rattle.sourcemap_cache.specs.Errors.{error_text};

    ghost output = { error_text };

    fn fmt<W: fmt::Write>(&self, f: &mut fmt::Formatter<W>) -> fmt::Result {
        match self {
            CompileError::Map(error) => write!(f, "{error}"),
            CompileError::TooLarge => f.write_str("the map is too large to be compiled"),
        }
    }
}

impl std::error::Error for CompileError {}

impl From<Error> for CompileError {
    ghost from_gives = { λ error e. e ≡ Map error };

    fn from(error: Error) -> CompileError {
        CompileError::Map(error)
    }
}

impl From<WriteError> for CompileError {
    ghost use Rattle.sourcemap_cache.specs.Errors.{of_writer};

    ghost from_gives = { λ error e. e ≡ of_writer error };

    fn from(error: WriteError) -> CompileError {
        match error {
            WriteError::TooLarge => CompileError::TooLarge,
            WriteError::OutOfMemory => CompileError::Map(Error::OutOfMemory),
        }
    }
}

/// For callers whose errors are those of `sourcemap`: `TooLarge` becomes `IncompatibleSourceMap`,
/// which also says that a limit is exceeded.
impl From<CompileError> for Error {
    ghost use Rattle.sourcemap_cache.specs.Errors.{as_error};

    ghost from_gives = { λ error e. e ≡ as_error error };

    fn from(error: CompileError) -> Error {
        match error {
            CompileError::Map(error) => error,
            CompileError::TooLarge => Error::IncompatibleSourceMap,
        }
    }
}
