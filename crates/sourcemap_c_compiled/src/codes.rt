//! Codes of calls on compiled maps.
ghost use Rattle.std.specs.Prelude.{◌≡◌};
ghost use Rattle.sourcemap_c_compiled.specs.Codes.{compiled_code};

use sourcemap_compiled::errors::CompiledMapError;

pub(crate) const OK: u32 = 0;

pub(crate) const ABSENT: u32 = 32;

const UTF8: u32 = 2;

const TRUNCATED: u32 = 35;

const MAGIC: u32 = 36;

const VERSION: u32 = 37;

const EXTENT: u32 = 38;

const TEXT: u32 = 39;

const ORDER: u32 = 40;

/// Returns the code of an error.
pub(crate) fn code_of(error: CompiledMapError) -> u32
    ensures { result ≡ compiled_code error }
{
    match error {
        CompiledMapError::InvalidUtf8 => UTF8,
        CompiledMapError::Truncated => TRUNCATED,
        CompiledMapError::WrongMagic => MAGIC,
        CompiledMapError::WrongVersion(_) => VERSION,
        CompiledMapError::WrongExtent => EXTENT,
        CompiledMapError::TextOutside => TEXT,
        CompiledMapError::OutOfOrder(_) => ORDER,
    }
}
