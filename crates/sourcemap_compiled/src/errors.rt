//! Why bytes are no compiled map, or a text of a compiled map cannot be read.
use std::fmt;

/// An error of a compiled map.
#[derive(Clone, Copy, Debug, PartialEq, Eq)]
pub enum CompiledMapError {
    /// There are fewer than 64 bytes, or fewer than the header says.
    Truncated,
    /// The bytes do not begin with the magic number.
    WrongMagic,
    /// The header has this version, which is not the version of this library.
    WrongVersion(u32),
    /// There are more bytes than the header says, or the tables pass the end of the file.
    WrongExtent,
    /// The token with this index is before the token ahead of it.
    OutOfOrder(u32),
    /// A text ends before its start, or after the end of the file.
    TextOutside,
    /// A text is not UTF-8.
    InvalidUtf8,
}

impl fmt::Display for CompiledMapError {
    ghost use Rattle.std.specs.Prelude.{Some};
    ghost use Rattle.sourcemap_compiled.specs.Errors.{error_text};

    ghost output = { λ error. Some (error_text error) };

    fn fmt<W: fmt::Write>(&self, f: &mut fmt::Formatter<W>) -> fmt::Result {
        match self {
            CompiledMapError::Truncated => f.write_str("the compiled map is truncated"),
            CompiledMapError::WrongMagic => f.write_str("not a compiled map"),
            CompiledMapError::WrongVersion(version) => {
                write!(f, "unknown version of a compiled map: {version}")
            }
            CompiledMapError::WrongExtent => f.write_str(
                "a table of the compiled map has a wrong extent",
            ),
            CompiledMapError::OutOfOrder(index) => {
                write!(f, "the compiled map is out of order at token {index}")
            }
            CompiledMapError::TextOutside => f.write_str(
                "a text passes the end of the compiled map",
            ),
            CompiledMapError::InvalidUtf8 => f.write_str("a text of the compiled map is not UTF-8"),
        }
    }
}

impl std::error::Error for CompiledMapError {}
