//! Junk headers in a slice of bytes.
ghost use Rattle.std.specs.Prelude.{◌≡◌, Some, None, IfOk, IfErr};
ghost use Rattle.std.specs.IoError.{error_kind};
ghost use Rattle.std.specs.declared.io.ErrorKind.TheVariants.{InvalidData};
ghost use Rattle.sourcemap_headers.specs.Header.{begins_junk, continues_line, after_header};

use std::io;

fn begins_junk_header(bytes: &[u8]) -> bool
    ensures { result ≡ begins_junk bytes.now }
{
    match bytes {
        [] => false,
        [first, ..] => *first == b')' || *first == b']' || *first == b'}' || *first == b'\'',
    }
}

fn continues_line(bytes: &[u8]) -> bool
    ensures { result ≡ continues_line bytes.now }
{
    match bytes {
        [] => false,
        [first, ..] => *first != b'\n',
    }
}

/// Strips the junk header and returns the rest. There is a header if the first byte is `)`, `]`,
/// `}` or `'`. It extends to the first newline, and the rest begins with this newline. If there is
/// no newline, the header extends to the end of the bytes, and the rest is empty. Without a header
/// all bytes are returned. Returns an error of kind `InvalidData` if a carriage return in the
/// header is followed by a byte other than a newline; a carriage return as the last byte is
/// allowed. There is no other error.
pub fn strip_junk_header(bytes: &[u8]) -> io::Result<&[u8]>
    ensures bytes { IfOk result (λ rest. after_header bytes.now ≡ Some rest.now) }
    ensures error { IfErr result (λ e. (after_header bytes.now ≡ None)
        × (error_kind e ≡ InvalidData)) }
{
    if !begins_junk_header(bytes) {
        return Ok(bytes);
    }
    let mut rest = bytes;
    while let [first, later @ ..] = rest {
        if *first == b'\n' {
            return Ok(rest);
        }
        if *first == b'\r' && continues_line(later) {
            return Err(io::Error::from(io::ErrorKind::InvalidData));
        }
        rest = later;
    }
    Ok(rest)
}
