//! A reader that drops a junk header, whatever the sizes of the reads.
ghost use Rattle.std.specs.Prelude.{◌≡◌, ℕ, List, [], ◌++◌, IsTrue, ◌<◌, length, Some, None, Ok, false, IsErr, IfErr};
ghost use Rattle.std.specs.Prelude.{OnOk, option_and_then};
ghost use Rattle.sourcemap_headers.specs.HeaderReader.{remaining_in, remaining_after, read_after_header, IsWithin};
ghost use Rattle.sourcemap_headers.specs.HeaderReader.{IsInHeader};
ghost use Rattle.std.specs.declared.io.ErrorKind.TheVariants.{InvalidData};
ghost use Rattle.sourcemap_headers.specs.declared.header_reader.HeaderState.TheVariants.{AfterHeader, Invalid};
ghost use Rattle.sourcemap_headers.specs.declared.header_reader.Skipped.TheVariants.{Ends};

use std::io;
use std::io::Read;

/// The state of a reader with respect to the junk header.
#[derive(Clone, Copy, Debug)]
enum HeaderState {
    /// No byte was read yet.
    Start,
    /// Within the header. `after_return`: the last byte was a carriage return.
    InHeader { after_return: bool },
    /// The header was read, or there is none.
    AfterHeader,
    /// The header is invalid.
    Invalid,
}

/// Which bytes of a chunk are junk: the header and the newline that ends it.
#[derive(Clone, Copy, Debug)]
enum Skipped {
    /// All bytes of the chunk; bytes after the chunk may be junk too. `after_return`: the last byte
    /// was a carriage return.
    StillJunk { after_return: bool },
    /// The first `junk_len` bytes; the junk ends there.
    Ends { junk_len: usize },
    /// The header is invalid: a carriage return is followed by a byte other than a newline.
    IsInvalid,
}

/// Decides which bytes of the first chunk are junk. If the first byte does not begin a header, no
/// byte is junk. Requires a chunk that is not empty.
fn skip_first(chunk: &[u8]) -> Skipped
    requires { 0 < length chunk.now }
    ensures junk { (later : List ℕ)
        → remaining_in HeaderState.Start (chunk.now ++ later)
        ≡ remaining_after result chunk.now later }
    ensures within { IsWithin result (length chunk.now) }
{
    match chunk {
        [b')' | b']' | b'}' | b'\'', ..] => skip_junk(false, chunk),
        _ => Skipped::Ends { junk_len: 0 },
    }
}

/// Decides which bytes of a chunk are junk. The header begins at the start of the chunk or earlier.
/// `follows_return`: the last byte before the chunk is a carriage return of the header.
fn skip_junk(follows_return: bool, chunk: &[u8]) -> Skipped
    ensures junk { (later : List ℕ)
        → remaining_in (HeaderState.InHeader follows_return) (chunk.now ++ later)
        ≡ remaining_after result chunk.now later }
    ensures within { IsWithin result (length chunk.now) }
{
    let mut after_return = follows_return;
    let mut at = 0;
    for byte in chunk {
        at += 1;
        if *byte == b'\n' {
            return Skipped::Ends { junk_len: at };
        }
        if after_return {
            return Skipped::IsInvalid;
        }
        after_return = *byte == b'\r';
    }
    Skipped::StillJunk { after_return }
}

fn skip(state: HeaderState, chunk: &[u8]) -> Skipped
    requires { 0 < length chunk.now }
    ensures junk { IsInHeader state → (later : List ℕ)
        → remaining_in state (chunk.now ++ later) ≡ remaining_after result chunk.now later }
    ensures within { IsWithin result (length chunk.now) }
{
    match state {
        HeaderState::Start => skip_first(chunk),
        HeaderState::InHeader { after_return } => skip_junk(after_return, chunk),
        HeaderState::AfterHeader | HeaderState::Invalid => Skipped::Ends { junk_len: 0 },
    }
}

/// A reader that drops the junk header and the newline that ends it. There is a header if the first
/// byte is `)`, `]`, `}` or `'`; it extends to the first newline, or to the end of the bytes if
/// there is no newline. Without a header all bytes are returned.
///
/// A read has two errors of its own. One is of kind `InvalidData`: a carriage return in the header
/// is followed by a byte other than a newline. Each later read returns this error again, even a
/// read into an empty buffer. The other is of kind `Other`: during one read, 2^64 - 1 reads of the
/// inner reader returned only junk.
///
/// Any other error comes from the inner reader and is returned unchanged. Tests check that the
/// error is unchanged; no contract says so, because std does not specify which errors a reader
/// returns. After an error of the inner reader, or after 2^64 - 1 reads of junk, the next read
/// continues with the bytes that the inner reader has not returned yet. A read allocates nothing of
/// its own.
#[derive(Debug, Drop)]
pub struct StripHeaderReader<R> {
    reader: R,
    state: HeaderState,
}

impl<R: Read + Drop> StripHeaderReader<R> {
    ghost use Rattle.sourcemap_headers.specs.HeaderReader.{has_failed, remaining_of, HasInvalidHeader, IsChunkRead};
    ghost use Rattle.sourcemap_headers.specs.HeaderReader.{ContainsInvalidHeader};
    ghost use Rattle.std.specs.IoError.{error_kind};
    ghost use Rattle.std.specs.Io.{ReadsAtMost};
    ghost use Rattle.std.specs.Io.KnownBytes.{ReadConsumes};

    /// Wraps `reader`. A junk header, if there is one, begins at the next byte of `reader`.
    pub fn new(reader: R) -> Self
        ensures fresh { has_failed result ≡ false }
        ensures unread { remaining_of R.remaining result
            ≡ option_and_then read_after_header (R.remaining reader) }
    {
        StripHeaderReader {
            reader,
            state: HeaderState::Start,
        }
    }

    /// Reads once from the inner reader. Returns the number of bytes at the front of `buf` that are
    /// not junk, or 0 at the end of the inner reader. Returns `None` if the inner reader returned
    /// only junk.
    fn read_chunk(&mut self, buf: &mut [u8]) -> io::Result<Option<usize>>
        requires not_empty { 0 < length buf.old }
        requires sound { has_failed self.old ≡ false }
        ensures { IsChunkRead R.remaining self.old self.new result buf.new }
    {
        match self.state {
            HeaderState::AfterHeader => Ok(Some(self.reader.read(buf)?)),
            HeaderState::Invalid => unreachable!(),
            HeaderState::Start => self.read_header_chunk(buf),
            HeaderState::InHeader { .. } => self.read_header_chunk(buf),
        }
    }

    /// Reads until `buf` has bytes that are not junk, or the inner reader is at its end. Returns
    /// the number of these bytes.
    fn read_after_junk(&mut self, buf: &mut [u8]) -> io::Result<usize>
        requires not_empty { 0 < length buf.old }
        requires sound { has_failed self.old ≡ false }
        ensures bound { ReadsAtMost result buf.new }
        ensures bytes { ReadConsumes (remaining_of R.remaining self.old)
            (remaining_of R.remaining self.new) result buf.new }
        ensures refused { HasInvalidHeader R.remaining self.old → IsErr result }
        ensures stays { HasInvalidHeader R.remaining self.old
            → HasInvalidHeader R.remaining self.new }
        ensures sound { OnOk result (has_failed self.new ≡ false) }
        ensures error { IfErr result (λ e. IsTrue (has_failed self.new)
            → (error_kind e ≡ InvalidData) × ContainsInvalidHeader buf.new) }
    {
        for _ in 0..u64::MAX {
            if let Some(count) = self.read_chunk(buf)? {
                return Ok(count);
            }
        }
        Err(io::Error::from(io::ErrorKind::Other))
    }

    fn read_header_chunk(&mut self, buf: &mut [u8]) -> io::Result<Option<usize>>
        requires not_empty { 0 < length buf.old }
        requires in_header { IsInHeader self.old.state }
        ensures { IsChunkRead R.remaining self.old self.new result buf.new }
    {
        let count = self.reader.read(buf)?;
        if count == 0 {
            return Ok(Some(0));
        }
        match skip(self.state, &buf[..count]) {
            Skipped::StillJunk { after_return } => {
                self.state = HeaderState::InHeader { after_return };
                Ok(None)
            }
            Skipped::IsInvalid => {
                self.state = HeaderState::Invalid;
                Err(io::Error::from(io::ErrorKind::InvalidData))
            }
            Skipped::Ends { junk_len } => {
                self.state = HeaderState::AfterHeader;
                if junk_len == count {
                    return Ok(None);
                }
                buf[..count].rotate_left(junk_len);
                Ok(Some(count - junk_len))
            }
        }
    }
}

impl<R: Read + Drop> Read for StripHeaderReader<R> {
    ghost use Rattle.std.specs.Io.{ReadsAtMost};
    ghost use Rattle.std.specs.Io.KnownBytes.{ReadConsumes};
    ghost use Rattle.std.specs.IoError.{error_kind};
    ghost use Rattle.sourcemap_headers.specs.HeaderReader.{has_failed, remaining_of, HasInvalidHeader};
    ghost use Rattle.sourcemap_headers.specs.HeaderReader.{ContainsInvalidHeader};

    ghost remaining = { remaining_of R.remaining };

    fn read(&mut self, buf: &mut [u8]) -> io::Result<usize>
        ensures bound { ReadsAtMost result buf.new }
        ensures bytes { ReadConsumes (remaining_of R.remaining self.old)
            (remaining_of R.remaining self.new) result buf.new }
        // if the header is invalid, each read into a buffer that is not empty returns an error, and
        // no read gets past the header
        ensures refused { HasInvalidHeader R.remaining self.old → 0 < length buf.old
            → IsErr result }
        ensures stays { HasInvalidHeader R.remaining self.old
            → HasInvalidHeader R.remaining self.new }
        // once the header was found to be invalid, each later read is an error, even one into an
        // empty buffer
        ensures again { IsTrue (has_failed self.old) → IsErr result × IsTrue (has_failed self.new) }
        ensures error { IfErr result (λ e. IsTrue (has_failed self.new)
            → error_kind e ≡ InvalidData) }
        // if a read finds that the header is invalid, this holds for some `count` and some state
        // (`Start` or `InHeader`): the first `count` bytes of `buf` make the header invalid for a
        // reader in this state, whatever bytes follow
        ensures in_buffer { has_failed self.old ≡ false → IsTrue (has_failed self.new)
            → ContainsInvalidHeader buf.new }
        ensures sound { OnOk result (has_failed self.new ≡ false) }
        // a read into an empty buffer does not read from the inner reader
        ensures empty { length buf.old ≡ 0 → has_failed self.old ≡ false
            → (result ≡ Ok 0) × (self.new ≡ self.old) }
    {
        if let HeaderState::Invalid = self.state {
            return Err(io::Error::from(io::ErrorKind::InvalidData));
        }
        if buf.is_empty() {
            return Ok(0);
        }
        self.read_after_junk(buf)
    }
}
