//! Compiled maps, and what they hold.
ghost use Rattle.std.specs.Prelude.{◌≡◌, ◌≤◌, ◌<◌, ◌^◌, Some, IfErr, IfOk, length};
ghost use Rattle.sourcemap_compiled.specs.Blocks.{compiled_token, scope_number, start_at};
ghost use Rattle.sourcemap_compiled.specs.Layout.{IsAccepted, block_count, content_count, head_offset, name_count};
ghost use Rattle.sourcemap_compiled.specs.Layout.{refusal, scope_count, source_count, tables_end, tables_start};
ghost use Rattle.sourcemap_compiled.specs.Layout.{token_count};
ghost use Rattle.sourcemap_compiled.specs.Lookup.{position_of};

use crate::blocks::{BLOCK_SIZE, Block};
use crate::errors::CompiledMapError;
use crate::numbers::{u32_at, u64_at};
use sourcemap_tokens::tokens::RawToken;

/// The number that a compiled map begins with: the byte 8F and `SMC`. No UTF-8 text begins with 8F.
pub const COMPILED_MAGIC: u32 = 0x434D_538F;

/// The version of the format that this library reads.
pub const COMPILED_VERSION: u32 = 1;

const HEADER_LENGTH: usize = 64;

// Where the header says where the tables begin.
const TABLES: usize = 48;

const START_LENGTH: usize = 8;

const HEAD_LENGTH: usize = 32;

/// A compiled map: the bytes of a file that `parse` accepted. All calls read these bytes where they
/// lie, and none allocates. A map may be copied and used by any number of threads.
#[derive(Clone, Copy)]
pub struct CompiledMap<'a> {
    pub(crate) bytes: &'a [u8],
    ghost header: { 64 ≤ length bytes.now },
    ghost tables: { tables_end bytes.now ≤ length bytes.now },
}

impl<'a> CompiledMap<'a> {
    ghost use Rattle.sourcemap_compiled.specs.Stored.{bytes_of};

    /// Returns the compiled map that these bytes are. Only the header is read, so the time is the
    /// same for any map. Errors are checked in this order: `Truncated` for fewer than 64 bytes,
    /// `WrongMagic`, `WrongVersion`, `Truncated` for fewer bytes than the header says, and
    /// `WrongExtent` for more bytes, or for tables that pass the end.
    pub fn parse(bytes: &'a [u8]) -> Result<Self, CompiledMapError>
        ensures map { IfOk result (λ map. bytes_of map ≡ bytes.now) }
        ensures accepted { IfOk result (λ _. IsAccepted bytes.now) }
        ensures refused { IfErr result (λ e. refusal bytes.now ≡ Some e) }
    {
        if bytes.len() < HEADER_LENGTH {
            return Err(CompiledMapError::Truncated);
        }
        if u32_at(bytes, 0) != COMPILED_MAGIC {
            return Err(CompiledMapError::WrongMagic);
        }
        let version = u32_at(bytes, 4);
        if version != COMPILED_VERSION {
            return Err(CompiledMapError::WrongVersion(version));
        }
        let file_length = u32_at(bytes, 8) as usize;
        if bytes.len() < file_length {
            return Err(CompiledMapError::Truncated);
        }
        if file_length < bytes.len() || bytes.len() < tables_end(bytes) {
            return Err(CompiledMapError::WrongExtent);
        }
        Ok(CompiledMap { bytes })
    }

    /// The number of tokens.
    #[inline(always)]
    pub fn token_count(&self) -> u32
        ensures { result ≡ token_count (bytes_of self.now) }
    {
        u32_at(self.bytes, 12)
    }

    /// The number of sources. Their ids are the numbers below it.
    pub fn source_count(&self) -> u32
        ensures { result ≡ source_count (bytes_of self.now) }
    {
        u32_at(self.bytes, 16)
    }

    /// The number of names. Their ids are the numbers below it.
    pub fn name_count(&self) -> u32
        ensures { result ≡ name_count (bytes_of self.now) }
    {
        u32_at(self.bytes, 20)
    }

    /// The number of scopes, which are names of functions. Their ids are the numbers below it.
    pub fn scope_count(&self) -> u32
        ensures { result ≡ scope_count (bytes_of self.now) }
    {
        u32_at(self.bytes, 52)
    }

    pub(crate) fn content_count(&self) -> u32
        ensures { result ≡ content_count (bytes_of self.now) }
    {
        u32_at(self.bytes, 24)
    }

    /// Returns where the tables begin.
    #[inline(always)]
    pub(crate) fn tables(&self) -> usize
        ensures value { result ≡ tables_start (bytes_of self.now) }
        ensures small { result < 2 ^ 32 }
    {
        u32_at(self.bytes, TABLES) as usize
    }

    #[inline(always)]
    pub(crate) fn block_count(&self) -> usize
        ensures value { result ≡ block_count (bytes_of self.now) }
        ensures few { result ≤ 2 ^ 26 }
    {
        (self.token_count() as usize).div_ceil(BLOCK_SIZE)
    }

    /// Returns where a block starts, or 0 if there is no such block.
    #[inline(always)]
    pub(crate) fn start_or_zero(&self, block: usize) -> u64
        ensures { block < block_count (bytes_of self.now) → result ≡ start_at (bytes_of self.now) block }
    {
        if block < self.block_count() {
            self.start(block)
        } else {
            0
        }
    }

    /// Returns where a block starts.
    #[inline(always)]
    pub(crate) fn start(&self, block: usize) -> u64
        requires { block < block_count (bytes_of self.now) }
        ensures { result ≡ start_at (bytes_of self.now) block }
    {
        u64_at(self.bytes, self.tables() + START_LENGTH * block)
    }

    #[inline(always)]
    pub(crate) fn block(&self, block: usize) -> Block<'a>
        requires { block < block_count (bytes_of self.now) }
        ensures bytes { result.bytes.now ≡ bytes_of self.now }
        ensures start { result.start ≡ start_at (bytes_of self.now) block }
        ensures head { result.head ≡ head_offset (bytes_of self.now) block }
    {
        let heads = self.tables() + START_LENGTH * self.block_count();
        Block {
            bytes: self.bytes,
            start: self.start(block),
            head: heads + HEAD_LENGTH * block,
        }
    }

    /// Returns the token with this index, whose generated position is known.
    #[inline(always)]
    pub(crate) fn token(&self, index: usize, position: u64) -> RawToken
        requires within { index < token_count (bytes_of self.now) }
        requires position { position ≡ position_of (bytes_of self.now) index }
        ensures { result ≡ compiled_token (bytes_of self.now) index }
    {
        self.block(index / BLOCK_SIZE)
            .token(index % BLOCK_SIZE, position)
    }

    /// Returns the scope of the token with this index: 0 for none, otherwise the id plus 1.
    pub(crate) fn scope_number(&self, index: usize) -> u64
        requires { index < token_count (bytes_of self.now) }
        ensures { result ≡ scope_number (bytes_of self.now) index }
    {
        self.block(index / BLOCK_SIZE).scope(index % BLOCK_SIZE)
    }

    /// Returns the generated position of the token with this index, as one number.
    #[tactic(auto, unfolding(crate::specs::Blocks::compiled_token))]
    pub(crate) fn position(&self, index: usize) -> u64
        requires { index < token_count (bytes_of self.now) }
        ensures { result ≡ position_of (bytes_of self.now) index }
    {
        let block = self.block(index / BLOCK_SIZE);
        let place = index % BLOCK_SIZE;
        if place > 0 {
            block.positions(false).at(place)
        } else {
            block.start
        }
    }
}

/// Returns where the tables end, by the counts in the header.
fn tables_end(bytes: &[u8]) -> usize
    requires { 64 ≤ length bytes.now }
    ensures { result ≡ tables_end bytes.now }
{
    let blocks = (u32_at(bytes, 12) as usize).div_ceil(BLOCK_SIZE);
    let sources = u32_at(bytes, 16) as usize;
    let names = u32_at(bytes, 20) as usize;
    let contents = u32_at(bytes, 24) as usize;
    let scopes = u32_at(bytes, 52) as usize;
    let tables = u32_at(bytes, TABLES) as usize;
    tables + (START_LENGTH + HEAD_LENGTH) * blocks + 4 * (sources + names + scopes + contents + 2)
}
