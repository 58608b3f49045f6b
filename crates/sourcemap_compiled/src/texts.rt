//! The texts and the debug id of a compiled map.
ghost use Rattle.std.specs.Prelude.{◌≡◌, ◌≤◌, ◌<◌, ◌+◌, ◌^◌, IsOk, length};
ghost use Rattle.sourcemap_compiled.specs.Layout.{compiled_debug_id, file_text, text_count, text_offset, token_count};
ghost use Rattle.sourcemap_compiled.specs.Soundness.{IsSound};
ghost use Rattle.sourcemap_compiled.specs.Texts.{ReadsText, compiled_contents, compiled_file, compiled_name};
ghost use Rattle.sourcemap_compiled.specs.Texts.{compiled_scope, compiled_source, scope_text, text_at};

use crate::errors::CompiledMapError;
use crate::map::CompiledMap;
use crate::numbers::u32_at;
use simdutf8::basic::from_utf8;

impl<'a> CompiledMap<'a> {
    ghost use Rattle.sourcemap_compiled.specs.Stored.{bytes_of};

    /// The source with this id, resolved against the `sourceRoot` of the map that was compiled;
    /// `None` if no source has this id. The error is `TextOutside` or `InvalidUtf8`.
    pub fn source(&self, id: u32) -> Result<Option<&'a str>, CompiledMapError>
        ensures text { ReadsText (compiled_source (bytes_of self.now) id) result }
        ensures sound { IsSound (bytes_of self.now) → IsOk result }
    {
        if id >= self.source_count() {
            return Ok(None);
        }
        self.text(id as usize)
    }

    /// The name with this id; `None` if no name has this id. The error is `TextOutside` or
    /// `InvalidUtf8`.
    pub fn name(&self, id: u32) -> Result<Option<&'a str>, CompiledMapError>
        ensures text { ReadsText (compiled_name (bytes_of self.now) id) result }
        ensures sound { IsSound (bytes_of self.now) → IsOk result }
    {
        if id >= self.name_count() {
            return Ok(None);
        }
        self.text(self.source_count() as usize + id as usize)
    }

    /// The scope with this id, the name of a function; `None` if no scope has this id. The error is
    /// `TextOutside` or `InvalidUtf8`.
    pub fn scope(&self, id: u32) -> Result<Option<&'a str>, CompiledMapError>
        ensures text { ReadsText (scope_text (bytes_of self.now) id) result }
        ensures sound { IsSound (bytes_of self.now) → IsOk result }
    {
        if id >= self.scope_count() {
            return Ok(None);
        }
        self.text(self.source_count() as usize + self.name_count() as usize + id as usize)
    }

    /// Returns the scope of the token with this index.
    pub(crate) fn scope_of(&self, index: usize) -> Result<Option<&'a str>, CompiledMapError>
        requires { index < token_count (bytes_of self.now) }
        ensures text { ReadsText (compiled_scope (bytes_of self.now) index) result }
        ensures sound { IsSound (bytes_of self.now) → IsOk result }
    {
        let number = self.scope_number(index);
        if number == 0 {
            return Ok(None);
        }
        if number > u64::from(self.scope_count()) {
            return Ok(None);
        }
        self.scope((number - 1) as u32)
    }

    /// The contents for this source id; `None` if there are none. The error is `TextOutside` or
    /// `InvalidUtf8`.
    pub fn source_contents(&self, id: u32) -> Result<Option<&'a str>, CompiledMapError>
        ensures text { ReadsText (compiled_contents (bytes_of self.now) id) result }
        ensures sound { IsSound (bytes_of self.now) → IsOk result }
    {
        if id >= self.content_count() {
            return Ok(None);
        }
        self.text(self.file_text() + 1 + id as usize)
    }

    /// The name of the generated file, if the map has one. The error is `TextOutside` or
    /// `InvalidUtf8`.
    pub fn file(&self) -> Result<Option<&'a str>, CompiledMapError>
        ensures text { ReadsText (compiled_file (bytes_of self.now)) result }
        ensures sound { IsSound (bytes_of self.now) → IsOk result }
    {
        self.text(self.file_text())
    }

    /// The debug id, if the map has one.
    pub fn debug_id(&self) -> Option<[u8; 16]>
        ensures { result ≡ compiled_debug_id (bytes_of self.now) }
    {
        if u32_at(self.bytes, 28) == 0 {
            return None;
        }
        let mut id = [0; 16];
        id.copy_from_slice(&self.bytes[32..48]);
        Some(id)
    }

    /// Returns the text with this number.
    pub(crate) fn text(&self, text: usize) -> Result<Option<&'a str>, CompiledMapError>
        requires { text < text_count (bytes_of self.now) }
        ensures text { ReadsText (text_at (bytes_of self.now) text) result }
        ensures sound { IsSound (bytes_of self.now) → IsOk result }
    {
        let offset = self.text_offset(text);
        let start = u32_at(self.bytes, offset) as usize;
        let end = u32_at(self.bytes, offset + 4) as usize;
        if end < start || self.bytes.len() < end {
            return Err(CompiledMapError::TextOutside);
        }
        if start == end {
            return Ok(None);
        }
        match from_utf8(&self.bytes[start..end - 1]) {
            Ok(text) => Ok(Some(text)),
            Err(_) => Err(CompiledMapError::InvalidUtf8),
        }
    }

    /// Returns the number of texts.
    pub(crate) fn text_count(&self) -> usize
        ensures value { result ≡ text_count (bytes_of self.now) }
        ensures few { result < 2 ^ 35 }
    {
        self.file_text() + 1 + self.content_count() as usize
    }

    // The number of the text that is the file.
    fn file_text(&self) -> usize
        ensures value { result ≡ file_text (bytes_of self.now) }
        ensures few { result < 2 ^ 34 }
    {
        self.source_count() as usize + self.name_count() as usize + self.scope_count() as usize
    }

    fn text_offset(&self, text: usize) -> usize
        requires { text < text_count (bytes_of self.now) }
        ensures offset { result ≡ text_offset (bytes_of self.now) text }
        ensures within { result + 8 ≤ length (bytes_of self.now) }
    {
        self.tables() + 40 * self.block_count() + 4 * text
    }
}
