//! The texts of a compiled map. They are borrowed from the bytes of the map.
ghost use Rattle.sourcemap_compiled.specs.Texts.{compiled_contents, compiled_file, compiled_name, compiled_source};
ghost use Rattle.sourcemap_c_compiled.specs.Codes.{OnCompiled, ReturnsRead, ReturnsText};

use crate::codes::{ABSENT, OK, code_of};
use sourcemap_compiled::errors::CompiledMapError;
use sourcemap_compiled::map::CompiledMap;

/// Borrows the source with this id.
pub fn put_source<'a>(bytes: &'a [u8], id: u32, text: &mut &'a [u8]) -> u32
    ensures { OnCompiled bytes.now
        (ReturnsText (compiled_source bytes.now id) result text.old.now text.new.now)
        result text.old.now text.new.now }
{
    match CompiledMap::parse(bytes) {
        Ok(map) => put_text(map.source(id), text),
        Err(error) => code_of(error),
    }
}

/// Borrows the name with this id.
pub fn put_name<'a>(bytes: &'a [u8], id: u32, text: &mut &'a [u8]) -> u32
    ensures { OnCompiled bytes.now
        (ReturnsText (compiled_name bytes.now id) result text.old.now text.new.now)
        result text.old.now text.new.now }
{
    match CompiledMap::parse(bytes) {
        Ok(map) => put_text(map.name(id), text),
        Err(error) => code_of(error),
    }
}

/// Borrows the contents for this source id.
pub fn put_contents<'a>(bytes: &'a [u8], id: u32, text: &mut &'a [u8]) -> u32
    ensures { OnCompiled bytes.now
        (ReturnsText (compiled_contents bytes.now id) result text.old.now text.new.now)
        result text.old.now text.new.now }
{
    match CompiledMap::parse(bytes) {
        Ok(map) => put_text(map.source_contents(id), text),
        Err(error) => code_of(error),
    }
}

/// Borrows the name of the generated file.
pub fn put_file<'a>(bytes: &'a [u8], text: &mut &'a [u8]) -> u32
    ensures { OnCompiled bytes.now
        (ReturnsText (compiled_file bytes.now) result text.old.now text.new.now)
        result text.old.now text.new.now }
{
    match CompiledMap::parse(bytes) {
        Ok(map) => put_text(map.file(), text),
        Err(error) => code_of(error),
    }
}

/// Writes the text and returns `SM_OK`. Without a text, writes nothing and returns `SM_ABSENT` or
/// the code of the error.
pub(crate) fn put_text<'a>(
    found: Result<Option<&'a str>, CompiledMapError>,
    text: &mut &'a [u8],
) -> u32
    ensures { ReturnsRead found.entry result text.old.now text.new.now }
{
    match found {
        Ok(Some(found)) => {
            *text = found.as_bytes();
            OK
        }
        Ok(None) => ABSENT,
        Err(error) => code_of(error),
    }
}
