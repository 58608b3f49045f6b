//! Compiles a map, and answers from the bytes of the compiled map.
ghost use Rattle.std.specs.Prelude.{◌≡◌, None, IfOk, IsOkAnd, option_map};
ghost use Rattle.sourcemap.specs.AnyMap.{map_tree};
ghost use Rattle.sourcemap.specs.Trees.{MapTree};
ghost use Rattle.sourcemap.specs.Types.{Meaning};
ghost use Rattle.sourcemap_cache.specs.Compile.{IsCompiled};
ghost use Rattle.sourcemap_cache.specs.Meaning.{compiled, without_scope};
ghost use Rattle.sourcemap_cache.specs.Soundness.{IsSound};
ghost use Rattle.sourcemap_cache.specs.Stored.{meaning_of_token, token_value};
ghost use Rattle.sourcemap_cache.specs.declared.parts.WithContents.{WithContents};
ghost use Rattle.sourcemap_uses.specs.Caching.{IsLineOf, IsOriginOf, origin_value};

use sourcemap::DecodedMap;
use sourcemap_cache::laws::{compiled_maps_are_read, compiled_maps_mean_the_same};
use sourcemap_cache::{
    CompileError, CompiledMap, CompiledMapError, CompiledToken, WithContents, compile,
};
use std::alloc::Global;

/// An original position. Its texts are borrowed from a compiled map.
#[derive(Clone, Copy)]
pub struct Origin<'a> {
    pub source: Option<&'a str>,
    pub line: u32,
    pub column: u32,
    pub name: Option<&'a str>,
    pub is_range: bool,
}

/// Returns the original position that a compiled map has for a generated one; `None` if it has no
/// token there. If `compile` made the bytes of a map, the result is no error, and is what the map has
/// for the position; of an index map, what its flat map has.
pub fn origin_in(bytes: &[u8], line: u32, col: u32) -> Result<Option<Origin<'_>>, CompiledMapError>
    ensures { (choice : WithContents) (t : MapTree) → IsCompiled choice t bytes.now
        → IsOkAnd result (IsOriginOf t (line, col)) }
{
    compiled_maps_are_read();
    compiled_maps_mean_the_same();
    let map = CompiledMap::parse(bytes)?;
    let Some(token) = map.lookup_token(line, col) else {
        return Ok(None);
    };
    let origin = origin_of(token)?;
    Ok(Some(origin))
}

fn origin_of<'a>(token: CompiledToken<'a>) -> Result<Origin<'a>, CompiledMapError>
    ensures { (says : Meaning) → without_scope (meaning_of_token token.entry) ≡ compiled None says
        → IsSound (token_value token.entry).bytes
        → IsOkAnd result (λ origin. origin_value origin ≡ says) }
{
    let source = token.get_source()?;
    let name = token.get_name()?;
    Ok(Origin {
        source,
        line: token.get_src_line(),
        column: token.get_src_col(),
        name,
        is_range: token.is_range(),
    })
}

/// Compiles a map, and returns the original line that the compiled map has for a generated
/// position: the line that the map itself has; of an index map, the line that its flat map has.
/// Returns the errors of `compile`.
pub fn line_by_compiling(
    alloc: Global,
    map: &DecodedMap,
    line: u32,
    col: u32,
) -> Result<Option<u32>, CompileError>
    ensures { IfOk result (IsLineOf (map_tree map.now) (line, col)) }
{
    let bytes = compile(alloc, map, WithContents::No)?;
    match origin_in(bytes.as_slice(), line, col) {
        Ok(origin) => Ok(line_of(origin)),
        Err(_) => unreachable!(),
    }
}

fn line_of(origin: Option<Origin<'_>>) -> Option<u32>
    ensures { result ≡ option_map (λ o. o.line) origin.entry }
{
    match origin {
        Some(origin) => Some(origin.line),
        None => None,
    }
}
