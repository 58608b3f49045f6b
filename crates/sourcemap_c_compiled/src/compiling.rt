//! Compiling of maps, with the errors of `sourcemap`.
ghost use Rattle.std.specs.Prelude.{◌≡◌, MatchResult};
ghost use Rattle.sourcemap_cache.specs.Compile.{IsCompiled};
ghost use Rattle.sourcemap_index.specs.Family.{map_tree};
ghost use Rattle.sourcemap_c_compiled.specs.Compiling.{IsCompileError, choice_of};

use sourcemap_cache::compiling::compile;
use sourcemap_cache::parts::WithContents;
use sourcemap_errors::errors::Result;
use sourcemap_index::family::DecodedMap;
use std::alloc::Global;

/// Returns the compiled map, with contents or without. The errors are those of `compile`; instead of
/// `TooLarge` it is `IncompatibleSourceMap`.
pub fn compiled(alloc: Global, map: &DecodedMap, with_contents: bool) -> Result<Vec<u8>>
    ensures { MatchResult result
        (λ bytes. IsCompiled (choice_of with_contents) (map_tree map.now) bytes.items)
        (IsCompileError (choice_of with_contents) (map_tree map.now)) }
{
    let bytes = compile(alloc, map, choice_of(with_contents))?;
    Ok(bytes)
}

fn choice_of(with_contents: bool) -> WithContents
    ensures { result ≡ choice_of with_contents }
{
    if with_contents {
        WithContents::Yes
    } else {
        WithContents::No
    }
}
