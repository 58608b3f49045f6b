//! Equality of regular maps, part by part.
ghost use Rattle.std.specs.Prelude.{◌≡◌};
ghost use Rattle.std.specs.Bool.{Decides};
ghost use Rattle.std.specs.Cmp.{partial_equiv_from_equiv};
ghost use Rattle.sourcemap_map_regular.specs.Equality.{same_map, same_map_equiv};

use crate::map::SourceMap;
use sourcemap_map_parts::text_lists::same_texts;

fn same_maps(a: &SourceMap, b: &SourceMap) -> bool
    ensures { result ≡ same_map a.now b.now }
{
    let metadata = a.metadata == b.metadata;
    let tokens = a.tokens == b.tokens;
    let names = same_texts(&a.names, &b.names);
    let sources = a.sources == b.sources;
    let contents = a.contents == b.contents;
    // prover: no branch
    metadata & tokens & names & sources & contents
}

/// Two maps are equal exactly if these parts are equal: file, `sourceRoot`, tokens, names, sources
/// as they are written, contents, ignore list and debug id. Equal lists of contents have the same
/// length: `[]` and `[None]` are not equal.
impl PartialEq for SourceMap {
    ghost eq = { same_map };

    ghost laws = { partial_equiv_from_equiv same_map_equiv };

    fn eq(&self, other: &Self) -> bool
        ensures value { result ≡ same_map self.now other.now }
        ensures same { Decides result (self.now ≡ other.now) }
    {
        same_maps(self, other)
    }
}
