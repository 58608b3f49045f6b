//! The original names of functions in maps of any kind.
ghost use Rattle.std.specs.Prelude.{◌≡◌};
ghost use Rattle.std.specs.Option.{option_copied};
ghost use Rattle.sourcemap_hermes.specs.Map.{hermes_value};
ghost use Rattle.sourcemap_index_model.specs.MapTree.{index_tree};
ghost use Rattle.sourcemap_index_model.specs.WellFormed.{IsInOrder};
ghost use Rattle.sourcemap_index.specs.Names.{IsInOrderForName, IsInOrderInBytecode, function_name, guessed_in, name_in_bytecode};

use crate::family::{DecodedMap, SourceMapIndex};
use sourcemap_hermes::map::SourceMapHermes;
use sourcemap_source_views::sourceview::SourceView;

impl SourceMapIndex {
    ghost use Rattle.sourcemap_index.specs.Family.{index_value};

    /// Guesses the original name of the function at a generated position, as
    /// `SourceMap::get_original_function_name` does. `view` is a view of the generated text. The
    /// search starts at the token that `lookup_token` returns. The search goes back over the tokens
    /// of this token's map only, at most 128 in all. For each token, the search reads the
    /// identifier in `view` at the token's generated position in this map. No section offset is
    /// added to this position. A token matches if its identifier is `minified_name` and the next
    /// token of the search has the identifier `function`. Returns the name of the first token that
    /// matches. `None` if `lookup_token` returns `None`, if no token matches, if the first token
    /// that matches has no name, or if `minified_name` is no identifier. If the sections are not
    /// sorted by offset at every depth, the result may be wrong. Allocates no memory.
    pub fn get_original_function_name(
        &self,
        line: u32,
        col: u32,
        minified_name: &str,
        view: &SourceView,
    ) -> Option<&str>
        ensures { IsInOrder (index_tree (index_value self.now)) → option_copied result
            ≡ guessed_in (index_tree (index_value self.now))
            view.now minified_name.now (line, col) }
    {
        let closest = self.lookup_token(line, col)?;
        view.get_original_function_name(closest, minified_name)
    }
}

impl DecodedMap {
    ghost use Rattle.sourcemap_index.specs.Family.{map_tree};

    /// The original name of the function at a generated position. In a Hermes map only line 0 has
    /// names, and `col` is the bytecode offset; `minified_name` and `source_view` are ignored. In a
    /// regular map or an index map the name is guessed from `minified_name` and `source_view`, a
    /// view of the generated text. For these maps the result is `None` if `minified_name` or
    /// `source_view` is `None`. The result may be wrong if the sections of an index map are not
    /// sorted by offset at every depth, or if the functions of a source in a Hermes map are not
    /// sorted by start position. Allocates no memory.
    pub fn get_original_function_name(
        &self,
        line: u32,
        col: u32,
        minified_name: Option<&str>,
        source_view: Option<&SourceView>,
    ) -> Option<&str>
        ensures { IsInOrderForName (map_tree self.now) (option_copied source_view.entry)
            (option_copied minified_name.entry) (line, col) → option_copied result
            ≡ function_name (map_tree self.now) (option_copied source_view.entry)
            (option_copied minified_name.entry) (line, col) }
    {
        if let DecodedMap::Hermes(map) = self {
            return name_in_bytecode(map, line, col);
        }
        let minified_name = minified_name?;
        let view = source_view?;
        let token = self.lookup_token(line, col)?;
        view.get_original_function_name(token, minified_name)
    }
}

fn name_in_bytecode(map: &SourceMapHermes, line: u32, col: u32) -> Option<&str>
    ensures { IsInOrderInBytecode (hermes_value map.now) (line, col)
        → option_copied result ≡ name_in_bytecode (hermes_value map.now) (line, col) }
{
    if line == 0 {
        map.get_original_function_name(col)
    } else {
        None
    }
}
