//! A Hermes map: a regular map with the scopes of its sources.
ghost use Rattle.std.specs.Prelude.{◌≡◌, IfSome, length};
ghost use Rattle.std.specs.Option.{option_copied};

use sourcemap_hermes_scopes::source_scopes::SourceScopes;
use sourcemap_map_regular::map::SourceMap;
use sourcemap_map_regular::token::Token;

/// A source map with the functions of its sources. Scopes are indexed by source id.
#[derive(Debug, Drop)]
pub struct SourceMapHermes {
    pub(crate) sm: SourceMap,
    pub(crate) scopes: SourceScopes,
}

impl SourceMapHermes {
    ghost use Rattle.sourcemap_map_regular.specs.Token.{token_value, lookup};
    ghost use Rattle.sourcemap_hermes_scopes.specs.SourceScopes.{AreFewScopes, AreOfEntries, IsInOrderAt, scope_at};
    ghost use Rattle.sourcemap_hermes.specs.Map.{hermes_value, function_name, token_scope};

    /// The number of entries of scopes. The index of an entry is the id of its source. A source has
    /// no scopes if its id is not less than the number of entries. An entry may be empty. A source
    /// with an entry has the function map that the entry encodes, or none if the entry is empty or
    /// invalid.
    pub fn scope_count(&self) -> u32
        ensures count { result ≡ length (hermes_value self.now).scopes.entries }
        ensures few { AreFewScopes (hermes_value self.now).scopes.entries }
        ensures of_entries { AreOfEntries (hermes_value self.now).scopes }
    {
        self.scopes.count()
    }

    /// The name of the function that contains a position of the source with this id. Line and
    /// column count from 0. `None` if the source has no function map, if no function starts at or
    /// before the position, or if the function has no name. If the functions of the source are not
    /// sorted by start position, the result may be wrong.
    pub fn get_scope(&self, source: u32, line: u32, col: u32) -> Option<&str>
        ensures { IsInOrderAt (hermes_value self.now).scopes source
            → option_copied result ≡ scope_at (hermes_value self.now).scopes source (line, col) }
    {
        self.scopes.scope(source, line, col)
    }

    /// The name of the function that contains a token's original position. The original column is
    /// the result of `get_src_col`: it includes the columns that a lookup adds for a range token.
    /// `None` if the source has no function map, if no function starts at or before the original
    /// position, or if the function has no name. If the functions of the source are not sorted by
    /// start position, the result may be wrong.
    pub fn get_scope_for_token(&self, token: Token<'_>) -> Option<&str>
        ensures { IsInOrderAt (hermes_value self.now).scopes (token_value token.entry).raw.src_id
            → option_copied result
            ≡ token_scope (hermes_value self.now).scopes (token_value token.entry) }
    {
        let (line, col) = token.get_src();
        self.scopes.scope(token.get_src_id(), line, col)
    }

    /// The name of the function at a bytecode offset. The offset is a column of generated line 0.
    /// Returns the result of `get_scope_for_token` for the token that `lookup_token` returns for
    /// this column: the first token at this column, or else the last token before this column.
    /// `None` if `lookup_token` returns no token. If the token is a range token, the lookup
    /// increases the token's original column by the number of columns between the token and the
    /// offset, but to at most 4294967295. If the functions of the token's source are not sorted by
    /// start position, the result may be wrong.
    pub fn get_original_function_name(&self, bytecode_offset: u32) -> Option<&str>
        ensures { IfSome (lookup (hermes_value self.now).map (0, bytecode_offset))
            (λ t. IsInOrderAt (hermes_value self.now).scopes t.raw.src_id)
            → option_copied result ≡ function_name (hermes_value self.now) bytecode_offset }
    {
        let token = self.sm.lookup_token(0, bytecode_offset)?;
        self.get_scope_for_token(token)
    }
}
