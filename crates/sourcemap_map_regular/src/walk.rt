//! Guesses the original name of a function from the tokens at and before a position.
ghost use Rattle.std.specs.Prelude.{◌≡◌};
ghost use Rattle.std.specs.Option.{option_copied};

use crate::map::SourceMap;
use crate::token::Token;
use sourcemap_source_views::sourceview::SourceView;
use sourcemap_source_views::walk::WalkedToken;

/// The previous token is the token at the next lower index of the map.
impl<'a> WalkedToken for Token<'a> {
    type Name = &'a str;

    ghost use Rattle.sourcemap_map_regular.specs.Token.{TokenValue, token_value};
    ghost use Rattle.sourcemap_map_regular.specs.Walk.{name_of, position_of, tokens_before};

    ghost Seen = { TokenValue };

    ghost seen = { token_value };

    ghost position_value = { position_of };

    ghost name_of = { name_of };

    ghost text_of = { λ name. name.now };

    ghost before = { λ token. tokens_before (token_value token).map_of (token_value token).index };

    fn generated_position(&self) -> (u32, u32) {
        self.get_dst()
    }

    fn name(&self) -> Option<&'a str> {
        self.get_name()
    }

    fn previous(&self) -> Option<Self> {
        let index = self.index.checked_sub(1)?;
        self.map.get_token(index)
    }
}

impl SourceMap {
    ghost use Rattle.sourcemap_map_regular.specs.Walk.{function_name};

    /// Guesses the original name of the function at a generated position. `view` is a view of the
    /// generated text. The search starts at the token that `lookup_token` returns for the position,
    /// and goes back over the tokens of the map, at most 128 in all. For each token, the search
    /// reads the identifier at the token's generated position. White space before the identifier is
    /// skipped, but not past the end of the line. A token matches if its identifier is
    /// `minified_name` and the next token of the search has the identifier `function`. Returns the
    /// name of the first token that matches. Returns `None` if no token matches, if the first token
    /// that matches has no name, or if `minified_name` is no identifier. The call allocates no
    /// memory.
    pub fn get_original_function_name(
        &self,
        line: u32,
        col: u32,
        minified_name: &str,
        view: &SourceView,
    ) -> Option<&str>
        ensures { option_copied result
            ≡ function_name self.now view.now minified_name.now (line, col) }
    {
        let token = self.lookup_token(line, col)?;
        view.get_original_function_name(token, minified_name)
    }
}
