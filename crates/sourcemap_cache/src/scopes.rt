//! The scopes of the tokens of a Hermes map, each name with a number.
ghost use Rattle.std.specs.Prelude.{◌≡◌, ◌<◌, ◌≤◌, IfOk, IsOkUnless, OnOk, length, vec_len};
ghost use Rattle.std.specs.Option.{option_copied};
ghost use Rattle.sourcemap_errors.specs.declared.errors.Error.TheVariants.{OutOfMemory};
ghost use Rattle.sourcemap_hermes.specs.Map.{hermes_value};
ghost use Rattle.sourcemap_cache.specs.Scopes.{AreScopesInOrder, AreScopesOf, scope_number, with_scope};

use sourcemap_errors::errors::Result;
use sourcemap_hermes::map::SourceMapHermes;
use sourcemap_interning::text_index::TextIndex;
use std::alloc::Global;

/// The scopes of the tokens of a Hermes map.
#[derive(Drop)]
pub(crate) struct TokenScopes<'a> {
    // for each token the number of its scope, counted from 1; 0 if it has none
    pub(crate) numbers: Vec<u32>,
    // the names of the scopes, by number less 1
    pub(crate) names: TextIndex<&'a str>,
}

/// Returns the number of a scope, counted from 1, and adds its name if it is new; 0 for no scope. The
/// only error is `OutOfMemory`.
fn number_of<'a>(names: &mut TextIndex<&'a str>, scope: Option<&'a str>) -> Result<u32>
    requires few { length names.old < 4294967295 }
    ensures number { IfOk result (λ number. number
        ≡ scope_number names.new (option_copied scope.entry)) }
    ensures names { OnOk result (names.new ≡ with_scope names.old (option_copied scope.entry)) }
    ensures memory { IsOkUnless result OutOfMemory }
{
    let Some(name) = scope else {
        return Ok(0);
    };
    let id = names.number_of(name)?;
    Ok(id + 1)
}

/// Returns the scopes of all tokens, in order of tokens. If the functions of a source are not sorted
/// by start position, its tokens may have wrong scopes. The only error is `OutOfMemory`.
pub(crate) fn scopes_of<'a>(alloc: Global, map: &'a SourceMapHermes) -> Result<TokenScopes<'a>>
    requires few { length (hermes_value map.now).map.tokens ≤ 4294967295 }
    ensures scopes { AreScopesInOrder (hermes_value map.now)
        → IfOk result (AreScopesOf (hermes_value map.now)) }
    ensures memory { IsOkUnless result OutOfMemory }
{
    let mut names = TextIndex::new(alloc)?;
    let mut numbers = Vec::with_capacity(alloc, map.get_token_count() as usize)?;
    for token in map.tokens() {
        let number = number_of(&mut names, map.get_scope_for_token(token))?;
        numbers.push(number)?;
    }
    Ok(TokenScopes { numbers, names })
}
