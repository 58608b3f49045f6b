//! Gives tokens the new numbers of their sources and names.
ghost use Rattle.std.specs.Prelude.{◌≤◌, IfOk, IsOkUnless, length, map, string_bytes};
ghost use Rattle.sourcemap_errors.specs.declared.errors.Error.TheVariants.{OutOfMemory};
ghost use Rattle.sourcemap_map_rewrite.specs.Renumbering.{IsRenumbered};

use crate::numbering::{NewNumbers, Numbering};
use sourcemap_errors::errors::Result;
use sourcemap_line_index::token_list::TokenList;
use sourcemap_tokens::tokens::RawToken;
use std::alloc::Global;

#[derive(Drop)]
pub(crate) struct Renumbering {
    pub(crate) sources: NewNumbers,
    pub(crate) names: NewNumbers,
}

fn renumber_each(
    alloc: Global,
    tokens: &mut [RawToken],
    sources: &[String],
    names: &[String],
) -> Result<Renumbering>
    requires few_sources { length sources.now ≤ 4294967295 }
    requires few_names { length names.now ≤ 4294967295 }
    ensures ok { IfOk result
        (λ r. IsRenumbered (map string_bytes sources.now) (map string_bytes names.now)
        tokens.old tokens.new r) }
    ensures memory { IsOkUnless result OutOfMemory }
{
    let mut source_numbers = Numbering::new(alloc, sources.len())?;
    let mut name_numbers = Numbering::new(alloc, names.len())?;
    for token in tokens.iter_mut() {
        token.src_id = source_numbers.number(sources, token.src_id)?;
        token.name_id = name_numbers.number(names, token.name_id)?;
    }
    Ok(Renumbering {
        sources: source_numbers.seen,
        names: name_numbers.seen,
    })
}

// Returns the tokens with new source ids and new name ids, and a `Renumbering`. For each old source
// id and each old name id, the `Renumbering` has the new id, or `NO_ID` if no token uses the old
// id. The ids of equal texts become one new id. In a token, a source id past the end of `sources`
// becomes `NO_ID`, and a name id past the end of `names` too. The only error is `OutOfMemory`.
// Requires at most 4294967295 sources and at most 4294967295 names.
pub(crate) fn renumber(
    alloc: Global,
    tokens: TokenList,
    sources: &[String],
    names: &[String],
) -> Result<(TokenList, Renumbering)>
    requires few_sources { length sources.now ≤ 4294967295 }
    requires few_names { length names.now ≤ 4294967295 }
    ensures ok { IfOk result
        (λ new. IsRenumbered (map string_bytes sources.now) (map string_bytes names.now)
        tokens new.0 new.1) }
    ensures memory { IsOkUnless result OutOfMemory }
{
    let mut tokens = tokens.into_vec();
    let numbers = renumber_each(alloc, tokens.as_mut_slice(), sources, names)?;
    let tokens = TokenList::of_sorted(tokens)?;
    Ok((tokens, numbers))
}
