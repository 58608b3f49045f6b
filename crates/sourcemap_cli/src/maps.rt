//! Checks that a map has the kind that a command needs; adjusts a regular map by another one.
ghost use Rattle.std.specs.Prelude.{◌≡◌, MatchResult, Some};
ghost use Rattle.sourcemap.specs.Answer.{Gives};
ghost use Rattle.sourcemap.specs.AnyMap.{index_value, map_tree};
ghost use Rattle.sourcemap.specs.Trees.{index_tree, leaf, regular};
ghost use Rattle.sourcemap.specs.declared.errors.Error.TheVariants.{IncompatibleSourceMap};
ghost use Rattle.sourcemap_cli.specs.Program.{IsNotIndex, IsNotRegular, adjusted_by};

use sourcemap::{DecodedMap, Error, Result, SourceMap, SourceMapIndex};

/// Returns the regular map inside, or `IncompatibleSourceMap` for a map of another kind.
pub fn into_regular(map: DecodedMap) -> Result<SourceMap>
    ensures { MatchResult result
        (λ m. map_tree map ≡ leaf (regular m))
        (λ e. (e ≡ IncompatibleSourceMap) × IsNotRegular (map_tree map)) }
{
    match map {
        DecodedMap::Regular(map) => Ok(map),
        DecodedMap::Index(_) => Err(Error::IncompatibleSourceMap),
        DecodedMap::Hermes(_) => Err(Error::IncompatibleSourceMap),
    }
}

fn as_regular(map: &DecodedMap) -> Result<&SourceMap>
    ensures { MatchResult result
        (λ m. map_tree map.now ≡ leaf (regular m.now))
        (λ e. (e ≡ IncompatibleSourceMap) × IsNotRegular (map_tree map.now)) }
{
    match map {
        DecodedMap::Regular(map) => Ok(map),
        DecodedMap::Index(_) | DecodedMap::Hermes(_) => Err(Error::IncompatibleSourceMap),
    }
}

/// Returns the index map inside, or `IncompatibleSourceMap` for a map of another kind.
pub(crate) fn into_index(map: DecodedMap) -> Result<SourceMapIndex>
    ensures { MatchResult result
        (λ index. map_tree map ≡ index_tree (index_value index))
        (λ e. (e ≡ IncompatibleSourceMap) × IsNotIndex (map_tree map)) }
{
    match map {
        DecodedMap::Index(index) => Ok(index),
        DecodedMap::Regular(_) | DecodedMap::Hermes(_) => Err(Error::IncompatibleSourceMap),
    }
}

/// Adjusts a regular map by another one, as `SourceMap::adjust_mappings` does, and returns the
/// adjusted map. Returns the errors of `adjust_mappings`, and `IncompatibleSourceMap` if either map
/// is not regular.
pub(crate) fn adjust(map: DecodedMap, adjustment: &DecodedMap) -> Result<SourceMap>
    ensures { Gives (λ m. m) result (adjusted_by (map_tree map) (Some (map_tree adjustment.now))) }
{
    let mut map = into_regular(map)?;
    let adjustment = as_regular(adjustment)?;
    map.adjust_mappings(adjustment)?;
    Ok(map)
}
