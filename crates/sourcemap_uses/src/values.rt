//! Maps written as JSON values and read back.
ghost use Rattle.std.specs.Prelude.{IfOk, IsOkUnless};
ghost use Rattle.sourcemap.specs.AnyMap.{map_tree};
ghost use Rattle.sourcemap.specs.TreeEncoder.{Restores};
ghost use Rattle.sourcemap.specs.Trees.{IsWellFormed};
ghost use Rattle.sourcemap.specs.declared.errors.Error.TheVariants.{OutOfMemory};

use sourcemap::{DecodedMap, Result};
use std::alloc::Global;

/// Writes a map as a JSON value and decodes this value. If the map is well-formed, as every decoded
/// map is, the result has the same meaning at every position, the same kind, fields and sections.
/// Only three things may be missing: tokens equal to the token before them, name ids that name
/// nothing, and contents that belong to no source. Index maps may be nested at any depth. For a
/// well-formed map the only error is `OutOfMemory`.
pub fn through_value(alloc: Global, map: &DecodedMap) -> Result<DecodedMap>
    ensures restored { IsWellFormed (map_tree map.now)
        → IfOk result (λ back. Restores (map_tree map.now) (map_tree back)) }
    ensures well_formed { IfOk result (λ back. IsWellFormed (map_tree back)) }
    ensures memory { IsWellFormed (map_tree map.now) → IsOkUnless result OutOfMemory }
{
    let value = map.to_value()?;
    DecodedMap::from_value(alloc, &value)
}
