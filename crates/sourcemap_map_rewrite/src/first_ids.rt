//! Finds one old number for each text in use. If equal texts have several old numbers, the number
//! that was used first is taken.
ghost use Rattle.std.specs.Prelude.{◌≡◌, ℕ, List, IfOk, IsOkUnless};
ghost use Rattle.std.specs.List.{AllByRecursion};
ghost use Rattle.sourcemap_errors.specs.declared.errors.Error.TheVariants.{OutOfMemory};
ghost use Rattle.sourcemap_map_rewrite.specs.FirstIds.{firsts_of};
ghost use Rattle.sourcemap_map_rewrite.specs.KeptContents.{HasNewNumber};
ghost use Rattle.sourcemap_map_rewrite.specs.Numbering.{AreNumbered};

use crate::numbering::NewNumbers;
use sourcemap_errors::errors::Result;
use std::alloc::Global;

// For each new number, the first old number in `numbers.order` that has this new number. New
// numbers must be assigned in the order of first use, as in `Numbering`. Each old number in
// `numbers.order` must have a new number below `count`. The only error is `OutOfMemory`.
pub(crate) fn first_ids(alloc: Global, numbers: &NewNumbers, count: usize) -> Result<Vec<u32>>
    requires { AllByRecursion (HasNewNumber numbers.now.numbers.items count) numbers.now.order.items }
    ensures ok { (texts : List (List ℕ)) → AreNumbered texts numbers.now
        → IfOk result (λ ids. ids.items ≡ firsts_of texts numbers.now.order.items) }
    ensures memory { IsOkUnless result OutOfMemory }
{
    let mut ids = Vec::with_capacity(alloc, count)?;
    for id in &numbers.order {
        if numbers.numbers[*id as usize] as usize == ids.len() {
            ids.push(*id)?;
        }
    }
    Ok(ids)
}
