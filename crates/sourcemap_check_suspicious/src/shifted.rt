//! Maps whose positions are off by one shift throughout.
ghost use Rattle.std.specs.Prelude.{◌≡◌, ◌++◌, IfErr, IfOk, OnOk, Some, option_map, option_to_list};
ghost use Rattle.std.specs.Option.{option_copied};
ghost use Rattle.sourcemap_errors.specs.declared.errors.Error.TheVariants.{OutOfMemory};
ghost use Rattle.sourcemap_check_suspicious.specs.Shifted.{AreOff, IsOff, IsOffBeside, code_of_shifted, suspected};
ghost use Rattle.sourcemap_check_suspicious.specs.declared.shifted.Shifted.TheVariants.{Generated, Original};
ghost use Rattle.sourcemap_check_texts.specs.Shifts.{landmarks};

use sourcemap_check_texts::shifts::{Matches, Shift, generated_shift, original_shift};
use sourcemap_errors::errors::Result;
use sourcemap_map_regular::map::SourceMap;
use sourcemap_source_views::sourceview::SourceView;
use std::alloc::Global;

/// Which positions are off, and by which shift.
#[derive(Clone, Copy, Debug, PartialEq, Eq)]
pub enum Shifted {
    /// The original positions: names stand in the texts of their sources after the shift.
    Original(Shift),
    /// The generated positions: words stand in the generated text after the shift.
    Generated(Shift),
}

/// The number of the code. The code is `SM` and this number.
pub fn code_of_shifted(shifted: Shifted) -> u32
    ensures { result ≡ code_of_shifted shifted }
{
    match shifted {
        Shifted::Original(_) => 241,
        Shifted::Generated(_) => 242,
    }
}

fn suspected(matches: Option<Matches>) -> Option<Shift>
    ensures { result ≡ suspected matches }
{
    let found = matches?;
    if found.is_suspicious() {
        Some(found.shift)
    } else {
        None
    }
}

fn push_if_some(shifts: &mut Vec<Shifted>, shifted: Option<Shifted>) -> Result<()>
    ensures pushed { OnOk result (shifts.new.items ≡ shifts.old.items ++ option_to_list shifted) }
    ensures memory { IfErr result (λ e. e ≡ OutOfMemory) }
{
    match shifted {
        Some(found) => shifts.push(found)?,
        None => return Ok(()),
    }
    Ok(())
}

fn original(
    alloc: Global,
    map: &SourceMap,
    files: Option<&[Option<SourceView>]>,
) -> Result<Option<Shifted>>
    ensures off { IfOk result
        (IsOff Original (landmarks None map.now (option_copied files.entry))) }
    ensures memory { IfErr result (λ e. e ≡ OutOfMemory) }
{
    let matches = original_shift(alloc, map, files)?;
    match suspected(matches) {
        Some(shift) => Ok(Some(Shifted::Original(shift))),
        None => Ok(None),
    }
}

fn beside(
    alloc: Global,
    map: &SourceMap,
    files: Option<&[Option<SourceView>]>,
    generated: Option<&SourceView>,
) -> Result<Option<Shifted>>
    ensures off { IfOk result (IsOffBeside map.now (option_copied files.entry)
        (option_copied generated.entry)) }
    ensures memory { IfErr result (λ e. e ≡ OutOfMemory) }
{
    let Some(text) = generated else {
        return Ok(None);
    };
    let matches = generated_shift(alloc, map, files, text)?;
    match suspected(matches) {
        Some(shift) => Ok(Some(Shifted::Generated(shift))),
        None => Ok(None),
    }
}

/// The shifts of a map that `is_suspicious` says are to be suspected: of original positions, then of
/// generated ones, if a generated text is given. `files` are for sources without contents. The only
/// error is `OutOfMemory`.
pub fn shifts_of(
    alloc: Global,
    map: &SourceMap,
    generated: Option<&SourceView>,
    files: Option<&[Option<SourceView>]>,
) -> Result<Vec<Shifted>>
    ensures off { IfOk result
        (λ shifts. AreOff map.now (option_copied generated.entry) (option_copied files.entry)
        shifts.items) }
    ensures memory { IfErr result (λ e. e ≡ OutOfMemory) }
{
    let mut shifts = Vec::new(alloc);
    let first = original(alloc, map, files)?;
    let second = beside(alloc, map, files, generated)?;
    push_if_some(&mut shifts, first)?;
    push_if_some(&mut shifts, second)?;
    Ok(shifts)
}
