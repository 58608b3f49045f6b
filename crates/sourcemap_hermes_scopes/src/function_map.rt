//! The function map of a source: the original positions where its functions start. A lookup finds
//! the function that contains an original position.
ghost use Rattle.std.specs.Prelude.{◌≡◌, Ok, IfOk, IfErr, option_map};
ghost use Rattle.std.specs.Bool.{Decides};
ghost use Rattle.std.specs.Cmp.{partial_equiv_from_equiv};
ghost use Rattle.std.specs.Cmp.Lexicographic.{pointwise};
ghost use Rattle.std.specs.Option.{option_eq};
ghost use Rattle.sourcemap_errors.specs.Answer.{Gives};
ghost use Rattle.sourcemap_errors.specs.declared.errors.Error.TheVariants.{OutOfMemory};
ghost use Rattle.sourcemap_hermes_scopes.specs.Offsets.{StandsFor};
ghost use Rattle.sourcemap_hermes_scopes.specs.FunctionMap.{AreOffsetsInOrder, closest_offset, offset_name};
ghost use Rattle.sourcemap_hermes_scopes.specs.FunctionMap.{offset_position, same_offsets, same_offsets_equiv};

use crate::offsets::{HermesScopeOffset, read_offsets};
use sourcemap_errors::errors::{Error, Result};
use sourcemap_tokens::search::greatest_lower_bound;
use std::alloc::Global;
use std::marker::Model;

/// The functions of one source of a Hermes map. Each function is given by the original position
/// where it starts, and by the index of its name in the source's scopes.
#[derive(Debug, Drop)]
pub struct HermesFunctionMap {
    offsets: Vec<HermesScopeOffset>,
}

impl Model for HermesFunctionMap {
    ghost use Rattle.std.specs.Prelude.{List};
    ghost use Rattle.sourcemap_hermes_scopes.specs.declared.offsets.HermesScopeOffset.{HermesScopeOffset};

    ghost Value = { List HermesScopeOffset };

    ghost view = { λ map. map.offsets.items };
}

// The line, counted from 1, and the column of `offset`, as the search compares them.
fn offset_position(offset: &HermesScopeOffset) -> (u64, u32)
    ensures { result ≡ offset_position offset.now }
{
    (u64::from(offset.line), offset.column)
}

impl HermesFunctionMap {
    /// The function map that scope mappings encode. `None` if one of their segments is invalid. The
    /// only error is `OutOfMemory`.
    pub fn read(alloc: Global, mappings: &str) -> Result<Option<HermesFunctionMap>>
        ensures map { IfOk result (StandsFor mappings.now) }
        ensures memory { IfErr result (λ e. e ≡ OutOfMemory) }
    {
        match read_offsets(alloc, mappings) {
            Ok(offsets) => Ok(Some(HermesFunctionMap { offsets })),
            Err(error) => match error {
                Error::OutOfMemory => Err(error),
                _ => Ok(None),
            },
        }
    }

    /// The index of the name of the function that contains an original position. Line and column
    /// count from 0. The function is the first that starts at the position, else the last that
    /// starts before it. `None` if no function starts at or before the position. Requires functions
    /// sorted by where they start; otherwise the result is unspecified.
    pub fn name_index(&self, line: u32, col: u32) -> Option<u32>
        ensures { AreOffsetsInOrder self.now
            → result ≡ option_map offset_name (closest_offset self.now (line, col)) }
    {
        let position = (u64::from(line) + 1, col);
        let offsets = self.offsets.as_slice();
        let (_, offset) = greatest_lower_bound(offsets, &position, offset_position)?;
        Some(offset.name_index)
    }

    /// Copies the function map. The only error is `OutOfMemory`.
    pub fn clone(&self) -> Result<HermesFunctionMap>
        ensures { Gives (λ map. map) result (Ok self.now) }
    {
        let alloc = *self.offsets.allocator();
        let offsets = Vec::from_slice(alloc, self.offsets.as_slice())?;
        Ok(HermesFunctionMap { offsets })
    }
}

pub(crate) fn copy_function_maps(
    alloc: Global,
    maps: &[Option<HermesFunctionMap>],
) -> Result<Vec<Option<HermesFunctionMap>>>
    ensures { Gives (λ copies. copies.items) result (Ok maps.now) }
{
    let mut copies = Vec::with_capacity(alloc, maps.len())?;
    for map in maps {
        copies.push(copy_function_map(map)?)?;
    }
    Ok(copies)
}

fn copy_function_map(map: &Option<HermesFunctionMap>) -> Result<Option<HermesFunctionMap>>
    ensures { Gives (λ copy. copy) result (Ok map.now) }
{
    match map {
        Some(functions) => Ok(Some(functions.clone()?)),
        None => Ok(None),
    }
}

pub(crate) fn same_function_maps(
    a: &Vec<Option<HermesFunctionMap>>,
    b: &Vec<Option<HermesFunctionMap>>,
) -> bool
    ensures { result ≡ pointwise (option_eq same_offsets) a.now.items b.now.items }
{
    a == b
}

fn same_items(a: &Vec<HermesScopeOffset>, b: &Vec<HermesScopeOffset>) -> bool
    ensures { result ≡ same_offsets a.now.items b.now.items }
{
    a == b
}

/// Function maps are equal exactly if they have the same pairs of start position and name index, in
/// the same order.
impl PartialEq for HermesFunctionMap {
    ghost eq = { same_offsets };

    ghost laws = { partial_equiv_from_equiv same_offsets_equiv };

    fn eq(&self, other: &Self) -> bool
        ensures value { result ≡ same_offsets self.now other.now }
        ensures same { Decides result (self.now ≡ other.now) }
    {
        same_items(&self.offsets, &other.offsets)
    }
}
