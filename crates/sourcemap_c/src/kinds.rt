//! Kinds of handles.
ghost use Rattle.std.specs.Prelude.{◌≡◌, MatchResult, None, Some, option_map};
ghost use Rattle.std.specs.Borrow.{sem};
ghost use Rattle.std.specs.Option.{option_copied};
ghost use Rattle.sourcemap_c_handles.specs.Handles.{EndsAsBefore, held_in};
ghost use Rattle.sourcemap_index.specs.Family.{map_tree};
ghost use Rattle.sourcemap_c.specs.Codes.{Does, NoError, OfLibrary};
ghost use Rattle.sourcemap_c.specs.Kinds.{bytes_in, kind_of, number_of, tree_in, tree_kind};

use sourcemap::{DecodedMap, Error};
use sourcemap_c_handles::errors::{Failure, Outcome};
use sourcemap_c_handles::{Handle, Held};
use std::alloc::Global;
use std::sync::Arc;

/// The numbers `SM_KIND_..` of the C header.
#[derive(Clone, Copy)]
pub(crate) enum Kind {
    Empty = 0,
    Regular = 1,
    Index = 2,
    Hermes = 3,
    Builder = 4,
    View = 5,
    Bundle = 6,
    Split = 7,
    Bytes = 8,
    Sections = 9,
    Report = 10,
}

impl Kind {
    /// The number of the kind in the C header.
    pub(crate) fn number(self) -> u32
        ensures { result ≡ number_of self }
    {
        self as u32
    }
}

pub(crate) fn kind_of(held: Option<&Held>) -> Kind
    ensures { result ≡ kind_of (option_copied held.entry) }
{
    match held {
        None => Kind::Empty,
        Some(Held::Map(map)) => tree_kind(map),
        Some(Held::Builder(_)) => Kind::Builder,
        Some(Held::View(_)) => Kind::View,
        Some(Held::Bundle(_)) => Kind::Bundle,
        Some(Held::Split(_)) => Kind::Split,
        Some(Held::Bytes(_)) => Kind::Bytes,
        Some(Held::Sections(_)) => Kind::Sections,
        Some(Held::Report(_)) => Kind::Report,
    }
}

fn tree_kind(map: &DecodedMap) -> Kind
    ensures { result ≡ tree_kind (map_tree map.now) }
{
    match map {
        DecodedMap::Regular(_) => Kind::Regular,
        DecodedMap::Index(_) => Kind::Index,
        DecodedMap::Hermes(_) => Kind::Hermes,
    }
}

/// Borrows the map in the handle: regular, Hermes or index map. Returns `None` if the handle holds
/// no map.
pub(crate) fn map_in<'a>(handle: &'a mut Handle) -> Option<&'a DecodedMap>
    ensures* after { sem 𝓛 (EndsAsBefore handle.entry) }
    ensures value { option_map (λ map. map_tree map.now) result ≡ tree_in (held_in handle.old) }
{
    match handle.get() {
        Some(Held::Map(map)) => Some(&**map),
        _ => None,
    }
}

/// Fills the handle with a map. The only error is `OutOfMemory`; then the handle is unchanged.
pub(crate) fn put_map(alloc: Global, handle: &mut Handle, map: DecodedMap) -> Outcome<()>
    ensures { Does result (tree_in (held_in handle.new) ≡ Some (map_tree map))
        (OfLibrary NoError) (held_in handle.new ≡ held_in handle.old) }
{
    match Arc::new(alloc, map) {
        Ok(map) => {
            handle.fill(alloc, Held::Map(map))?;
            Ok(())
        }
        Err(_) => Err(Failure::Library(Error::OutOfMemory)),
    }
}

/// Fills the handle with a text. The only error is `OutOfMemory`; then the handle is unchanged.
pub(crate) fn put_bytes(alloc: Global, handle: &mut Handle, bytes: Vec<u8>) -> Outcome<()>
    ensures { Does result (bytes_in (held_in handle.new) ≡ Some bytes.items)
        (OfLibrary NoError) (held_in handle.new ≡ held_in handle.old) }
{
    handle.fill(alloc, Held::Bytes(bytes))?;
    Ok(())
}
