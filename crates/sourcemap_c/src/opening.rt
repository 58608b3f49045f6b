//! Calls that open, share and close handles.
ghost use Rattle.std.specs.Prelude.{◌≡◌, ◌↔◌, Err, IsTrue, MatchResult, None, Ok, Some};
ghost use Rattle.std.specs.Str.{IsUtf8};
ghost use Rattle.sourcemap_records.specs.Detection.{AreMap};
ghost use Rattle.sourcemap_c_handles.specs.Handles.{held_in};
ghost use Rattle.sourcemap_index.specs.Decode.{BytesDecode, UrlDecodes};
ghost use Rattle.sourcemap_index.specs.Family.{map_tree};
ghost use Rattle.sourcemap_index_model.specs.MapTree.{MapTree};
ghost use Rattle.sourcemap_index_model.specs.WellFormed.{IsWellFormed};
ghost use Rattle.sourcemap_c.specs.Codes.{Answers, Does, NoError, OfLibrary, OfLibraryOrKind, UnlessMemory};
ghost use Rattle.sourcemap_c.specs.Kinds.{kind_of, number_of, shareable_in, tree_in};
ghost use Rattle.sourcemap_c.specs.Opening.{AreNoUrl, Holds, IsShared};

use crate::codes::text_in;
use crate::kinds::{kind_of, put_map};
use sourcemap::{DecodedMap, Error, decode_data_url, decode_slice, is_sourcemap_slice};
use sourcemap_c_handles::errors::{ErrorReport, Failure, Outcome, finish};
use sourcemap_c_handles::{Handle, Held};
use std::alloc::Global;
use std::sync::Arc;

// `SM_INTERFACE` of the C header.
const INTERFACE: u32 = 2;

/// The version of the interface.
#[unsafe(no_mangle)]
pub extern "C" fn sm_interface() -> u32
    ensures { result ≡ 2 }
{
    INTERFACE
}

/// Returns one of the numbers `SM_KIND_..` of the C header: the kind of the value in the handle, or
/// `SM_KIND_EMPTY` if the handle is empty.
#[unsafe(no_mangle)]
pub extern "C" fn sm_kind(handle: &mut Handle) -> u32
    ensures kind { result ≡ number_of (kind_of (held_in handle.old)) }
    ensures kept { held_in handle.new ≡ held_in handle.old }
{
    kind_of(handle.get()).number()
}

/// Drops what the handle holds.
#[unsafe(no_mangle)]
pub extern "C" fn sm_close(alloc: Global, handle: &mut Handle)
    ensures { held_in handle.new ≡ None }
{
    handle.close(alloc);
}

/// Decodes the bytes and fills the handle with the map.
#[unsafe(no_mangle)]
pub extern "C" fn sm_open(
    alloc: Global,
    map: &mut Handle,
    bytes: &[u8],
    error: &mut ErrorReport,
) -> u32
    ensures { Answers result error.old error.new (Holds (BytesDecode bytes.now) (held_in map.new))
        (OfLibrary (λ e. BytesDecode bytes.now (Err e))) (held_in map.new ≡ held_in map.old) }
{
    finish(alloc, open(alloc, map, bytes), error)
}

fn open(alloc: Global, map: &mut Handle, bytes: &[u8]) -> Outcome<()>
    ensures { Does result (Holds (BytesDecode bytes.now) (held_in map.new))
        (OfLibrary (λ e. BytesDecode bytes.now (Err e))) (held_in map.new ≡ held_in map.old) }
{
    put_map(alloc, map, decode_slice(alloc, bytes)?)
}

/// Decodes a data URL and fills the handle with the map.
#[unsafe(no_mangle)]
pub extern "C" fn sm_open_url(
    alloc: Global,
    map: &mut Handle,
    url: &[u8],
    error: &mut ErrorReport,
) -> u32
    ensures { Answers result error.old error.new (IsUtf8 url.now × Holds (UrlDecodes url.now) (held_in map.new))
        (OfLibrary (AreNoUrl url.now)) (held_in map.new ≡ held_in map.old) }
{
    finish(alloc, open_url(alloc, map, url), error)
}

fn open_url(alloc: Global, map: &mut Handle, url: &[u8]) -> Outcome<()>
    ensures { Does result (IsUtf8 url.now × Holds (UrlDecodes url.now) (held_in map.new))
        (OfLibrary (AreNoUrl url.now)) (held_in map.new ≡ held_in map.old) }
{
    match text_in(url) {
        Ok(url) => open_text(alloc, map, url),
        Err(error) => Err(Failure::Library(error)),
    }
}

fn open_text(alloc: Global, map: &mut Handle, url: &str) -> Outcome<()>
    ensures { Does result (Holds (UrlDecodes url.now) (held_in map.new))
        (OfLibrary (λ e. UrlDecodes url.now (Err e))) (held_in map.new ≡ held_in map.old) }
{
    match decode_data_url(alloc, url) {
        Ok(decoded) => put_map(alloc, map, decoded),
        Err(error) => Err(Failure::Library(error)),
    }
}

/// Fills `other` with the map, the text or the RAM bundle in `handle`. It is not copied: both
/// handles share it.
#[unsafe(no_mangle)]
pub extern "C" fn sm_share(
    alloc: Global,
    handle: &mut Handle,
    other: &mut Handle,
    error: &mut ErrorReport,
) -> u32
    ensures shared { Answers result error.old error.new
        (IsShared (shareable_in (held_in handle.old)) (shareable_in (held_in other.new)))
        (OfLibraryOrKind NoError (shareable_in (held_in handle.old) ≡ None)) (held_in other.new ≡ held_in other.old) }
    ensures kept { held_in handle.new ≡ held_in handle.old }
{
    finish(alloc, share(alloc, handle, other), error)
}

fn share(alloc: Global, handle: &mut Handle, other: &mut Handle) -> Outcome<()>
    ensures shared { Does result
        (IsShared (shareable_in (held_in handle.old)) (shareable_in (held_in other.new)))
        (OfLibraryOrKind NoError (shareable_in (held_in handle.old) ≡ None)) (held_in other.new ≡ held_in other.old) }
    ensures kept { held_in handle.new ≡ held_in handle.old }
{
    match handle.get() {
        Some(held) => put_share(alloc, held, other),
        None => Err(Failure::WrongKind),
    }
}

fn put_share(alloc: Global, held: &Held, other: &mut Handle) -> Outcome<()>
    ensures { Does result (IsShared (shareable_in (Some held.now)) (shareable_in (held_in other.new)))
        (OfLibraryOrKind NoError (shareable_in (Some held.now) ≡ None)) (held_in other.new ≡ held_in other.old) }
{
    match share_of(held) {
        Ok(share) => {
            other.fill(alloc, share)?;
            Ok(())
        }
        Err(failure) => Err(failure),
    }
}

fn share_of(held: &Held) -> Outcome<Held>
    ensures { MatchResult result (λ share. IsShared (shareable_in (Some held.now)) (shareable_in (Some share)))
        (λ failure. UnlessMemory failure (OfLibraryOrKind NoError (shareable_in (Some held.now) ≡ None) failure)) }
{
    match held {
        Held::Map(map) => Ok(Held::Map(Arc::try_clone(map)?)),
        Held::View(view) => Ok(Held::View(Arc::try_clone(view)?)),
        Held::Bundle(bundle) => Ok(Held::Bundle(Arc::try_clone(bundle)?)),
        _ => Err(Failure::WrongKind),
    }
}

/// Writes whether the bytes are a source map. It checks no values but `version`.
#[unsafe(no_mangle)]
pub extern "C" fn sm_is_source_map(
    alloc: Global,
    bytes: &[u8],
    answer: &mut bool,
    error: &mut ErrorReport,
) -> u32
    ensures { Answers result error.old error.new (IsTrue answer.new ↔ AreMap bytes.now) (OfLibrary NoError)
        (answer.new ≡ answer.old) }
{
    finish(alloc, is_source_map(alloc, bytes, answer), error)
}

fn is_source_map(alloc: Global, bytes: &[u8], answer: &mut bool) -> Outcome<()>
    ensures { Does result (IsTrue answer.new ↔ AreMap bytes.now) (OfLibrary NoError) (answer.new ≡ answer.old) }
{
    *answer = is_sourcemap_slice(alloc, bytes)?;
    Ok(())
}
