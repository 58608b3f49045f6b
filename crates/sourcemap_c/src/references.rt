//! References to source maps in generated texts.
ghost use Rattle.std.specs.Prelude.{◌≡◌, option_map, string_bytes};
ghost use Rattle.sourcemap_errors.specs.Answer.{IsAnswer};
ghost use Rattle.sourcemap_c_handles.specs.Handles.{held_in};
ghost use Rattle.sourcemap_references.specs.Reference.{first_reference};
ghost use Rattle.sourcemap_references.specs.References.{reference, url_of};
ghost use Rattle.sourcemap_c.specs.Codes.{Answers, Does, NoError, OfLibrary};
ghost use Rattle.sourcemap_c.specs.References.{IsFound, IsNotFound, IsReference, Leads, Puts, Refers, Resolves, ResolvesBy, ResolvesPath};

use crate::codes::text_in;
use crate::kinds::put_bytes;
use sourcemap::{Result, SourceMapRef, locate_sourcemap_reference_slice};
use sourcemap_c_handles::Handle;
use sourcemap_c_handles::errors::{ErrorReport, Failure, Outcome, finish};
use std::alloc::Global;

/// Finds the first reference in a text and fills `url` with the URL of the reference. Writes to
/// `is_legacy` whether the reference begins with `//@`.
#[unsafe(no_mangle)]
pub extern "C" fn sm_locate_reference(
    alloc: Global,
    text: &[u8],
    url: &mut Handle,
    is_legacy: &mut bool,
    error: &mut ErrorReport,
) -> u32
    ensures { Answers result error.old error.new
        (IsFound (first_reference text.now) (held_in url.new) is_legacy.new)
        (IsNotFound (first_reference text.now))
        ((held_in url.new ≡ held_in url.old) × (is_legacy.new ≡ is_legacy.old)) }
{
    finish(alloc, locate(alloc, text, url, is_legacy), error)
}

fn locate(alloc: Global, text: &[u8], url: &mut Handle, is_legacy: &mut bool) -> Outcome<()>
    ensures { Does result (IsFound (first_reference text.now) (held_in url.new) is_legacy.new)
        (IsNotFound (first_reference text.now))
        ((held_in url.new ≡ held_in url.old) × (is_legacy.new ≡ is_legacy.old)) }
{
    match locate_sourcemap_reference_slice(alloc, text) {
        Ok(Some(found)) => put_reference(alloc, found, url, is_legacy),
        Ok(None) => Err(Failure::Absent),
        Err(error) => Err(Failure::Library(error)),
    }
}

fn put_reference(
    alloc: Global,
    found: SourceMapRef,
    url: &mut Handle,
    is_legacy: &mut bool,
) -> Outcome<()>
    ensures { Does result (IsReference (reference found) (held_in url.new) is_legacy.new) (OfLibrary NoError)
        ((held_in url.new ≡ held_in url.old) × (is_legacy.new ≡ is_legacy.old)) }
{
    match found {
        SourceMapRef::Ref(text) => {
            put_bytes(alloc, url, text.into_bytes())?;
            *is_legacy = false;
        }
        SourceMapRef::LegacyRef(text) => {
            put_bytes(alloc, url, text.into_bytes())?;
            *is_legacy = true;
        }
    }
    Ok(())
}

fn reference_to(alloc: Global, url: &[u8]) -> Result<SourceMapRef>
    ensures { Refers result url.now }
{
    let url = text_in(url)?;
    Ok(SourceMapRef::Ref(String::from_str(alloc, url)?))
}

/// What a reference is resolved against.
#[derive(Clone, Copy)]
enum Base {
    Url,
    Path,
}

/// Fills `to` with the URL of the map: the reference `url` is resolved against `base`, the URL of
/// the generated text.
#[unsafe(no_mangle)]
pub extern "C" fn sm_resolve(
    alloc: Global,
    url: &[u8],
    base: &[u8],
    to: &mut Handle,
    error: &mut ErrorReport,
) -> u32
    ensures { Leads (Answers result error.old error.new) url.now base.now (Resolves base.now url.now)
        (held_in to.old) (held_in to.new) }
{
    finish(alloc, resolve(alloc, Base::Url, url, base, to), error)
}

/// Fills `to` with the path of the map: the reference `url` is resolved against `base`, the path of
/// the generated text.
#[unsafe(no_mangle)]
pub extern "C" fn sm_resolve_path(
    alloc: Global,
    url: &[u8],
    base: &[u8],
    to: &mut Handle,
    error: &mut ErrorReport,
) -> u32
    ensures { Leads (Answers result error.old error.new) url.now base.now (ResolvesPath base.now url.now)
        (held_in to.old) (held_in to.new) }
{
    finish(alloc, resolve(alloc, Base::Path, url, base, to), error)
}

fn resolve(alloc: Global, kind: Base, url: &[u8], base: &[u8], to: &mut Handle) -> Outcome<()>
    ensures { Leads (Does result) url.now base.now (ResolvesBy kind base.now url.now) (held_in to.old) (held_in to.new) }
{
    let base = text_in(base)?;
    let reference = reference_to(alloc, url)?;
    put_found(alloc, resolved(&reference, kind, base), to)
}

fn resolved(reference: &SourceMapRef, kind: Base, base: &str) -> Result<Option<String>>
    ensures { IsAnswer (option_map string_bytes) (ResolvesBy kind base.now (url_of reference.now)) result }
{
    match kind {
        Base::Url => reference.resolve(base),
        Base::Path => reference.resolve_path(base),
    }
}

fn put_found(alloc: Global, found: Result<Option<String>>, to: &mut Handle) -> Outcome<()>
    ensures { Puts found result (held_in to.old) (held_in to.new) }
{
    match found {
        Ok(Some(text)) => put_bytes(alloc, to, text.into_bytes()),
        Ok(None) => Err(Failure::Absent),
        Err(error) => Err(Failure::Library(error)),
    }
}
