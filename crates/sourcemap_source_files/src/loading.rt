//! Contents of sources, loaded from files.
ghost use Rattle.std.specs.Prelude.{◌≡◌, ◌≤◌, ◌⊎◌, ◌&&◌, Ok, None, List, ℕ, map, length, vec_len, string_bytes};
ghost use Rattle.std.specs.Prelude.{is_none, is_some, IsSome, IfSome, IfNone, IfOk, IfErr, OnOk, OnErr, option_map};
ghost use Rattle.std.specs.Option.{option_copied};
ghost use Rattle.std.specs.Path.{path_join};
ghost use Rattle.sourcemap_errors.specs.declared.errors.Error.TheVariants.{OutOfMemory};
ghost use Rattle.sourcemap_errors.specs.Answer.{Gives};
ghost use Rattle.sourcemap_file_urls.specs.Places.{named_path, starts_at_root};
ghost use Rattle.sourcemap_source_files.specs.Loading.{folder_of, file_of, newly, Fills, IsNoFolder};

use sourcemap_errors::errors::{Error, Result};
use sourcemap_file_urls::places::{named_path, path_url};
use sourcemap_source_views::sourceview::SourceView;
use std::alloc::Global;
use std::io::Read;
use std::path::Path;
use std::rt::Files;
use std::{fs, io};
use url::Url;

// A file may be smaller than its named size. Above this size the buffer grows with what is read, so
// that a wrong size takes no memory.
const LARGEST_FIRST_BUFFER: u64 = 1 << 20;

/// Reads the file of each source that has no contents, and stores the text of the file in
/// `contents`. Returns how many texts were stored.
///
/// A source is resolved against the folder `base_path`. A `base_path` that is not absolute is
/// joined to `current_dir`. Without a `base_path` the folder is `current_dir`. A source is skipped
/// if it does not resolve to the path of a file, or if the file is not a regular file, cannot be
/// read or is not UTF-8. A source may also be skipped if the source and the URL of the folder
/// together have 2^28 bytes or more. The size of this URL is the size before `..` is resolved.
///
/// If neither `base_path` nor `current_dir` is absolute, the error is `Io` of kind `InvalidInput`,
/// and `contents` is unchanged. Any other error is `OutOfMemory`. After `OutOfMemory`, `contents`
/// keeps the texts that were stored before the error. Requires at least as many entries in
/// `contents` as in `sources`.
pub fn load_contents<F: Files>(
    rt: &F,
    alloc: Global,
    current_dir: &str,
    base_path: Option<&str>,
    sources: &[String],
    contents: &mut Vec<Option<SourceView>>,
) -> Result<usize>
    requires { length sources.now ≤ vec_len contents.old }
    ensures fills { IfSome (folder_of current_dir.now (option_copied base_path.entry)) (λ folder.
        Fills folder (map string_bytes sources.now) contents.old.items contents.new.items) }
    ensures unchanged { IfNone (folder_of current_dir.now (option_copied base_path.entry))
        (contents.new.items ≡ contents.old.items) }
    ensures count { IfOk result (λ n.
        n ≡ newly (length sources.now) contents.old.items contents.new.items) }
    ensures folder { OnOk result
        (IsSome (folder_of current_dir.now (option_copied base_path.entry))) }
    ensures err { IfErr result (λ e. (e ≡ OutOfMemory)
        ⊎ (IsNoFolder e × (contents.new.items ≡ contents.old.items)
        × (folder_of current_dir.now (option_copied base_path.entry) ≡ None))) }
{
    let Some(folder) = folder(alloc, current_dir, base_path)? else {
        return Err(no_folder());
    };
    match path_url(alloc, folder.as_str(), true)? {
        Some(base) => load_all(rt, alloc, &base, sources, contents),
        None => Ok(0),
    }
}

/// Checks that `base_path` or `current_dir` is absolute, so that `load_contents` has a folder. If
/// neither is absolute, the error is `Io` of kind `InvalidInput`. There is no other error.
pub fn check_folder(current_dir: &str, base_path: Option<&str>) -> Result<()>
    ensures folder { OnOk result
        (IsSome (folder_of current_dir.now (option_copied base_path.entry))) }
    ensures err { IfErr result (λ e. IsNoFolder e
        × (folder_of current_dir.now (option_copied base_path.entry) ≡ None)) }
{
    if is_joined_absolute(current_dir, base_path.unwrap_or("")) {
        return Ok(());
    }
    Err(no_folder())
}

fn no_folder() -> Error
    ensures { IsNoFolder result }
{
    Error::Io(io::Error::from(io::ErrorKind::InvalidInput))
}

fn is_absolute(path: &str) -> bool
    ensures { result ≡ starts_at_root path.now }
{
    path.as_bytes().starts_with(b"/")
}

// Whether `base`, joined to `current`, is an absolute path.
#[tactic(auto, using(crate::proofs::LoadingLemmas::join_at_root))]
fn is_joined_absolute(current: &str, base: &str) -> bool
    ensures { result ≡ starts_at_root (path_join current.now base.now) }
{
    is_absolute(base) || is_absolute(current)
}

// The folder against which sources are resolved, `None` if neither `current` nor `base` is
// absolute.
fn folder(alloc: Global, current: &str, base: Option<&str>) -> Result<Option<String>>
    ensures { Gives (option_map string_bytes) result
        (Ok (folder_of current.now (option_copied base.entry))) }
{
    let base = base.unwrap_or("");
    if !is_joined_absolute(current, base) {
        return Ok(None);
    }
    let folder = Path::new(current).join(alloc, base)?;
    Ok(Some(folder.into_string()))
}

// Loads contents for the sources that have none. Skips a source if `view_of` returns `None`.
// Returns how many sources got contents.
fn load_all<F: Files>(
    rt: &F,
    alloc: Global,
    base: &Url,
    sources: &[String],
    contents: &mut Vec<Option<SourceView>>,
) -> Result<usize>
    requires { length sources.now ≤ vec_len contents.old }
    ensures fills { (folder : List ℕ)
        → ((source : List ℕ) → file_of folder source ≡ named_path base.now source)
        → Fills folder (map string_bytes sources.now) contents.old.items contents.new.items }
    ensures count { IfOk result (λ n.
        n ≡ newly (length sources.now) contents.old.items contents.new.items) }
    ensures err { IfErr result (λ e. e ≡ OutOfMemory) }
{
    let mut loaded = 0;
    for id in 0..sources.len() {
        let source = sources[id].as_str();
        if load(rt, alloc, base, source, &mut contents[id])? {
            loaded += 1;
        }
    }
    Ok(loaded)
}

// Loads the contents of a source if `contents` is `None`. Returns whether contents were loaded. On
// an error `contents` is unchanged.
fn load<F: Files>(
    rt: &F,
    alloc: Global,
    base: &Url,
    source: &str,
    contents: &mut Option<SourceView>,
) -> Result<bool>
    ensures kept { IsSome contents.old → contents.new ≡ contents.old }
    ensures from_file { contents.old ≡ None → IsSome contents.new
        → IsSome (named_path base.now source.now) }
    ensures loaded { IfOk result (λ loaded. loaded ≡ is_none contents.old && is_some contents.new) }
    ensures unchanged { OnErr result (contents.new ≡ contents.old) }
    ensures err { IfErr result (λ e. e ≡ OutOfMemory) }
{
    if contents.is_some() {
        return Ok(false);
    }
    *contents = view_of(rt, alloc, base, source)?;
    Ok(contents.is_some())
}

// A view of the text of a source's file. `None` if `named_path` or `text_of` returns `None`.
fn view_of<F: Files>(rt: &F, alloc: Global, base: &Url, source: &str) -> Result<Option<SourceView>>
    ensures from_file { IfOk result (λ view. IsSome view → IsSome (named_path base.now source.now)) }
    ensures err { IfErr result (λ e. e ≡ OutOfMemory) }
{
    let Some(path) = named_path(alloc, base, source)? else {
        return Ok(None);
    };
    match text_of(rt, alloc, path.as_str())? {
        Some(text) => Ok(Some(SourceView::from_string(alloc, text)?)),
        None => Ok(None),
    }
}

// The text of a file, `None` if it is not a regular file, cannot be read or is not UTF-8.
fn text_of<F: Files>(rt: &F, alloc: Global, path: &str) -> Result<Option<String>>
    ensures { IfErr result (λ e. e ≡ OutOfMemory) }
{
    match bytes_of(rt, alloc, path) {
        Ok(bytes) => Ok(String::from_utf8(bytes).ok()),
        Err(cause) if cause.kind() == io::ErrorKind::OutOfMemory => Err(Error::OutOfMemory),
        Err(_) => Ok(None),
    }
}

// The bytes of a file. A file that is known not to be a regular file is an error.
fn bytes_of<F: Files>(rt: &F, alloc: Global, path: &str) -> io::Result<Vec<u8>> {
    let size = named_size(rt, path)?;
    let mut file = fs::open(rt, path)?;
    // One byte more than the size, so that the last read, which returns no bytes, does not grow the
    // buffer.
    let mut bytes = Vec::with_capacity(alloc, size.min(LARGEST_FIRST_BUFFER) as usize + 1)?;
    file.read_to_end(&mut bytes)?;
    Ok(bytes)
}

// The size that the file system names, 0 if it names none. A file that is known not to be a regular
// file is an error. The path is asked, not the open file: opening a pipe waits for a writer.
fn named_size<F: Files>(rt: &F, path: &str) -> io::Result<u64> {
    match fs::metadata(rt, path) {
        Ok(about) if about.is_file() => Ok(about.len()),
        Ok(_) => Err(io::Error::from(io::ErrorKind::InvalidInput)),
        Err(cause) if cause.kind() == io::ErrorKind::OutOfMemory => Err(cause),
        Err(_) => Ok(0),
    }
}
