//! A file bundle: a file with the startup code, and the folder `js-modules` with a file for each
//! module. Both are in the same folder.
ghost use Rattle.std.specs.Prelude.{◌≡◌, ◌<◌, ◌≤◌, ◌+◌, ◌^◌, ℕ, None, Ok, Some, IfErr, IfOk, IfSome, IsOkUnless, OnOk, map, option_map, string_bytes};
ghost use Rattle.std.specs.List.Sorted.{IsSorted};
ghost use Rattle.std.specs.Option.{SomeIff};
ghost use Rattle.std.specs.String.{string_cmp};
ghost use Rattle.std.specs.Str.Parse.{IsNumeral, digits_value};
ghost use Rattle.sourcemap_errors.specs.Answer.{Gives};
ghost use Rattle.sourcemap_errors.specs.declared.errors.Error.TheVariants.{InvalidRamBundleIndex, OutOfMemory};
ghost use Rattle.sourcemap_bundles.specs.Folder.{IsFileError, IsFolder, IsNumbered, IsReadBy, with_file};
ghost use Rattle.sourcemap_bundles.specs.Modules.{file_module};
ghost use Rattle.sourcemap_bundles.specs.Stored.{files_value, module_value};

use crate::bundle::RAM_BUNDLE_MAGIC;
use crate::modules::RamBundleModule;
use sourcemap_errors::errors::{Error, Result};
use std::alloc::Global;
use std::collections::BTreeMap;
use std::io::Read;
use std::path::{Path, PathBuf};
use std::rt::Files;
use std::{fs, io};

const MARKER: &str = "UNBUNDLE";

/// The contents of a file bundle, read from its files.
#[derive(Debug, Drop)]
pub(crate) struct UnbundleRamBundle {
    startup_code: Vec<u8>,
    module_count: usize,
    modules: BTreeMap<usize, Vec<u8>>,
}

impl UnbundleRamBundle {
    /// Reads the startup code at `path` and the modules in the folder `js-modules` beside the file.
    pub(crate) fn parse<F: Files>(rt: &F, alloc: Global, path: &str) -> Result<Self>
        ensures files { IfOk result (λ bundle. IsFolder (files_value bundle)) }
        ensures refused { IfErr result IsFileError }
    {
        if !is_unbundle_path(rt, alloc, path)? {
            return Err(Error::NotARamBundle);
        }
        let startup_code = fs::read(&(rt, alloc), path)?;
        let folder = modules_folder(alloc, path)?;
        let names = file_names(rt, alloc, folder.as_path())?;
        read_modules(rt, alloc, folder.as_path(), startup_code, &names)
    }

    /// Returns one more than the greatest number of a module, or 1 if there is no module.
    pub(crate) fn module_count(&self) -> usize
        ensures { result ≡ self.now.module_count }
    {
        self.module_count
    }

    pub(crate) fn startup_code(&self) -> &[u8]
        ensures { result.now ≡ self.now.startup_code.items }
    {
        self.startup_code.as_slice()
    }

    /// Returns the module with this number, or `None` if no file has this number.
    #[tactic(auto, using(crate::proofs::FolderLemmas::found_by_number))]
    pub(crate) fn get_module(&self, id: usize) -> Option<RamBundleModule<'_>>
        ensures { option_map module_value result ≡ file_module (files_value self.now) id }
    {
        let text = self.modules.get(&id)?;
        Some(RamBundleModule {
            id,
            text: text.as_slice(),
        })
    }

    /// Returns the module with the smallest number that is not below `from`, or `None` if there is
    /// no such module.
    pub(crate) fn module_from(&self, from: usize) -> Option<RamBundleModule<'_>>
        ensures found { IfSome result (λ found. (from ≤ found.id) × (file_module (files_value self.now) found.id ≡ Some (module_value found))) }
        ensures least { (id : ℕ) → from ≤ id → IfSome result (λ found. id < found.id) → file_module (files_value self.now) id ≡ None }
    {
        let (id, text) = self.modules.range(from..).next()?;
        Some(RamBundleModule {
            id: *id,
            text: text.as_slice(),
        })
    }

    /// Adds a module, which replaces an earlier module with the same number. The only error is
    /// `OutOfMemory`.
    #[tactic(auto, using(crate::proofs::FolderLemmas::entries_insert))]
    fn add(&mut self, id: usize, text: Vec<u8>) -> Result<()>
        requires { id + 1 < 2 ^ 64 }
        ensures added { OnOk result (files_value self.new ≡ with_file (files_value self.old) (id, text.items)) }
        ensures memory { IsOkUnless result OutOfMemory }
    {
        self.modules.insert(id, text)?;
        self.module_count = self.module_count.max(id + 1);
        Ok(())
    }

    pub(crate) fn clone(&self) -> Result<Self>
        ensures { Gives files_value result (Ok (files_value self.now)) }
    {
        let startup_code = self.startup_code.clone()?;
        let modules = self.modules.clone()?;
        Ok(UnbundleRamBundle {
            startup_code,
            module_count: self.module_count,
            modules,
        })
    }
}

/// Whether `path` is the startup code of a file bundle. The result is true if `path` is a file, and
/// `js-modules/UNBUNDLE` in the same folder is a file that begins with the magic number of indexed
/// bundles. The only error is `OutOfMemory`. For any other failure, the result is false.
pub fn is_unbundle_path<F: Files>(rt: &F, alloc: Global, path: &str) -> Result<bool>
    ensures { IsOkUnless result OutOfMemory }
{
    if !is_file(rt, path)? {
        return Ok(false);
    }
    let marker = modules_folder(alloc, path)?.join(alloc, MARKER)?;
    let marker = marker.as_path();
    Ok(is_file(rt, marker.as_str())? && begins_with_magic(rt, marker.as_str())?)
}

/// Returns the path of `js-modules` in the parent folder of `path`. The only error is
/// `OutOfMemory`.
fn modules_folder(alloc: Global, path: &str) -> Result<PathBuf>
    ensures { IsOkUnless result OutOfMemory }
{
    let beside = Path::new(path).parent().unwrap_or(Path::new(""));
    Ok(beside.join(alloc, "js-modules")?)
}

fn is_file<F: Files>(rt: &F, path: &str) -> Result<bool>
    ensures { IsOkUnless result OutOfMemory }
{
    match fs::metadata(rt, path) {
        Ok(metadata) => Ok(metadata.is_file()),
        Err(cause) => false_unless_memory(cause),
    }
}

fn begins_with_magic<F: Files>(rt: &F, path: &str) -> Result<bool>
    ensures { IsOkUnless result OutOfMemory }
{
    let mut file = match fs::open(rt, path) {
        Ok(file) => file,
        Err(cause) => return false_unless_memory(cause),
    };
    let mut magic = [0u8; 4];
    match file.read_exact(&mut magic) {
        Ok(()) => Ok(magic == RAM_BUNDLE_MAGIC.to_le_bytes()),
        Err(cause) => false_unless_memory(cause),
    }
}

/// Returns the error `OutOfMemory` if the kind of `cause` is `OutOfMemory`. Returns false for any
/// other kind.
fn false_unless_memory(cause: io::Error) -> Result<bool>
    ensures { IsOkUnless result OutOfMemory }
{
    if cause.kind() == io::ErrorKind::OutOfMemory {
        return Err(Error::OutOfMemory);
    }
    Ok(false)
}

/// Returns the names of the plain files in a folder, sorted by the bytes of the names. `UNBUNDLE`
/// is left out, and a link is not a plain file. The error is `OutOfMemory` if memory ran out, or
/// `Io` if the folder cannot be read for another reason.
fn file_names<F: Files>(rt: &F, alloc: Global, folder: Path<'_>) -> Result<Vec<String>>
    ensures sorted { IfOk result (λ names. IsSorted string_cmp names.items) }
    ensures refused { IfErr result IsFileError }
{
    let mut names = Vec::new(alloc);
    for entry in fs::read_dir(&(rt, alloc), folder)? {
        let entry = entry?;
        if entry.file_type()?.is_file() && entry.file_name() != MARKER {
            names.push(String::from_str(alloc, entry.file_name())?)?;
        }
    }
    names.sort()?;
    Ok(names)
}

/// Reads the modules from the files with these names. If two files have the same number, the file
/// whose name is later in `names` is kept.
fn read_modules<F: Files>(
    rt: &F,
    alloc: Global,
    folder: Path<'_>,
    startup_code: Vec<u8>,
    names: &[String],
) -> Result<UnbundleRamBundle>
    ensures files { IfOk result (λ bundle. IsReadBy (map string_bytes names.now) startup_code.items (files_value bundle)) }
    ensures refused { IfErr result IsFileError }
{
    let mut bundle = UnbundleRamBundle {
        startup_code,
        module_count: 1,
        modules: BTreeMap::new(alloc),
    };
    for name in names {
        let id = module_number(name.as_str())?;
        let text = fs::read(&(rt, alloc), folder.join(alloc, name.as_str())?)?;
        bundle.add(id, text)?;
    }
    Ok(bundle)
}

/// Returns the number of the module whose file has this name: ASCII digits and `.js`. The error is
/// `InvalidRamBundleIndex` for any other name, or if the number is not below `usize::MAX`.
fn module_number(name: &str) -> Result<usize>
    ensures number { IfOk result (λ id. IsNumbered name.now id) }
    ensures refused { IfErr result (λ e. (e ≡ InvalidRamBundleIndex) × ((id : ℕ) → ¬ IsNumbered name.now id)) }
{
    let digits = name
        .strip_suffix(".js")
        .ok_or(Error::InvalidRamBundleIndex)?;
    number_with_successor(digits).ok_or(Error::InvalidRamBundleIndex)
}

/// Returns the number that the digits denote. Returns `None` if the text is not ASCII digits, or if
/// the number is not below `usize::MAX`.
fn number_with_successor(digits: &str) -> Option<usize>
    ensures { SomeIff result (IsNumeral 10 digits.now × (digits_value 10 digits.now + 1 < 2 ^ 64)) (digits_value 10 digits.now) }
{
    if digits.starts_with('+') {
        return None;
    }
    match digits.parse::<usize>() {
        Ok(id) if id < usize::MAX => Some(id),
        _ => None,
    }
}
