//! The relative path from one file to another.
ghost use Rattle.std.specs.Prelude.{◌≡◌, ◌<◌, ◌++◌, Ok, OnOk, IfErr, IfSome, MatchOption, [], ◌∷◌, length};
ghost use Rattle.std.specs.Prelude.{string_bytes, true};
ghost use Rattle.std.specs.List.{position_or_len, before_first, after_first, join_with_byte, list_all};
ghost use Rattle.sourcemap_errors.specs.Answer.{Gives};
ghost use Rattle.sourcemap_errors.specs.declared.errors.Error.TheVariants.{OutOfMemory};
ghost use Rattle.sourcemap_file_urls.specs.RelativePaths.{is_separator as separates, is_nonempty, parts, folder_parts};
ghost use Rattle.sourcemap_file_urls.specs.RelativePaths.{after_common, steps_up, relative_path, followed, is_plain};

use memchr::memchr2;
use sourcemap_errors::errors::Result;
use std::alloc::Global;

/// Returns the path of `target` relative to the folder of the file `base`. Both paths should be
/// absolute, or both relative, and no part of the folder should be `.` or `..`. Otherwise the
/// result may lead to another file.
///
/// Both paths are split at each `/` and `\`, and empty parts are ignored. `.` and `..` are parts
/// like any other. The parts with which the folder and `target` both start are left out. The result
/// is `../` for each other part of the folder, then the other parts of `target`. It is `.` if there
/// are no other parts. The only error is `OutOfMemory`.
pub fn make_relative_path(alloc: Global, base: &str, target: &str) -> Result<String>
    ensures { Gives string_bytes result (Ok (relative_path base.now target.now)) }
{
    let (above, below) = without_common(base, target);
    let mut path = String::new(alloc);
    push_steps(&mut path, above)?;
    push_joined(&mut path, below)?;
    if path.is_empty() {
        path.push_str(".")?;
    }
    Ok(path)
}

/// A law: let no part of `target` be `.` or `..`. Start with the parts of the folder of `base`, and
/// apply the parts of the relative path in order: `.` changes nothing, `..` drops the last part,
/// even if the dropped part is `.` or `..`, and any other part is appended. The result is the parts
/// of `target`. Whether a path starts with a separator does not count.
pub fn relative_paths_lead_to_their_targets(base: &str, target: &str)
    ensures { list_all is_plain (parts target.now) ≡ true
        → followed (folder_parts base.now) (parts (relative_path base.now target.now))
        ≡ parts target.now }
{}

// Appends `../` to `path` for each part of the folder of `base`.
fn push_steps(path: &mut String, base: &str) -> Result<()>
    ensures adds { OnOk result (string_bytes path.new
        ≡ string_bytes path.old ++ steps_up (folder_parts base.now)) }
    ensures refused { IfErr result (λ e. e ≡ OutOfMemory) }
{
    let mut rest = base;
    while let Some((_, later)) = next_folder(rest) {
        path.push_str("../")?;
        rest = later;
    }
    Ok(())
}

// Appends the parts of `target` to `path`, separated by `/`.
fn push_joined(path: &mut String, target: &str) -> Result<()>
    ensures adds { OnOk result (string_bytes path.new
        ≡ string_bytes path.old ++ join_with_byte 47 (parts target.now)) }
    ensures refused { IfErr result (λ e. e ≡ OutOfMemory) }
{
    let Some((first, mut rest)) = next_part(target) else {
        return Ok(());
    };
    path.push_str(first)?;
    while let Some((part, later)) = next_part(rest) {
        path.push_str("/")?;
        path.push_str(part)?;
        rest = later;
    }
    Ok(())
}

// Returns both paths without their common first parts. The last part of `base` is its file name,
// which never counts as common.
fn without_common<'a, 'b>(base: &'a str, target: &'b str) -> (&'a str, &'b str)
    ensures { (folder_parts result.0.now, parts result.1.now)
        ≡ after_common (folder_parts base.now) (parts target.now) }
{
    let mut rest = (base, target);
    while let Some(later) = after_common_part(rest.0, rest.1) {
        rest = later;
    }
    rest
}

// Both paths without their first parts. `None` if the first part of the folder of `base` is not the
// first part of `target`, or if the folder or `target` has no part.
fn after_common_part<'a, 'b>(base: &'a str, target: &'b str) -> Option<(&'a str, &'b str)>
    ensures common { MatchOption result
        (after_common (folder_parts base.now) (parts target.now)
        ≡ (folder_parts base.now, parts target.now))
        (λ p. after_common (folder_parts base.now) (parts target.now)
        ≡ after_common (folder_parts p.0.now) (parts p.1.now)) }
    ensures shorter { IfSome result (λ p. length p.0.now < length base.now) }
{
    let (folder, base_rest) = next_folder(base)?;
    let (part, target_rest) = next_part(target)?;
    if folder == part {
        Some((base_rest, target_rest))
    } else {
        None
    }
}

// The first part of the folder of a path, and the rest of the path. `None` if the folder has no
// part.
fn next_folder(path: &str) -> Option<(&str, &str)>
    ensures next { MatchOption result (folder_parts path.now ≡ [])
        (λ p. folder_parts path.now ≡ p.0.now ∷ folder_parts p.1.now) }
    ensures shorter { IfSome result (λ p. length p.1.now < length path.now) }
{
    let (folder, later) = next_part(path)?;
    next_part(later)?;
    Some((folder, later))
}

fn next_part(path: &str) -> Option<(&str, &str)>
    ensures next { MatchOption result (parts path.now ≡ [])
        (λ p. parts path.now ≡ p.0.now ∷ parts p.1.now) }
    ensures shorter { IfSome result (λ p. length p.1.now < length path.now) }
{
    let mut rest = path;
    while !rest.is_empty() {
        let (part, later) = split_first_part(rest);
        if !part.is_empty() {
            return Some((part, later));
        }
        rest = later;
    }
    None
}

fn split_first_part(path: &str) -> (&str, &str)
    ensures before { result.0.now ≡ before_first separates path.now }
    ensures after { result.1.now ≡ after_first separates path.now }
{
    let end = first_separator(path.as_bytes());
    if end == path.len() {
        return (path, "");
    }
    (&path[..end], &path[end + 1..])
}

#[tactic(auto, using(crate::proofs::RelativePathsLemmas::separator_found))]
fn first_separator(path: &[u8]) -> usize
    ensures { result ≡ position_or_len separates path.now }
{
    memchr2(b'/', b'\\', path).unwrap_or(path.len())
}
