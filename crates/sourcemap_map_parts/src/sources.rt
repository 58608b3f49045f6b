//! The sources of a map and its `sourceRoot`.
ghost use Rattle.std.specs.Prelude.{◌≡◌, ◌<◌, ◌≤◌, Ok, None, map, length, slice_get, slice_set, vec_len, option_map};
ghost use Rattle.std.specs.Prelude.{unwrap_or, string_bytes, OnOk, OnErr, IsOkUnless, Vec, String};
ghost use Rattle.std.specs.Bool.{Decides};
ghost use Rattle.std.specs.Cmp.{partial_equiv_from_equiv};
ghost use Rattle.std.specs.Option.{option_copied, ForSome};
ghost use Rattle.std.specs.declared.alloc.Global.{Global};
ghost use Rattle.sourcemap_errors.specs.Answer.{Gives, Changes};
ghost use Rattle.sourcemap_errors.specs.declared.errors.Error.TheVariants.{OutOfMemory};
ghost use Rattle.sourcemap_texts.specs.Texts.{texts_of};
ghost use Rattle.sourcemap_map_parts.specs.Sources.{is_absolute_source, without_slash, resolved_against};
ghost use Rattle.sourcemap_map_parts.specs.Sources.{resolved_texts, same_sources, same_sources_equiv};

use crate::text_lists::{
    copy_optional_texts, copy_string, copy_texts, same_optional_texts, same_texts,
};
use sourcemap_errors::errors::Result;
use sourcemap_texts::copies::text_or_empty;
use std::alloc::Global;
use std::marker::Model;

/// Sources, indexed by id, and the `sourceRoot` against which they are resolved. There are at most
/// 4294967295 sources, so no source has the id 4294967295.
#[derive(Debug)]
pub struct Sources {
    root: Option<String>,
    texts: Vec<String>,
    // The sources resolved against the root. If this is `None`, resolving changes no source.
    resolved: Option<Vec<String>>,
}

impl Model for Sources {
    ghost use Rattle.sourcemap_map_parts.specs.Sources.{SourcesValue};

    ghost Value = { SourcesValue };

    ghost use Rattle.sourcemap_map_parts.specs.SourcesStored.{sources_in, AreStored};

    ghost view = { sources_in };

    ghost invariant = { AreStored };
}

// prover: one drop
impl Drop for Sources {
    fn drop(self) {
        let Sources {
            root: _,
            texts: _,
            resolved: _,
        } = self;
    }
}

impl Sources {
    /// Sources without a root. Allocates nothing.
    pub fn new(texts: Vec<String>) -> Sources
        requires { vec_len texts ≤ 4294967295 }
        ensures { result ≡ record { root = None; texts = texts_of texts } }
    {
        Sources {
            root: None,
            texts,
            resolved: None,
        }
    }

    /// Sources with this root. The only error is `OutOfMemory`.
    pub fn with_root(alloc: Global, texts: Vec<String>, root: Option<String>) -> Result<Sources>
        requires { vec_len texts ≤ 4294967295 }
        ensures { Gives (λ s. s) result
            (Ok (record { root = option_map string_bytes root; texts = texts_of texts })) }
    {
        let resolved = resolve_if_rooted(alloc, text_or_empty(&root), &texts)?;
        Ok(Sources {
            root,
            texts,
            resolved,
        })
    }

    /// Replaces the root and resolves all sources against the new root. A resolved source is the
    /// root, then `/`, then the source. If the root ends with `/`, resolving leaves out this last
    /// `/` of the root. A source that starts with `/`, `http:` or `https:` is absolute, and no root
    /// changes it. An empty root or `None` changes no source. The only error is `OutOfMemory`, and
    /// then nothing changes.
    pub fn set_root(&mut self, root: Option<String>) -> Result<()>
        ensures { Changes result self.old self.new
            (record self.old { root = option_map string_bytes root }) }
    {
        let alloc = *self.texts.allocator();
        let resolved = resolve_if_rooted(alloc, text_or_empty(&root), &self.texts)?;
        self.resolved = resolved;
        self.root = root;
        Ok(())
    }

    /// The root, or `None` if there is no root. An empty root is returned as an empty text.
    pub fn root(&self) -> Option<&str>
        ensures { option_copied result ≡ self.now.root }
    {
        match &self.root {
            None => None,
            Some(root) => Some(root.as_str()),
        }
    }

    /// The number of sources.
    pub fn len(&self) -> u32
        ensures { result ≡ length self.now.texts }
    {
        self.texts.len() as u32
    }

    /// The source with this id, resolved against the root, or `None` if no source has this id.
    pub fn get(&self, id: u32) -> Option<&str>
        ensures { option_copied result ≡ slice_get (resolved_texts self.now) id }
    {
        match self.resolved().get(id as usize) {
            Some(source) => Some(source.as_str()),
            None => None,
        }
    }

    /// All sources, not resolved against the root.
    pub fn unresolved(&self) -> &[String]
        ensures texts { map string_bytes result.now ≡ self.now.texts }
        ensures few { length result.now ≤ 4294967295 }
    {
        self.texts.as_slice()
    }

    /// All sources, resolved against the root.
    pub fn resolved(&self) -> &[String]
        ensures texts { map string_bytes result.now ≡ resolved_texts self.now }
        ensures few { length result.now ≤ 4294967295 }
    {
        match &self.resolved {
            Some(texts) => texts.as_slice(),
            None => self.texts.as_slice(),
        }
    }

    /// Stores `text` as the unresolved source with this id, and drops the old text. The resolved
    /// source with this id is then `text`, resolved against the root. There must be a source with
    /// this id. The only error is `OutOfMemory`, and then nothing changes.
    pub fn set(&mut self, id: u32, text: &str) -> Result<()>
        requires { id < length self.old.texts }
        ensures { Changes result self.old self.new (record self.old {
          texts = slice_set self.old.texts id text.now;
        }) }
    {
        let alloc = *self.texts.allocator();
        let own = String::from_str(alloc, text)?;
        let root = text_or_empty(&self.root);
        let texts = self.texts.as_slice();
        update_resolved(alloc, &mut self.resolved, root, texts, id as usize, text)?;
        put_text(&mut self.texts, id as usize, own);
        Ok(())
    }

    /// The unresolved sources and the resolved sources. If the second list is `None`, resolving
    /// changes no source.
    pub fn into_lists(self) -> (Vec<String>, Option<Vec<String>>)
        ensures given { texts_of result.0 ≡ self.texts }
        ensures resolved { texts_of (unwrap_or result.1 result.0) ≡ resolved_texts self }
        ensures few_given { vec_len result.0 ≤ 4294967295 }
        ensures few_resolved { vec_len (unwrap_or result.1 result.0) ≤ 4294967295 }
    {
        let Sources {
            root: _root,
            texts,
            resolved,
        } = self;
        (texts, resolved)
    }

    /// The root, and the unresolved sources.
    pub fn into_unresolved(self) -> (Option<String>, Vec<String>)
        ensures root { option_map string_bytes result.0 ≡ self.root }
        ensures texts { texts_of result.1 ≡ self.texts }
        ensures few { vec_len result.1 ≤ 4294967295 }
    {
        let Sources {
            root,
            texts,
            resolved: _resolved,
        } = self;
        (root, texts)
    }

    /// Copies the sources and the root. The only error is `OutOfMemory`.
    pub fn clone(&self) -> Result<Sources>
        ensures { Gives (λ s. s) result (Ok self.now) }
    {
        let alloc = *self.texts.allocator();
        let root = copy_string(alloc, &self.root)?;
        let texts = copy_texts(alloc, self.texts.as_slice())?;
        let resolved = copy_optional_texts(alloc, &self.resolved)?;
        Ok(Sources {
            root,
            texts,
            resolved,
        })
    }

    /// The allocator of the list of unresolved sources.
    pub fn allocator(&self) -> Global {
        *self.texts.allocator()
    }
}

fn are_same(a: &Sources, b: &Sources) -> bool
    ensures { result ≡ same_sources a.now b.now }
{
    let root = same_optional_texts(&a.root, &b.root);
    let texts = same_texts(&a.texts, &b.texts);
    // prover: `&` leaves one goal
    root & texts
}

/// Two values are equal exactly if their roots are equal and their unresolved sources are equal.
impl PartialEq for Sources {
    ghost eq = { same_sources };

    ghost laws = { partial_equiv_from_equiv same_sources_equiv };

    fn eq(&self, other: &Self) -> bool
        ensures value { result ≡ same_sources self.now other.now }
        ensures same { Decides result (self.now ≡ other.now) }
    {
        are_same(self, other)
    }
}

// Whether `source` is absolute. No root changes an absolute source.
fn is_absolute_source(source: &str) -> bool
    ensures { result ≡ is_absolute_source source.now }
{
    let rooted = source.starts_with("/");
    let plain = source.starts_with("http:");
    let secure = source.starts_with("https:");
    rooted | plain | secure
}

fn without_slash(text: &str) -> &str
    ensures { result.now ≡ without_slash text.now }
{
    match text.strip_suffix("/") {
        Some(start) => start,
        None => text,
    }
}

fn resolve(alloc: Global, root: &str, source: &str) -> Result<String>
    ensures { Gives string_bytes result (Ok (resolved_against root.now source.now)) }
{
    let stays = root.is_empty() | is_absolute_source(source);
    if stays {
        return Ok(String::from_str(alloc, source)?);
    }
    let start = without_slash(root);
    let mut text = String::with_capacity(alloc, start.len() + 1 + source.len())?;
    text.push_str(start)?;
    text.push_str("/")?;
    text.push_str(source)?;
    Ok(text)
}

fn resolve_all(alloc: Global, root: &str, sources: &[String]) -> Result<Vec<String>>
    ensures { Gives texts_of result
        (Ok (map (resolved_against root.now) (map string_bytes sources.now))) }
{
    let mut all = Vec::with_capacity(alloc, sources.len())?;
    for source in sources {
        all.push(resolve(alloc, root, source.as_str())?)?;
    }
    Ok(all)
}

// The resolved sources, or `None` if the root is empty, since an empty root changes no source.
fn resolve_if_rooted(
    alloc: Global,
    root: &str,
    sources: &Vec<String>,
) -> Result<Option<Vec<String>>>
    ensures { Gives (λ resolved_list. texts_of (unwrap_or resolved_list sources.now)) result
        (Ok (map (resolved_against root.now) (texts_of sources.now))) }
{
    if root.is_empty() {
        return Ok(None);
    }
    Ok(Some(resolve_all(alloc, root, sources.as_slice())?))
}

fn put_text(texts: &mut Vec<String>, id: usize, text: String)
    requires { id < vec_len texts.old }
    ensures { texts_of texts.new ≡ slice_set (texts_of texts.old) id (string_bytes text) }
{
    texts[id] = text;
}

// Updates `resolved_list` for a change of one source: source `id` gets the new text `source`. The
// caller stores the new text after this call, so `sources` still contains the old text. `id` must
// be less than the length of `sources`. If `resolved_list` is not `None`, the list must contain all
// `sources`, resolved against `root`. In this case, the call replaces item `id` by the resolved new
// text. If `resolved_list` is `None` and `root` is empty, the call changes nothing, since an empty
// root changes no source. If `resolved_list` is `None` and `root` is not empty, `root` may change
// the new text. So the call creates the list of all resolved sources, with the resolved new text as
// item `id`. The only error is `OutOfMemory`, and then `resolved_list` is unchanged.
fn update_resolved(
    alloc: Global,
    resolved_list: &mut Option<Vec<String>>,
    root: &str,
    sources: &[String],
    id: usize,
    source: &str,
) -> Result<()>
    requires within { id < length sources.now }
    requires resolved { ForSome resolved_list.old (λ texts. texts_of texts
        ≡ map (resolved_against root.now) (map string_bytes sources.now)) }
    ensures ok { OnOk result ((changed : Vec (String Global) Global)
        → texts_of changed ≡ slice_set (map string_bytes sources.now) id source.now
        → texts_of (unwrap_or resolved_list.new changed) ≡ map (resolved_against root.now) (texts_of changed)) }
    ensures err { OnErr result (resolved_list.new ≡ resolved_list.old) }
    ensures memory { IsOkUnless result OutOfMemory }
{
    // prover: `&` leaves one goal
    if root.is_empty() & resolved_list.is_none() {
        return Ok(());
    }
    let text = resolve(alloc, root, source)?;
    match resolved_list {
        Some(texts) => put_text(texts, id, text),
        None => {
            let mut texts = resolve_all(alloc, root, sources)?;
            put_text(&mut texts, id, text);
            *resolved_list = Some(texts);
        }
    }
    Ok(())
}
