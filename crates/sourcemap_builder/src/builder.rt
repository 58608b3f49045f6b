//! Builds a map token by token.
ghost use Rattle.std.specs.Prelude.{◌≡◌, ◌≤◌, ◌<◌, ◌⊎◌, ℕ, [], ◌∷◌, ◌++◌, Ok, length, slice_get, slice_set, map, List};
ghost use Rattle.std.specs.Prelude.{Option, option_map, string_bytes, unwrap_or, vec_len, None, IsSome, IsSomeAnd};
ghost use Rattle.std.specs.Prelude.{IfErr, IfOk, IsOkUnless, OnOk, OnErr, is_some};
ghost use Rattle.std.specs.Option.{option_copied};
ghost use Rattle.sourcemap_errors.specs.Answer.{Gives, Changes};
ghost use Rattle.sourcemap_interning.specs.Interner.{id_for};
ghost use Rattle.sourcemap_tokens.specs.Items.{item_at};
ghost use Rattle.sourcemap_tokens.specs.Tokens.{no_id, AllWithin};
ghost use Rattle.sourcemap_texts.specs.Prefixes.{without_prefix};
ghost use Rattle.sourcemap_texts.specs.Texts.{contents_in, texts_of};
ghost use Rattle.sourcemap_map_parts.specs.Contents.{fitted};
ghost use Rattle.sourcemap_map_regular.specs.Map.{contents_of, IsWellFormed};
ghost use Rattle.sourcemap_map_regular.specs.Token.{meaning_of_token, token_value};
ghost use Rattle.sourcemap_errors.specs.declared.errors.Error.TheVariants.{OutOfMemory};
ghost use Rattle.sourcemap_source_files.specs.Loading.{folder_of, newly, Fills, IsNoFolder};
ghost use Rattle.sourcemap_builder.specs.Builder.{with_changes, name_if, id_if};

use sourcemap_errors::errors::Result;
use sourcemap_headers::debug_id::DebugId;
use sourcemap_interning::interner::Interner;
use sourcemap_line_index::token_list::TokenList;
use sourcemap_map_parts::contents::Contents;
use sourcemap_map_parts::fitting::{fit, put};
use sourcemap_map_parts::metadata::MapMetadata;
use sourcemap_map_parts::sources::Sources;
use sourcemap_map_regular::map::SourceMap;
use sourcemap_map_regular::token::Token;
use sourcemap_source_files::loading::{check_folder, load_contents};
use sourcemap_source_views::sourceview::SourceView;
use sourcemap_texts::copies::copy_text;
use sourcemap_texts::prefixes::strip_text;
use sourcemap_tokens::tokens::{NO_ID, RawToken};
use std::alloc::Global;
use std::convert::AsStr;
use std::marker::Model;
use std::mem;
use std::rt::Files;

/// Builds a map token by token. Sources and names are interned: a text that is added again keeps
/// its id. Ids count from 0 in the order in which the texts were first added. An error leaves the
/// builder unchanged, except where a method says otherwise.
pub struct SourceMapBuilder {
    metadata: MapMetadata,
    root: Option<String>,
    tokens: Vec<RawToken>,
    names: Interner,
    // The sources as they were added. `add_source` looks up ids in this list.
    interned: Interner,
    // By id, the text that replaces a source, or `None` if the source was not replaced. The list is
    // not longer than the list of sources.
    changed: Vec<Option<String>>,
    contents: Contents,
}

impl Model for SourceMapBuilder {
    ghost use Rattle.sourcemap_builder.specs.Builder.{BuilderValue};

    ghost Value = { BuilderValue };

    ghost use Rattle.sourcemap_builder.specs.BuilderStored.{builder_value, HasFewChanges};

    ghost view = { builder_value };

    ghost invariant = { HasFewChanges };
}

// prover: one drop
impl Drop for SourceMapBuilder {
    fn drop(self) {
        let SourceMapBuilder {
            metadata: _,
            root: _,
            tokens: _,
            names: _,
            interned: _,
            changed: _,
            contents: _,
        } = self;
    }
}

impl SourceMapBuilder {
    ghost use Rattle.std.specs.BTreeSet.{insert_key};
    ghost use Rattle.std.specs.Ordering.{nat_cmp};
    ghost use Rattle.sourcemap_builder.specs.Builder.{empty_builder, with_source, with_name, with_source_if};
    ghost use Rattle.sourcemap_builder.specs.Builder.{with_name_if, with_texts, with_token, token_without_ids};
    ghost use Rattle.sourcemap_builder.specs.Builder.{token_with_ids, built, IsOptionalId, HasSource, Loads};

    /// An empty builder with the name of the generated file. The only error is `OutOfMemory`.
    pub fn new(alloc: Global, file: Option<&str>) -> Result<Self>
        ensures { Gives (λ b. b) result (Ok (empty_builder (option_copied file.entry))) }
    {
        Ok(SourceMapBuilder {
            metadata: MapMetadata::new(alloc, copy_text(alloc, file)?),
            root: None,
            tokens: Vec::new(alloc),
            names: Interner::new(alloc),
            interned: Interner::new(alloc),
            changed: Vec::new(alloc),
            contents: Contents::new(alloc),
        })
    }

    /// Sets or clears the debug id, which associates the map with its generated file.
    pub fn set_debug_id(&mut self, debug_id: Option<DebugId>)
        ensures { self.new ≡ record self.old { debug_id = debug_id } }
    {
        self.metadata.set_debug_id(debug_id);
    }

    /// Sets or clears the name of the generated file. The only error is `OutOfMemory`.
    pub fn set_file(&mut self, file: Option<&str>) -> Result<()>
        ensures { Changes result self.old self.new
            (record self.old { file = option_copied file.entry }) }
    {
        let alloc = *self.tokens.allocator();
        self.metadata.set_file(alloc, file)?;
        Ok(())
    }

    /// The name of the generated file.
    pub fn get_file(&self) -> Option<&str>
        ensures { option_copied result ≡ self.now.file }
    {
        self.metadata.file()
    }

    /// Sets or clears the root, `sourceRoot`, of the map. The only error is `OutOfMemory`.
    pub fn set_source_root(&mut self, root: Option<&str>) -> Result<()>
        ensures { Changes result self.old self.new
            (record self.old { root = option_copied root.entry }) }
    {
        let alloc = *self.tokens.allocator();
        self.root = copy_text(alloc, root)?;
        Ok(())
    }

    /// The root, `sourceRoot`, of the map.
    pub fn get_source_root(&self) -> Option<&str>
        ensures { option_copied result ≡ self.now.root }
    {
        match &self.root {
            None => None,
            Some(root) => Some(root.as_str()),
        }
    }

    /// Adds a source if no equal one was added before, and returns its id. The errors are
    /// `IncompatibleSourceMap` if there are 4294967295 other sources, and `OutOfMemory`.
    pub fn add_source(&mut self, source: &str) -> Result<u32>
        ensures id { Gives (λ id. id) result (id_for self.old.interned source.now) }
        ensures ok { OnOk result (self.new ≡ with_source self.old source.now) }
        ensures err { OnErr result (self.new ≡ self.old) }
        ensures in_range { IfOk result (λ id. id < length self.new.sources) }
    {
        self.interned.add(source)
    }

    /// Adds a name if it was not added before, and returns its id. The errors are
    /// `IncompatibleSourceMap` if there are 4294967295 other names, and `OutOfMemory`.
    pub fn add_name(&mut self, name: &str) -> Result<u32>
        ensures id { Gives (λ id. id) result (id_for self.old.names name.now) }
        ensures ok { OnOk result (self.new ≡ with_name self.old name.now) }
        ensures err { OnErr result (self.new ≡ self.old) }
        ensures in_range { IfOk result (λ id. id < length self.new.names) }
    {
        self.names.add(name)
    }

    /// Changes the source with the id `id` to `source`. The builder must have a source with this
    /// id. `add_source` still returns this id for the text with which the source was added. The
    /// only error is `OutOfMemory`.
    pub fn set_source(&mut self, id: u32, source: &str) -> Result<()>
        requires { id < length self.old.sources }
        ensures { Changes result self.old self.new
            (record self.old { sources = slice_set self.old.sources id source.now }) }
    {
        let alloc = *self.tokens.allocator();
        let source = String::from_str(alloc, source)?;
        let count = self.interned.len() as usize;
        put(&mut self.changed, count, id as usize, Some(source))?;
        Ok(())
    }

    /// Strips from each source the first of `prefixes` that the source starts with. A prefix that
    /// does not end with `/` is used with a `/` appended: `a` turns `a/b` into `b`, and does not
    /// match `ab`. `~` has no special meaning. For the text with which a source was added,
    /// `add_source` still returns the id of the source. The only error is `OutOfMemory`.
    pub fn strip_prefixes<S: AsStr>(&mut self, prefixes: &[S]) -> Result<()>
        ensures { Changes result self.old self.new (record self.old {
          sources = map (without_prefix (map S.text prefixes.now)) self.old.sources;
        }) }
    {
        let alloc = *self.tokens.allocator();
        let changed = cut_texts(alloc, &self.interned, self.changed.as_slice(), prefixes)?;
        self.changed = changed;
        Ok(())
    }

    /// The source with this id, without the root; `None` if no source has this id.
    pub fn get_source(&self, id: u32) -> Option<&str>
        ensures { option_copied result ≡ slice_get self.now.sources id }
    {
        match text_at(self.changed.as_slice(), id as usize) {
            Some(source) => Some(source),
            None => self.interned.get(id),
        }
    }

    /// Adds a source id to the ignore list, even if no source has this id. The only error is
    /// `OutOfMemory`.
    pub fn add_to_ignore_list(&mut self, id: u32) -> Result<()>
        ensures { Changes result self.old self.new
            (record self.old { ignored = insert_key nat_cmp self.old.ignored id }) }
    {
        self.metadata.ignore(id)?;
        Ok(())
    }

    /// Sets or clears the contents of the source with this id. There must be a source with this id.
    /// On success, the list of contents has one item for each source. The only error is
    /// `OutOfMemory`.
    pub fn set_source_contents(&mut self, id: u32, contents: Option<&str>) -> Result<()>
        requires { id < length self.old.sources }
        ensures { Changes result self.old self.new (record self.old {
          contents = slice_set (fitted (length self.old.sources) self.old.contents) id
              (option_copied contents.entry);
        }) }
    {
        let count = self.interned.len();
        self.contents.set(count, id, contents)?;
        Ok(())
    }

    /// The contents of the source with this id, if it has contents.
    pub fn get_source_contents(&self, id: u32) -> Option<&str>
        ensures { option_copied result ≡ contents_of (built self.now) id }
    {
        match self.contents.get(id) {
            None => None,
            Some(view) => Some(view.source()),
        }
    }

    /// Whether the source with this id has contents.
    pub fn has_source_contents(&self, id: u32) -> bool
        ensures { result ≡ is_some (contents_of (built self.now) id) }
    {
        self.get_source_contents(id).is_some()
    }

    /// For each source without contents, reads its contents from a file. Returns the number of
    /// sources that got contents. The text with which the source was added is resolved as a URL
    /// reference against the `file` URL of the folder `base_path`. The path of the resolved URL,
    /// with escapes decoded, is the path of the file: `a%20b.js?c` is the file `a b.js` in the
    /// folder. A `base_path` that is not absolute is joined to `current_dir`. Without a `base_path`
    /// the folder is `current_dir`. `sourceRoot` is not used. A source is skipped if it does not
    /// resolve to the path of a file, or if its file does not exist, is not a regular file, cannot
    /// be read or is not UTF-8. A source may also be skipped if the URL of the folder, before `..`
    /// is resolved, and the source together have 2^28 bytes or more. On success, the list of
    /// contents has one item for each source.
    ///
    /// The error is `Io` of kind `InvalidInput` if neither `base_path` nor `current_dir` is
    /// absolute. Then the builder is unchanged. Any other error is `OutOfMemory`. Then contents
    /// that were read before the error are kept.
    pub fn load_local_source_contents<F: Files>(
        &mut self,
        rt: &F,
        current_dir: &str,
        base_path: Option<&str>,
    ) -> Result<usize>
        ensures rest { record self.new { contents = self.old.contents } ≡ self.old }
        ensures loads { OnOk result
            (IsSomeAnd (folder_of current_dir.now (option_copied base_path.entry)) (λ folder.
            Loads folder self.old self.new)) }
        ensures count { IfOk result (λ n.
            n ≡ newly (length self.old.sources) self.old.contents self.new.contents) }
        ensures err { IfErr result (λ e. ((e ≡ OutOfMemory) × ((self.new ≡ self.old)
            ⊎ IsSomeAnd (folder_of current_dir.now (option_copied base_path.entry)) (λ folder.
            Loads folder self.old self.new)))
            ⊎ (IsNoFolder e × (self.new ≡ self.old)
            × (folder_of current_dir.now (option_copied base_path.entry) ≡ None))) }
    {
        check_folder(current_dir, base_path)?;
        let alloc = *self.tokens.allocator();
        let contents = mem::replace(&mut self.contents, Contents::new(alloc));
        let mut views = contents.into_views();
        let sources = self.interned.as_slice();
        let loaded = load_fitted(rt, alloc, current_dir, base_path, sources, &mut views);
        self.contents = Contents::of_views(views);
        loaded
    }

    /// Adds a token with these ids, and returns the token. An id is accepted even if no source or
    /// name has this id. `None` becomes [`NO_ID`]. The only error is `OutOfMemory`.
    pub fn add_raw(
        &mut self,
        dst_line: u32,
        dst_col: u32,
        src_line: u32,
        src_col: u32,
        source: Option<u32>,
        name: Option<u32>,
        is_range: bool,
    ) -> Result<RawToken>
        ensures token { Gives (λ token. token) result (Ok (record {
          dst_line = dst_line;
          dst_col = dst_col;
          src_line = src_line;
          src_col = src_col;
          src_id = unwrap_or source no_id;
          name_id = unwrap_or name no_id;
          is_range = is_range;
        })) }
        ensures ok { IfOk result (λ token. self.new ≡ with_token self.old token) }
        ensures err { OnErr result (self.new ≡ self.old) }
    {
        let token = RawToken {
            dst_line,
            dst_col,
            src_line,
            src_col,
            src_id: source.unwrap_or(NO_ID),
            name_id: name.unwrap_or(NO_ID),
            is_range,
        };
        self.tokens.push(token)?;
        Ok(token)
    }

    /// Adds a token, and its source and its name if they are new, and returns the token. If the
    /// source or the name is `None`, the token's id for it is [`NO_ID`]. The errors are those of
    /// `add_source` and `add_name`. An error leaves the tokens unchanged, but the source and the
    /// name may have been added.
    pub fn add(
        &mut self,
        dst_line: u32,
        dst_col: u32,
        src_line: u32,
        src_col: u32,
        source: Option<&str>,
        name: Option<&str>,
        is_range: bool,
    ) -> Result<RawToken>
        ensures token { Gives (λ token. token) result (token_with_ids
            (token_without_ids dst_line dst_col src_line src_col is_range)
            (id_if self.old.interned (option_copied source.entry))
            (id_if self.old.names (option_copied name.entry))) }
        ensures ok { IfOk result (λ token. self.new ≡ with_token
            (with_texts self.old (option_copied source.entry) (option_copied name.entry)) token) }
        ensures err { OnErr result ((self.new ≡ self.old)
            ⊎ (self.new ≡ with_source_if self.old (option_copied source.entry))
            ⊎ (self.new
            ≡ with_texts self.old (option_copied source.entry) (option_copied name.entry))) }
        ensures in_range { IfOk result
            (HasSource self.new.sources (option_copied source.entry)) }
    {
        let source = self.id_of_source(source)?;
        let name = self.id_of_name(name)?;
        self.add_raw(
            dst_line,
            dst_col,
            src_line,
            src_col,
            Some(source),
            Some(name),
            is_range,
        )
    }

    /// Copies a token of a map: adds a token with the positions, the source and the name that the
    /// getters of `token` return, and returns the new token. It is a range token if `token` is one.
    /// Its source id and name id are those of this builder. The name is copied only if `with_name`
    /// is true. The errors are those of `add`. An error leaves the tokens unchanged, but the source
    /// and the name may have been added.
    pub fn add_token(&mut self, token: &Token<'_>, with_name: bool) -> Result<RawToken>
        ensures token { Gives (λ added. added) result (token_with_ids
            (token_without_ids (token_value token.now).raw.dst_line (token_value token.now).raw.dst_col
            (meaning_of_token token.now).line (meaning_of_token token.now).column (meaning_of_token token.now).is_range)
            (id_if self.old.interned (meaning_of_token token.now).source)
            (id_if self.old.names (name_if with_name (meaning_of_token token.now)))) }
        ensures ok { IfOk result (λ added. self.new ≡ with_token
            (with_texts self.old (meaning_of_token token.now).source (name_if with_name (meaning_of_token token.now)))
            added) }
        ensures err { OnErr result ((self.new ≡ self.old)
            ⊎ (self.new ≡ with_source_if self.old (meaning_of_token token.now).source)
            ⊎ (self.new ≡ with_texts self.old (meaning_of_token token.now).source
            (name_if with_name (meaning_of_token token.now)))) }
        ensures in_range { IfOk result (HasSource self.new.sources (meaning_of_token token.now).source) }
    {
        self.add(
            token.get_dst_line(),
            token.get_dst_col(),
            token.get_src_line(),
            token.get_src_col(),
            token.get_source(),
            name_if(token, with_name),
            token.is_range(),
        )
    }

    fn id_of_source(&mut self, source: Option<&str>) -> Result<u32>
        ensures id { Gives (λ id. id) result
            (id_if self.old.interned (option_copied source.entry)) }
        ensures ok { OnOk result (self.new ≡ with_source_if self.old (option_copied source.entry)) }
        ensures err { OnErr result (self.new ≡ self.old) }
        ensures in_range { IfOk result
            (IsOptionalId self.new.sources (option_copied source.entry)) }
    {
        match source {
            None => Ok(NO_ID),
            Some(source) => self.add_source(source),
        }
    }

    fn id_of_name(&mut self, name: Option<&str>) -> Result<u32>
        ensures id { Gives (λ id. id) result (id_if self.old.names (option_copied name.entry)) }
        ensures ok { OnOk result (self.new ≡ with_name_if self.old (option_copied name.entry)) }
        ensures err { OnErr result (self.new ≡ self.old) }
    {
        match name {
            None => Ok(NO_ID),
            Some(name) => self.add_name(name),
        }
    }

    /// Returns the map, with tokens sorted stably by generated position. The only error is
    /// `OutOfMemory`.
    pub fn into_sourcemap(self) -> Result<SourceMap>
        ensures value { Gives (λ m. m) result (Ok (built self)) }
        ensures well_formed { AllWithin (length self.sources) (length self.names) self.tokens
            → IfOk result IsWellFormed }
    {
        let alloc = *self.tokens.allocator();
        // prover: there are at most 4294967295 names, and at most 4294967295 sources
        let _ = self.names.len();
        let _ = self.interned.len();
        let SourceMapBuilder {
            metadata,
            root,
            tokens,
            names,
            interned,
            changed,
            contents,
        } = self;
        let texts = apply_changes(interned.into_texts(), changed);
        let sources = Sources::with_root(alloc, texts, root)?;
        let tokens = TokenList::from_unsorted(tokens)?;
        Ok(SourceMap::of_parts(metadata, tokens, names.into_texts(), sources, contents))
    }
}

// Makes the list of contents as long as the list of sources, then loads contents from files.
fn load_fitted<F: Files>(
    rt: &F,
    alloc: Global,
    current_dir: &str,
    base_path: Option<&str>,
    sources: &[String],
    contents: &mut Vec<Option<SourceView>>,
) -> Result<usize>
    requires { IsSome (folder_of current_dir.now (option_copied base_path)) }
    ensures ok { OnOk result
        (IsSomeAnd (folder_of current_dir.now (option_copied base_path.entry)) (λ folder.
        Fills folder (map string_bytes sources.now)
        (fitted (length sources.now) contents.old.items) contents.new.items)) }
    ensures count { IfOk result (λ n. n ≡ newly (length sources.now)
        (fitted (length sources.now) contents.old.items) contents.new.items) }
    ensures err { OnErr result ((contents.new.items ≡ contents.old.items)
        ⊎ IsSomeAnd (folder_of current_dir.now (option_copied base_path.entry)) (λ folder.
        Fills folder (map string_bytes sources.now)
        (fitted (length sources.now) contents.old.items) contents.new.items)) }
    ensures memory { IsOkUnless result OutOfMemory }
    ensures few { (vec_len contents.new ≡ vec_len contents.old)
        ⊎ (vec_len contents.new ≡ length sources.now) }
{
    fit(contents, sources.len())?;
    load_contents(rt, alloc, current_dir, base_path, sources, contents)
}

fn name_if<'a>(token: &Token<'a>, with_name: bool) -> Option<&'a str>
    ensures { option_copied result ≡ name_if with_name (meaning_of_token token.now) }
{
    if with_name { token.get_name() } else { None }
}

fn text_at(texts: &[Option<String>], index: usize) -> Option<&str>
    ensures { option_copied result
        ≡ item_at (map (option_map string_bytes) texts.now) index }
{
    match texts.get(index) {
        Some(Some(text)) => Some(text.as_str()),
        _ => None,
    }
}

// Strips the first matching prefix from each source of a builder, as `strip_text` does. Returns the
// new list `changed`, with one item for each source. `current` is the old list `changed`, and
// `texts` are the sources as they were added. The only error is `OutOfMemory`.
fn cut_texts<S: AsStr>(
    alloc: Global,
    texts: &Interner,
    current: &[Option<String>],
    prefixes: &[S],
) -> Result<Vec<Option<String>>>
    ensures value { Gives (λ cut. with_changes (contents_in cut) texts.now) result
        (Ok (map (without_prefix (map S.text prefixes.now))
        (with_changes (map (option_map string_bytes) current.now) texts.now))) }
    ensures len { IfOk result (λ cut. vec_len cut ≡ length texts.now) }
{
    let count = texts.len();
    let mut cut = Vec::with_capacity(alloc, count as usize)?;
    for id in 0..count {
        let text = texts.get(id).unwrap();
        let current = text_at(current, id as usize);
        cut.push(strip_text(alloc, text, current, prefixes)?)?;
    }
    Ok(cut)
}

fn apply_changes(mut texts: Vec<String>, mut changed: Vec<Option<String>>) -> Vec<String>
    requires { vec_len changed ≤ vec_len texts }
    ensures value { texts_of result ≡ with_changes (contents_in changed) (texts_of texts) }
    ensures len { vec_len result ≡ vec_len texts }
{
    while let Some(text) = changed.pop() {
        replace_text(&mut texts, changed.len(), text);
    }
    texts
}

fn replace_text(texts: &mut Vec<String>, index: usize, text: Option<String>)
    requires { index < vec_len texts.old }
    ensures value { (changes : List (Option (List ℕ))) → length changes ≡ index
        → with_changes changes (texts_of texts.new)
        ≡ with_changes (changes ++ option_map string_bytes text ∷ []) (texts_of texts.old) }
    ensures len { vec_len texts.new ≡ vec_len texts.old }
{
    match text {
        None => {}
        Some(text) => texts[index] = text,
    }
}
