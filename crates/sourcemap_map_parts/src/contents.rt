//! The contents of a map's sources, as views.
ghost use Rattle.std.specs.Prelude.{◌≡◌, ◌<◌, ◌≤◌, Ok, [], length, slice_set, vec_len, option_map, string_bytes};
ghost use Rattle.std.specs.Bool.{Decides};
ghost use Rattle.std.specs.Cmp.{partial_equiv_from_equiv};
ghost use Rattle.std.specs.Option.{option_copied};
ghost use Rattle.sourcemap_errors.specs.Answer.{Gives, Changes};
ghost use Rattle.sourcemap_texts.specs.Texts.{contents_in};
ghost use Rattle.sourcemap_tokens.specs.Items.{item_at};
ghost use Rattle.sourcemap_map_parts.specs.Contents.{fitted, same_contents, same_contents_equiv};

use crate::fitting::put;
use sourcemap_errors::errors::Result;
use sourcemap_source_views::sourceview::SourceView;
use sourcemap_tokens::items::item_at;
use std::alloc::Global;
use std::marker::Model;

/// The contents of sources, each as a `SourceView`, indexed by source id. A source without contents
/// has `None`. The list may be shorter or longer than the list of sources, and has at most
/// 4294967295 items. `of_texts` and `set` make a view of each text. `get` only borrows a view.
#[derive(Debug)]
pub struct Contents {
    views: Vec<Option<SourceView>>,
}

impl Model for Contents {
    ghost use Rattle.std.specs.Prelude.{◌≤◌, ℕ, List, Option, length};

    ghost Value = { List (Option (List ℕ)) };

    ghost view = { λ a. a.views.items };

    ghost invariant = { λ a. length a.views.items ≤ 4294967295 };
}

// prover: one drop
impl Drop for Contents {
    fn drop(self) {
        let Contents { views: _ } = self;
    }
}

impl Contents {
    /// No contents. Allocates nothing, and keeps `alloc` for later calls.
    pub fn new(alloc: Global) -> Contents
        ensures { result ≡ [] }
    {
        Contents {
            views: Vec::new(alloc),
        }
    }

    /// Makes a view of each text, without a copy. The only error is `OutOfMemory`.
    pub fn of_texts(alloc: Global, texts: Vec<Option<String>>) -> Result<Contents>
        requires { vec_len texts ≤ 4294967295 }
        ensures { Gives (λ c. c) result (Ok (contents_in texts)) }
    {
        let views = views_of(alloc, texts)?;
        Ok(Contents { views })
    }

    /// Makes a `Contents` that holds these views.
    pub fn of_views(views: Vec<Option<SourceView>>) -> Contents
        requires { vec_len views ≤ 4294967295 }
        ensures { result ≡ views.items }
    {
        Contents { views }
    }

    /// The contents of the source with this id, or `None` if the source has no contents.
    pub fn get(&self, id: u32) -> Option<&SourceView>
        ensures { option_copied result ≡ item_at self.now id }
    {
        item_at(&self.views, id as usize)
    }

    /// Sets or clears the contents of the source with this id. `count` is the number of sources.
    /// A list with more than `count` items is truncated. A list with fewer items is filled with
    /// `None` up to `count` items. The only error is `OutOfMemory`, and then nothing changes.
    pub fn set(&mut self, count: u32, id: u32, text: Option<&str>) -> Result<()>
        requires { id < count }
        ensures { Changes result self.old self.new
            (slice_set (fitted count self.old) id (option_copied text.entry)) }
    {
        let alloc = self.allocator();
        let view = view_if(alloc, text)?;
        put(&mut self.views, count as usize, id as usize, view)
    }

    /// The list, borrowed.
    pub fn as_slice(&self) -> &[Option<SourceView>]
        ensures views { result.now ≡ self.now }
        ensures few { length result.now ≤ 4294967295 }
    {
        self.views.as_slice()
    }

    /// The list, moved out.
    pub fn into_views(self) -> Vec<Option<SourceView>>
        ensures views { result.items ≡ self }
        ensures few { vec_len result ≤ 4294967295 }
    {
        let Contents { views } = self;
        views
    }

    /// Copies of the texts. The only error is `OutOfMemory`.
    pub fn texts(&self) -> Result<Vec<Option<String>>>
        ensures { Gives contents_in result (Ok self.now) }
    {
        copy_view_texts(self.allocator(), self.views.as_slice())
    }

    /// The texts, moved out of their views. The only error is `OutOfMemory`.
    pub fn into_texts(self) -> Result<Vec<Option<String>>>
        ensures { Gives contents_in result (Ok self) }
    {
        let alloc = self.allocator();
        let Contents { views } = self;
        texts_of_views(alloc, views)
    }

    /// Copies the views. The only error is `OutOfMemory`.
    pub fn clone(&self) -> Result<Contents>
        ensures { Gives (λ c. c) result (Ok self.now) }
    {
        let views = copy_views(self.allocator(), self.views.as_slice())?;
        Ok(Contents { views })
    }

    /// The allocator of the list.
    pub fn allocator(&self) -> Global {
        *self.views.allocator()
    }
}

// Makes a view and copies the text into it. Returns `None` if there is no text.
fn view_if(alloc: Global, text: Option<&str>) -> Result<Option<SourceView>>
    ensures { Gives (λ view. view) result (Ok (option_copied text.entry)) }
{
    match text {
        None => Ok(None),
        Some(text) => Ok(Some(SourceView::new(alloc, text)?)),
    }
}

// Makes a view and moves the text into it. Returns `None` if there is no text.
fn view_of(alloc: Global, text: Option<String>) -> Result<Option<SourceView>>
    ensures { Gives (λ view. view) result (Ok (option_map string_bytes text)) }
{
    match text {
        None => Ok(None),
        Some(text) => Ok(Some(SourceView::from_string(alloc, text)?)),
    }
}

fn views_of(alloc: Global, texts: Vec<Option<String>>) -> Result<Vec<Option<SourceView>>>
    ensures { Gives (λ views. views.items) result (Ok (contents_in texts)) }
{
    let mut views = Vec::with_capacity(alloc, texts.len())?;
    for text in texts {
        views.push(view_of(alloc, text)?)?;
    }
    Ok(views)
}

fn copy_view_text(alloc: Global, view: &Option<SourceView>) -> Result<Option<String>>
    ensures { Gives (option_map string_bytes) result (Ok view.now) }
{
    match view {
        None => Ok(None),
        Some(view) => Ok(Some(String::from_str(alloc, view.source())?)),
    }
}

fn copy_view_texts(alloc: Global, views: &[Option<SourceView>]) -> Result<Vec<Option<String>>>
    ensures { Gives contents_in result (Ok views.now) }
{
    let mut texts = Vec::with_capacity(alloc, views.len())?;
    for view in views {
        texts.push(copy_view_text(alloc, view)?)?;
    }
    Ok(texts)
}

fn text_of_view(view: Option<SourceView>) -> Option<String>
    ensures { option_map string_bytes result ≡ view }
{
    match view {
        None => None,
        Some(view) => Some(view.into_source()),
    }
}

fn texts_of_views(alloc: Global, views: Vec<Option<SourceView>>) -> Result<Vec<Option<String>>>
    ensures { Gives contents_in result (Ok views.items) }
{
    let mut texts = Vec::with_capacity(alloc, views.len())?;
    for view in views {
        texts.push(text_of_view(view))?;
    }
    Ok(texts)
}

/// Copies the view, if there is one. The only error is `OutOfMemory`.
pub fn copy_view(view: Option<&SourceView>) -> Result<Option<SourceView>>
    ensures { Gives (λ view. view) result (Ok (option_copied view.entry)) }
{
    match view {
        None => Ok(None),
        Some(view) => Ok(Some(view.clone()?)),
    }
}

fn copy_views(alloc: Global, views: &[Option<SourceView>]) -> Result<Vec<Option<SourceView>>>
    ensures { Gives (λ copies. copies.items) result (Ok views.now) }
{
    let mut copies = Vec::with_capacity(alloc, views.len())?;
    for view in views {
        copies.push(copy_view(view.as_ref())?)?;
    }
    Ok(copies)
}

fn are_same(a: &Contents, b: &Contents) -> bool
    ensures { result ≡ same_contents a.now b.now }
{
    a.views == b.views
}

/// Contents are equal exactly if the lists are equally long and hold the same text, or `None`, at
/// each index.
impl PartialEq for Contents {
    ghost eq = { same_contents };

    ghost laws = { partial_equiv_from_equiv same_contents_equiv };

    fn eq(&self, other: &Self) -> bool
        ensures value { result ≡ same_contents self.now other.now }
        ensures same { Decides result (self.now ≡ other.now) }
    {
        are_same(self, other)
    }
}
