//! Views of source texts: a text with the table of its lines.
ghost use Rattle.std.specs.Prelude.{◌≡◌, ◌<◌, ◌≤◌, ◌^◌, IsOkUnless, Ok, drop, length, option_map, slice_get};
ghost use Rattle.std.specs.Prelude.{string_bytes, take};
ghost use Rattle.std.specs.Bool.{Decides};
ghost use Rattle.std.specs.Cmp.{partial_equiv_from_equiv};
ghost use Rattle.sourcemap_errors.specs.Answer.{Gives};
ghost use Rattle.sourcemap_errors.specs.declared.errors.Error.TheVariants.{OutOfMemory};
ghost use Rattle.sourcemap_references.specs.Reference.{first_reference};
ghost use Rattle.sourcemap_references.specs.References.{Locates};
ghost use Rattle.sourcemap_source_views.specs.Lines.{line_bodies};
ghost use Rattle.sourcemap_source_views.specs.Sourceview.{same_source, same_source_equiv, view_slice};

use crate::columns::slice_at;
use crate::lines::LineTable;
use sourcemap_errors::errors::Result;
use sourcemap_references::detector::{SourceMapRef, locate_in_text};
use std::alloc::Global;
use std::fmt;
use std::marker::Model;

/// A source text with the table of its lines.
#[derive(Drop)]
pub struct SourceView {
    source: String,
    lines: LineTable,
}

impl Model for SourceView {
    ghost use Rattle.std.specs.Prelude.{◌≡◌, ℕ, List, string_bytes};
    ghost use Rattle.sourcemap_source_views.specs.Lines.{line_ranges};

    ghost Value = { List ℕ };

    ghost view = { λ view. string_bytes view.source };

    ghost invariant = { λ view. view.lines ≡ line_ranges (string_bytes view.source) };
}

impl SourceView {
    ghost use Rattle.sourcemap_source_views.specs.Views.{lines_left};

    /// Copies a text into a view. The only error is out of memory.
    pub fn new(alloc: Global, source: &str) -> Result<SourceView>
        ensures { Gives (λ view. view) result (Ok source.now) }
    {
        SourceView::from_string(alloc, String::from_str(alloc, source)?)
    }

    /// Moves a text into a view. The only error is out of memory.
    pub fn from_string(alloc: Global, source: String) -> Result<SourceView>
        ensures { Gives (λ view. view) result (Ok (string_bytes source)) }
    {
        let lines = LineTable::new(alloc, source.as_str())?;
        Ok(SourceView { source, lines })
    }

    /// The text.
    pub fn source(&self) -> &str
        ensures { result.now ≡ self.now }
    {
        self.source.as_str()
    }

    /// Returns the text, moved out of the view. Allocates nothing.
    pub fn into_source(self) -> String
        ensures { string_bytes result ≡ self }
    {
        let SourceView { source, .. } = self;
        source
    }

    /// Returns a line, 0-based, without its terminator. Returns `None` if there is no such line.
    pub fn get_line(&self, line: u32) -> Option<&str>
        ensures { option_map (λ text. text.now) result ≡ slice_get (line_bodies self.now) line }
    {
        let (start, end) = self.lines.range(line)?;
        Some(&self.source()[start..end])
    }

    /// Returns the part of a line from column `col` up to column `col + span`, exclusive. Lines and
    /// columns are 0-based. Columns are in UTF-16 units. A column inside a surrogate pair is moved
    /// after the pair. Returns `None` if there is no such line, or if the line has fewer than
    /// `col + span` units.
    pub fn get_line_slice(&self, line: u32, col: u32, span: u32) -> Option<&str>
        ensures { option_map (λ part. part.now) result ≡ view_slice self.now line col span }
    {
        slice_at(self.get_line(line)?, col, span)
    }

    /// Iterates over the lines, without their terminators. Returns at most the first 4294967296
    /// lines.
    pub fn lines(&self) -> Lines<'_>
        ensures left { lines_left result ≡ take 4294967296 (line_bodies self.now) }
        ensures bound { length (lines_left result) ≤ 4294967296 }
    {
        Lines {
            view: self,
            next: 0,
        }
    }

    /// The number of lines, at least one.
    pub fn line_count(&self) -> usize
        ensures { result ≡ length (line_bodies self.now) }
    {
        self.lines.count()
    }

    /// Returns the source map reference of the first line that starts with a mark: `//#
    /// sourceMappingURL=` or `//@ sourceMappingURL=`. The URL is the rest of this line after the
    /// mark, trimmed. Returns `None` if no line starts with a mark. For this search, lines end only
    /// at `\n`. The only error is `OutOfMemory`.
    pub fn sourcemap_reference(&self) -> Result<Option<SourceMapRef>>
        ensures value { Locates result (first_reference self.now) }
        ensures memory { IsOkUnless result OutOfMemory }
    {
        locate_in_text(*self.source.allocator(), self.source())
    }

    /// A copy of the view and its text. The only error is out of memory.
    pub fn clone(&self) -> Result<Self>
        ensures { Gives (λ view. view) result (Ok self.now) }
    {
        let source = self.source.clone()?;
        let lines = self.lines.copy()?;
        Ok(SourceView { source, lines })
    }
}

/// Views are equal exactly if their texts are.
impl PartialEq for SourceView {
    ghost eq = { same_source };

    ghost laws = { partial_equiv_from_equiv same_source_equiv };

    fn eq(&self, other: &Self) -> bool
        ensures value { result ≡ same_source self.now other.now }
        ensures same { Decides result (self.now ≡ other.now) }
    {
        self.source() == other.source()
    }
}

/// Prints the text, and not the table of its lines.
impl fmt::Debug for SourceView {
    fn fmt<W: fmt::Write>(&self, f: &mut fmt::Formatter<W>) -> fmt::Result {
        f.debug_struct("SourceView")
            .field("source", &self.source())
            .finish()
    }
}

/// An iterator over the lines of a view. Returns at most the first 4294967296 lines.
#[derive(Drop)]
pub struct Lines<'a> {
    view: &'a SourceView,
    next: u64,
}

impl<'a> Iterator for Lines<'a> {
    type Item = &'a str;

    ghost use Rattle.std.specs.Iterator.{YieldsFirstRef, item_count};
    ghost use Rattle.sourcemap_source_views.specs.Views.{lines_left};

    ghost next_gives = { YieldsFirstRef lines_left };

    ghost remaining = { item_count lines_left };

    fn next(&mut self) -> Option<&'a str> {
        let view = self.view;
        let line = u32::try_from(self.next).ok()?;
        let text = view.get_line(line)?;
        self.next += 1;
        Some(text)
    }
}
