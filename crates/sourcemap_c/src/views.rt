//! Views: each view holds a text and a table of the lines of this text.
ghost use Rattle.std.specs.Prelude.{◌≡◌, None, Some, length, option_map, slice_get};
ghost use Rattle.std.specs.Borrow.{sem};
ghost use Rattle.std.specs.Option.{option_copied};
ghost use Rattle.sourcemap_c_handles.specs.Handles.{EndsAsBefore, held_in};
ghost use Rattle.sourcemap_source_views.specs.Lines.{line_bodies};
ghost use Rattle.sourcemap_source_views.specs.Sourceview.{view_slice};
ghost use Rattle.sourcemap_c.specs.Codes.{Answers, Does, IsNoText, NoError, OfLibrary, ReturnsValue};
ghost use Rattle.sourcemap_c.specs.Kinds.{view_in};

use crate::codes::{OK, WRONG_KIND, put_text, text_in};
use sourcemap::{Error, SourceView};
use sourcemap_c_handles::errors::{ErrorReport, Failure, Outcome, finish};
use sourcemap_c_handles::{Handle, Held};
use std::alloc::Global;
use std::sync::Arc;

pub(crate) fn view_in<'a>(handle: &'a mut Handle) -> Option<&'a SourceView>
    ensures* after { sem 𝓛 (EndsAsBefore handle.entry) }
    ensures value { option_copied result ≡ view_in (held_in handle.old) }
{
    match handle.get() {
        Some(Held::View(view)) => Some(&**view),
        _ => None,
    }
}

/// Copies `text` into a new view and fills the handle with this view. The errors are `Utf8` if
/// `text` is not UTF-8, and `OutOfMemory`. After an error the value of the handle is unchanged.
#[unsafe(no_mangle)]
pub extern "C" fn sm_view_open(
    alloc: Global,
    view: &mut Handle,
    text: &[u8],
    error: &mut ErrorReport,
) -> u32
    ensures { Answers result error.old error.new (view_in (held_in view.new) ≡ Some text.now)
        (OfLibrary (IsNoText text.now)) (held_in view.new ≡ held_in view.old) }
{
    finish(alloc, open(alloc, view, text), error)
}

fn open(alloc: Global, view: &mut Handle, text: &[u8]) -> Outcome<()>
    ensures { Does result (view_in (held_in view.new) ≡ Some text.now) (OfLibrary (IsNoText text.now))
        (held_in view.new ≡ held_in view.old) }
{
    let made = SourceView::new(alloc, text_in(text)?)?;
    match Arc::new(alloc, made) {
        Ok(made) => {
            view.fill(alloc, Held::View(made))?;
            Ok(())
        }
        Err(_) => Err(Failure::Library(Error::OutOfMemory)),
    }
}

/// Borrows the text of a view.
#[unsafe(no_mangle)]
pub extern "C" fn sm_view_text<'a>(view: &'a mut Handle, text: &mut &'a [u8]) -> u32
    ensures* after { sem 𝓛 (EndsAsBefore view.entry) }
    ensures value { ReturnsValue (option_map (λ source. Some source) (view_in (held_in view.old)))
        result text.old.now text.new.now }
{
    put_source(view_in(view), text)
}

fn put_source<'a>(view: Option<&'a SourceView>, text: &mut &'a [u8]) -> u32
    ensures { ReturnsValue (option_map (λ source. Some source) (option_copied view.entry))
        result text.old.now text.new.now }
{
    match view {
        Some(view) => put_text(Some(view.source()), text),
        None => WRONG_KIND,
    }
}

/// Writes the number of lines.
#[unsafe(no_mangle)]
pub extern "C" fn sm_view_count(view: &mut Handle, lines: &mut usize) -> u32
    ensures lines { ReturnsValue (option_map (λ source. Some (length (line_bodies source)))
        (view_in (held_in view.old))) result lines.old lines.new }
    ensures kept { held_in view.new ≡ held_in view.old }
{
    match view_in(view) {
        Some(view) => {
            *lines = view.line_count();
            OK
        }
        None => WRONG_KIND,
    }
}

/// Borrows a line without its line break.
#[unsafe(no_mangle)]
pub extern "C" fn sm_view_line<'a>(view: &'a mut Handle, line: u32, text: &mut &'a [u8]) -> u32
    ensures* after { sem 𝓛 (EndsAsBefore view.entry) }
    ensures value { ReturnsValue (option_map (λ source. slice_get (line_bodies source) line)
        (view_in (held_in view.old))) result text.old.now text.new.now }
{
    put_line(view_in(view), line, text)
}

fn put_line<'a>(view: Option<&'a SourceView>, line: u32, text: &mut &'a [u8]) -> u32
    ensures { ReturnsValue (option_map (λ source. slice_get (line_bodies source) line)
        (option_copied view.entry)) result text.old.now text.new.now }
{
    match view {
        Some(view) => put_text(view.get_line(line), text),
        None => WRONG_KIND,
    }
}

/// Borrows a slice of a line: `span` UTF-16 units from column `column` on.
#[unsafe(no_mangle)]
pub extern "C" fn sm_view_slice<'a>(
    view: &'a mut Handle,
    line: u32,
    column: u32,
    span: u32,
    text: &mut &'a [u8],
) -> u32
    ensures* after { sem 𝓛 (EndsAsBefore view.entry) }
    ensures value { ReturnsValue (option_map (λ source. view_slice source line column span)
        (view_in (held_in view.old))) result text.old.now text.new.now }
{
    put_slice(view_in(view), line, column, span, text)
}

fn put_slice<'a>(
    view: Option<&'a SourceView>,
    line: u32,
    column: u32,
    span: u32,
    text: &mut &'a [u8],
) -> u32
    ensures { ReturnsValue (option_map (λ source. view_slice source line column span)
        (option_copied view.entry)) result text.old.now text.new.now }
{
    match view {
        Some(view) => put_text(view.get_line_slice(line, column, span), text),
        None => WRONG_KIND,
    }
}
