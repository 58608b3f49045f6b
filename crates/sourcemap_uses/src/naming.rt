//! Original function names and source lines for positions in a bundle.
ghost use Rattle.std.specs.Prelude.{◌≡◌, ◌+◌, Err, IfErr, IfOk, IsOkUnless, option_and_then, option_map, string_bytes};
ghost use Rattle.std.specs.Option.{option_copied};
ghost use Rattle.sourcemap.specs.Answer.{UnlessMemory};
ghost use Rattle.sourcemap.specs.Lines.{count_ends};
ghost use Rattle.sourcemap.specs.Reading.{BytesHaveResult, RegularDecodes};
ghost use Rattle.sourcemap.specs.TokenWalk.{function_name};
ghost use Rattle.sourcemap.specs.Types.{lookup};
ghost use Rattle.sourcemap.specs.declared.errors.Error.TheVariants.{OutOfMemory};
ghost use Rattle.sourcemap_uses.specs.Naming.{IsNameOf, source_line_of};

use sourcemap::laws::lines_make_their_text;
use sourcemap::{Result, SourceMap, SourceView};
use std::alloc::Global;

/// Guesses the original name of the function whose code is at a generated position. `minified` is
/// its minified name, `map` holds the bytes of the map, and `text` is the generated text. Returns
/// `None` if there is no guess. Lines and columns count from 0, columns in UTF-16 units. Returns
/// the errors of `SourceMap::from_slice`.
pub fn original_name(
    alloc: Global,
    map: &[u8],
    text: &str,
    line: u32,
    col: u32,
    minified: &str,
) -> Result<Option<String>>
    ensures name { IfOk result (λ name.
        IsNameOf map.now text.now (line, col) minified.now (option_map string_bytes name)) }
    ensures error { IfErr result
        (λ e. UnlessMemory e (BytesHaveResult RegularDecodes map.now (Err e))) }
{
    // prover: error passed on by `match`
    match SourceMap::from_slice(alloc, map) {
        Ok(map) => name_in(alloc, &map, text, line, col, minified),
        Err(error) => Err(error),
    }
}

// prover: one drop
fn name_in(
    alloc: Global,
    map: &SourceMap,
    text: &str,
    line: u32,
    col: u32,
    minified: &str,
) -> Result<Option<String>>
    ensures name { IfOk result (λ name. option_map string_bytes name
        ≡ function_name map.now text.now minified.now (line, col)) }
    ensures memory { IsOkUnless result OutOfMemory }
{
    let view = SourceView::new(alloc, text)?;
    match map.get_original_function_name(line, col, minified, &view) {
        None => Ok(None),
        Some(name) => Ok(Some(String::from_str(alloc, name)?)),
    }
}

/// Returns the text of the source line that a generated position maps to. `None` if no token is at
/// or before the position, if the map lacks the contents of the token's source, or if the contents
/// have no such line. Allocates nothing.
pub fn source_line(map: &SourceMap, line: u32, col: u32) -> Option<&str>
    ensures { option_copied result ≡ option_and_then source_line_of (lookup map.now (line, col)) }
{
    let token = map.lookup_token(line, col)?;
    token.get_source_view()?.get_line(token.get_src_line())
}

/// Returns how many lines a source has: the number of its line ends (`\n`, `\r` or `\r\n`), plus
/// one. Allocates nothing.
pub fn line_total(view: &SourceView) -> usize
    ensures { result ≡ count_ends view.now + 1 }
{
    lines_make_their_text(view.source());
    view.line_count()
}
