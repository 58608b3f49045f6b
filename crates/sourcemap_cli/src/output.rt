//! The output of a command for a map.
ghost use Rattle.std.specs.Prelude.{◌≡◌, ◌++◌, MatchResult, None, Some, option_map, string_bytes};
ghost use Rattle.sourcemap.specs.Answer.{IsAnswer};
ghost use Rattle.sourcemap.specs.AnyMap.{map_tree};
ghost use Rattle.sourcemap.specs.Hermes.{hermes_value};
ghost use Rattle.sourcemap.specs.Token.{meaning_of_token, token_value};
ghost use Rattle.sourcemap.specs.Trees.{hermes, leaf, regular};
ghost use Rattle.sourcemap.specs.declared.errors.Error.TheVariants.{OutOfMemory};
ghost use Rattle.sourcemap_cli.specs.Command.{IsOfMaps, TakesAdjustment};
ghost use Rattle.sourcemap_trace.specs.Positions.{first_of};
ghost use Rattle.sourcemap_trace.specs.Trace.{meaning_text};
ghost use Rattle.sourcemap_cli.specs.Lines.{newline};
ghost use Rattle.sourcemap_cli.specs.Program.{IsJsonLine, Returns, range_mark, token_line};
ghost use Rattle.sourcemap_cli.specs.declared.command.Command.TheVariants.{Compose, Flatten, Lookup, Rewrite, Shift, Tokens};

use crate::command::Command;
use crate::maps::{adjust, into_index};
use sourcemap::{DecodedMap, Error, Result, RewriteOptions, SourceMap, SourceMapHermes, Token};
use sourcemap_json_write::writing::value_to_string;
use sourcemap_trace::{Counting, push_found};
use std::alloc::Global;
use std::rt::Files;

// The text of the token, or `none`, and a newline.
fn found_line(alloc: Global, found: Option<Token<'_>>, counting: Counting) -> Result<String>
    ensures { MatchResult result
        (λ text. string_bytes text
        ≡ meaning_text (first_of counting) (option_map meaning_of_token found.entry) ++ newline)
        (λ e. e ≡ OutOfMemory) }
{
    let mut text = String::new(alloc);
    push_found(&mut text, found, counting)?;
    text.push_str("\n")?;
    Ok(text)
}

fn lookup_line(
    alloc: Global,
    map: &DecodedMap,
    counting: Counting,
    line: u32,
    col: u32,
) -> Result<String>
    ensures { IsAnswer string_bytes
        (Returns (Lookup counting line col) (map_tree map.now) None) result }
{
    found_line(alloc, map.lookup_token(line, col), counting)
}

fn range_mark(token: &Token<'_>) -> &'static str
    ensures { result.now ≡ range_mark (token_value token.now) }
{
    if token.is_range() { " range" } else { "" }
}

fn push_token_line(text: &mut String, token: &Token<'_>) -> Result<()>
    ensures { MatchResult result
        (λ _. string_bytes text.new ≡ string_bytes text.old ++ token_line (token_value token.now))
        (λ e. e ≡ OutOfMemory) }
{
    let line = token.get_dst_line();
    let column = token.get_dst_col();
    let mark = range_mark(token);
    write!(text, "{line}:{column} {token}{mark}\n")?;
    Ok(())
}

fn token_lines(alloc: Global, map: &SourceMap) -> Result<String>
    ensures { IsAnswer string_bytes (Returns Tokens (leaf (regular map.now)) None) result }
{
    let mut text = String::new(alloc);
    for token in map.tokens() {
        push_token_line(&mut text, &token)?;
    }
    Ok(text)
}

fn tokens_text(alloc: Global, map: &DecodedMap) -> Result<String>
    ensures { IsAnswer string_bytes (Returns Tokens (map_tree map.now) None) result }
{
    match map {
        DecodedMap::Regular(map) => token_lines(alloc, map),
        DecodedMap::Hermes(map) => token_lines(alloc, map),
        DecodedMap::Index(_) => Err(Error::IncompatibleSourceMap),
    }
}

// Consumes the map instead of copying its strings.
fn json_line(alloc: Global, map: DecodedMap) -> Result<String>
    ensures { MatchResult result
        (λ text. IsJsonLine (map_tree map) (string_bytes text))
        (λ e. e ≡ OutOfMemory) }
{
    let value = map.into_value()?;
    let mut text = value_to_string(alloc, &value)?;
    text.push('\n')?;
    Ok(text)
}

fn rewritten_regular<F: Files>(rt: &F, alloc: Global, map: SourceMap) -> Result<String>
    ensures { IsAnswer string_bytes (Returns Rewrite (leaf (regular map)) None) result }
{
    let rewritten = map.rewrite(rt, &RewriteOptions::default())?;
    json_line(alloc, DecodedMap::Regular(rewritten))
}

fn rewritten_hermes<F: Files>(rt: &F, alloc: Global, map: SourceMapHermes) -> Result<String>
    ensures { IsAnswer string_bytes (Returns Rewrite (leaf (hermes (hermes_value map))) None) result }
{
    let rewritten = map.rewrite(rt, &RewriteOptions::default())?;
    json_line(alloc, DecodedMap::Hermes(rewritten))
}

fn rewritten_json<F: Files>(rt: &F, alloc: Global, map: DecodedMap) -> Result<String>
    ensures { IsAnswer string_bytes (Returns Rewrite (map_tree map) None) result }
{
    match map {
        DecodedMap::Regular(map) => rewritten_regular(rt, alloc, map),
        DecodedMap::Hermes(map) => rewritten_hermes(rt, alloc, map),
        DecodedMap::Index(_) => Err(Error::IncompatibleSourceMap),
    }
}

fn flat_json(alloc: Global, map: DecodedMap) -> Result<String>
    ensures { IsAnswer string_bytes (Returns Flatten (map_tree map) None) result }
{
    let index = into_index(map)?;
    let flat = index.flatten()?;
    json_line(alloc, DecodedMap::Regular(flat))
}

fn shifted_json(alloc: Global, map: DecodedMap, rows: u32) -> Result<String>
    ensures { IsAnswer string_bytes (Returns (Shift rows) (map_tree map) None) result }
{
    let mut index = into_index(map)?;
    if !index.adjust_sections_offset_rows(rows) {
        return Err(Error::IncompatibleSourceMap);
    }
    json_line(alloc, DecodedMap::Index(index))
}

/// Returns the JSON text of a map adjusted by another one, and a newline. Returns the errors of
/// `apply` for `Compose`.
pub(crate) fn adjusted_json(
    alloc: Global,
    map: DecodedMap,
    adjustment: DecodedMap,
) -> Result<String>
    ensures { (path : _) → IsAnswer string_bytes
        (Returns (Compose path) (map_tree map) (Some (map_tree adjustment))) result }
{
    let adjusted = adjust(map, &adjustment)?;
    json_line(alloc, DecodedMap::Regular(adjusted))
}

/// Applies a command to a map and returns its output.
///
/// - `Lookup`: the `Display` text of the closest token, for example `a.js:3:4 name=f`, or `none` if
///   there is no such token. A newline follows. If positions count from 1, the original line and
///   column are printed plus 1. If the sections of an index map are unsorted at some level, the
///   text is that of some token of the map, or `none`.
/// - `Tokens`: a text for each token, for example `0:8 a.js:3:4 name=f range`, and a newline after
///   each text. The text has the generated position, the `Display` text of the token, and ` range`
///   for a range token. The text has more than one line if the source or the name of the token has
///   a newline.
/// - `Rewrite`, `Flatten`, `Compose`, `Shift`: compact JSON and a newline. `Rewrite`: the map
///   rewritten with default options. For a Hermes map, the JSON has the function scopes too.
///   `Flatten`: the flattened index map. `Compose`: the map adjusted by `adjustment`. `Shift`: the
///   index map with each section moved down by the rows of the command.
///
/// `Compose` takes an adjustment, and no other command does. `command` must not be `Trace`, which
/// also needs positions; use `sourcemap_trace::trace_text_from` for it.
///
/// Errors:
///
/// - `IncompatibleSourceMap` if `Tokens` or `Rewrite` gets an index map.
/// - `IncompatibleSourceMap` if `Flatten` or `Shift` gets a map that is not an index map.
/// - `IncompatibleSourceMap` if `Compose` gets a map or an adjustment that is not regular.
/// - `IncompatibleSourceMap` for `Compile`, whose output is no text, and for `Check`, which checks
///   bytes; use `sourcemap_cache::compile` and `sourcemap_check_print::check_text`.
/// - `IncompatibleSourceMap` if `Compose` would move a token past column 4294967295.
/// - `IncompatibleSourceMap` if `Shift` would move a section past row 4294967295.
/// - `CannotFlatten` if `SourceMapIndex::flatten` returns it for the map that `Flatten` gets.
/// - Otherwise only `OutOfMemory`.
pub fn apply<F: Files>(
    rt: &F,
    alloc: Global,
    command: &Command,
    map: DecodedMap,
    adjustment: Option<DecodedMap>,
) -> Result<String>
    requires adjustment { TakesAdjustment command.now adjustment }
    requires of_maps { IsOfMaps command.now }
    ensures { IsAnswer string_bytes
        (Returns command.now (map_tree map) (option_map map_tree adjustment)) result }
{
    match command {
        Command::Lookup(counting, line, column) => {
            lookup_line(alloc, &map, *counting, *line, *column)
        }
        Command::Tokens => tokens_text(alloc, &map),
        Command::Rewrite => rewritten_json(rt, alloc, map),
        Command::Flatten => flat_json(alloc, map),
        Command::Compose(_) => match adjustment {
            Some(adjustment) => adjusted_json(alloc, map, adjustment),
            None => Err(Error::IncompatibleSourceMap),
        },
        Command::Shift(rows) => shifted_json(alloc, map, *rows),
        Command::Trace(_, _) => Err(Error::IncompatibleSourceMap),
        Command::Compile(_) => Err(Error::IncompatibleSourceMap),
        Command::Check(_) => Err(Error::IncompatibleSourceMap),
    }
}
