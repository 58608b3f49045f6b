//! The answers of a map to a list of positions. The list has one position on each line.
ghost use Rattle.std.specs.Prelude.{◌≡◌, ◌≢◌, ◌++◌, ℕ, List, codes, Some, None, Ok, IsOkUnless, OnOk, option_map, string_bytes};
ghost use Rattle.std.specs.Option.{option_copied};
ghost use Rattle.sourcemap.specs.Answer.{Gives};
ghost use Rattle.sourcemap.specs.AnyMap.{map_tree};
ghost use Rattle.sourcemap.specs.Decoder.{ValueDecodes};
ghost use Rattle.sourcemap.specs.Encoder.{ReadsBack};
ghost use Rattle.sourcemap.specs.Flat.{AnswersLike};
ghost use Rattle.sourcemap.specs.Token.{meaning_of_token, token_text};
ghost use Rattle.sourcemap.specs.TreeEncoder.{Restores};
ghost use Rattle.sourcemap.specs.Trees.{IsInOrder, MapTree, MeansTheSame, leaf, meaning, regular};
ghost use Rattle.sourcemap.specs.Types.{MapValue};
ghost use Rattle.sourcemap.specs.declared.errors.Error.TheVariants.{OutOfMemory};
ghost use Rattle.sourcemap_trace.specs.Asked.{IsExact, asked_meaning};
ghost use Rattle.sourcemap_trace.specs.Positions.{first_of};
ghost use Rattle.sourcemap_trace.specs.Trace.{answer_at, answer_to, counted, meaning_text, parts_text, trace_from, trace_of};

use crate::asked::{AskedMap, push_original};
use crate::positions::{Counting, next_position};
use sourcemap::laws::answers_are_determined;
use sourcemap::{DecodedMap, Result, Token};
use std::alloc::Global;

/// Returns the answers to a list of positions: one for each line of the list, in order, each
/// followed by a newline. Newlines separate the lines of the list. After a newline at the end of
/// the list there is no further line. The only error is `OutOfMemory`.
///
/// A position is a line of ASCII digits, a colon and ASCII digits. The first number is the
/// generated line, the second is the column. Both count from 0 and are at most 4294967295; leading
/// zeros are allowed. The answer is the text of the closest token, which `DecodedMap::lookup_token`
/// returns, or `none` if there is no such token. The answer to any other line is `bad position`.
/// This includes an empty line, and a line with a carriage return.
///
/// In an index map, the search for the closest token requires sections sorted by offset at every
/// level. Decoding calls return only such index maps. But `SourceMapIndex::new` accepts sections in
/// any order. If the sections at some level are not sorted, the answer to a position is the text of
/// some token of the map, or `none`.
pub fn trace_text(alloc: Global, map: &DecodedMap, positions: &[u8]) -> Result<String>
    ensures text { IsInOrder (map_tree map.now) → Gives string_bytes result
        (Ok (trace_of (meaning (map_tree map.now)) positions.now)) }
    ensures memory { IsOkUnless result OutOfMemory }
{
    trace_text_from(alloc, AskedMap::Decoded(map), positions, Counting::From0)
}

/// Returns what `trace_text` returns, for a decoded or a compiled map, with lines and columns that
/// count from 0 or from 1, both in the list and in the answers. If they count from 1, a line or a
/// column of 0 makes a line a `bad position`, the greatest number of a position is 4294967296, and
/// an answer has the original line and column plus 1. In a compiled map that `verify` refuses, an
/// answer may be that of another token, without texts that cannot be read.
pub fn trace_text_from(
    alloc: Global,
    map: AskedMap<'_>,
    positions: &[u8],
    counting: Counting,
) -> Result<String>
    ensures text { IsExact map.entry → Gives string_bytes result
        (Ok (trace_from (first_of counting) (asked_meaning map.entry) positions.now)) }
    ensures memory { IsOkUnless result OutOfMemory }
{
    let mut text = String::new(alloc);
    let mut rest = positions;
    while !rest.is_empty() {
        let (position, later) = next_position(rest, counting);
        push_answer(&mut text, map, position, counting)?;
        rest = later;
    }
    Ok(text)
}

// Appends to `text` the answer for `position`, then a newline. `None` means that the line names no
// position; the answer is then `bad position`.
fn push_answer(
    text: &mut String,
    map: AskedMap<'_>,
    position: Option<(u32, u32)>,
    counting: Counting,
) -> Result<()>
    ensures answer { IsExact map.entry → OnOk result (string_bytes text.new
        ≡ string_bytes text.old
        ++ (answer_at (first_of counting) (asked_meaning map.entry) position ++ codes "\n")) }
    ensures memory { IsOkUnless result OutOfMemory }
{
    match position {
        Some((line, col)) => push_closest(text, map, line, col, counting),
        None => {
            text.push_str("bad position\n")?;
            Ok(())
        }
    }
}

// Appends to `text` the answer for the position (`line`, `col`), then a newline.
fn push_closest(
    text: &mut String,
    map: AskedMap<'_>,
    line: u32,
    col: u32,
    counting: Counting,
) -> Result<()>
    ensures answer { IsExact map.entry → OnOk result (string_bytes text.new
        ≡ string_bytes text.old
        ++ (answer_at (first_of counting) (asked_meaning map.entry) (Some (line, col))
        ++ codes "\n")) }
    ensures memory { IsOkUnless result OutOfMemory }
{
    push_original(text, map, line, col, counting)?;
    text.push_str("\n")?;
    Ok(())
}

/// Appends the answer of a lookup to `text`: the text of the token, as `Display` writes it, with the
/// original line and column counted from 0 or from 1; `none` without a token. The only error is
/// `OutOfMemory`.
pub fn push_found(text: &mut String, found: Option<Token<'_>>, counting: Counting) -> Result<()>
    ensures text { OnOk result (string_bytes text.new ≡ string_bytes text.old
        ++ meaning_text (first_of counting) (option_map meaning_of_token found.entry)) }
    ensures memory { IsOkUnless result OutOfMemory }
{
    match found {
        Some(token) => push_token(text, token, counting),
        None => {
            text.push_str("none")?;
            Ok(())
        }
    }
}

fn push_token(text: &mut String, token: Token<'_>, counting: Counting) -> Result<()>
    ensures text { OnOk result (string_bytes text.new ≡ string_bytes text.old
        ++ token_text (counted (first_of counting) (meaning_of_token token.entry))) }
    ensures memory { IsOkUnless result OutOfMemory }
{
    match counting {
        Counting::From0 => {
            text.write(token)?;
            Ok(())
        }
        Counting::From1 => push_token_from_1(text, token),
    }
}

fn push_token_from_1(text: &mut String, token: Token<'_>) -> Result<()>
    ensures text { OnOk result (string_bytes text.new ≡ string_bytes text.old
        ++ token_text (counted 1 (meaning_of_token token.entry))) }
    ensures memory { IsOkUnless result OutOfMemory }
{
    let line = u64::from(token.get_src_line()) + 1;
    let column = u64::from(token.get_src_col()) + 1;
    push_parts(text, token.get_source(), line, column, token.get_name())
}

/// Appends a source, a line, a column and a name, as `Display` of a token writes them. The only
/// error is `OutOfMemory`.
pub(crate) fn push_parts(
    text: &mut String,
    source: Option<&str>,
    line: u64,
    column: u64,
    name: Option<&str>,
) -> Result<()>
    ensures text { OnOk result (string_bytes text.new ≡ string_bytes text.old
        ++ parts_text (option_copied source.entry) line column (option_copied name.entry)) }
    ensures memory { IsOkUnless result OutOfMemory }
{
    let source = source.unwrap_or("<unknown>");
    write!(text, "{source}:{line}:{column}")?;
    if let Some(name) = name {
        write!(text, " name={name}")?;
    }
    Ok(())
}

/// A law: two maps that mean the same at every position give the same answers to each list of
/// positions. `read_back` says that `t` and `back` give the same answers, under two premises:
///
/// - `value` decodes to some map that restores `t` (`Restores`). `DecodedMap::to_value` promises
///   this premise for a well-formed map `t` and the returned `value`.
/// - `value` decodes to `back`. `DecodedMap::from_value` promises this premise for the argument
///   `value` and the returned map `back`.
pub fn maps_read_back_answer_alike()
    ensures alike { (s t : MapTree) (positions : List ℕ) → MeansTheSame s t
        → trace_of (meaning s) positions ≡ trace_of (meaning t) positions }
    ensures read_back { (t back : MapTree) (value : _) (positions : List ℕ)
        → ReadsBack (ValueDecodes value) (Restores t) → ValueDecodes value (Ok back)
        → trace_of (meaning back) positions ≡ trace_of (meaning t) positions }
{
    answers_are_determined();
}

/// A law: if `AnswersLike t m` holds, `t` and `m` give the same answer to each line of a list of
/// positions, unless the answer of `t` is `none`. `SourceMapIndex::flatten` promises `AnswersLike`
/// for an index map and its flat map, if no section reaches into the next one at any level
/// (`IsOrderly`).
pub fn flat_maps_answer_alike()
    ensures { (t : MapTree) (m : MapValue) (line : List ℕ) → AnswersLike t m
        → answer_to (meaning t) line ≢ codes "none"
        → answer_to (meaning (leaf (regular m))) line ≡ answer_to (meaning t) line }
{}
