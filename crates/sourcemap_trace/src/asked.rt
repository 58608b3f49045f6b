//! What is asked for original positions: decoded maps of any kind, and compiled maps.
ghost use Rattle.std.specs.Prelude.{◌≡◌, ◌++◌, IsOkUnless, OnOk, option_map, string_bytes};
ghost use Rattle.std.specs.Option.{option_copied};
ghost use Rattle.sourcemap.specs.Token.{token_text};
ghost use Rattle.sourcemap.specs.declared.errors.Error.TheVariants.{OutOfMemory};
ghost use Rattle.sourcemap_compiled.specs.Soundness.{IsSound};
ghost use Rattle.sourcemap_compiled.specs.Stored.{meaning_of_token, token_value};
ghost use Rattle.sourcemap_trace.specs.Asked.{AreSound, IsExact, asked_meaning, plain, read_text};
ghost use Rattle.sourcemap_trace.specs.Positions.{first_of};
ghost use Rattle.sourcemap_trace.specs.Trace.{counted, meaning_text};

use crate::positions::Counting;
use crate::trace::{push_found, push_parts};
use sourcemap::{DecodedMap, Result};
use sourcemap_compiled::errors::CompiledMapError;
use sourcemap_compiled::map::CompiledMap;
use sourcemap_compiled::token::CompiledToken;
use std::result;

/// A map that is asked for original positions.
#[derive(Clone, Copy)]
pub enum AskedMap<'a> {
    /// A decoded map of any kind.
    Decoded(&'a DecodedMap),
    /// A compiled map.
    Compiled(CompiledMap<'a>),
}

/// Appends the text of the token closest to a generated position: source, line, column and name, as
/// `Display` of a token writes them, with the line and the column counted from 0 or from 1; `none`
/// without a token. In an index map with unsorted sections, and in a compiled map that `verify`
/// refuses, it may be the text of another token, without texts that cannot be read. The only error
/// is `OutOfMemory`.
pub fn push_original(
    text: &mut String,
    map: AskedMap<'_>,
    line: u32,
    col: u32,
    counting: Counting,
) -> Result<()>
    ensures text { IsExact map.entry → OnOk result (string_bytes text.new ≡ string_bytes text.old
        ++ meaning_text (first_of counting) (asked_meaning map.entry (line, col))) }
    ensures memory { IsOkUnless result OutOfMemory }
{
    match map {
        AskedMap::Decoded(map) => push_found(text, map.lookup_token(line, col), counting),
        AskedMap::Compiled(map) => push_compiled(text, map.lookup_token(line, col), counting),
    }
}

fn push_compiled(
    text: &mut String,
    found: Option<CompiledToken<'_>>,
    counting: Counting,
) -> Result<()>
    ensures text { AreSound found.entry → OnOk result (string_bytes text.new ≡ string_bytes text.old
        ++ meaning_text (first_of counting)
        (option_map (λ token. plain (meaning_of_token token)) found.entry)) }
    ensures memory { IsOkUnless result OutOfMemory }
{
    match found {
        Some(token) => push_compiled_token(text, token, counting),
        None => {
            text.push_str("none")?;
            Ok(())
        }
    }
}

fn push_compiled_token(
    text: &mut String,
    token: CompiledToken<'_>,
    counting: Counting,
) -> Result<()>
    ensures text { IsSound (token_value token.entry).bytes → OnOk result (string_bytes text.new
        ≡ string_bytes text.old
        ++ token_text (counted (first_of counting) (plain (meaning_of_token token.entry)))) }
    ensures memory { IsOkUnless result OutOfMemory }
{
    let source = text_or_none(token.get_source());
    let line = u64::from(token.get_src_line()) + counting.first();
    let column = u64::from(token.get_src_col()) + counting.first();
    let name = text_or_none(token.get_name());
    push_parts(text, source, line, column, name)
}

// A text of a compiled map, or none if it cannot be read.
fn text_or_none(text: result::Result<Option<&str>, CompiledMapError>) -> Option<&str>
    ensures { option_copied result ≡ read_text text.entry }
{
    match text {
        Ok(text) => text,
        Err(_) => None,
    }
}
