//! The words of `check`, and what they ask for.
ghost use Rattle.std.specs.Prelude.{◌≡◌, MatchOption, MatchResult, drop, map, option_map, string_bytes};
ghost use Rattle.sourcemap.specs.declared.errors.Error.TheVariants.{OutOfMemory};
ghost use Rattle.sourcemap_cli.specs.Checking.{begins, flag_count, form_of, strictness_of, value_after, value_count, words_of};
ghost use Rattle.sourcemap_cli.specs.declared.checking.Checking.{Checking};

use sourcemap::Result;
use sourcemap_check_print::print::Form;
use std::alloc::Global;

// The word that prints a report as JSON.
const JSON: &str = "--json";

// The word that makes what looks wrong fail a check, too.
const STRICT: &str = "--strict";

// The word before the file of the generated text.
const GENERATED: &str = "--generated";

// The word before the name of the map's file.
const NAME: &str = "--name";

// The word before the folder of the sources.
const SOURCES: &str = "--sources";

/// Which findings make a check fail.
#[derive(Clone, Copy, Debug, PartialEq, Eq)]
pub enum Strictness {
    /// Those that make a map invalid.
    Usual,
    /// Also those of what looks wrong.
    Strict,
}

/// A check that words ask for.
#[derive(Debug, PartialEq, Eq, Drop)]
pub struct Checking {
    /// The form of the report.
    pub form: Form,
    /// Which findings make it fail.
    pub strictness: Strictness,
    /// The path of the generated text.
    pub generated: Option<String>,
    /// The name of the map's file.
    pub name: Option<String>,
    /// The path of the folder of the sources.
    pub sources: Option<String>,
}

// Whether the first word is this one.
fn begins(words: &[String], flag: &str) -> bool
    ensures { result ≡ begins flag.now (map string_bytes words.now) }
{
    match words {
        [first, ..] => first.as_str() == flag,
        [] => false,
    }
}

// The second word, if the first is this one.
fn value_after(alloc: Global, words: &[String], flag: &str) -> Result<Option<String>>
    ensures { MatchResult result
        (λ value. option_map string_bytes value ≡ value_after flag.now (map string_bytes words.now))
        (λ e. e ≡ OutOfMemory) }
{
    match words {
        [first, value, ..] => {
            if first.as_str() != flag {
                return Ok(None);
            }
            Ok(Some(String::from_str(alloc, value.as_str())?))
        }
        _ => Ok(None),
    }
}

// The words behind the first ones.
fn behind(words: &[String], count: usize) -> &[String]
    ensures { result.now ≡ drop count words.now }
{
    words.get(count..).unwrap_or(&[])
}

// How many words a flag takes.
fn flag_count(is_set: bool) -> usize
    ensures { result ≡ flag_count is_set }
{
    if is_set { 1 } else { 0 }
}

fn form_of(is_json: bool) -> Form
    ensures { result ≡ form_of is_json }
{
    if is_json { Form::Json } else { Form::Lines }
}

fn strictness_of(is_strict: bool) -> Strictness
    ensures { result ≡ strictness_of is_strict }
{
    if is_strict {
        Strictness::Strict
    } else {
        Strictness::Usual
    }
}

// How many words a value takes, with the flag before it.
fn value_count(value: &Option<String>) -> usize
    ensures { result ≡ value_count (option_map string_bytes value.now) }
{
    match value {
        Some(_) => 2,
        None => 0,
    }
}

/// Parses the words behind `check`. Returns `None` if they are no options, or not in their order. The
/// only error is `OutOfMemory`.
pub(crate) fn parse_checking(alloc: Global, words: &[String]) -> Result<Option<Checking>>
    ensures { MatchResult result
        (λ found. MatchOption found
        ((checking : Checking) → ¬ (map string_bytes words.now ≡ words_of checking))
        (λ checking. map string_bytes words.now ≡ words_of checking))
        (λ e. e ≡ OutOfMemory) }
{
    let is_json = begins(words, JSON);
    let later = behind(words, flag_count(is_json));
    let is_strict = begins(later, STRICT);
    let files = behind(later, flag_count(is_strict));
    let generated = value_after(alloc, files, GENERATED)?;
    let names = behind(files, value_count(&generated));
    let name = value_after(alloc, names, NAME)?;
    let last = behind(names, value_count(&name));
    let sources = value_after(alloc, last, SOURCES)?;
    let left = behind(last, value_count(&sources));
    if !left.is_empty() {
        return Ok(None);
    }
    Ok(Some(Checking {
        form: form_of(is_json),
        strictness: strictness_of(is_strict),
        generated,
        name,
        sources,
    }))
}
