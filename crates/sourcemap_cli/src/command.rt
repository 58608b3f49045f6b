//! The commands of the program and their parser.
ghost use Rattle.std.specs.Prelude.{◌≡◌, ◌≢◌, List, [], ◌∷◌, ℕ, codes, map, string_bytes, MatchOption, MatchResult};
ghost use Rattle.std.specs.List.{slice_index_or};
ghost use Rattle.sourcemap.specs.declared.errors.Error.TheVariants.{OutOfMemory};
ghost use Rattle.sourcemap_trace.specs.Positions.{first_of};
ghost use Rattle.sourcemap_cli.specs.Command.{AskFor, IsNumber, IsSameCommand, counted_words};

use crate::checking::{Checking, parse_checking};
use sourcemap::Result;
use sourcemap_cache::parts::WithContents;
use sourcemap_trace::Counting;
use std::alloc::Global;

// The word that says that lines and columns count from 1.
const FROM_1: &str = "--from-1";

// The word that leaves the contents of sources out of a compiled map.
const WITHOUT_CONTENTS: &str = "--without-contents";

/// A command of the program, with its arguments. Positions are kept counted from 0.
#[derive(Debug, PartialEq, Eq, Drop)]
pub enum Command {
    /// `lookup LINE COL`, `lookup --from-1 LINE COL`: the closest token to a generated position.
    Lookup(Counting, u32, u32),
    /// `tokens`: the text of each token, with a newline after it.
    Tokens,
    /// `rewrite`: the map rewritten with default options, as JSON text.
    Rewrite,
    /// `flatten`: the index map flattened to a regular map, as JSON text.
    Flatten,
    /// `compose FILE`: the regular map adjusted by the map in this file, as JSON text.
    Compose(String),
    /// `shift ROWS`: the index map with each section moved down by ROWS rows, as JSON text.
    Shift(u32),
    /// `trace FILE`, `trace --from-1 FILE`: the closest token to each generated position that this
    /// file lists.
    Trace(Counting, String),
    /// `compile`, `compile --without-contents`: the compiled map, with or without the contents of
    /// its sources.
    Compile(WithContents),
    /// `check`, then any of `--json`, `--strict`, `--generated FILE`, `--name NAME`, `--sources DIR`
    /// in this order: the findings in the map.
    Check(Checking),
}

// Accepts only decimal digits. `parse` alone would also accept a `+` before them.
fn parse_number(word: &str, counting: Counting) -> Option<u32>
    ensures { MatchOption result
        ((n : ℕ) → ¬ IsNumber (first_of counting) word.now n)
        (IsNumber (first_of counting) word.now) }
{
    if word.starts_with('+') {
        return None;
    }
    let value: u64 = word.parse().ok()?;
    let number = value.checked_sub(counting.first())?;
    u32::try_from(number).ok()
}

fn lookup_command(counting: Counting, line: &str, col: &str) -> Option<Command>
    ensures { MatchOption result
        ((command : _) → ¬ AskFor
        (counted_words (codes "lookup") counting (line.now ∷ col.now ∷ [])) command)
        (AskFor (counted_words (codes "lookup") counting (line.now ∷ col.now ∷ []))) }
{
    let line = parse_number(line, counting)?;
    let col = parse_number(col, counting)?;
    Some(Command::Lookup(counting, line, col))
}

fn shift_command(rows: &str) -> Option<Command>
    ensures { MatchOption result
        ((command : _) → ¬ AskFor (codes "shift" ∷ rows.now ∷ []) command)
        (AskFor (codes "shift" ∷ rows.now ∷ [])) }
{
    let rows = parse_number(rows, Counting::From0)?;
    Some(Command::Shift(rows))
}

fn trace_command(alloc: Global, counting: Counting, file: &str) -> Result<Option<Command>>
    ensures { MatchResult result
        (λ found. MatchOption found
        ((command : _) → ¬ AskFor (counted_words (codes "trace") counting (file.now ∷ [])) command)
        (AskFor (counted_words (codes "trace") counting (file.now ∷ []))))
        (λ e. e ≡ OutOfMemory) }
{
    if file == FROM_1 {
        return Ok(None);
    }
    let path = String::from_str(alloc, file)?;
    Ok(Some(Command::Trace(counting, path)))
}

fn compile_command(word: &str) -> Option<Command>
    ensures { MatchOption result
        ((command : _) → ¬ AskFor (codes "compile" ∷ word.now ∷ []) command)
        (AskFor (codes "compile" ∷ word.now ∷ [])) }
{
    if word != WITHOUT_CONTENTS {
        return None;
    }
    Some(Command::Compile(WithContents::No))
}

fn check_command(alloc: Global, options: &[String]) -> Result<Option<Command>>
    ensures { MatchResult result
        (λ found. MatchOption found
        ((command : _) → ¬ AskFor (codes "check" ∷ map string_bytes options.now) command)
        (AskFor (codes "check" ∷ map string_bytes options.now)))
        (λ e. e ≡ OutOfMemory) }
{
    match parse_checking(alloc, options)? {
        Some(checking) => Ok(Some(Command::Check(checking))),
        None => Ok(None),
    }
}

fn parse_verb(verb: &str) -> Option<Command>
    requires { verb.now ≢ codes "check" }
    ensures { MatchOption result
        ((command : _) → ¬ AskFor (verb.now ∷ []) command)
        (AskFor (verb.now ∷ [])) }
{
    match verb {
        "tokens" => Some(Command::Tokens),
        "rewrite" => Some(Command::Rewrite),
        "flatten" => Some(Command::Flatten),
        "compile" => Some(Command::Compile(WithContents::Yes)),
        _ => None,
    }
}

fn parse_verb_and_argument(alloc: Global, verb: &str, argument: &str) -> Result<Option<Command>>
    requires { verb.now ≢ codes "check" }
    ensures { MatchResult result
        (λ found. MatchOption found
        ((command : _) → ¬ AskFor (verb.now ∷ argument.now ∷ []) command)
        (AskFor (verb.now ∷ argument.now ∷ [])))
        (λ e. e ≡ OutOfMemory) }
{
    match verb {
        "compose" => Ok(Some(Command::Compose(String::from_str(alloc, argument)?))),
        "shift" => Ok(shift_command(argument)),
        "trace" => trace_command(alloc, Counting::From0, argument),
        "compile" => Ok(compile_command(argument)),
        _ => Ok(None),
    }
}

fn parse_verb_and_two(
    alloc: Global,
    verb: &str,
    first: &str,
    second: &str,
) -> Result<Option<Command>>
    requires { verb.now ≢ codes "check" }
    ensures { MatchResult result
        (λ found. MatchOption found
        ((command : _) → ¬ AskFor (verb.now ∷ first.now ∷ second.now ∷ []) command)
        (AskFor (verb.now ∷ first.now ∷ second.now ∷ [])))
        (λ e. e ≡ OutOfMemory) }
{
    match verb {
        "lookup" => Ok(lookup_command(Counting::From0, first, second)),
        "trace" => {
            if first != FROM_1 {
                return Ok(None);
            }
            trace_command(alloc, Counting::From1, second)
        }
        _ => Ok(None),
    }
}

fn parse_verb_and_three(verb: &str, flag: &str, line: &str, col: &str) -> Option<Command>
    requires { verb.now ≢ codes "check" }
    ensures { MatchOption result
        ((command : _) → ¬ AskFor (verb.now ∷ flag.now ∷ line.now ∷ col.now ∷ []) command)
        (AskFor (verb.now ∷ flag.now ∷ line.now ∷ col.now ∷ [])) }
{
    if verb != "lookup" {
        return None;
    }
    if flag != FROM_1 {
        return None;
    }
    lookup_command(Counting::From1, line, col)
}

fn parse_others(alloc: Global, words: &[String]) -> Result<Option<Command>>
    requires { slice_index_or (map string_bytes words.now) 0 [] ≢ codes "check" }
    ensures { MatchResult result
        (λ found. MatchOption found
        ((command : _) → ¬ AskFor (map string_bytes words.now) command)
        (AskFor (map string_bytes words.now)))
        (λ e. e ≡ OutOfMemory) }
{
    match words {
        [verb] => Ok(parse_verb(verb.as_str())),
        [verb, argument] => parse_verb_and_argument(alloc, verb.as_str(), argument.as_str()),
        [verb, first, second] => {
            parse_verb_and_two(alloc, verb.as_str(), first.as_str(), second.as_str())
        }
        [verb, flag, line, col] => Ok(parse_verb_and_three(
            verb.as_str(),
            flag.as_str(),
            line.as_str(),
            col.as_str(),
        )),
        _ => Ok(None),
    }
}

/// Parses the arguments of a run. Returns `None` if they are no command. LINE, COL and ROWS are
/// decimal numbers below 2^32, of digits only. After `--from-1`, LINE and COL are from 1 to 2^32.
/// FILE and DIR are any word; for `trace`, any word but `--from-1`. The only error is `OutOfMemory`.
pub fn parse_words(alloc: Global, words: &[String]) -> Result<Option<Command>>
    ensures { MatchResult result
        (λ found. MatchOption found
        ((command : _) → ¬ AskFor (map string_bytes words.now) command)
        (AskFor (map string_bytes words.now)))
        (λ e. e ≡ OutOfMemory) }
{
    match words.split_first() {
        Some((verb, options)) if verb.as_str() == "check" => check_command(alloc, options),
        _ => parse_others(alloc, words),
    }
}

/// A law: the same words ask for at most one command. Two commands that differ only in the capacity
/// of a path count as the same.
pub fn words_are_determined()
    ensures { (words : List (List ℕ)) (a b : _) → AskFor words a → AskFor words b
        → IsSameCommand a b }
{}
