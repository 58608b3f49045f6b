//! The timed operations and their words.
ghost use Rattle.std.specs.Prelude.{◌≡◌, ◌≢◌, ◌∷◌, [], List, ℕ, IfSome, IfNone, MatchOption, codes, map, string_bytes};
ghost use Rattle.sourcemap_bench.specs.Command.{word_of, view_word_of, AskFor};

/// An operation that is repeated.
#[derive(Clone, Copy, Debug, PartialEq, Eq)]
pub enum Operation {
    /// `decode`: decodes the map from a slice.
    Decode,
    /// `decode-reader`: decodes the map from a reader.
    DecodeReader,
    /// `lookup`: looks up a million positions.
    Lookup,
    /// `tokens`: iterates over all tokens.
    Tokens,
    /// `encode`: encodes the map.
    Encode,
    /// `rewrite`: rewrites a copy of the map with default options.
    Rewrite,
    /// `flatten`: flattens the index map.
    Flatten,
    /// `compose`: adjusts a copy of the first of two maps by the second.
    Compose,
}

/// An operation on views of texts that is repeated.
#[derive(Clone, Copy, Debug, PartialEq, Eq)]
pub enum ViewOperation {
    /// `lines`: makes a view of a text and iterates over its lines.
    Lines,
    /// `names`: walks back from the position of every 128th token, and searches for a name that no
    /// function has.
    Names,
}

/// The command of a run.
#[derive(Clone, Copy, Debug, PartialEq, Eq)]
pub enum Command {
    /// `OPERATION N`: repeats an operation N times.
    Repeat(Operation, u32),
    /// `views OPERATION N`: repeats an operation on views of texts N times.
    RepeatOnView(ViewOperation, u32),
    /// `bundles split N`: splits an indexed RAM bundle N times.
    Split(u32),
    /// `write`: writes the encoded map.
    Write,
}

fn operation_of(word: &str) -> Option<Operation>
    ensures { MatchOption result
        ((operation : _) → word.now ≢ word_of operation)
        (λ operation. word.now ≡ word_of operation) }
{
    match word {
        "decode" => Some(Operation::Decode),
        "decode-reader" => Some(Operation::DecodeReader),
        "lookup" => Some(Operation::Lookup),
        "tokens" => Some(Operation::Tokens),
        "encode" => Some(Operation::Encode),
        "rewrite" => Some(Operation::Rewrite),
        "flatten" => Some(Operation::Flatten),
        "compose" => Some(Operation::Compose),
        _ => None,
    }
}

fn view_operation_of(word: &str) -> Option<ViewOperation>
    ensures { MatchOption result
        ((operation : _) → word.now ≢ view_word_of operation)
        (λ operation. word.now ≡ view_word_of operation) }
{
    match word {
        "lines" => Some(ViewOperation::Lines),
        "names" => Some(ViewOperation::Names),
        _ => None,
    }
}

fn parse_word(word: &str) -> Option<Command>
    ensures { IfSome result (AskFor (word.now ∷ [])) }
{
    match word {
        "write" => Some(Command::Write),
        _ => None,
    }
}

fn parse_repeat(word: &str, rounds: &str) -> Option<Command>
    ensures { IfSome result (AskFor (word.now ∷ rounds.now ∷ [])) }
{
    let operation = operation_of(word)?;
    let rounds = rounds.parse().ok()?;
    Some(Command::Repeat(operation, rounds))
}

fn parse_views(word: &str, rounds: &str) -> Option<Command>
    ensures { IfSome result (AskFor (codes "views" ∷ word.now ∷ rounds.now ∷ [])) }
{
    let operation = view_operation_of(word)?;
    let rounds = rounds.parse().ok()?;
    Some(Command::RepeatOnView(operation, rounds))
}

fn parse_bundles(word: &str, rounds: &str) -> Option<Command>
    ensures { IfSome result (AskFor (codes "bundles" ∷ word.now ∷ rounds.now ∷ [])) }
{
    match word {
        "split" => Some(Command::Split(rounds.parse().ok()?)),
        _ => None,
    }
}

fn parse_group(group: &str, word: &str, rounds: &str) -> Option<Command>
    ensures { IfSome result (AskFor (group.now ∷ word.now ∷ rounds.now ∷ [])) }
{
    match group {
        "views" => parse_views(word, rounds),
        "bundles" => parse_bundles(word, rounds),
        _ => None,
    }
}

/// Parses `write`, or an operation and a decimal number below 2^32. The number may start with `+`.
/// An operation on views is two words, of which the first is `views`. The operation on bundles is
/// `bundles split`. Returns `None` for other words.
pub fn parse_words(words: &[String]) -> Option<Command>
    ensures { IfSome result (AskFor (map string_bytes words.now)) }
{
    match words {
        [word] => parse_word(word.as_str()),
        [word, rounds] => parse_repeat(word.as_str(), rounds.as_str()),
        [group, word, rounds] => parse_group(group.as_str(), word.as_str(), rounds.as_str()),
        _ => None,
    }
}
