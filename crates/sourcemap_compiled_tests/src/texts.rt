// What compiled maps and their tokens say, as texts.
use sourcemap_compiled::errors::CompiledMapError;
use sourcemap_compiled::map::CompiledMap;
use sourcemap_compiled::token::CompiledToken;
use std::alloc::{AllocError, Global};

type Answer<'a> = Result<Option<&'a str>, CompiledMapError>;

/// Returns the text, `-` if there is none, or the text of the error.
pub fn answer_text(alloc: Global, answer: Answer<'_>) -> Result<String, AllocError> {
    match answer {
        Ok(Some(text)) => String::from_str(alloc, text),
        Ok(None) => String::from_str(alloc, "-"),
        Err(error) => format!(in alloc; "{error}"),
    }
}

/// Returns the counts of tokens, sources, names and scopes, or the text of the error of parsing.
pub fn parsed_counts(alloc: Global, bytes: &[u8]) -> Result<String, AllocError> {
    let map = match CompiledMap::parse(bytes) {
        Ok(map) => map,
        Err(error) => return format!(in alloc; "{error}"),
    };
    let (tokens, sources) = (map.token_count(), map.source_count());
    let (names, scopes) = (map.name_count(), map.scope_count());
    format!(in alloc; "{tokens} {sources} {names} {scopes}")
}

/// Returns the texts with id 0 of each kind, and the file: source, name, scope, contents, file. Or
/// the text of the error of parsing.
pub fn parsed_texts(alloc: Global, bytes: &[u8]) -> Result<String, AllocError> {
    let map = match CompiledMap::parse(bytes) {
        Ok(map) => map,
        Err(error) => return format!(in alloc; "{error}"),
    };
    let source = answer_text(alloc, map.source(0))?;
    let name = answer_text(alloc, map.name(0))?;
    let scope = answer_text(alloc, map.scope(0))?;
    let contents = answer_text(alloc, map.source_contents(0))?;
    let file = answer_text(alloc, map.file())?;
    format!(in alloc; "{source}|{name}|{scope}|{contents}|{file}")
}

/// Returns `ok`, or the text of the error of parsing or of `verify`.
pub fn verified(alloc: Global, bytes: &[u8]) -> Result<String, AllocError> {
    match CompiledMap::parse(bytes).and_then(|map| map.verify()) {
        Ok(()) => String::from_str(alloc, "ok"),
        Err(error) => format!(in alloc; "{error}"),
    }
}

/// Returns the index of the token, its generated position, then source, original position, name
/// and scope, and `range` if it is a range token.
pub fn token_text(alloc: Global, token: &CompiledToken<'_>) -> Result<String, AllocError> {
    let (line, column) = token.get_dst();
    let (source_line, source_column) = token.get_src();
    let index = token.get_index();
    let source = answer_text(alloc, token.get_source())?;
    let name = answer_text(alloc, token.get_name())?;
    let scope = answer_text(alloc, token.get_scope())?;
    let range = if token.is_range() { " range" } else { "" };
    format!(in alloc;
        "{index} {line}:{column} {source} {source_line}:{source_column} {name} {scope}{range}"
    )
}

/// Returns the `token_text` of the token closest to a position, or `none`; or the text of the error
/// of parsing.
pub fn lookup_text(
    alloc: Global,
    bytes: &[u8],
    line: u32,
    column: u32,
) -> Result<String, AllocError> {
    let map = match CompiledMap::parse(bytes) {
        Ok(map) => map,
        Err(error) => return format!(in alloc; "{error}"),
    };
    found_text(alloc, map.lookup_token(line, column))
}

/// As `lookup_text`, by the call that is for loops.
pub fn looped_text(
    alloc: Global,
    bytes: &[u8],
    line: u32,
    column: u32,
) -> Result<String, AllocError> {
    let map = match CompiledMap::parse(bytes) {
        Ok(map) => map,
        Err(error) => return format!(in alloc; "{error}"),
    };
    found_text(alloc, map.lookup_token_in_loop(line, column))
}

/// Returns the `token_text` of the token with this index, or `none`; or the text of the error of
/// parsing.
pub fn indexed_text(alloc: Global, bytes: &[u8], index: usize) -> Result<String, AllocError> {
    let map = match CompiledMap::parse(bytes) {
        Ok(map) => map,
        Err(error) => return format!(in alloc; "{error}"),
    };
    found_text(alloc, map.get_token(index))
}

fn found_text(alloc: Global, found: Option<CompiledToken<'_>>) -> Result<String, AllocError> {
    match found {
        Some(token) => token_text(alloc, &token),
        None => String::from_str(alloc, "none"),
    }
}
