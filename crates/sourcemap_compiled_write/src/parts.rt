//! What a compiled map is written from.
use sourcemap_tokens::tokens::RawToken;

/// The tokens and texts of a map. A text that does not exist is `None`.
#[derive(Clone, Copy)]
pub struct FileParts<'a> {
    /// The tokens.
    pub tokens: &'a [RawToken],
    /// The scope of each token, by the index of the token: 0 for none, otherwise the id plus 1. A
    /// token past the end has no scope.
    pub scopes: &'a [u32],
    /// The sources by id, resolved against the `sourceRoot`.
    pub sources: &'a [Option<&'a str>],
    /// The names by id.
    pub names: &'a [Option<&'a str>],
    /// The scopes by id.
    pub scope_names: &'a [Option<&'a str>],
    /// The name of the generated file.
    pub file: Option<&'a str>,
    /// The contents by source id; empty to leave them out.
    pub contents: &'a [Option<&'a str>],
    /// The debug id.
    pub debug_id: Option<[u8; 16]>,
}
