//! Raw tokens, their order, and the token closest to a generated position.
ghost use Rattle.std.specs.Prelude.{◌≡◌, ℕ, ◌+◌, List, IsOk, IsTrue, ◌↔◌, OnOk, OnErr, IfErr, IfSome, Some, false};
ghost use Rattle.std.specs.Prelude.{option_map, slice_get, true};
ghost use Rattle.std.specs.Ordering.{is_eq, is_lt};
ghost use Rattle.std.specs.List.Sorted.{IsStableByKey};
ghost use Rattle.sourcemap_tokens.specs.Tokens.{AreInOrder, closest_token, destination, in_order, position_cmp};
ghost use Rattle.sourcemap_tokens.specs.Tokens.{reduced, with_valid_name};
ghost use Rattle.sourcemap_tokens.specs.Search.{closest_item};
ghost use Rattle.sourcemap_tokens.specs.declared.tokens.RawToken.{RawToken};
ghost use Rattle.sourcemap_errors.specs.declared.errors.Error.TheVariants.{OutOfMemory};

use sourcemap_errors::errors::Result;

/// The id for no source and for no name. Decoding turns a segment with one number into a token with
/// `NO_ID` as source id, name id, original line and original column. A token that was not decoded
/// can have any original line and column, even if its source id is `NO_ID`.
pub const NO_ID: u32 = 4294967295;

/// One mapping: a generated position (`dst`), and the original position (`src`) and name that it
/// maps to. Lines and columns count from 0, columns in UTF-16 code units. But in a map of Hermes
/// bytecode, a generated column is an offset in the bytecode. The id [`NO_ID`] means no source or
/// no name.
#[derive(Clone, Copy, Debug, PartialEq, Eq)]
pub struct RawToken {
    /// Generated line.
    pub dst_line: u32,
    /// Generated column.
    pub dst_col: u32,
    /// Original line. It is [`NO_ID`] in a decoded token without a source.
    pub src_line: u32,
    /// Original column. It is [`NO_ID`] in a decoded token without a source.
    pub src_col: u32,
    /// Source id, [`NO_ID`] for no source.
    pub src_id: u32,
    /// Name id, [`NO_ID`] for no name.
    pub name_id: u32,
    /// Whether this is a range mapping, which maps the rest of its line, up to the next token.
    pub is_range: bool,
}

fn is_before(token: &RawToken, line: u32, col: u32) -> bool
    ensures { result ≡ is_lt (position_cmp (destination token.now) (line, col)) }
{
    token.dst_line < line || (token.dst_line == line && token.dst_col < col)
}

fn is_at(token: &RawToken, line: u32, col: u32) -> bool
    ensures { result ≡ is_eq (position_cmp (destination token.now) (line, col)) }
{
    token.dst_line == line && token.dst_col == col
}

/// Whether the tokens are sorted by generated position.
pub fn tokens_in_order(tokens: &[RawToken]) -> bool
    ensures { IsTrue result ↔ AreInOrder tokens.now }
{
    let mut line = 0;
    let mut col = 0;
    for token in tokens {
        if is_before(token, line, col) {
            return false;
        }
        line = token.dst_line;
        col = token.dst_col;
    }
    true
}

/// Sorts tokens by generated position. The sort is stable. Allocates only if the tokens are not
/// sorted yet. The only error is `OutOfMemory`, and then the tokens are unchanged.
pub fn sort_tokens(tokens: &mut Vec<RawToken>) -> Result<()>
    ensures sorted { OnOk result (tokens.new.items ≡ in_order tokens.old.items) }
    ensures unchanged { OnErr result (tokens.new.items ≡ tokens.old.items) }
    ensures memory { IfErr result (λ cause. cause ≡ OutOfMemory) }
    ensures in_place { AreInOrder tokens.old.items → IsOk result }
{
    if !tokens_in_order(tokens.as_slice()) {
        tokens.sort_by_key(|token| (token.dst_line, token.dst_col))?;
    }
    Ok(())
}

/// Returns the token closest to a generated position, with its index: the first token at the
/// position, otherwise the last token before it. Returns `None` if there is no such token. Line and
/// column count from 0. Requires sorted tokens.
pub fn closest_token(tokens: &[RawToken], line: u32, col: u32) -> Option<(usize, RawToken)>
    requires { AreInOrder tokens.now }
    ensures answer { result ≡ closest_token tokens.now (line, col) }
    ensures own_index { IfSome result (λ found. slice_get tokens.now found.0 ≡ Some found.1) }
{
    let mut low = 0;
    let mut high = tokens.len();
    while low < high {
        let middle = low + (high - low) / 2;
        if is_before(&tokens[middle], line, col) {
            low = middle + 1;
        } else {
            high = middle;
        }
    }
    if low < tokens.len() {
        let token = tokens[low];
        if is_at(&token, line, col) {
            return Some((low, token));
        }
    }
    if low == 0 {
        return None;
    }
    Some((low - 1, tokens[low - 1]))
}

/// A law: every stable sort of tokens by generated position gives the same list.
pub fn one_stable_order(tokens: &[RawToken], sorted: &[RawToken])
    ensures { AreInOrder sorted.now → IsStableByKey destination position_cmp tokens.now sorted.now
        → sorted.now ≡ in_order tokens.now }
{}

/// A law about `reduced`. `reduced` removes each token that is equal to the token before it. If a
/// name id is not below `names`, `reduced` replaces this id by [`NO_ID`]. The law compares two
/// searches for the token closest to a generated position: in `tokens` and in the reduced list.
/// Both searches find the same token, apart from the replaced name id, or both find none. The
/// tokens need not be sorted.
pub fn reduced_answers_alike(tokens: &[RawToken], names: u32, line: u32, col: u32)
    ensures { closest_item destination position_cmp (reduced names tokens.now) (line, col)
        ≡ option_map (with_valid_name names)
        (closest_item destination position_cmp tokens.now (line, col)) }
{}

/// A law about sorted tokens. Let `closest_token` return the token `t` for a position `p`. Then
/// `closest_token` also returns `t` for each later position that is before the token after `t`. If
/// `t` is the last token, `closest_token` returns `t` for every later position.
pub fn closest_tokens_stay()
    ensures { (tokens : List RawToken) (p q : ℕ × ℕ) (found : ℕ × RawToken) → AreInOrder tokens
        → closest_token tokens p ≡ Some found → is_lt (position_cmp q p) ≡ false
        → IfSome (slice_get tokens (found.0 + 1))
        (λ next. is_lt (position_cmp q (destination next)) ≡ true)
        → closest_token tokens q ≡ Some found }
{}
