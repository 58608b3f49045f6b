//! Compares an index map with its flattened map.
ghost use Rattle.std.specs.Prelude.{◌≡◌, Err, IfErr, IfOk, IfSome, IsTrue, Some, option_map};
ghost use Rattle.std.specs.Bool.{Decides};
ghost use Rattle.std.specs.Option.{option_copied};
ghost use Rattle.sourcemap.specs.Answer.{UnlessMemory};
ghost use Rattle.sourcemap.specs.AnyMap.{index_value};
ghost use Rattle.sourcemap.specs.Flat.{FlatAnswer};
ghost use Rattle.sourcemap.specs.FlatList.{IsOrderly};
ghost use Rattle.sourcemap.specs.Token.{meaning_of_token};
ghost use Rattle.sourcemap.specs.Trees.{IsInOrder, index_tree};
ghost use Rattle.sourcemap_uses.specs.Flattening.{DecidesWhetherKept};

use sourcemap::laws::orderly_maps_are_in_order;
use sourcemap::{Result, SourceMapIndex, Token};

fn are_same_texts(a: Option<&str>, b: Option<&str>) -> bool
    ensures { Decides result (option_copied a.entry ≡ option_copied b.entry) }
{
    match (a, b) {
        (None, None) => true,
        (Some(a), Some(b)) => a == b,
        _ => false,
    }
}

// Whether two tokens have the same source, original position and name, and both or neither are
// range tokens.
fn have_same_meaning(before: &Token<'_>, after: &Token<'_>) -> bool
    ensures { Decides result (meaning_of_token before.now ≡ meaning_of_token after.now) }
{
    let is_one_source = are_same_texts(before.get_source(), after.get_source());
    let is_one_line = before.get_src_line() == after.get_src_line();
    let is_one_column = before.get_src_col() == after.get_src_col();
    let is_one_name = are_same_texts(before.get_name(), after.get_name());
    let is_one_kind = before.is_range() == after.is_range();
    is_one_source & is_one_line & is_one_column & is_one_name & is_one_kind
}

// Whether the token `after` has the meaning of the token `before`. True if there is no `before`.
// False if there is only `before`.
fn keeps_meaning(before: Option<Token<'_>>, after: Option<Token<'_>>) -> bool
    ensures { Decides result (IfSome (option_map meaning_of_token before.entry)
        (λ says. option_map meaning_of_token after.entry ≡ Some says)) }
{
    match (before, after) {
        (None, _) => true,
        (Some(_), None) => false,
        (Some(before), Some(after)) => have_same_meaning(&before, &after),
    }
}

/// Returns whether flattening keeps what an index map returns for a position: the source, the
/// original line and column, the name, and whether the token is a range token. The result is true
/// if the index map has no token for the position. The result is true for every position if, at
/// every level of nesting, the offset and all tokens of each section are before the offset of the
/// next section. If the sections of a level are not sorted by offset, the result may be wrong.
/// Decoding sorts the sections of every level. Returns the errors of `SourceMapIndex::flatten`.
pub fn is_kept_flat(index: &SourceMapIndex, line: u32, col: u32) -> Result<bool>
    ensures exact { IfOk result (λ is_kept. IsInOrder (index_tree (index_value index.now))
        → DecidesWhetherKept is_kept (index_tree (index_value index.now)) (line, col)) }
    ensures orderly { IfOk result
        (λ is_kept. IsOrderly (index_tree (index_value index.now)) → IsTrue is_kept) }
    ensures error { IfErr result
        (λ e. UnlessMemory e (FlatAnswer (index_tree (index_value index.now)) (Err e))) }
{
    orderly_maps_are_in_order();
    let flat = index.flatten()?;
    let before = index.lookup_token(line, col);
    let after = flat.lookup_token(line, col);
    Ok(keeps_meaning(before, after))
}
