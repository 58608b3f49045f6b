//! The tokens in the text of a module.
ghost use Rattle.std.specs.Prelude.{◌≡◌, ◌≤◌, ℕ, All, filter, length, take, drop, not};
ghost use Rattle.std.specs.Ordering.{is_lt};
ghost use Rattle.sourcemap_tokens.specs.Tokens.{AreInOrder, destination, position_cmp};
ghost use Rattle.sourcemap_bundle_split.specs.ModuleMap.{end_of, tokens_in};
ghost use Rattle.sourcemap_bundle_split.specs.Lines.{IsBound};

use sourcemap_source_views::columns::units_in;
use sourcemap_source_views::sourceview::SourceView;
use sourcemap_tokens::tokens::RawToken;

/// A generated position. Unlike in a token, its line and its column may be above 4294967295.
#[derive(Clone, Copy)]
pub(crate) struct Bound {
    line: u64,
    column: u64,
}

/// Returns the end position of the module's text `view`, which begins at column 0 of `line`. A text
/// of 3 lines that begins at line 10 ends on line 12. The end column is the length of the text's
/// last line in UTF-16 units. If the end line is above 4294967295, the result may be another
/// position whose line is above 4294967295.
pub(crate) fn end_of(line: u32, view: &SourceView) -> Bound
    ensures { IsBound result (end_of line view.now) }
{
    let last = view.line_count().saturating_sub(1) as u64;
    let text = match u32::try_from(last) {
        Ok(last) => view.get_line(last).unwrap_or(""),
        Err(_) => "",
    };
    Bound {
        line: u64::from(line).saturating_add(last),
        column: units_in(text),
    }
}

/// Returns the tokens at or after the start of `line`, and before `end`.
pub(crate) fn tokens_in(tokens: &[RawToken], line: u32, end: Bound) -> &[RawToken]
    requires { AreInOrder tokens.now }
    ensures tokens { (e : ℕ × ℕ) → IsBound end e → result.now ≡ tokens_in line e tokens.now }
    ensures later { All (λ t. line ≤ t.dst_line) result.now }
    ensures in_order { AreInOrder result.now }
{
    let start = Bound {
        line: u64::from(line),
        column: 0,
    };
    let (_, later) = tokens.split_at(first_at(tokens, start));
    let (own, _) = later.split_at(first_at(later, end));
    own
}

// The number of tokens before a bound.
fn first_at(tokens: &[RawToken], bound: Bound) -> usize
    requires { AreInOrder tokens.now }
    ensures within { result ≤ length tokens.now }
    ensures before { (b : ℕ × ℕ) → IsBound bound b
        → take result tokens.now ≡ filter (λ t. is_lt (position_cmp (destination t) b)) tokens.now }
    ensures from { (b : ℕ × ℕ) → IsBound bound b
        → drop result tokens.now ≡ filter (λ t. not (is_lt (position_cmp (destination t) b))) tokens.now }
{
    tokens.partition_point(|token| stands_before(token, bound))
}

fn stands_before(token: &RawToken, bound: Bound) -> bool
    ensures { (b : ℕ × ℕ) → IsBound bound b
        → result ≡ is_lt (position_cmp (destination token.now) b) }
{
    let line = u64::from(token.dst_line);
    line < bound.line || (line == bound.line && u64::from(token.dst_col) < bound.column)
}
