//! The order of tokens, by the results of their getters.
ghost use Rattle.std.specs.Prelude.{◌≡◌};
ghost use Rattle.std.specs.Option.{option_copied};
ghost use Rattle.std.proofs.Common.{rules};
ghost use Rattle.std.specs.Cmp.{partial_order_from_own_ties, partial_equiv_from_equiv};
ghost use Rattle.std.specs.Cmp.Rules.{comparing};
ghost use Rattle.std.specs.Ordering.{as_partial_cmp};
ghost use Rattle.sourcemap_map_regular.specs.TokenOrder.{text_cmp, token_cmp, same_token, token_cmp_total};
ghost use Rattle.sourcemap_map_regular.specs.TokenOrder.{same_token_equiv};

use crate::token::Token;
use std::cmp::Ordering;

// `None` comes first.
fn compare_texts(a: Option<&str>, b: Option<&str>) -> Ordering
    ensures { result ≡ text_cmp (option_copied a.entry) (option_copied b.entry) }
{
    match (a, b) {
        (None, None) => Ordering::Equal,
        (None, Some(_)) => Ordering::Less,
        (Some(_), None) => Ordering::Greater,
        (Some(a), Some(b)) => a.cmp(b),
    }
}

fn compare(a: &Token<'_>, b: &Token<'_>) -> Ordering
    ensures { result ≡ token_cmp a.now b.now }
{
    let position = a
        .get_dst_line()
        .cmp(&b.get_dst_line())
        .then(a.get_dst_col().cmp(&b.get_dst_col()));
    let source = compare_texts(a.get_source(), b.get_source());
    let line = a.get_src_line().cmp(&b.get_src_line());
    let column = a.get_src_col().cmp(&b.get_src_col());
    let name = compare_texts(a.get_name(), b.get_name());
    position
        .then(source)
        .then(line)
        .then(column)
        .then(name)
        .then(a.is_range().cmp(&b.is_range()))
}

/// Tokens are equal if their getters return equal positions, texts and range flags; ids may differ.
impl PartialEq for Token<'_> {
    ghost eq = { same_token };

    ghost laws = { partial_equiv_from_equiv same_token_equiv };

    fn eq(&self, other: &Self) -> bool {
        compare(self, other) == Ordering::Equal
    }
}

impl Eq for Token<'_> {
    ghost laws = { same_token_equiv };
}

/// Compares generated position, source, original position, name and range flag, in this order, as
/// the getters return them. A missing source or name comes first.
impl Ord for Token<'_> {
    ghost cmp = { token_cmp };

    ghost total = { token_cmp_total };

    ghost matches_partial_cmp = { Prim.search (comparing, rules) depth 12 };

    ghost matches_eq = { Prim.search (comparing, rules) depth 12 };

    fn cmp(&self, other: &Self) -> Ordering {
        compare(self, other)
    }
}

impl PartialOrd for Token<'_> {
    ghost partial_cmp = { as_partial_cmp token_cmp };

    ghost laws = { partial_order_from_own_ties (Prim.search (comparing, rules) depth 12)
        (Prim.search (comparing, rules) depth 12) };

    fn partial_cmp(&self, other: &Self) -> Option<Ordering> {
        Some(compare(self, other))
    }
}
