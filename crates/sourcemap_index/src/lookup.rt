//! The lookup of a position in a map of any kind.
ghost use Rattle.std.specs.Prelude.{◌≡◌, IfSome, IsSortedByKey, option_and_then, option_map};
ghost use Rattle.sourcemap_tokens.specs.Search.{closest_item};
ghost use Rattle.sourcemap_tokens.specs.Tokens.{position_cmp};
ghost use Rattle.sourcemap_map_regular.specs.Token.{meaning_of_token, token_value};
ghost use Rattle.sourcemap_index_model.specs.MapTree.{index_tree, section_offset};
ghost use Rattle.sourcemap_index_model.specs.Meaning.{relative_position, lookup, meaning};
ghost use Rattle.sourcemap_index_model.specs.WellFormed.{IsInOrder};

use crate::family::{DecodedMap, SourceMapIndex, SourceMapSection};
use sourcemap_map_regular::token::Token;
use sourcemap_tokens::search::greatest_lower_bound;

// The position (`line`, `col`) relative to `offset`, the offset of a section. The offset's column
// is subtracted only on the section's first line. `offset` is never after the position, so
// `saturating_sub` gives the exact difference.
fn relative_position(offset: (u32, u32), line: u32, col: u32) -> (u32, u32)
    ensures { result ≡ relative_position offset (line, col) }
{
    let col = if line == offset.0 {
        col.saturating_sub(offset.1)
    } else {
        col
    };
    (line.saturating_sub(offset.0), col)
}

impl SourceMapIndex {
    ghost use Rattle.sourcemap_index.specs.Family.{index_value, map_tree, section_value};
    ghost use Rattle.sourcemap_index.specs.Lookup.{HasToken, IsAmong, IsInner};

    fn closest_section(&self, line: u32, col: u32) -> Option<&SourceMapSection>
        ensures own { IfSome result
            (λ s. IsAmong (index_value self.now).sections (section_value s.now)) }
        ensures closest { IsSortedByKey section_offset position_cmp (index_value self.now).sections
            → option_map (λ s. section_value s.now) result
            ≡ closest_item section_offset position_cmp (index_value self.now).sections (line, col) }
    {
        let sections = self.sections.as_slice();
        let (_, section) = greatest_lower_bound(
            sections,
            &(line, col),
            SourceMapSection::get_offset,
        )?;
        Some(section)
    }

    // The map of the closest section, and the position relative to the offset of this section.
    #[inline(always)]
    fn closest_map(&self, line: u32, col: u32) -> Option<(&DecodedMap, (u32, u32))>
        ensures inner { IfSome result
            (λ at. IsInner (index_value self.now).sections (map_tree at.0.now)) }
        ensures in_order { IsInOrder (index_tree (index_value self.now))
            → IfSome result (λ at. IsInOrder (map_tree at.0.now)) }
        ensures value { IsInOrder (index_tree (index_value self.now))
            → option_and_then (λ at. lookup (map_tree at.0.now) at.1) result
            ≡ lookup (index_tree (index_value self.now)) (line, col) }
    {
        let section = self.closest_section(line, col)?;
        let position = relative_position(section.offset, line, col);
        match &section.map {
            Some(map) => Some((&**map, position)),
            None => None,
        }
    }

    // Goes from section to section down to a map without sections, and looks the position up in
    // this map, without its table of lines. If lookups alternate between many maps, for example
    // between the maps of sections, this search is usually faster than a search with the table.
    fn closest_token(&self, line: u32, col: u32) -> Option<Token<'_>>
        ensures value { IsInOrder (index_tree (index_value self.now))
            → option_map token_value result
            ≡ lookup (index_tree (index_value self.now)) (line, col) }
        ensures found { IfSome result
            (λ token. HasToken (index_tree (index_value self.now)) (token_value token)) }
    {
        let mut index = self;
        let mut position = (line, col);
        'levels: loop {
            let (map, (line, col)) = index.closest_map(position.0, position.1)?;
            match map {
                DecodedMap::Regular(map) => return map.lookup_token_among_many(line, col),
                DecodedMap::Hermes(map) => return map.lookup_token_among_many(line, col),
                DecodedMap::Index(inner) => {
                    index = inner;
                    position = (line, col);
                }
            }
        }
    }

    /// The token closest to a generated position. Only one section is searched: the first section
    /// whose offset is the position, or else the last section whose offset is before it. The
    /// position is looked up in the map of this section, relative to the offset. The offset's
    /// column is subtracted only on the section's first line. If this map is an index map, one of
    /// its sections is searched in the same way. The index and the generated position of the token
    /// are those in the regular map or Hermes map that has the token.
    ///
    /// `None` if no section starts at or before the position, if the closest section has no map, or
    /// if the lookup in this map finds no token. Requires sections sorted by offset at every depth;
    /// otherwise the result is some token of one of the maps in the index map, or `None`.
    pub fn lookup_token(&self, line: u32, col: u32) -> Option<Token<'_>>
        ensures value { IsInOrder (index_tree (index_value self.now))
            → option_map token_value result
            ≡ lookup (index_tree (index_value self.now)) (line, col) }
        ensures meaning { IsInOrder (index_tree (index_value self.now))
            → option_map meaning_of_token result
            ≡ meaning (index_tree (index_value self.now)) (line, col) }
        ensures found { IfSome result
            (λ token. HasToken (index_tree (index_value self.now)) (token_value token)) }
    {
        self.closest_token(line, col)
    }
}

impl DecodedMap {
    ghost use Rattle.sourcemap_index.specs.Family.{map_tree};
    ghost use Rattle.sourcemap_index.specs.Lookup.{HasToken};

    // The token that `lookup_token` returns. A regular map or a Hermes map is searched with its
    // table of lines.
    #[inline(always)]
    fn closest_token(&self, line: u32, col: u32) -> Option<Token<'_>>
        ensures value { IsInOrder (map_tree self.now)
            → option_map token_value result ≡ lookup (map_tree self.now) (line, col) }
        ensures found { IfSome result (λ token. HasToken (map_tree self.now) (token_value token)) }
    {
        match self {
            DecodedMap::Regular(map) => map.lookup_token(line, col),
            DecodedMap::Hermes(map) => map.lookup_token(line, col),
            DecodedMap::Index(index) => index.closest_token(line, col),
        }
    }

    /// The token closest to a generated position: the first token at the position, or else the last
    /// token before the position, on the same line or on an earlier line. `None` if all tokens are
    /// after the position. If the token is a range token on the line of the position, `get_src_col`
    /// of the token returns the original column plus the number of columns from the token to the
    /// position, but at most 4294967295. In an index map only the closest section is searched, as
    /// by `SourceMapIndex::lookup_token`. The search of an index map requires sections sorted by
    /// offset at every depth.
    #[inline(always)]
    pub fn lookup_token(&self, line: u32, col: u32) -> Option<Token<'_>>
        ensures value { IsInOrder (map_tree self.now)
            → option_map token_value result ≡ lookup (map_tree self.now) (line, col) }
        ensures meaning { IsInOrder (map_tree self.now)
            → option_map meaning_of_token result ≡ meaning (map_tree self.now) (line, col) }
        ensures found { IfSome result (λ token. HasToken (map_tree self.now) (token_value token)) }
    {
        self.closest_token(line, col)
    }
}
