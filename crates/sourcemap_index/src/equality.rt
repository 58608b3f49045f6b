//! Equality (`PartialEq`) of the types `DecodedMap`, `SourceMapIndex` and `SourceMapSection`.
ghost use Rattle.std.specs.Prelude.{◌≡◌, map, nat_eq, option_map, string_bytes};
ghost use Rattle.std.specs.Bool.{Decides};
ghost use Rattle.std.specs.Ordering.{on};
ghost use Rattle.std.specs.Option.{option_eq};
ghost use Rattle.std.specs.Cmp.{on_equiv, partial_equiv_from_equiv};
ghost use Rattle.std.specs.Cmp.Lexicographic.{pointwise};
ghost use Rattle.sourcemap_map_parts.specs.TextLists.{same_text};
ghost use Rattle.sourcemap_index_model.specs.Equality.{same_parts, same_tree};
ghost use Rattle.sourcemap_index_model.proofs.EqualityLemmas.{same_tree_equiv};
ghost use Rattle.sourcemap_index.specs.Equality.{same_index, same_index_equiv, same_section, same_section_equiv};
ghost use Rattle.sourcemap_index.specs.Family.{index_value, map_tree, section_value};

use crate::family::{DecodedMap, SourceMapIndex, SourceMapSection};
use sourcemap_map_parts::text_lists::{same_optional_texts, same_texts};

fn same_lines(a: &Option<Vec<Option<u32>>>, b: &Option<Vec<Option<u32>>>) -> bool
    ensures { result ≡ option_eq (pointwise (option_eq nat_eq))
        (option_map (λ v. v.items) a.now) (option_map (λ v. v.items) b.now) }
{
    a == b
}

fn same_paths(a: &Option<Vec<String>>, b: &Option<Vec<String>>) -> bool
    ensures { result ≡ option_eq (pointwise same_text)
        (option_map (λ v. map string_bytes v.items) a.now)
        (option_map (λ v. map string_bytes v.items) b.now) }
{
    match (a, b) {
        (Some(a), Some(b)) => same_texts(a, b),
        (None, None) => true,
        _ => false,
    }
}

// Whether the two index maps have equal files, debug ids, `x_facebook_offsets` and
// `x_metro_module_paths`. The sections are not compared.
fn have_same_parts(a: &SourceMapIndex, b: &SourceMapIndex) -> bool
    ensures { result ≡ same_parts (index_value a.now).parts (index_value b.now).parts }
{
    let file = same_optional_texts(&a.file, &b.file);
    let debug_id = a.debug_id == b.debug_id;
    let lines = same_lines(&a.x_facebook_offsets, &b.x_facebook_offsets);
    let paths = same_paths(&a.x_metro_module_paths, &b.x_metro_module_paths);
    // prover: `&` leaves one goal
    file & debug_id & lines & paths
}

#[cycle(equality)]
fn are_same_maps(a: &DecodedMap, b: &DecodedMap) -> bool
    ensures { result ≡ same_tree (map_tree a.now) (map_tree b.now) }
{
    match (a, b) {
        (DecodedMap::Regular(a), DecodedMap::Regular(b)) => a == b,
        (DecodedMap::Index(a), DecodedMap::Index(b)) => are_same_indexes(a, b),
        (DecodedMap::Hermes(a), DecodedMap::Hermes(b)) => a == b,
        _ => false,
    }
}

#[cycle(equality)]
fn are_same_indexes(a: &SourceMapIndex, b: &SourceMapIndex) -> bool
    ensures { result ≡ same_index (index_value a.now) (index_value b.now) }
{
    let parts = have_same_parts(a, b);
    let sections = are_same_lists(a.sections.as_slice(), b.sections.as_slice());
    parts & sections
}

#[cycle(equality)]
fn are_same_lists(a: &[SourceMapSection], b: &[SourceMapSection]) -> bool
    ensures { result
        ≡ pointwise same_section (map section_value a.now) (map section_value b.now) }
{
    if a.len() != b.len() {
        return false;
    }
    for (section, other) in a.iter().zip(b) {
        if !are_same_sections(section, other) {
            return false;
        }
    }
    true
}

#[cycle(equality)]
fn are_same_sections(a: &SourceMapSection, b: &SourceMapSection) -> bool
    ensures { result ≡ same_section (section_value a.now) (section_value b.now) }
{
    let offset = a.offset == b.offset;
    let url = same_optional_texts(&a.url, &b.url);
    let map = match (&a.map, &b.map) {
        (Some(map), Some(other)) => are_same_maps(map, other),
        (None, None) => true,
        _ => false,
    };
    offset & url & map
}

/// Sections are equal exactly if their offsets, URLs and maps are equal.
impl PartialEq for SourceMapSection {
    ghost eq = { on section_value same_section };

    ghost laws = { partial_equiv_from_equiv (on_equiv section_value same_section_equiv) };

    fn eq(&self, other: &Self) -> bool
        ensures value { result ≡ same_section (section_value self.now) (section_value other.now) }
        ensures same { Decides result (section_value self.now ≡ section_value other.now) }
    {
        are_same_sections(self, other)
    }
}

/// Index maps are equal exactly if their files, debug ids, `x_facebook_offsets`,
/// `x_metro_module_paths` and lists of sections are equal.
impl PartialEq for SourceMapIndex {
    ghost eq = { on index_value same_index };

    ghost laws = { partial_equiv_from_equiv (on_equiv index_value same_index_equiv) };

    fn eq(&self, other: &Self) -> bool
        ensures value { result ≡ same_index (index_value self.now) (index_value other.now) }
        ensures same { Decides result (index_value self.now ≡ index_value other.now) }
    {
        are_same_indexes(self, other)
    }
}

/// Maps are equal exactly if they are of one kind and their parts are equal.
impl PartialEq for DecodedMap {
    ghost eq = { on map_tree same_tree };

    ghost laws = { partial_equiv_from_equiv (on_equiv map_tree same_tree_equiv) };

    fn eq(&self, other: &Self) -> bool
        ensures value { result ≡ same_tree (map_tree self.now) (map_tree other.now) }
        ensures same { Decides result (map_tree self.now ≡ map_tree other.now) }
    {
        are_same_maps(self, other)
    }
}
