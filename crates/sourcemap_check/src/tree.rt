//! The findings of a map and of the maps in its sections.
ghost use Rattle.std.specs.Prelude.{◌≡◌, List, IfOk, IfErr, option_map, codes};
ghost use Rattle.serde_json.specs.View.{view, items_view};
ghost use Rattle.sourcemap_errors.specs.declared.errors.Error.TheVariants.{OutOfMemory};
ghost use Rattle.sourcemap_check_report.specs.Report.{Reports};
ghost use Rattle.sourcemap_check_report.specs.declared.report.Finding.{Finding};
ghost use Rattle.sourcemap_check.specs.Trees.{tree_of, inner_of, sections_from};
ghost use Rattle.sourcemap_check_keys.specs.Values.{list_at};
ghost use Rattle.sourcemap_check.specs.Steps.{ChecksTree, ChecksInner, ChecksSections};

use crate::keys::{add_keys, add_text, text_last};
use crate::sections::{Previous, SectionPlace, add_section, later_of, moved_by, start_of};
use serde_json::Value;
use sourcemap_check_report::report::Report;
use sourcemap_check_segments::last::Position;
use sourcemap_errors::errors::Result;

/// Where a map is: in the section with this index of the map with this number. Of the whole both
/// are 0.
#[derive(Clone, Copy, Debug, PartialEq, Eq)]
pub struct MapPlace {
    /// The number of the map that has the section.
    pub map: usize,
    /// The index of the section.
    pub section: usize,
}

/// What a check has found.
#[derive(Drop)]
pub struct Checked {
    /// The findings.
    pub report: Report,
    /// The maps that were checked, by their numbers.
    pub maps: Vec<MapPlace>,
}

// Adds the findings of a map, and of the maps in its sections. Returns its last position.
#[cycle(tree)]
pub(crate) fn check_map(
    checked: &mut Checked,
    most: usize,
    map: &Value,
    place: MapPlace,
) -> Result<Option<Position>>
    ensures tree { (all : List Finding) → Reports most all checked.old.report
        → IfOk result (ChecksTree most all checked.old checked.new place (tree_of (view map.now))) }
    ensures memory { IfErr result (λ e. e ≡ OutOfMemory) }
{
    let own = checked.maps.len();
    checked.maps.push(place)?;
    add_keys(&mut checked.report, most, own, map)?;
    add_text(&mut checked.report, most, own, map)?;
    let last = match list_of_sections(map) {
        Some(sections) => check_sections(checked, most, own, sections.as_slice())?,
        None => None,
    };
    Ok(later_of(last, text_last(map)))
}

fn list_of_sections(map: &Value) -> Option<&Vec<Value>>
    ensures { option_map (λ v. items_view v.now.items) result ≡ list_at (codes "sections") (view map.now) }
{
    map.get("sections")?.as_array()
}

// Adds the findings of sections, and of the maps in them. Returns the last position in them.
#[cycle(tree)]
fn check_sections(
    checked: &mut Checked,
    most: usize,
    own: usize,
    sections: &[Value],
) -> Result<Option<Position>>
    ensures sections { (all : List Finding) → Reports most all checked.old.report
        → IfOk result (ChecksSections most all own checked.old checked.new
        (sections_from (items_view sections.now))) }
    ensures memory { IfErr result (λ e. e ≡ OutOfMemory) }
{
    let mut previous = Previous {
        start: None,
        last: None,
    };
    let mut last = None;
    for (index, section) in sections.iter().enumerate() {
        let place = SectionPlace { map: own, index };
        add_section(&mut checked.report, most, place, previous, section)?;
        let start = start_of(section);
        let inner = check_inner(checked, most, section, place)?;
        previous = Previous {
            start,
            last: moved_by(start, inner),
        };
        last = later_of(last, previous.last);
    }
    Ok(last)
}

// Adds the findings of the map in a section, if there is one. Returns its last position.
#[cycle(tree)]
fn check_inner(
    checked: &mut Checked,
    most: usize,
    section: &Value,
    place: SectionPlace,
) -> Result<Option<Position>>
    ensures inner { (all : List Finding) → Reports most all checked.old.report
        → IfOk result (ChecksInner most all checked.old checked.new
        (record { map = place.map; section = place.index }) (inner_of (view section.now))) }
    ensures memory { IfErr result (λ e. e ≡ OutOfMemory) }
{
    match section.get("map") {
        Some(map) if map.is_object() => {
            let place = MapPlace {
                map: place.map,
                section: place.index,
            };
            check_map(checked, most, map, place)
        }
        _ => Ok(None),
    }
}
