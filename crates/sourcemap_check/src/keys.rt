//! The findings of the keys and of the text of one map.
ghost use Rattle.std.specs.Prelude.{◌≡◌, ◌++◌, List, OnOk, IfErr, codes, option_map, option_and_then};
ghost use Rattle.serde_json.specs.Find.{get, as_str};
ghost use Rattle.serde_json.specs.View.{view};
ghost use Rattle.sourcemap_errors.specs.declared.errors.Error.TheVariants.{OutOfMemory};
ghost use Rattle.sourcemap_check_report.specs.Report.{Reports};
ghost use Rattle.sourcemap_check_report.specs.declared.report.Finding.{Finding};
ghost use Rattle.sourcemap_check.specs.Positions.{text_last};
ghost use Rattle.sourcemap_check.specs.Findings.{key_findings, text_findings};

use crate::sections::push_if;
use serde_json::Value;
use sourcemap_check_keys::map_rules::{breaks, is_index};
use sourcemap_check_keys::values::count_at;
use sourcemap_check_report::report::{Finding, Report};
use sourcemap_check_report::rules::{MAP_RULES, Rule};
use sourcemap_check_segments::check::add_segments;
use sourcemap_check_segments::last::{Position, last_position};
use sourcemap_errors::errors::Result;

// Adds the findings of a map by the rules on its keys.
pub(crate) fn add_keys(report: &mut Report, most: usize, own: usize, map: &Value) -> Result<()>
    ensures added { (all : List Finding) → Reports most all report.old
        → OnOk result (Reports most (all ++ key_findings own (view map.now)) report.new) }
    ensures memory { IfErr result (λ e. e ≡ OutOfMemory) }
{
    for rule in MAP_RULES {
        let is_broken = breaks(map, rule);
        let finding = Finding {
            rule: Rule::Map(rule),
            map: own,
            line: 0,
            index: 0,
        };
        push_if(report, most, finding, is_broken)?;
    }
    Ok(())
}

// The text `mappings`, if there is one.
fn mappings_of(map: &Value) -> Option<&str>
    ensures { option_map (λ s. s.now) result
        ≡ option_and_then as_str (get (codes "mappings") (view map.now)) }
{
    map.get("mappings")?.as_str()
}

// Adds the findings of the text `mappings` of a map, which an index map has not.
pub(crate) fn add_text(report: &mut Report, most: usize, own: usize, map: &Value) -> Result<()>
    ensures added { (all : List Finding) → Reports most all report.old
        → OnOk result (Reports most (all ++ text_findings own (view map.now)) report.new) }
    ensures memory { IfErr result (λ e. e ≡ OutOfMemory) }
{
    if is_index(map) {
        return Ok(());
    }
    match mappings_of(map) {
        Some(mappings) => {
            let sources = count_at(map, "sources");
            let names = count_at(map, "names");
            add_segments(report, most, own, mappings, sources, names)
        }
        None => Ok(()),
    }
}

// The last position of the text `mappings`, which an index map has not.
pub(crate) fn text_last(map: &Value) -> Option<Position>
    ensures { result ≡ text_last (view map.now) }
{
    if is_index(map) {
        return None;
    }
    last_position(mappings_of(map)?)
}
