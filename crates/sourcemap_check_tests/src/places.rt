// Where findings are, and how many are kept.
use sourcemap_check::check::{Options, check as check_map};
use sourcemap_check::tree::MapPlace;
use sourcemap_check_report::report::{Finding, Report};
use sourcemap_check_report::rules::{MapRule, Rule, SegmentRule, number_of};
use sourcemap_check_segments::check::add_segments;
use sourcemap_errors::errors::Result;
use sourcemap_test_support::checks::{Checked, check, check_that};
use std::alloc::Global;

// The first map is an index map with a source that is past its list, on line 2 of its section. The
// second starts within it, and has no version.
static NESTED: &str =
    r#"{"version":3,"sections":[{"offset":{"line":0,"column":0},"map":{"version":3,"sections":[{"offset":{"line":0,"column":0},"map":{"version":3,"sources":[],"mappings":"A;;A,AAAA"}}]}},{"offset":{"line":1,"column":0},"map":{"sources":[],"mappings":""}}]}"#;

fn places_text(alloc: Global, maps: &[MapPlace]) -> Result<String> {
    let mut text = String::new(alloc);
    for place in maps {
        let MapPlace { map, section } = *place;
        text.push_str(format!(in alloc; "{map}.{section} ")?.as_str())?;
    }
    Ok(text)
}

fn findings_text(alloc: Global, findings: &[Finding]) -> Result<String> {
    let mut text = String::new(alloc);
    for finding in findings {
        let Finding {
            rule,
            map,
            line,
            index,
        } = *finding;
        let number = number_of(rule);
        text.push_str(format!(in alloc; "{number}@{map} {line}:{index} ")?.as_str())?;
    }
    Ok(text)
}

#[test]
fn findings_have_places(rt: HostRuntime) -> Checked {
    let alloc = rt.alloc();
    let checked = check_map(alloc, NESTED.as_bytes(), Options { most: 9 })?;
    let findings = findings_text(alloc, checked.report.findings.as_slice());
    check("findings", findings, "39@2 2:1 19@0 0:1 2@3 0:0 ")?;
    let maps = places_text(alloc, checked.maps.as_slice());
    check("maps", maps, "0.0 0.0 1.0 0.1 ")
}

#[test]
fn findings_are_bounded(rt: HostRuntime) -> Checked {
    let alloc = rt.alloc();
    let map = r#"{"version":3,"sources":[],"mappings":"A,?,A;?,?"}"#;
    let checked = check_map(alloc, map.as_bytes(), Options { most: 2 })?;
    let findings = findings_text(alloc, checked.report.findings.as_slice());
    check("two of three are kept", findings, "30@0 0:1 30@0 1:0 ")?;
    let count = checked
        .report
        .count(Rule::Segment(SegmentRule::ForeignByte));
    check_that("three are counted", count == 3)
}

#[test]
fn reports_are_made_by_hand(rt: HostRuntime) -> Checked {
    let alloc = rt.alloc();
    let mut report = Report::new(alloc);
    let finding = Finding {
        rule: Rule::Map(MapRule::FileType),
        map: 4,
        line: 0,
        index: 0,
    };
    report.push(9, finding)?;
    add_segments(&mut report, 9, 4, "A;AAAA,C", 0, 0)?;
    let findings = findings_text(alloc, report.findings.as_slice());
    check("a key and a segment", findings, "5@4 0:0 39@4 1:0 ")
}
