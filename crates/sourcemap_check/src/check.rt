//! Checks bytes.
ghost use Rattle.std.specs.Prelude.{◌≡◌, ◌∷◌, [], List, IfOk, IfErr, OnOk, None, IsUtf8, MatchOption};
ghost use Rattle.serde_json.specs.Read.{read as read_text};
ghost use Rattle.serde_json.specs.View.{view};
ghost use Rattle.sourcemap_json_read.specs.Kept.{HoldsKept};
ghost use Rattle.sourcemap_errors.specs.declared.errors.Error.TheVariants.{OutOfMemory};
ghost use Rattle.sourcemap_check_report.specs.Report.{Reports};
ghost use Rattle.sourcemap_check_report.specs.declared.report.Finding.{Finding};
ghost use Rattle.sourcemap_check.specs.declared.levels.CheckLevel.TheVariants.{Map};
ghost use Rattle.sourcemap_check.specs.Findings.{at};
ghost use Rattle.sourcemap_check.specs.Levels.{inner_level};
ghost use Rattle.sourcemap_check.specs.Validity.{AreFindings, ArePlaces, value_findings, value_places};

use crate::levels::CheckLevel;
use crate::tree::{Checked, MapPlace, check_map};
use serde_json::Value;
use sourcemap_check_report::report::{Finding, Report};
use sourcemap_check_report::rules::Rule;
use sourcemap_errors::errors::{Error, Result};
use sourcemap_json_read::kept::{ReadError, kept_from_slice};
use std::alloc::Global;

/// What a check does.
#[derive(Clone, Copy, Debug, PartialEq, Eq)]
pub struct Options {
    /// How many findings of each rule are kept.
    pub most: usize,
}

fn check_value(checked: &mut Checked, most: usize, value: &Value) -> Result<()>
    requires { checked.old.maps.items ≡ [] }
    ensures added { Reports most [] checked.old.report
        → OnOk result (Reports most (value_findings (view value.now)) checked.new.report) }
    ensures places { Reports most [] checked.old.report
        → OnOk result (checked.new.maps.items ≡ value_places (view value.now)) }
    ensures memory { IfErr result (λ e. e ≡ OutOfMemory) }
{
    if !value.is_object() {
        return add_alone(&mut checked.report, most, Rule::NotObject);
    }
    let place = MapPlace { map: 0, section: 0 };
    check_map(checked, most, value, place)?;
    Ok(())
}

fn add_alone(report: &mut Report, most: usize, rule: Rule) -> Result<()>
    ensures added { Reports most [] report.old
        → OnOk result (Reports most (at 0 0 rule ∷ []) report.new) }
    ensures memory { IfErr result (λ e. e ≡ OutOfMemory) }
{
    let finding = Finding {
        rule,
        map: 0,
        line: 0,
        index: 0,
    };
    report.push(most, finding)
}

// What is kept of the JSON value of bytes, or none if they are no JSON text. The only error is
// `OutOfMemory`.
fn read_value(alloc: Global, bytes: &[u8]) -> Result<Option<Value>>
    ensures value { IfOk result (λ found. MatchOption found
        (IsUtf8 bytes.now → read_text bytes.now ≡ None)
        (λ value. HoldsKept inner_level Map bytes.now (view value))) }
    ensures memory { IfErr result (λ e. e ≡ OutOfMemory) }
{
    match kept_from_slice(alloc, bytes, CheckLevel::Map) {
        Ok(value) => Ok(Some(value)),
        Err(ReadError::Invalid) => Ok(None),
        Err(ReadError::OutOfMemory) => Err(Error::OutOfMemory),
    }
}

/// Checks whether bytes are a valid map by ECMA-426. Returns the findings, at most `options.most`
/// of each rule, how many each rule has, and the places of the maps. The only error is
/// `OutOfMemory`.
pub fn check(alloc: Global, bytes: &[u8], options: Options) -> Result<Checked>
    ensures reports { IfOk result (λ checked. (all : List Finding) × AreFindings bytes.now all
        × Reports options.most all checked.report) }
    ensures places { IfOk result (λ checked. ArePlaces bytes.now checked.maps.items) }
    ensures memory { IfErr result (λ e. e ≡ OutOfMemory) }
{
    let mut checked = Checked {
        report: Report::new(alloc),
        maps: Vec::new(alloc),
    };
    match read_value(alloc, bytes)? {
        Some(value) => check_value(&mut checked, options.most, &value)?,
        None => add_alone(&mut checked.report, options.most, Rule::NotJson)?,
    }
    Ok(checked)
}
