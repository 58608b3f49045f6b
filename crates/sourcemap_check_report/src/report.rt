//! Findings, at most so many of each rule.
ghost use Rattle.std.specs.Prelude.{◌≡◌, ℕ, ◌++◌, ◌∷◌, [], List, OnOk, IfErr, slice_index};
ghost use Rattle.sourcemap_errors.specs.declared.errors.Error.TheVariants.{OutOfMemory};
ghost use Rattle.sourcemap_check_report.specs.declared.report.Finding.{Finding};
ghost use Rattle.sourcemap_check_report.specs.Numbers.{number_of};
ghost use Rattle.sourcemap_check_report.specs.Report.{Reports};

use crate::rules::{Rule, number_of};
use sourcemap_errors::errors::Result;
use std::alloc::Global;

/// A place where a rule is broken.
#[derive(Clone, Copy, Debug, PartialEq, Eq)]
pub struct Finding {
    /// The rule.
    pub rule: Rule,
    /// The number of the map, counted from 0: of the map itself 0, then of the maps in its sections.
    /// A map has a number before those in its sections.
    pub map: usize,
    /// For a rule on a segment its line in `mappings`, counted from 0. For others 0.
    pub line: usize,
    /// For a rule on a segment its index among those of its line, for a rule on a section its index
    /// among those of the map, counted from 0. For others 0.
    pub index: usize,
}

/// The findings of a check.
#[derive(Drop)]
pub struct Report {
    /// The first findings of each rule, in the order of the text.
    pub findings: Vec<Finding>,
    /// How many findings each rule has, at the number of the rule.
    pub counts: [u64; 41],
}

impl Report {
    /// A report without findings.
    pub fn new(alloc: Global) -> Report
        ensures { (most : ℕ) → Reports most [] result }
    {
        Report {
            findings: Vec::new(alloc),
            counts: [0; 41],
        }
    }

    /// How many findings the rule has. The count stops at 18446744073709551615.
    pub fn count(&self, rule: Rule) -> u64
        ensures { result ≡ slice_index self.now.counts (number_of rule) }
    {
        self.counts[number_of(rule)]
    }

    /// Adds a finding. It is kept if fewer than `most` of its rule are. The only error is
    /// `OutOfMemory`.
    pub fn push(&mut self, most: usize, finding: Finding) -> Result<()>
        ensures added { (all : List Finding) → Reports most all self.old
            → OnOk result (Reports most (all ++ finding ∷ []) self.new) }
        ensures memory { IfErr result (λ e. e ≡ OutOfMemory) }
    {
        let at = number_of(finding.rule);
        let count = self.counts[at];
        if count < most as u64 {
            self.findings.push(finding)?;
        }
        self.counts[at] = count.saturating_add(1);
        Ok(())
    }
}
