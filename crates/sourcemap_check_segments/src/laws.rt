//! What a list of findings says.
ghost use Rattle.std.specs.Prelude.{◌↔◌, ℕ, List, Contains};
ghost use Rattle.sourcemap_check_report.specs.declared.report.Finding.{Finding};
ghost use Rattle.sourcemap_check_segments.specs.Rules.{Counts, IsBrokenRule};
ghost use Rattle.sourcemap_check_segments.specs.Findings.{findings_of};

/// A law: the findings of a text are exactly the rules that it breaks, each at its place.
pub fn findings_are_exact()
    ensures { (counts : Counts) (own : ℕ) (text : List ℕ) (finding : Finding)
        → (Contains (findings_of counts own text) finding)
        ↔ (IsBrokenRule counts own text finding) }
{}
