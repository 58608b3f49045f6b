//! What findings say of bytes.
ghost use Rattle.std.specs.Prelude.{◌≡◌, ◌↔◌, [], ℕ, List, Contains, IsTrue, is_some};
ghost use Rattle.serde_json.specs.Data.{Data};
ghost use Rattle.serde_json.specs.Find.{as_object};
ghost use Rattle.sourcemap_check_report.specs.declared.report.Finding.{Finding};
ghost use Rattle.sourcemap_check.specs.Rules.{IsBrokenRule};
ghost use Rattle.sourcemap_check.specs.Validity.{AreFindings, IsValid, value_findings};

/// A law: the findings of a JSON object are exactly the rules that a map in it breaks, each at its
/// place.
pub fn findings_are_exact()
    ensures { (d : Data) (finding : Finding) → IsTrue (is_some (as_object d))
        → (Contains (value_findings d) finding) ↔ (IsBrokenRule d finding) }
{}

/// A law: bytes have one list of findings, and it is empty exactly if the bytes are a valid map.
pub fn validity_is_decided()
    ensures one_list { (bytes : List ℕ) (a b : List Finding) → AreFindings bytes a
        → AreFindings bytes b → a ≡ b }
    ensures valid { (bytes : List ℕ) (findings : List Finding) → AreFindings bytes findings
        → (findings ≡ []) ↔ (IsValid bytes) }
{}
