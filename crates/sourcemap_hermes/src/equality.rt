//! Equality of Hermes maps.
ghost use Rattle.std.specs.Prelude.{◌≡◌};
ghost use Rattle.std.specs.Bool.{Decides};
ghost use Rattle.std.specs.Ordering.{on};
ghost use Rattle.std.specs.Cmp.{on_equiv, partial_equiv_from_equiv};
ghost use Rattle.sourcemap_hermes.specs.Map.{hermes_value};
ghost use Rattle.sourcemap_hermes.specs.Equality.{same_hermes, same_hermes_equiv};

use crate::map::SourceMapHermes;

/// Hermes maps are equal exactly if their regular maps and their lists of scope entries are equal.
/// An entry counts even if no source has its id. Equal lists of entries have the same length, and
/// `None` differs from an empty list: `[]`, `[None]` and `[Some([])]` are not equal.
impl PartialEq for SourceMapHermes {
    ghost eq = { on hermes_value same_hermes };

    ghost laws = { partial_equiv_from_equiv (on_equiv hermes_value same_hermes_equiv) };

    fn eq(&self, other: &Self) -> bool
        ensures value { result ≡ same_hermes (hermes_value self.now) (hermes_value other.now) }
        ensures same { Decides result (hermes_value self.now ≡ hermes_value other.now) }
    {
        let map = self.sm == other.sm;
        let scopes = self.scopes == other.scopes;
        // prover: no branch
        map & scopes
    }
}
