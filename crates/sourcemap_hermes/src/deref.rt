//! Dereferencing a Hermes map gives its regular map.
ghost use Rattle.std.specs.Prelude.{◌≡◌};
ghost use Rattle.std.specs.Borrow.{sem};
ghost use Rattle.sourcemap_hermes.specs.Map.{hermes_value, LendsMap};

use crate::map::SourceMapHermes;
use sourcemap_map_regular::map::SourceMap;
use std::ops::{Deref, DerefMut};

impl Deref for SourceMapHermes {
    type Target = SourceMap;

    ghost deref_gives = { λ h m. m ≡ (hermes_value h).map };

    /// The regular map.
    fn deref(&self) -> &SourceMap
        ensures { result.now ≡ (hermes_value self.now).map }
    {
        &self.sm
    }
}

impl DerefMut for SourceMapHermes {
    ghost deref_mut_gives = { λ h m. m ≡ (hermes_value h).map };

    /// The regular map, borrowed for changes. The scopes do not follow these changes: each source
    /// id keeps its scopes, even if the changed map has another source with this id.
    fn deref_mut(&mut self) -> &mut SourceMap
        ensures* writes_back { sem 𝓛 (LendsMap self.entry result) }
        ensures value { result.now ≡ (hermes_value self.old).map }
    {
        &mut self.sm
    }
}
