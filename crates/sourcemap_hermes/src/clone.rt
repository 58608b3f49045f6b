//! Copies of a Hermes map.
ghost use Rattle.std.specs.Prelude.{Ok};
ghost use Rattle.sourcemap_errors.specs.Answer.{Gives};
ghost use Rattle.sourcemap_hermes.specs.Map.{hermes_value};

use crate::map::SourceMapHermes;
use sourcemap_errors::errors::Result;

impl SourceMapHermes {
    /// A copy. The only error is `OutOfMemory`.
    pub fn clone(&self) -> Result<Self>
        ensures { Gives hermes_value result (Ok (hermes_value self.now)) }
    {
        let sm = self.sm.clone()?;
        let scopes = self.scopes.clone()?;
        Ok(SourceMapHermes { sm, scopes })
    }
}
