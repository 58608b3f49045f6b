//! `clone` of a map. The only error is `OutOfMemory`.
ghost use Rattle.std.specs.Prelude.{Ok};
ghost use Rattle.sourcemap_errors.specs.Answer.{Gives};

use crate::map::SourceMap;
use sourcemap_errors::errors::Result;
use sourcemap_map_parts::text_lists::copy_texts;

impl SourceMap {
    /// A copy of the map. The only error is `OutOfMemory`.
    pub fn clone(&self) -> Result<Self>
        ensures { Gives (λ m. m) result (Ok self.now) }
    {
        let alloc = *self.names.allocator();
        // prover: smallest drops first
        let names = copy_texts(alloc, self.names.as_slice())?;
        let contents = self.contents.clone()?;
        let tokens = self.tokens.clone()?;
        let metadata = self.metadata.clone(alloc)?;
        let sources = self.sources.clone()?;
        Ok(SourceMap {
            metadata,
            tokens,
            names,
            sources,
            contents,
        })
    }
}
