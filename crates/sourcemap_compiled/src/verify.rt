//! The test of a whole compiled map.
ghost use Rattle.std.specs.Prelude.{◌↔◌, ℕ, IfErr, IfSome, IsNone, IsOk, OnOk};
ghost use Rattle.sourcemap_compiled.specs.Layout.{text_count, token_count};
ghost use Rattle.sourcemap_compiled.specs.Soundness.{AreReadable, AreRising, HasFault, IsFall, IsSound, IsUnreadable};

use crate::errors::CompiledMapError;
use crate::map::CompiledMap;

impl CompiledMap<'_> {
    ghost use Rattle.sourcemap_compiled.specs.Stored.{bytes_of};

    /// Reads the whole map, and returns `Ok` if the tokens are in order and every text can be read.
    /// Then a lookup finds the closest token, and no call returns an error. Otherwise returns
    /// `OutOfOrder`, or the error of the first text that cannot be read.
    pub fn verify(&self) -> Result<(), CompiledMapError>
        ensures accepted { IsOk result ↔ IsSound (bytes_of self.now) }
        ensures refused { IfErr result (HasFault (bytes_of self.now)) }
    {
        if let Some(index) = self.fall() {
            return Err(CompiledMapError::OutOfOrder(index));
        }
        self.read_texts()
    }

    // Returns the index of the first token that is before the token ahead of it.
    fn fall(&self) -> Option<u32>
        ensures found { IfSome result (IsFall (bytes_of self.now)) }
        ensures none { IsNone result → AreRising (bytes_of self.now) (token_count (bytes_of self.now)) }
    {
        let mut before = 0;
        for index in 0..self.token_count() {
            let position = self.position(index as usize);
            if position < before {
                return Some(index);
            }
            before = position;
        }
        None
    }

    // Reads the texts, up to the first that cannot be read.
    fn read_texts(&self) -> Result<(), CompiledMapError>
        ensures ok { OnOk result (AreReadable (bytes_of self.now) (text_count (bytes_of self.now))) }
        ensures error { IfErr result (λ e. (text : ℕ) × IsUnreadable (bytes_of self.now) text e) }
    {
        for text in 0..self.text_count() {
            self.text(text)?;
        }
        Ok(())
    }
}
