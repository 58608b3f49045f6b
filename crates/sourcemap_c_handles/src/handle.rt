//! The handle of C: a pointer and a flag in the caller's memory. Both start as zeros.
ghost use Rattle.std.specs.Prelude.{◌≡◌, None, Some, MatchResult, option_map, is_some};
ghost use Rattle.std.specs.Borrow.{sem};
ghost use Rattle.std.specs.Option.{option_copied};
ghost use Rattle.sourcemap_errors.specs.declared.errors.Error.TheVariants.{OutOfMemory};

use crate::held::Held;
use crate::sealed::Sealed;
use sourcemap_errors::errors::{Error, Result};
use std::alloc::Global;
use std::mem;

/// A pointer, and a flag that says whether the handle holds a value. A handle of zeros is empty.
#[repr(C)]
pub struct Handle {
    pub(crate) sealed: Sealed,
    pub(crate) full: bool,
    ghost agrees: { full ≡ is_some sealed.content },
}

impl Drop for Handle {
    fn drop(self) {
        drop(self.into_option());
    }
}

impl Handle {
    ghost use Rattle.sourcemap_c_handles.specs.Handles.{held_in, EndsAsBefore};

    /// An empty handle.
    pub fn empty(alloc: Global) -> Handle
        ensures { held_in result ≡ None }
    {
        Handle {
            sealed: Sealed::empty(alloc),
            full: false,
        }
    }

    /// Borrows the value. Returns `None` if the handle is empty.
    pub fn get<'a>(&'a mut self) -> Option<&'a Held>
        ensures* after { sem 𝓛 (EndsAsBefore self.entry) }
        ensures value { option_copied result ≡ held_in self.old }
    {
        if self.full {
            return Some(self.sealed.get_mut());
        }
        None
    }

    /// Empties the handle and returns its value, or `None` if it was empty.
    pub fn take(&mut self, alloc: Global) -> Option<Box<Held>>
        ensures value { option_map (λ held. held.value) result ≡ held_in self.old }
        ensures empty { held_in self.new ≡ None }
    {
        mem::replace(self, Handle::empty(alloc)).into_option()
    }

    fn into_option(self) -> Option<Box<Held>>
        ensures { option_map (λ held. held.value) result ≡ held_in self }
    {
        let Handle { sealed, full } = self;
        if full {
            return Some(sealed.into_box());
        }
        None
    }

    /// Drops the old value, if any, and stores `held`.
    pub fn put(&mut self, held: Box<Held>)
        ensures { held_in self.new ≡ Some held.value }
    {
        *self = Handle {
            sealed: Sealed::of_box(held),
            full: true,
        };
    }

    /// Boxes `held`, drops the old value and stores the new one. The only error is `OutOfMemory`,
    /// and then the handle is unchanged.
    pub fn fill(&mut self, alloc: Global, held: Held) -> Result<()>
        ensures { MatchResult result (λ _. held_in self.new ≡ Some held)
            (λ e. (held_in self.new ≡ held_in self.old) × (e ≡ OutOfMemory)) }
    {
        match Box::new(alloc, held) {
            Ok(held) => {
                self.put(held);
                Ok(())
            }
            Err(_) => Err(Error::OutOfMemory),
        }
    }

    /// Drops the value, if any.
    pub fn close(&mut self, alloc: Global)
        ensures { held_in self.new ≡ None }
    {
        *self = Handle::empty(alloc);
    }
}

// The next two functions never run. The second one compiles only if `Handle` is `Send`.
fn is_sent<T: Send>() {}

fn handles_are_sent() {
    is_sent::<Handle>();
}
