// A `Box<Held>` as a raw pointer, or null.
ghost use Rattle.std.specs.Prelude.{◌≡◌, Option, None, Some, is_some, IsTrue};
ghost use Rattle.sourcemap_c_handles.specs.declared.held.Held.{Held};
ghost use Rattle.sourcemap_c_handles.specs.Seal.{content_coded, sealed_owns};

mod parts;

use crate::held::Held;
use parts::Parts;
use std::alloc::Global;
use std::marker::Model;

#[repr(C)]
#[derive(Drop)]
pub(crate) struct Sealed {
    at: *mut u8,
    alloc: Global,
    pub ghost content: { Option Held } by { content_coded },
}

impl Model for Sealed {
    ghost also_owns = { λ s. sealed_owns s.alloc s.at s.content };
}

impl Sealed {
    ghost use Rattle.sourcemap_c_handles.specs.Lending.{BorrowsContent};
    ghost use Rattle.std.specs.Borrow.{sem};

    /// A `Sealed` without a value: its pointer is null.
    pub(crate) fn empty(alloc: Global) -> Sealed
        ensures { result.content ≡ None }
    {
        Sealed {
            at: std::ptr::null_mut(),
            alloc,
        }
    }

    pub(crate) fn get_mut(&mut self) -> &mut Held
        requires { IsTrue (is_some self.old.content) }
        ensures* lends { sem 𝓛 (BorrowsContent self.entry result) }
        ensures value { Some result.now ≡ self.old.content }
    {
        unsafe { &mut *(self.at as *mut Held) }
    }

    pub(crate) fn into_box(self) -> Box<Held>
        requires { IsTrue (is_some self.content) }
        ensures { Some result.value ≡ self.content }
    {
        self.into_parts().into_box()
    }

    pub(crate) fn of_box(held: Box<Held>) -> Sealed
        ensures { result.content ≡ Some held.value }
    {
        Sealed::of_parts(Parts::of(held))
    }

    fn of_parts(parts: Parts<Held, Global>) -> Sealed
        ensures { result.content ≡ Some parts.value }
    {
        let Parts { ptr, alloc } = parts;
        Sealed {
            at: ptr as *mut u8,
            alloc,
        }
    }

    fn into_parts(self) -> Parts<Held, Global>
        requires { IsTrue (is_some self.content) }
        ensures { Some result.value ≡ self.content }
    {
        let Sealed { at, alloc } = self;
        Parts {
            ptr: at as *mut Held,
            alloc,
        }
    }
}

unsafe impl Send for Sealed {}
