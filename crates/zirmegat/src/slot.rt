//! Where C keeps a pointer to a handle.

ghost use Rattle.std.specs.{Prelude.◌≡◌, Prelude.Some, Prelude.None, Prelude.Option, Coded.coded_option, Option.option_map};
ghost use Rattle.zirmegat.specs.contracts.handle.Handle as kept;
ghost use Rattle.zirmegat.specs.declared.handle.Handle.{Handle as Kept};

use crate::handle::Handle;
use crate::loose::Loose;
use std::alloc::Global;
use std::marker::Model;

/// A pointer to a handle, or null.
#[repr(C)]
#[derive(Drop)]
pub struct Slot {
    at: *mut u8,
    ghost handle: { Option Kept } by { coded_option kept.the_row.coded },
}

impl Model for Slot {
    ghost use Rattle.zirmegat.specs.Slots.{owns_handle};

    ghost also_owns = { λ s. owns_handle s.at s.handle };
}

impl Slot {
    /// Null.
    pub(crate) fn none() -> Slot
        ensures { result.handle ≡ None }
    {
        Slot {
            at: std::ptr::null_mut(),
        }
    }

    /// A pointer to the handle that a raw box points to.
    fn of_loose(loose: Loose<Handle, Global>) -> Slot
        ensures { result.handle ≡ Some loose.value }
    {
        let Loose { at, alloc: _ } = loose;
        Slot { at: at as *mut u8 }
    }

    /// The raw box of the handle that it points to.
    fn into_loose(self, alloc: Global) -> Option<Loose<Handle, Global>>
        ensures { self.handle ≡ option_map (λ l. l.value) result }
    {
        let Slot { at } = self;
        if at.is_null() {
            None
        } else {
            Some(Loose {
                at: at as *mut Handle,
                alloc,
            })
        }
    }

    /// A pointer to the handle of a box.
    pub(crate) fn of(handle: Box<Handle>) -> Slot
        ensures { result.handle ≡ Some handle.value }
    {
        Slot::of_loose(Loose::of(handle))
    }

    /// The box again, if it is not null.
    pub(crate) fn into_box(self, alloc: Global) -> Option<Box<Handle>>
        ensures { self.handle ≡ option_map (λ b. b.value) result }
    {
        match self.into_loose(alloc) {
            Some(loose) => Some(loose.into_box()),
            None => None,
        }
    }
}
