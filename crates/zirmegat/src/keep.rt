//! Handing what was made to C, and taking it back.

ghost use Rattle.std.specs.Prelude.{◌≡◌, ◌⊎◌, Some, None, IfSome};
ghost use Rattle.zirmegat.specs.{Calls.held_at, Faults.fault_code};

use crate::fault::{DONE, Fault};
use crate::handle::Handle;
use crate::held::Held;
use crate::slot::Slot;
use std::alloc::Global;

/// A handle of this, if there is memory.
fn boxed(alloc: Global, held: Held) -> Option<Box<Handle>>
    ensures { IfSome result (λ handle. handle.value.held ≡ held) }
{
    let held = Box::new(alloc, held).ok()?;
    match Box::new(alloc, Handle::of(held)) {
        Ok(handle) => Some(handle),
        Err(failed) => {
            // A handle that is dropped frees nothing.
            drop(failed.value.into_box(alloc));
            None
        }
    }
}

/// Writes a handle of this, or null where there is no memory for it.
pub(crate) fn keep(alloc: Global, out: &mut Slot, held: Held) -> u32
    ensures { ((result ≡ 0) × (held_at out.new ≡ Some held)) ⊎ ((result ≡ 3) × (held_at out.new ≡ None)) }
{
    match boxed(alloc, held) {
        Some(handle) => {
            *out = Slot::of(handle);
            DONE
        }
        None => refuse(out, Fault::Memory),
    }
}

/// Writes null, since nothing was made.
pub(crate) fn refuse(out: &mut Slot, fault: Fault) -> u32
    ensures { (result ≡ fault_code fault) × (held_at out.new ≡ None) }
{
    *out = Slot::none();
    fault.code()
}

/// Frees what a pointer from C owns.
fn free(alloc: Global, handle: Slot) {
    if let Some(handle) = handle.into_box(alloc) {
        drop(Box::into_inner(handle).into_box(alloc));
    }
}

/// Frees a session, or a handle of any other kind.
#[unsafe(no_mangle)]
pub extern "C" fn zmg_session_free(alloc: Global, session: Slot) {
    free(alloc, session)
}

/// The same for a demo.
#[unsafe(no_mangle)]
pub extern "C" fn zmg_demo_free(alloc: Global, demo: Slot) {
    free(alloc, demo)
}

/// The same for a node.
#[unsafe(no_mangle)]
pub extern "C" fn zmg_node_free(alloc: Global, node: Slot) {
    free(alloc, node)
}
