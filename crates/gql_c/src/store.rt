//! Values into handles, and out of them.

ghost use Rattle.std.specs.Prelude.{◌≡◌, None, Some, option_map};

use crate::handle::Handle;
use crate::held::Held;
use std::alloc::Global;
use std::mem::replace;

/// Lets go of what a handle holds, if it holds anything.
#[unsafe(no_mangle)]
pub extern "C" fn gql_free(alloc: Global, handle: &mut Handle)
    ensures { handle.new.held ≡ None }
{
    let _held = take_from(alloc, handle);
}

/// What a handle holds, which then holds nothing.
pub(crate) fn take_from(alloc: Global, handle: &mut Handle) -> Option<Box<Held>>
    ensures taken { option_map (λ b. b.value) result ≡ handle.old.held }
    ensures left { handle.new.held ≡ None }
{
    replace(handle, Handle::empty()).into_box(alloc)
}

/// Puts a value into a handle. What it held before is let go.
pub(crate) fn put_into(alloc: Global, value: Box<Held>, handle: &mut Handle)
    ensures { handle.new.held ≡ Some value.value }
{
    let _held = replace(handle, Handle::of(value)).into_box(alloc);
}

/// Puts back into a handle what was taken from it. What it held before is let go.
pub(crate) fn put_back(alloc: Global, value: Option<Box<Held>>, handle: &mut Handle)
    ensures { handle.new.held ≡ option_map (λ b. b.value) value }
{
    match value {
        Some(value) => put_into(alloc, value, handle),
        None => gql_free(alloc, handle),
    }
}
