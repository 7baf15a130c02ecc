//! Lists that are joined.

ghost use Rattle.std.specs.Prelude.{◌≡◌, ◌++◌, OnOk};

use jb_text::{Listed, Memory};

/// Puts the items of another list last. `Err` only when out of memory: then some of them are there.
pub(crate) fn append<T: Drop>(list: &mut Listed<T>, more: Listed<T>) -> Result<(), Memory>
    ensures { OnOk result (list.new ≡ list.old ++ more) }
{
    for item in more {
        list.push(item)?;
    }
    Ok(())
}
