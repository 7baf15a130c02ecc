//! Lists made of the items of vectors and of lists.

ghost use Rattle.std.specs.Prelude.{◌≡◌, IfOk};

use gql_schema_types::Shared;
use jb_text::{Listed, Memory};
use std::alloc::Global;

/// The items as a list. `Err` only when out of memory.
pub(crate) fn listed<T: Drop>(alloc: Global, items: Vec<T>) -> Result<Listed<T>, Memory>
    ensures { IfOk result (λ list. list ≡ items.items) }
{
    let mut list = Listed::new(alloc);
    for item in items {
        list.push(item)?;
    }
    Ok(list)
}

/// The items, each to be shared. `Err` only when out of memory.
pub(crate) fn shared<T: Drop>(alloc: Global, items: Listed<T>) -> Result<Listed<Shared<T>>, Memory>
    ensures { IfOk result (λ list. list ≡ items) }
{
    let mut list = Listed::with_capacity(alloc, items.len())?;
    for item in items {
        list.push(Shared::new(alloc, item)?)?;
    }
    Ok(list)
}
