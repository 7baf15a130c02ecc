//! Lists of objects, which is what most fields of a list type resolve to.

ghost use Rattle.std.specs.Prelude.{◌≡◌, IfOk};
ghost use Rattle.gql_resolvers.specs.Objects.{list_of_objects};

use crate::resolved_value::ResolvedValue;
use jb_text::{Listed, Memory};
use std::alloc::Global;

impl<O: Drop> ResolvedValue<O> {
    /// A list of these objects, none of which failed. `Err` only when out of memory.
    pub fn objects(alloc: Global, objects: Listed<O>) -> Result<ResolvedValue<O>, Memory>
        ensures { IfOk result (λ made. made ≡ list_of_objects objects) }
    {
        let mut items = Listed::new(alloc);
        for object in objects {
            items.push(Ok(ResolvedValue::Object(object)))?;
        }
        Ok(ResolvedValue::List(items))
    }
}
