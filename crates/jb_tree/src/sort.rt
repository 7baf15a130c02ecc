//! The members of all objects in a value put into the order of their keys.
ghost use Rattle.std.specs.Prelude.{◌≡◌, map, OnOk};
ghost use Rattle.std_collections.specs.Layout.Former.{on_value};
ghost use Rattle.jb_map.specs.ByKey.{by_key};
ghost use Rattle.jb_tree.specs.Same.{Same, sorted};

use crate::value::{Map, Value};
use jb_text::{Listed, Memory};

impl Value {
    /// Puts the pairs of each object, at every level, into the order of their keys' bytes. `Err` only when out of
    /// memory: some objects are sorted then. Whatever the answer, the value is the same but for the order of pairs.
    pub fn sort_all_objects(&mut self) -> Result<(), Memory>
        ensures sorted { OnOk result (self.new ≡ sorted self.old) }
        ensures kept { Same self.new self.old }
    {
        sort_value(self)
    }
}

#[cycle(sorting)]
fn sort_value(value: &mut Value) -> Result<(), Memory>
    ensures sorted { OnOk result (value.new ≡ sorted value.old) }
    ensures kept { Same value.new value.old }
{
    match value {
        Value::Array(items) => sort_items(items),
        Value::Object(members) => sort_members(members),
        _ => Ok(()),
    }
}

#[cycle(sorting)]
fn sort_items(items: &mut Listed<Value>) -> Result<(), Memory>
    ensures sorted { OnOk result (items.new ≡ map sorted items.old) }
    ensures kept { map sorted items.new ≡ map sorted items.old }
{
    for index in 0..items.len() {
        if let Some(item) = items.get_mut(index) {
            sort_value(item)?;
        }
    }
    Ok(())
}

#[cycle(sorting)]
fn sort_members(members: &mut Map) -> Result<(), Memory>
    ensures sorted { OnOk result (members.new ≡ by_key (map (on_value sorted) members.old)) }
    ensures kept { by_key (map (on_value sorted) members.new) ≡ by_key (map (on_value sorted) members.old) }
{
    for index in 0..members.len() {
        let member = members.value_mut_at(index);
        sort_value(member)?;
    }
    members.sort_keys()?;
    Ok(())
}
