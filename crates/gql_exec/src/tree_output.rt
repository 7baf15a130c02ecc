//! A response that is made as a tree of values.

use crate::output::Output;
use gql_ast_base::Name;
use jb_text::{Listed, Memory};
use jb_tree::{Map, Value};
use std::alloc::Global;

/// Makes values, with memory from this allocator.
#[derive(Clone, Copy)]
pub struct TreeOutput {
    pub alloc: Global,
}

impl Output for TreeOutput {
    ghost use Rattle.std.specs.Prelude.{◌≡◌};

    type Made = Value;

    type Items = Listed<Value>;

    type Members = Map;

    ghost is_made = { λ start before made value. (before ≡ start) × (made ≡ value) };

    ghost are_items = { λ start before items values. (before ≡ start) × (items ≡ values) };

    ghost are_members = { λ start before members so_far. (before ≡ start) × (members ≡ so_far) };

    ghost is_keyed = { λ start before members so_far key. (before ≡ start) × (members ≡ so_far) };

    fn value(&mut self, value: Value) -> Result<Value, Memory> {
        Ok(value)
    }

    fn begin_list(&mut self, room: usize) -> Result<Listed<Value>, Memory> {
        Listed::with_capacity(self.alloc, room)
    }

    fn add_item(&mut self, items: &mut Listed<Value>, made: Value) -> Result<(), Memory> {
        items.push(made)
    }

    fn end_list(&mut self, items: Listed<Value>) -> Result<Value, Memory> {
        Ok(Value::Array(items))
    }

    fn drop_list(&mut self, _items: Listed<Value>) {}

    fn begin_object(&mut self, room: usize) -> Result<Map, Memory> {
        Map::with_capacity(self.alloc, room)
    }

    fn begin_member(&mut self, _members: &mut Map, _key: &Name) -> Result<(), Memory> {
        Ok(())
    }

    fn add_member(&mut self, members: &mut Map, key: &Name, made: Value) -> Result<(), Memory> {
        let key = key.text().copy(self.alloc)?;
        members.insert_new(key, made)
    }

    fn drop_member(&mut self, _members: &Map) {}

    fn end_object(&mut self, members: Map) -> Result<Value, Memory> {
        Ok(Value::Object(members))
    }

    fn drop_object(&mut self, _members: Map) {}
}
