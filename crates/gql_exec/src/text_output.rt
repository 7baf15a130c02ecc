//! A response that is written while it is made.

ghost use Rattle.std.specs.Prelude.{◌≡◌, ◌++◌, [], codes, IfOk, OnOk, string_bytes};
ghost use Rattle.jb_print.specs.bridge.Pieces.{comma_after};

use crate::output::Output;
use gql_ast_base::Name;
use jb_print::append_value;
use jb_text::{Memory, Text};
use jb_tree::Value;
use std::alloc::Global;
use std::marker::Model;

/// Room for a short response, so that it is allocated once.
const FIRST_ROOM: usize = 256;

/// Writes compact JSON text. What is dropped is cut off again.
///
/// A contract sees what is written.
#[derive(Drop)]
pub struct TextOutput {
    text: String,
}

impl Model for TextOutput {
    ghost use Rattle.std.specs.Prelude.{ℕ, List, string_bytes};

    ghost Value = { List ℕ };

    ghost view = { λ output. string_bytes output.text };
}

/// A list that is being written.
#[derive(Clone, Copy)]
pub struct OpenList {
    /// Where it begins.
    start: usize,
}

/// An object that is being written.
#[derive(Clone, Copy)]
pub struct OpenObject {
    /// Where it begins.
    start: usize,
    /// Where its last member begins that is not ended.
    last: usize,
    /// Whether it has a member that is ended.
    later: bool,
}

impl TextOutput {
    /// Nothing is written. `Err` only when out of memory.
    pub fn new(alloc: Global) -> Result<TextOutput, Memory>
        ensures { IfOk result (λ output. output ≡ []) }
    {
        Ok(TextOutput {
            text: String::with_capacity(alloc, FIRST_ROOM)?,
        })
    }

    /// What was written.
    pub fn into_text(self) -> Text
        ensures { result ≡ self }
    {
        Text::from_string(self.text)
    }
}

impl Output for TextOutput {
    ghost use Rattle.std.specs.Prelude.{◌≡◌, ◌++◌};
    ghost use Rattle.jb_print.specs.Compact.{compact};
    ghost use Rattle.gql_exec.specs.bridge.Written.{IsOpenList, IsOpenObject, IsKeyed};

    type Made = ();

    type Items = OpenList;

    type Members = OpenObject;

    ghost is_made = { λ start before made value. before ≡ start ++ compact value };

    ghost are_items = { λ start before list values. IsOpenList start before list values };

    ghost are_members = { λ start before object so_far. IsOpenObject start before object so_far };

    ghost is_keyed = { λ start before object so_far key. IsKeyed start before object so_far key };

    #[inline(always)]
    fn value(&mut self, value: Value) -> Result<(), Memory> {
        append_value(&mut self.text, &value)
    }

    fn begin_list(&mut self, _room: usize) -> Result<OpenList, Memory> {
        let start = self.text.len();
        self.text.push_str("[")?;
        Ok(OpenList { start })
    }

    fn add_item(&mut self, _list: &mut OpenList, _made: ()) -> Result<(), Memory> {
        self.text.push_str(",")
    }

    fn end_list(&mut self, list: OpenList) -> Result<(), Memory> {
        let end = self.text.len();
        // The last item has a comma behind it.
        if list.start + 1 < end {
            self.text.truncate(end - 1);
        }
        self.text.push_str("]")
    }

    fn drop_list(&mut self, list: OpenList) {
        self.text.truncate(list.start);
    }

    fn begin_object(&mut self, _room: usize) -> Result<OpenObject, Memory> {
        let start = self.text.len();
        self.text.push_str("{")?;
        Ok(OpenObject {
            start,
            last: start,
            later: false,
        })
    }

    #[inline(always)]
    fn begin_member(&mut self, object: &mut OpenObject, key: &Name) -> Result<(), Memory> {
        object.last = self.text.len();
        // A name needs no escapes.
        write_opening(&mut self.text, object.later)?;
        self.text.push_str(key.as_str())?;
        self.text.push_str("\":")
    }

    fn add_member(
        &mut self,
        object: &mut OpenObject,
        _key: &Name,
        _made: (),
    ) -> Result<(), Memory> {
        object.later = true;
        Ok(())
    }

    fn drop_member(&mut self, object: &OpenObject) {
        self.text.truncate(object.last);
    }

    fn end_object(&mut self, _object: OpenObject) -> Result<(), Memory> {
        self.text.push_str("}")
    }

    fn drop_object(&mut self, object: OpenObject) {
        self.text.truncate(object.start);
    }
}

/// Writes what stands before a key: a quote, and before that a comma where the member is a later one.
#[inline(always)]
fn write_opening(text: &mut String, later: bool) -> Result<(), Memory>
    ensures { OnOk result (string_bytes text.new ≡ string_bytes text.old ++ (comma_after later ++ codes "\"")) }
{
    if later {
        text.push_str(",\"")
    } else {
        text.push_str("\"")
    }
}
