//! Which values read back from what is printed of them.

ghost use Rattle.std.specs.Prelude.{◌↔◌, ◌≤◌, IsTrue, map};
ghost use Rattle.std.specs.Str.{IsUtf8};
ghost use Rattle.jb_io.specs.Proper.{IsProper, AreProperItems, depth, depth_of_items, depth_of_members};
ghost use Rattle.jb_io.specs.bridge.Proper.{members_tree};
ghost use Rattle.jb_read.specs.Spelling.{IsWhole};
ghost use Rattle.jb_tree.specs.Tree.{object, tree, trees_of};

use jb_tree::{Listed, Map, Number, Value};

/// The most arrays and objects that may stand in one another in a text that is read.
const DEEPEST: usize = 127;

/// Whether what is printed of the value reads back as the value, by [`laws`](crate::laws): that is where at most 127 arrays and
/// objects stand in one another. Its texts are UTF-8, its numbers are in range and its keys are distinct in any case.
pub fn holds_proper(value: &Value) -> bool
    ensures nested { IsTrue result ↔ (depth (tree value.now) ≤ 127) }
    ensures proper { IsTrue result → IsProper (tree value.now) }
{
    nests_within(value, DEEPEST)
}

#[cycle(nesting)]
fn nests_within(value: &Value, levels: usize) -> bool
    ensures nested { IsTrue result ↔ (depth (tree value.now) ≤ levels) }
    ensures proper { IsTrue result → IsProper (tree value.now) }
{
    match value {
        Value::Null | Value::Bool(_) => true,
        Value::Number(number) => {
            number_is_whole(number);
            true
        }
        Value::String(text) => {
            text_is_utf8(text.as_str());
            true
        }
        Value::Array(items) => levels > 0 && items_nest_within(items, levels - 1),
        Value::Object(members) => levels > 0 && members_nest_within(members, levels - 1),
    }
}

#[cycle(nesting)]
fn items_nest_within(items: &Listed<Value>, levels: usize) -> bool
    ensures nested { IsTrue result ↔ (depth_of_items (trees_of (map tree items.now)) ≤ levels) }
    ensures proper { IsTrue result → AreProperItems (trees_of (map tree items.now)) }
{
    for item in items.as_slice() {
        if !nests_within(item, levels) {
            return false;
        }
    }
    true
}

#[cycle(nesting)]
fn members_nest_within(members: &Map, levels: usize) -> bool
    ensures nested { IsTrue result ↔ (depth_of_members (members_tree members.now) ≤ levels) }
    ensures proper { IsTrue result → IsProper (object (members_tree members.now)) }
{
    for index in 0..members.len() {
        text_is_utf8(members.key_at(index).as_str());
        if !nests_within(members.value_at(index), levels) {
            return false;
        }
    }
    true
}

/// A number is in the range of those that are read.
fn number_is_whole(number: &Number)
    ensures { IsWhole number.now }
{
    if number.as_i64().is_none() && number.as_u64().is_none() {
        unreachable!();
    }
}

/// A text is UTF-8.
fn text_is_utf8(_text: &str)
    ensures { IsUtf8 _text.now }
{}
