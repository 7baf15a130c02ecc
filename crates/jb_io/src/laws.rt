//! Laws of reading, printing and shapes: what is printed reads back, and what a value was made of comes back from it.

ghost use Rattle.std.specs.Prelude.{◌≡◌, ◌≤◌, Ok};
ghost use Rattle.jb_io.specs.Proper.{IsProper, depth};
ghost use Rattle.jb_print.specs.Compact.{compact};
ghost use Rattle.jb_print.specs.Pretty.{pretty};
ghost use Rattle.jb_read.specs.Spelling.{JsonText};
ghost use Rattle.jb_read.specs.Texts.{text_value};
ghost use Rattle.jb_tree.specs.Tree.{tree};
ghost use Rattle.jb_tree.specs.declared.value.Value.{Value};

pub use jb_shape::laws::{Faithful, FaithfulKey, comes_back};

/// What is printed of a value is a text of that value by the grammar, so that reading it gives the value again: for
/// each value whose texts are UTF-8, whose numbers are -2^63 to 2^64-1 and whose objects have distinct keys, nested at
/// most 127.
pub fn compact_reads_back()
    ensures spells { (v : Value) → IsProper (tree v) → depth (tree v) ≤ 127 → JsonText (compact v) v }
    ensures reads { (v : Value) → IsProper (tree v) → depth (tree v) ≤ 127 → text_value (compact v) ≡ Ok v }
{}

/// The same of what is printed over several lines.
pub fn pretty_reads_back()
    ensures spells { (v : Value) → IsProper (tree v) → depth (tree v) ≤ 127 → JsonText (pretty v) v }
    ensures reads { (v : Value) → IsProper (tree v) → depth (tree v) ≤ 127 → text_value (pretty v) ≡ Ok v }
{}
