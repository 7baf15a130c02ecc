//! Laws of the definitions alone.

ghost use Rattle.std.specs.Prelude.{◌≡◌, ◌≤◌, ◌<◌, ℕ, List, Ok, Err};
ghost use Rattle.jb_io.specs.Proper.{IsProper, depth};
ghost use Rattle.jb_io.specs.Levels.{IsAlikeOrDeep, is_deep_at};
ghost use Rattle.jb_print.specs.Compact.{compact};
ghost use Rattle.jb_read.specs.Texts.{text_value};
ghost use Rattle.jb_read.specs.Values.{whole_value};
ghost use Rattle.jb_tree.specs.Tree.{tree};
ghost use Rattle.jb_tree.specs.declared.value.Value.{Value};

/// A reader that allows fewer levels reads what one that allows more reads, or refuses it by the same fault, or refuses it as too deep;
/// and what it reads nests no deeper than it allows.
pub fn fewer_levels_only_refuse()
    ensures alike { (few many : ℕ) (bytes : List ℕ) → few ≤ many → IsAlikeOrDeep (whole_value few bytes) (whole_value many bytes) }
    ensures nested { (levels : ℕ) (bytes : List ℕ) (v : Value) → whole_value levels bytes ≡ Ok v → depth (tree v) ≤ levels }
{}

/// What is printed of a value that nests deeper than 127 levels is refused as too deep, at some byte of it: for each value whose texts
/// are UTF-8, whose numbers are -2^63 to 2^64-1 and whose objects have distinct keys.
pub fn deep_texts_are_refused()
    ensures { (v : Value) → IsProper (tree v) → 127 < depth (tree v) → (place : ℕ) × (text_value (compact v) ≡ Err (is_deep_at place)) }
{}
