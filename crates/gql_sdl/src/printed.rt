//! Pieces of a text, one behind another.

ghost use Rattle.std.specs.Prelude.{◌≡◌, ◌++◌, false, List, ℕ, map, OnOk, string_bytes, if◌then◌else◌};
ghost use Rattle.gql_sdl.specs.Pieces.{spaced, joined, block, pieces, between_if};

use jb_text::Memory;

/// What has a text.
pub(crate) trait Printed {
    // The text that is written.
    ghost text_of: { Self → List ℕ };

    /// Appends the text. `Err` only when out of memory.
    fn append(&self, out: &mut String) -> Result<(), Memory>
        ensures { OnOk result (string_bytes out.new ≡ string_bytes out.old ++ text_of self.now) };
}

/// Appends each of the items behind a space.
pub(crate) fn append_spaced<T: Printed>(out: &mut String, items: &[T]) -> Result<(), Memory>
    ensures { OnOk result (string_bytes out.new ≡ string_bytes out.old ++ spaced (map T.text_of items.now)) }
{
    for item in items {
        out.push_str(" ")?;
        item.append(out)?;
    }
    Ok(())
}

/// Appends the items in braces, where there are some.
pub(crate) fn append_block<T: Printed>(out: &mut String, items: &[T]) -> Result<(), Memory>
    ensures { OnOk result (string_bytes out.new ≡ string_bytes out.old ++ block (map T.text_of items.now)) }
{
    if items.is_empty() {
        return Ok(());
    }
    out.push_str(" {")?;
    append_spaced(out, items)?;
    out.push_str(" }")
}

/// Appends the items with the text between them.
pub(crate) fn append_joined<T: Printed>(
    out: &mut String,
    between: &str,
    items: &[T],
) -> Result<(), Memory>
    ensures { OnOk result (string_bytes out.new ≡ string_bytes out.old ++ joined between.now (map T.text_of items.now)) }
{
    let mut later = false;
    for item in items {
        append_if(out, later, between)?;
        item.append(out)?;
        later = true;
    }
    Ok(())
}

/// Appends the text, if it is to stand.
pub(crate) fn append_if(out: &mut String, stands: bool, text: &str) -> Result<(), Memory>
    ensures { OnOk result (string_bytes out.new ≡ string_bytes out.old ++ between_if text.now stands) }
{
    if stands { out.push_str(text) } else { Ok(()) }
}
