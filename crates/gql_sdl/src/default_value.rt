//! Default values.

ghost use Rattle.std.specs.Prelude.{◌≡◌, ◌++◌, OnOk, string_bytes};
ghost use Rattle.std.specs.Option.{option_copied};
ghost use Rattle.gql_sdl.specs.Forms.{default_text};

use jb_text::{Memory, Text};

/// Appends the default value, if there is one.
pub(crate) fn append_default(out: &mut String, default: Option<&Text>) -> Result<(), Memory>
    ensures { OnOk result (string_bytes out.new ≡ string_bytes out.old ++ default_text (option_copied default.entry)) }
{
    let Some(text) = default else {
        return Ok(());
    };
    out.push_str(" = ")?;
    out.push_str(text.as_str())
}
