//! `@deprecated`.

ghost use Rattle.std.specs.Prelude.{◌≡◌, ◌++◌, OnOk, string_bytes};
ghost use Rattle.std.specs.Option.{option_copied};
ghost use Rattle.gql_sdl.specs.Forms.{deprecated, reason_text};

use crate::shown::Deprecation;
use crate::text::append_text;
use jb_text::{ByteString, Memory};

/// Appends `@deprecated` with the reason, or `null` in its place, if it is deprecated (section 3.13.3).
pub(crate) fn append_deprecation(
    out: &mut String,
    deprecation: Option<&Deprecation>,
) -> Result<(), Memory>
    ensures { OnOk result (string_bytes out.new ≡ string_bytes out.old ++ deprecated (option_copied deprecation.entry)) }
{
    let Some(deprecation) = deprecation else {
        return Ok(());
    };
    out.push_str(" @deprecated(reason: ")?;
    append_reason(out, deprecation.reason.as_ref())?;
    out.push_str(")")
}

fn append_reason(out: &mut String, reason: Option<&ByteString>) -> Result<(), Memory>
    ensures { OnOk result (string_bytes out.new ≡ string_bytes out.old ++ reason_text (option_copied reason.entry)) }
{
    match reason {
        Some(text) => append_text(out, text),
        None => out.push_str("null"),
    }
}
