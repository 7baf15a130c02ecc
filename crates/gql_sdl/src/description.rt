//! Descriptions.

ghost use Rattle.std.specs.Prelude.{◌≡◌, ◌++◌, OnOk, string_bytes};
ghost use Rattle.std.specs.Option.{option_copied};
ghost use Rattle.gql_sdl.specs.Forms.{described};

use crate::text::append_text;
use jb_text::{ByteString, Memory};

/// Appends the description and a space, if there is one (GraphQL October 2021, section 2.9.4).
pub(crate) fn append_description(
    out: &mut String,
    description: Option<&ByteString>,
) -> Result<(), Memory>
    ensures { OnOk result (string_bytes out.new ≡ string_bytes out.old ++ described (option_copied description.entry)) }
{
    let Some(text) = description else {
        return Ok(());
    };
    append_text(out, text)?;
    out.push_str(" ")
}
