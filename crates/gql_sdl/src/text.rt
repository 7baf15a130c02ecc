//! Strings.

ghost use Rattle.std.specs.Prelude.{◌≡◌, ◌++◌, OnOk, string_bytes};
ghost use Rattle.gql_sdl.specs.Forms.{string_text};

use jb_print::append_string;
use jb_text::{ByteString, Memory};

/// Appends the text as a string (GraphQL October 2021, section 2.9.4), with the escapes of JSON, which are escapes of GraphQL.
#[tactic(auto, unfolding(crate::specs::Forms::string_text))]
pub(crate) fn append_text(out: &mut String, text: &ByteString) -> Result<(), Memory>
    ensures { OnOk result (string_bytes out.new ≡ string_bytes out.old ++ string_text text.now) }
{
    append_string(out, text.as_str())
}
