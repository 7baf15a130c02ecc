//! Arguments and fields of input objects.

ghost use Rattle.std.specs.Prelude.{◌≡◌, ◌++◌, OnOk, string_bytes};
ghost use Rattle.gql_sdl.specs.Forms.{input_text, arguments_text};

use crate::default_value::append_default;
use crate::deprecation::append_deprecation;
use crate::description::append_description;
use crate::printed::{Printed, append_joined};
use crate::references::append_type;
use crate::shown::ShownInput;
use jb_text::Memory;

impl Printed for ShownInput {
    ghost text_of = { input_text };

    /// One argument or field (section 3.6.1).
    fn append(&self, out: &mut String) -> Result<(), Memory> {
        append_description(out, self.description.as_ref())?;
        out.push_str(self.name.as_str())?;
        out.push_str(": ")?;
        append_type(out, &self.ty)?;
        append_default(out, self.default_value.as_ref())?;
        append_deprecation(out, self.deprecation.as_ref())
    }
}

/// Appends the arguments in parentheses, if there are some (section 3.6.1).
pub(crate) fn append_arguments(out: &mut String, arguments: &[ShownInput]) -> Result<(), Memory>
    ensures { OnOk result (string_bytes out.new ≡ string_bytes out.old ++ arguments_text arguments.now) }
{
    if arguments.is_empty() {
        return Ok(());
    }
    out.push_str("(")?;
    append_joined(out, ", ", arguments)?;
    out.push_str(")")
}
