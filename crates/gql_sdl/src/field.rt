//! Fields of object types and interface types.

ghost use Rattle.gql_sdl.specs.Forms.{field_text};

use crate::deprecation::append_deprecation;
use crate::description::append_description;
use crate::input::append_arguments;
use crate::printed::Printed;
use crate::references::append_type;
use crate::shown::ShownField;
use jb_text::Memory;

impl Printed for ShownField {
    ghost text_of = { field_text };

    /// One field (section 3.6).
    fn append(&self, out: &mut String) -> Result<(), Memory> {
        append_description(out, self.description.as_ref())?;
        out.push_str(self.name.as_str())?;
        append_arguments(out, self.arguments.as_slice())?;
        out.push_str(": ")?;
        append_type(out, &self.ty)?;
        append_deprecation(out, self.deprecation.as_ref())
    }
}
