//! Values of enum types.

ghost use Rattle.gql_sdl.specs.Forms.{enum_value_text};

use crate::deprecation::append_deprecation;
use crate::description::append_description;
use crate::printed::Printed;
use crate::shown::ShownEnumValue;
use jb_text::Memory;

impl Printed for ShownEnumValue {
    ghost text_of = { enum_value_text };

    /// One value (section 3.9).
    fn append(&self, out: &mut String) -> Result<(), Memory> {
        append_description(out, self.description.as_ref())?;
        out.push_str(self.name.as_str())?;
        append_deprecation(out, self.deprecation.as_ref())
    }
}
