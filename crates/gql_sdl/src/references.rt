//! References to types, alone and in lists.

ghost use Rattle.std.specs.Prelude.{◌≡◌, ◌++◌, OnOk, string_bytes};
ghost use Rattle.gql_ast.specs.TypeText.{type_text};
ghost use Rattle.gql_ast.specs.Schemas.{location_name};
ghost use Rattle.gql_sdl.specs.Forms.{implements_text, members_text};

use crate::printed::{Printed, append_joined};
use gql_ast::{DirectiveLocation, print_type};
use gql_ast_base::TypeRef;
use jb_text::Memory;

/// Appends the text of a reference to a type.
pub(crate) fn append_type(out: &mut String, ty: &TypeRef) -> Result<(), Memory>
    ensures { OnOk result (string_bytes out.new ≡ string_bytes out.old ++ type_text ty.now) }
{
    let text = print_type(*out.allocator(), ty)?;
    out.push_str(text.as_str())
}

impl Printed for TypeRef {
    ghost text_of = { type_text };

    fn append(&self, out: &mut String) -> Result<(), Memory> {
        append_type(out, self)
    }
}

impl Printed for DirectiveLocation {
    ghost text_of = { location_name };

    fn append(&self, out: &mut String) -> Result<(), Memory> {
        out.push_str(self.name())
    }
}

/// Appends the interfaces that a type implements, if there are some (section 3.6).
pub(crate) fn append_interfaces(out: &mut String, interfaces: &[TypeRef]) -> Result<(), Memory>
    ensures { OnOk result (string_bytes out.new ≡ string_bytes out.old ++ implements_text interfaces.now) }
{
    if interfaces.is_empty() {
        return Ok(());
    }
    out.push_str(" implements ")?;
    append_joined(out, " & ", interfaces)
}

/// Appends the member types of a union, if there are some (section 3.8).
pub(crate) fn append_members(out: &mut String, members: &[TypeRef]) -> Result<(), Memory>
    ensures { OnOk result (string_bytes out.new ≡ string_bytes out.old ++ members_text members.now) }
{
    if members.is_empty() {
        return Ok(());
    }
    out.push_str(" = ")?;
    append_joined(out, " | ", members)
}
