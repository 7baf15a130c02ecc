//! Definitions of types.

ghost use Rattle.std.specs.Prelude.{◌≡◌, ◌++◌, OnOk, IfOk, string_bytes};
ghost use Rattle.std.specs.Option.{option_copied};
ghost use Rattle.gql_sdl.specs.Definitions.{type_definition_text, body_text, fields_text, keyword as keyword_of, specified_by, url_text};

use crate::description::append_description;
use crate::printed::{append_block, append_if};
use crate::references::{append_interfaces, append_members};
use crate::shown::{ShownType, TypeKind};
use crate::text::append_text;
use jb_text::{ByteString, Memory, Text};
use std::alloc::Global;

/// The definition of a type as a text, in one line without its end (GraphQL October 2021, sections 3.5 to 3.10). What belongs to
/// another kind of type is left out, and so are braces with nothing between them. `Err` only when out of memory.
pub fn print_type_definition(alloc: Global, ty: &ShownType) -> Result<Text, Memory>
    ensures { IfOk result (λ text. text ≡ type_definition_text ty.now) }
{
    let mut text = String::new(alloc);
    append_type_definition(&mut text, ty)?;
    Ok(Text::from_string(text))
}

/// Appends the definition of a type.
pub(crate) fn append_type_definition(out: &mut String, ty: &ShownType) -> Result<(), Memory>
    ensures { OnOk result (string_bytes out.new ≡ string_bytes out.old ++ type_definition_text ty.now) }
{
    append_description(out, ty.description.as_ref())?;
    out.push_str(keyword(ty.kind))?;
    out.push_str(ty.name.as_str())?;
    append_body(out, ty)
}

fn keyword(kind: TypeKind) -> &'static str
    ensures { result.now ≡ keyword_of kind }
{
    match kind {
        TypeKind::Scalar => "scalar ",
        TypeKind::Object => "type ",
        TypeKind::Interface => "interface ",
        TypeKind::Union => "union ",
        TypeKind::Enum => "enum ",
        TypeKind::InputObject => "input ",
    }
}

/// Appends what stands behind the name.
fn append_body(out: &mut String, ty: &ShownType) -> Result<(), Memory>
    ensures { OnOk result (string_bytes out.new ≡ string_bytes out.old ++ body_text ty.now.kind ty.now) }
{
    match ty.kind {
        TypeKind::Scalar => append_specified_by(out, ty.specified_by_url.as_ref()),
        TypeKind::Object | TypeKind::Interface => append_fields(out, ty),
        TypeKind::Union => append_members(out, ty.possible_types.as_slice()),
        TypeKind::Enum => append_block(out, ty.enum_values.as_slice()),
        TypeKind::InputObject => {
            append_if(out, ty.is_one_of, " @oneOf")?;
            append_block(out, ty.input_fields.as_slice())
        }
    }
}

/// Appends interfaces and fields.
fn append_fields(out: &mut String, ty: &ShownType) -> Result<(), Memory>
    ensures { OnOk result (string_bytes out.new ≡ string_bytes out.old ++ fields_text ty.now) }
{
    append_interfaces(out, ty.interfaces.as_slice())?;
    append_block(out, ty.fields.as_slice())
}

/// Appends `@specifiedBy`, if there is an URL (section 3.13.4).
fn append_specified_by(out: &mut String, url: Option<&ByteString>) -> Result<(), Memory>
    ensures { OnOk result (string_bytes out.new ≡ string_bytes out.old ++ specified_by (option_copied url.entry)) }
{
    match url {
        Some(url) => append_url(out, url),
        None => Ok(()),
    }
}

fn append_url(out: &mut String, url: &ByteString) -> Result<(), Memory>
    ensures { OnOk result (string_bytes out.new ≡ string_bytes out.old ++ url_text url.now) }
{
    out.push_str(" @specifiedBy(url: ")?;
    append_text(out, url)?;
    out.push_str(")")
}
