//! The texts of references to types.

ghost use Rattle.std.specs.Prelude.{◌≡◌, ◌++◌, IfOk, OnOk, string_bytes};
ghost use Rattle.gql_ast.specs.TypeText.{type_text};

use gql_ast_base::TypeRef;
use jb_text::{Memory, Text};
use std::alloc::Global;

/// The text of a reference to a type, as `[Int!]!` (GraphQL October 2021, section 2.11). `Err` only when out of memory.
pub fn print_type(alloc: Global, ty: &TypeRef) -> Result<Text, Memory>
    ensures { IfOk result (λ text. text ≡ type_text ty.now) }
{
    let mut text = String::new(alloc);
    write_type(&mut text, ty)?;
    Ok(Text::from_string(text))
}

fn write_type(out: &mut String, ty: &TypeRef) -> Result<(), Memory>
    ensures { OnOk result (string_bytes out.new ≡ string_bytes out.old ++ type_text ty.now) }
{
    match ty {
        TypeRef::Named(name) => out.push_str(name.as_str()),
        TypeRef::NonNullNamed(name) => {
            out.push_str(name.as_str())?;
            out.push_str("!")
        }
        TypeRef::List(item) => {
            out.push_str("[")?;
            write_type(out, item.get())?;
            out.push_str("]")
        }
        TypeRef::NonNullList(item) => {
            out.push_str("[")?;
            write_type(out, item.get())?;
            out.push_str("]!")
        }
    }
}
