//! Whole schemas.

ghost use Rattle.std.specs.Prelude.{◌≡◌, ◌++◌, OnOk, IfOk, string_bytes};
ghost use Rattle.std.specs.List.{flat_map};
ghost use Rattle.std.specs.Option.{option_copied};
ghost use Rattle.gql_sdl.specs.Schemas as spec;

use crate::description::append_description;
use crate::directive::append_directive;
use crate::shown::{ShownDirective, ShownSchema, ShownType, TypeKind};
use crate::type_definition::append_type_definition;
use gql_ast_base::Name;
use jb_text::{Memory, Text};
use std::alloc::Global;

/// The definitions that say what is shown of a schema (GraphQL October 2021, section 3), each in one line ended by LF: the schema
/// with its root types, then the directives, then the types, in their order. The built-in scalars and directives are left out by
/// their names, and so are types whose names begin with two underscores. `Err` only when out of memory.
pub fn print_schema(alloc: Global, schema: &ShownSchema) -> Result<Text, Memory>
    ensures { IfOk result (λ text. text ≡ spec.schema_text schema.now) }
{
    let mut text = String::new(alloc);
    append_roots(&mut text, schema)?;
    text.push_str("\n")?;
    append_directives(&mut text, schema.directives.as_slice())?;
    append_types(&mut text, schema.types.as_slice())?;
    Ok(Text::from_string(text))
}

/// Appends the definition of the schema itself (section 3.3).
fn append_roots(out: &mut String, schema: &ShownSchema) -> Result<(), Memory>
    ensures { OnOk result (string_bytes out.new ≡ string_bytes out.old ++ spec.roots_text schema.now) }
{
    append_roots_head(out, schema)?;
    append_root(out, " mutation: ", schema.mutation.as_ref())?;
    append_root(out, " subscription: ", schema.subscription.as_ref())?;
    out.push_str(" }")
}

/// Appends it up to the root type of queries.
fn append_roots_head(out: &mut String, schema: &ShownSchema) -> Result<(), Memory>
    ensures { OnOk result (string_bytes out.new ≡ string_bytes out.old ++ spec.roots_head schema.now) }
{
    append_description(out, schema.description.as_ref())?;
    out.push_str("schema { query: ")?;
    out.push_str(schema.query.as_str())
}

fn append_root(out: &mut String, title: &str, root: Option<&Name>) -> Result<(), Memory>
    ensures { OnOk result (string_bytes out.new ≡ string_bytes out.old ++ spec.root_text title.now (option_copied root.entry)) }
{
    let Some(name) = root else {
        return Ok(());
    };
    out.push_str(title)?;
    out.push_str(name.as_str())
}

fn append_directives(out: &mut String, directives: &[ShownDirective]) -> Result<(), Memory>
    ensures { OnOk result (string_bytes out.new ≡ string_bytes out.old ++ flat_map spec.directive_line directives.now) }
{
    for directive in directives {
        append_directive_line(out, directive)?;
    }
    Ok(())
}

#[tactic(auto, unfolding(crate::specs::Schemas::directive_line))]
fn append_directive_line(out: &mut String, directive: &ShownDirective) -> Result<(), Memory>
    ensures { OnOk result (string_bytes out.new ≡ string_bytes out.old ++ spec.directive_line directive.now) }
{
    if is_directive_name(directive.name.as_str()) {
        return Ok(());
    }
    append_directive(out, directive)?;
    out.push_str("\n")
}

fn append_types(out: &mut String, types: &[ShownType]) -> Result<(), Memory>
    ensures { OnOk result (string_bytes out.new ≡ string_bytes out.old ++ flat_map spec.type_line types.now) }
{
    for ty in types {
        append_type_line(out, ty)?;
    }
    Ok(())
}

#[tactic(auto, unfolding(crate::specs::Schemas::type_line))]
fn append_type_line(out: &mut String, ty: &ShownType) -> Result<(), Memory>
    ensures { OnOk result (string_bytes out.new ≡ string_bytes out.old ++ spec.type_line ty.now) }
{
    if is_built_in(ty) {
        return Ok(());
    }
    append_type_definition(out, ty)?;
    out.push_str("\n")
}

/// Whether a built-in directive has the name.
fn is_directive_name(name: &str) -> bool
    ensures { result ≡ spec.is_directive_name name.now }
{
    name == "skip"
        || name == "include"
        || name == "deprecated"
        || name == "specifiedBy"
        || name == "oneOf"
}

/// Whether the type is one of introspection or a built-in scalar.
fn is_built_in(ty: &ShownType) -> bool
    ensures { result ≡ spec.is_built_in ty.now }
{
    ty.name.is_reserved() || is_built_in_scalar(ty.kind, ty.name.as_str())
}

fn is_built_in_scalar(kind: TypeKind, name: &str) -> bool
    ensures { result ≡ spec.is_built_in_scalar kind name.now }
{
    match kind {
        TypeKind::Scalar => is_scalar_name(name),
        _ => false,
    }
}

/// Whether a built-in scalar has the name.
fn is_scalar_name(name: &str) -> bool
    ensures { result ≡ spec.is_scalar_name name.now }
{
    name == "Int" || name == "Float" || name == "String" || name == "Boolean" || name == "ID"
}
