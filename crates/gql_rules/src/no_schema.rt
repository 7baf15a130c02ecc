//! What stands where no type is known.

ghost use Rattle.std.specs.Prelude.{◌≡◌, true, None, IfOk};
ghost use Rattle.gql_ast_base.specs.Names.{is_name};
ghost use Rattle.gql_rules.specs.NoSchema as spec;

use gql_ast::FieldDefinition;
use gql_ast_base::{Name, TypeRef, both};
use gql_schema_types::{MetaFields, Schema, SchemaDefinition, Shared, Table};
use gql_source::SourceMap;
use jb_text::{Listed, Memory, Refused};
use std::alloc::{AllocError, Global};

/// A schema without types and directives. `Err` only when out of memory.
pub(crate) fn no_schema(alloc: Global) -> Result<Schema, Memory>
    ensures { IfOk result (λ schema. schema ≡ spec.no_schema) }
{
    let meta_fields = MetaFields::new(alloc)?;
    Ok(Schema {
        sources: SourceMap::new(alloc),
        schema_definition: no_roots(alloc),
        directive_definitions: Table::new(alloc),
        types: Table::new(alloc),
        meta_fields,
    })
}

/// A schema's definition without root types.
fn no_roots(alloc: Global) -> SchemaDefinition
    ensures { result ≡ spec.no_roots }
{
    SchemaDefinition {
        description: None,
        directives: Listed::new(alloc),
        query: None,
        mutation: None,
        subscription: None,
        location: None,
    }
}

/// The name of a type that is not known. `Err` only when out of memory.
pub(crate) fn unknown_type(alloc: Global) -> Result<Name, Memory>
    ensures { IfOk result (λ name. name ≡ spec.unknown_type) }
{
    named(alloc, "_")
}

/// The name with a text that is one.
fn named(alloc: Global, text: &str) -> Result<Name, Memory>
    requires { is_name text.now ≡ true }
    ensures { IfOk result (λ name. name ≡ record { text = text.now; location = None }) }
{
    match Name::new(alloc, text) {
        Ok(name) => Ok(name),
        Err(Refused::Memory) => Err(AllocError),
        Err(Refused::Fault(_)) => unreachable!(),
    }
}

/// The definition of a field that is not known: it has no arguments. `Err` only when out of memory.
pub(crate) fn unknown_field(alloc: Global) -> Result<Shared<FieldDefinition>, Memory>
    ensures { IfOk result (λ definition. definition ≡ spec.unknown_field) }
{
    let (name, ty) = both(unknown_type(alloc), unknown_type(alloc))?;
    let field = FieldDefinition {
        description: None,
        name,
        arguments: Listed::new(alloc),
        ty: TypeRef::Named(ty),
        directives: Listed::new(alloc),
        location: None,
    };
    Shared::new(alloc, field)
}
