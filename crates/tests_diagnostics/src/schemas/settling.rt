//! The built-in scalars of a schema that is changed and validated again (GraphQL October 2021, section 3.5).

ghost use Rattle.std.specs.Prelude.{◌≡◌, ◌+◌, ◌^◌, ◌<◌, IfOk};

use crate::schemas::type_names;
use gql_diag::DiagnosticList;
use gql_parser::Parser;
use gql_schema_rules::validate_schema;
use gql_schema_types::Schema;
use gql_source::{FileIds, SourceMap};
use std::alloc::Global;
use std::mem::{ManuallyDrop, forget};
use std::test::Fail;

/// What a text's schema is built of.
pub(crate) fn built(
    alloc: Global,
    text: &str,
    ids: &mut FileIds,
) -> Result<ManuallyDrop<Schema>, Fail>
    requires { ids.old < 2 ^ 63 }
    ensures { ids.new ≡ ids.old + 1 }
{
    match Parser::new().parse_schema(alloc, text, "schema.graphql", ids) {
        Ok(schema) => Ok(ManuallyDrop::new(schema)),
        Err(refused) => {
            forget(refused);
            Err("the schema is not built")?
        }
    }
}

/// Validates a schema in which nothing is wrong.
fn settle_scalars(alloc: Global, schema: &mut Schema) -> Result<(), Fail> {
    let mut errors = ManuallyDrop::new(DiagnosticList::new(alloc, SourceMap::new(alloc)));
    validate_schema(alloc, schema, &mut errors)?;
    if errors.is_empty() {
        Ok(())
    } else {
        Err("something is wrong")?
    }
}

/// Puts the type of a name that another schema has in the place of the one of this name.
fn replace(schema: &mut Schema, other: &mut Schema, name: &str) -> Result<(), Fail> {
    match other.types.remove(name) {
        Some(ty) => match schema.types.insert(ty) {
            Ok(old) => {
                forget(old);
                Ok(())
            }
            Err(ty) => {
                forget(ty);
                Err("no memory")?
            }
        },
        None => Err("no such type")?,
    }
}

#[test]
fn a_schema_is_settled_again(rt: HostRuntime) -> Result<(), Fail> {
    let alloc = rt.alloc();
    let mut ids = FileIds::new();
    let mut schema = built(alloc, "type Query { some: Thing } scalar Thing", &mut ids)?;
    settle_scalars(alloc, &mut schema)?;
    let found = type_names(alloc, &schema)?;
    assert_eq!(rt;
        found.as_str(),
        "__Schema __Type __TypeKind __Field __InputValue __EnumValue __Directive __DirectiveLocation String Boolean Query Thing "
    );
    let mut other = built(
        alloc,
        "type Query { some: Thing sensor(sensorId: ID): Float } scalar Thing",
        &mut ids,
    )?;
    replace(&mut schema, &mut other, "Query")?;
    settle_scalars(alloc, &mut schema)?;
    let found = type_names(alloc, &schema)?;
    assert_eq!(rt;
        found.as_str(),
        "__Schema __Type __TypeKind __Field __InputValue __EnumValue __Directive __DirectiveLocation String Boolean Query Thing Float ID "
    );
    Ok(())
}
