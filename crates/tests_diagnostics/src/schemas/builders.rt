//! Schemas of two texts, and definitions of what is built in.

ghost use Rattle.std.specs.Prelude.{◌≡◌, ◌+◌, ◌^◌, ◌<◌};

use crate::schemas::{told_list, type_names};
use gql_diag::WithErrors;
use gql_parser::Parser;
use gql_schema::SchemaBuilder;
use gql_schema_types::Schema;
use gql_source::FileIds;
use jb_text::{Memory, Refused};
use std::alloc::Global;
use std::mem::{ManuallyDrop, forget};
use std::test::Fail;

/// Whether definitions of what is built in are passed over, two texts, and the types of the schema of both, or what is wrong with
/// them.
const TOGETHER: &[(bool, &str, &str, &str)] = &[
    (
        false,
        "type Query { a: Thing }",
        "extend type Query { b: Other } scalar Thing scalar Other",
        "__Schema __Type __TypeKind __Field __InputValue __EnumValue __Directive __DirectiveLocation Int Float String Boolean ID Query Thing Other ",
    ),
    // A place is told in the file that it is in, and a text that is no document adds nothing else.
    (
        false,
        "type Query { a: Int } scalar",
        "\nscalar S scalar S { a }",
        r#"{"errors":[{"message":"syntax error: Unexpected <EOF>.","locations":[{"line":1,"column":29}]},{"message":"the type `S` is defined multiple times in the schema","locations":[{"line":2,"column":17}]},{"message":"a schema must not contain an operation definition","locations":[{"line":2,"column":19}]}]}"#,
    ),
    (
        false,
        "scalar Int type __Type { a: Int } type Query { a: Int }",
        "{ a }",
        r#"{"errors":[{"message":"built-in scalar definitions must be omitted","locations":[{"line":1,"column":1}]},{"message":"the type `__Type` is defined multiple times in the schema","locations":[{"line":1,"column":17}]},{"message":"a schema must not contain an operation definition","locations":[{"line":1,"column":1}]}]}"#,
    ),
    (
        true,
        "scalar Int type __Type { a: Int } type Query { a: Int }",
        "scalar S",
        "__Schema __Type __TypeKind __Field __InputValue __EnumValue __Directive __DirectiveLocation Int Float String Boolean ID Query S ",
    ),
];

/// The types of the schema of two texts, or what is wrong with them.
fn together(alloc: Global, ignores: bool, first: &str, second: &str) -> Result<String, Fail> {
    let mut ids = FileIds::new();
    let mut builder = ManuallyDrop::new(builder(alloc, ignores)?);
    add_text(alloc, first, &mut ids, &mut builder)?;
    add_text(alloc, second, &mut ids, &mut builder)?;
    match ManuallyDrop::into_inner(builder).build() {
        Ok(schema) => Ok(type_names(alloc, &ManuallyDrop::new(schema))?),
        Err(refused) => told_faults(alloc, refused),
    }
}

/// Why there is no schema.
fn told_faults(alloc: Global, refused: Refused<WithErrors<Schema>>) -> Result<String, Fail> {
    match refused {
        Refused::Fault(WithErrors { partial, errors }) => {
            forget(partial);
            told_list(alloc, errors)
        }
        Refused::Memory => Err("no memory")?,
    }
}

/// A builder that passes over definitions of what is built in, or doesn't.
fn builder(alloc: Global, ignores: bool) -> Result<SchemaBuilder, Memory> {
    let builder = SchemaBuilder::new(alloc)?;
    Ok(if ignores {
        builder.ignore_builtin_redefinitions()
    } else {
        builder
    })
}

/// Adds what a text defines.
fn add_text(
    alloc: Global,
    text: &str,
    ids: &mut FileIds,
    builder: &mut SchemaBuilder,
) -> Result<(), Memory>
    requires { ids.old < 2 ^ 63 }
    ensures { ids.new ≡ ids.old + 1 }
{
    Parser::new().parse_into_schema_builder(alloc, text, "schema.graphql", ids, builder)
}

#[test]
fn texts_make_one_schema(rt: HostRuntime) -> Result<(), Fail> {
    for (ignores, first, second, answer) in TOGETHER {
        let found = together(rt.alloc(), *ignores, first, second)?;
        assert_eq!(rt; found.as_str(), *answer, "{second:?}");
    }
    Ok(())
}
