//! Each type of syntax tree, with each of its fields and its place.
//!
//! A row has a text, and what its definitions are by sections 2 and 3 of GraphQL October 2021, worked out by hand. No
//! two names of a text are the same, so that a piece of the text tells where it stands.
//!
//! A tree that is held by itself is dear to prove, and a list of trees much less so. So what is copied is a list.

mod description;
mod extension_rows;
mod members;
mod operation_rows;
mod operations;
mod schemas;
mod type_rows;
mod types;
mod value_rows;
mod values;

use crate::documents::{FILE, document};
use crate::same::same;
use description::Description;
use extension_rows::EXTENSIONS;
use gql_ast::{Copying, Definition, Document};
use jb_text::{Listed, Memory};
use operation_rows::OPERATIONS;
use operations::{fragment_definition, operation_definition};
use schemas::{directive_definition, schema_definition, schema_extension};
use std::alloc::Global;
use std::process::Abort;
use std::test::Fail;
use type_rows::TYPES;
use types::{
    enum_definition, enum_extension, input_object_definition, input_object_extension,
    interface_definition, interface_extension, object_definition, object_extension,
    scalar_definition, scalar_extension, union_definition, union_extension,
};
use value_rows::VALUES;

/// The lines of a definition.
fn definition(out: &mut Description<'_>, definition: &Definition) {
    match definition {
        Definition::OperationDefinition(it) => operation_definition(out, it),
        Definition::FragmentDefinition(it) => fragment_definition(out, it),
        Definition::DirectiveDefinition(it) => directive_definition(out, it),
        Definition::SchemaDefinition(it) => schema_definition(out, it),
        Definition::ScalarTypeDefinition(it) => scalar_definition(out, it),
        Definition::ObjectTypeDefinition(it) => object_definition(out, it),
        Definition::InterfaceTypeDefinition(it) => interface_definition(out, it),
        Definition::UnionTypeDefinition(it) => union_definition(out, it),
        Definition::EnumTypeDefinition(it) => enum_definition(out, it),
        Definition::InputObjectTypeDefinition(it) => input_object_definition(out, it),
        Definition::SchemaExtension(it) => schema_extension(out, it),
        Definition::ScalarTypeExtension(it) => scalar_extension(out, it),
        Definition::ObjectTypeExtension(it) => object_extension(out, it),
        Definition::InterfaceTypeExtension(it) => interface_extension(out, it),
        Definition::UnionTypeExtension(it) => union_extension(out, it),
        Definition::EnumTypeExtension(it) => enum_extension(out, it),
        Definition::InputObjectTypeExtension(it) => input_object_extension(out, it),
    }
}

/// The lines of definitions, with pieces of the text.
fn described(
    alloc: Global,
    text: &str,
    definitions: &Listed<Definition>,
) -> Result<String, Memory> {
    let mut out = Description::new(alloc, text);
    for it in definitions.as_slice() {
        definition(&mut out, it);
    }
    out.into_lines()
}

/// The text of a document's file.
fn source_of(made: &Document) -> &str {
    match made.sources.get(FILE) {
        Some(file) => file.source_text(),
        None => "no file",
    }
}

/// The lines of copies of a document's definitions.
fn copied(alloc: Global, made: &Document) -> Result<String, Memory> {
    let copies = made.definitions.copy(alloc)?;
    described(alloc, source_of(made), &copies)
}

/// The lines of the document of a text.
fn lines_of(alloc: Global, text: &str) -> Result<String, Fail> {
    let made = document(alloc, text)?;
    Ok(copied(alloc, &made)?)
}

const TABLES: &[&[(&str, &str)]] = &[OPERATIONS, VALUES, TYPES, EXTENSIONS];

fn check_rows(rt: &impl Abort, alloc: Global, rows: &[(&str, &str)]) -> Result<(), Fail> {
    for (text, lines) in rows {
        same(
            rt,
            text,
            lines_of(alloc, text)?.as_str(),
            lines.trim_start(),
        );
    }
    Ok(())
}

#[test]
fn each_field_of_each_tree(rt: HostRuntime) -> Result<(), Fail> {
    for rows in TABLES {
        check_rows(&rt, rt.alloc(), rows)?;
    }
    Ok(())
}
