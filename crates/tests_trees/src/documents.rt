//! Documents made of texts, piece by piece.

use crate::same::same;
use gql_ast::{
    Argument, Convert, Copying, Definition, Document, Name, NameFault, Selection, TypeRef,
    print_type, print_value,
};
use gql_cst::{Limits, Tree, parse_document, parse_type};
use gql_source::{FileId, SourceFile, SourceMap};
use jb_text::{Listed, Memory, Refused, Text};
use std::alloc::Global;
use std::test::Fail;

pub(crate) const FILE: FileId = FileId { number: 3 };

const LIMITS: Limits = Limits {
    recursion: 500,
    tokens: None,
};

/// The document of a text, as the file `a.graphql`.
pub(crate) fn document(alloc: Global, text: &str) -> Result<Document, Fail> {
    let parsed = parse_document(alloc, text, &LIMITS)?;
    if parsed.error.is_some() {
        return Err("the text is no document".into());
    }
    Ok(converted(alloc, text, &parsed.tree)?)
}

fn converted(alloc: Global, text: &str, tree: &Tree) -> Result<Document, Memory> {
    let mut sources = SourceMap::new(alloc);
    sources.insert(FILE, SourceFile::new(alloc, "a.graphql", text)?)?;
    Document::from_cst(alloc, tree, FILE, sources)
}

/// The arguments of the first field of a query.
fn only_arguments(made: &Document) -> Option<&Listed<Argument>> {
    let Definition::OperationDefinition(operation) = made.definitions.get(0)? else {
        return None;
    };
    let Selection::Field(field) = operation.selection_set.get(0)? else {
        return None;
    };
    Some(&field.arguments)
}

/// The text of the value of the first argument.
fn printed(alloc: Global, arguments: &Listed<Argument>) -> Result<Text, Fail> {
    match arguments.get(0) {
        Some(argument) => Ok(print_value(alloc, &argument.value)?),
        None => Err("no argument".into()),
    }
}

/// The text of a copy of the value that the field is given.
fn copied(alloc: Global, made: &Document) -> Result<Text, Fail> {
    let Some(arguments) = only_arguments(made) else {
        return Err("no field".into());
    };
    let copies = arguments.copy(alloc)?;
    printed(alloc, &copies)
}

/// The text of the value of a query.
fn value_text(alloc: Global, query: &str) -> Result<Text, Fail> {
    let made = document(alloc, query)?;
    copied(alloc, &made)
}

/// Queries that give a field a value, and the text of the value.
const VALUES: &[(&str, &str)] = &[
    (
        "{ f(x: {b: 4, a: [1,$v,\"q\\n\"]}) }",
        "{b: 4, a: [1, $v, \"q\\n\"]}",
    ),
    ("{ f(x: []) }", "[]"),
    ("{ f(x: { }) }", "{}"),
    ("{ f(x: [-1.5e3 true, A null]) }", "[-1.5e3, true, A, null]"),
    ("{ f(x: \"\"\"\n  a\n    b\n\"\"\") }", "\"a\\n  b\""),
];

#[test]
fn values(rt: HostRuntime) -> Result<(), Fail> {
    for (query, text) in VALUES {
        same(&rt, query, value_text(rt.alloc(), query)?.as_str(), text);
    }
    Ok(())
}

fn printed_type(alloc: Global, made: &Result<Option<TypeRef>, Memory>) -> Result<Text, Fail> {
    match made {
        Ok(Some(ty)) => Ok(print_type(alloc, ty)?),
        Ok(None) => Err("no type".into()),
        Err(_) => Err("no memory".into()),
    }
}

/// The text of the type that a tree is.
fn converted_type(alloc: Global, text: &str, tree: &Tree) -> Result<Text, Fail> {
    let made = TypeRef::convert(alloc, tree, text, FILE);
    printed_type(alloc, &made)
}

/// The text of the type that a text is.
fn type_text(alloc: Global, text: &str) -> Result<Text, Fail> {
    let parsed = parse_type(alloc, text, &LIMITS)?;
    converted_type(alloc, text, &parsed.tree)
}

const TYPES: &[&str] = &["Foo", "Foo!", "[Foo]", "[Foo!]!", "[[Foo]!]"];

#[test]
fn types(rt: HostRuntime) -> Result<(), Fail> {
    for text in TYPES {
        same(&rt, text, type_text(rt.alloc(), text)?.as_str(), text);
    }
    Ok(())
}

/// Texts, and the names that they are.
const NAMES: &[(&str, &str)] = &[
    ("a1", "a1"),
    ("_", "_"),
    ("__a", "__a"),
    ("1a", "no name"),
    ("", "no name"),
    ("a-b", "no name"),
    (" a", "no name"),
    ("é", "no name"),
];

/// The name, or `no name`.
fn name_text(made: &Result<Name, Refused<NameFault>>) -> &str {
    match made {
        Ok(name) => name.as_str(),
        Err(Refused::Fault(NameFault::InvalidName)) => "no name",
        Err(_) => "no memory",
    }
}

#[test]
fn names(rt: HostRuntime) {
    for (text, name) in NAMES {
        same(&rt, text, name_text(&Name::new(rt.alloc(), text)), name);
    }
}

/// What a definition is, of those that the test below has.
fn definition_text(definition: Option<&Definition>) -> &str {
    match definition {
        Some(Definition::ObjectTypeDefinition(_)) => "object type",
        Some(Definition::OperationDefinition(_)) => "operation",
        Some(_) => "another",
        None => "none",
    }
}

/// What was read before a fault, definition by definition.
const BEFORE_A_FAULT: &[&str] = &["object type", "operation", "none"];

#[test]
fn definitions_before_a_fault(rt: HostRuntime) -> Result<(), Fail> {
    let text = "type A { a: Int } query Q { b } type B { c ]";
    let parsed = parse_document(rt.alloc(), text, &LIMITS)?;
    if parsed.error.is_none() {
        return Err("the text is a document".into());
    }
    let made = converted(rt.alloc(), text, &parsed.tree)?;
    for (place, wanted) in BEFORE_A_FAULT.iter().enumerate() {
        let found = definition_text(made.definitions.get(place));
        same(&rt, text, found, wanted);
    }
    Ok(())
}
