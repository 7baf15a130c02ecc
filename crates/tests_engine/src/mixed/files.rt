//! The numbers of files, and what an answer has.

ghost use Rattle.std.specs.Prelude.{◌<◌, ◌^◌, ◌≡◌, ◌+◌};

use gql_engine::{ExecutableDocument, FileId, FileIds, Parser, Refused, Schema, SourceMap, Valid};
use std::alloc::Global;
use std::mem::ManuallyDrop;
use std::test::Fail;

const GOOD: &str = "type Query { a: Int } query A { ...F } query B { a } fragment F on Query { a }";

/// Texts that the syntax, a build, the rules on schemas and those on documents stop.
const WRONG: [&str; 4] = [
    "type Query { a: Int } {",
    "type Query { a: Int } { b }",
    "type Query { a: Nothing } { a }",
    "type Query { a: Int } { ...F }",
];

/// Whether the files are the built-in one and one that has this number and this text.
fn has_both(sources: &SourceMap, number: u64, text: &str) -> bool {
    sources.len() == 2 && sources.get(FileId::BUILT_IN).is_some() && has_file(sources, number, text)
}

/// Whether the file of the number has this text and the path `a`.
fn has_file(sources: &SourceMap, number: u64, text: &str) -> bool {
    match sources.get(FileId { number }) {
        Some(file) => file.path() == "a" && file.source_text() == text,
        None => false,
    }
}

/// Whether the schema and the document are those of the good text, which is the file of the number.
fn are_good(schema: &Valid<Schema>, document: &Valid<ExecutableDocument>, number: u64) -> bool {
    let (schema, document) = (schema.as_ref(), document.as_ref());
    has_both(&schema.sources, number, GOOD)
        && document.sources.len() == 1
        && has_file(&document.sources, number, GOOD)
        && is_good_schema(schema)
        && document.operations.len() == 2
        && document.fragments.len() == 1
}

/// Whether a schema has the type that the good text defines, and of the scalars those that stay.
fn is_good_schema(schema: &Schema) -> bool {
    schema.get_object("Query").is_some()
        && schema.types.get("Int").is_some()
        && schema.types.get("String").is_some()
        && schema.types.get("Float").is_none()
        && schema.types.get("ID").is_none()
}

/// Whether a text is answered as it should be, as the file of this number.
fn is_as_wanted(
    alloc: Global,
    text: &str,
    is_good: bool,
    number: u64,
    ids: &mut FileIds,
) -> Result<bool, Fail>
    requires { ids.old < 2 ^ 63 }
    ensures { ids.new ≡ ids.old + 1 }
{
    match Parser::new().parse_mixed_validate(alloc, text, "a", ids) {
        Ok(both) => {
            let both = ManuallyDrop::new(both);
            Ok(is_good && are_good(&both.0, &both.1, number))
        }
        Err(Refused::Fault(errors)) => Ok(!is_good && has_both(errors.sources(), number, text)),
        Err(Refused::Memory) => Err("no memory")?,
    }
}

#[test]
fn each_text_takes_a_number(rt: HostRuntime) -> Result<(), Fail> {
    let mut ids = FileIds::new();
    assert!(rt; is_as_wanted(rt.alloc(), GOOD, true, 3, &mut ids)?);
    assert!(rt; is_as_wanted(rt.alloc(), WRONG[0], false, 4, &mut ids)?);
    assert!(rt; is_as_wanted(rt.alloc(), WRONG[1], false, 5, &mut ids)?);
    assert!(rt; is_as_wanted(rt.alloc(), WRONG[2], false, 6, &mut ids)?);
    assert!(rt; is_as_wanted(rt.alloc(), WRONG[3], false, 7, &mut ids)?);
    assert!(rt; is_as_wanted(rt.alloc(), GOOD, true, 8, &mut ids)?);
    assert_eq!(rt; ids.next(), Some(FileId { number: 9 }));
    Ok(())
}

/// The last number that is given.
const LAST: u64 = 9_223_372_036_854_775_807;

#[test]
fn the_last_number_is_taken_too(rt: HostRuntime) -> Result<(), Fail> {
    let mut ids = FileIds::starting_at(LAST);
    assert!(rt; is_as_wanted(rt.alloc(), GOOD, true, LAST, &mut ids)?);
    assert!(rt; ids.at_end());
    let mut ids = FileIds::starting_at(LAST);
    assert!(rt; is_as_wanted(rt.alloc(), WRONG[3], false, LAST, &mut ids)?);
    assert!(rt; ids.at_end());
    Ok(())
}
