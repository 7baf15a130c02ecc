//! What is told of a diagnostic, of a refused request and of what passed validation.

use crate::diagnostics::{FIRST, at, broken, files, unread};
use bytes::Bytes;
use gql_diag::{
    DiagnosticData, DiagnosticList, ExecutionResponse, GraphQLError, RequestError, Rule,
    ToCliReport, WithErrors,
};
use gql_schema_types::Valid;
use gql_source::{LineColumn, SourceMap, SourceSpan};
use jb_text::{Listed, Memory, Text};
use std::alloc::Global;
use std::test::Fail;

/// The JSON of a response that has this error alone.
fn printed(alloc: Global, error: GraphQLError) -> Result<Bytes, Memory> {
    let mut errors = Listed::new(alloc);
    errors.push(error)?;
    let response = ExecutionResponse { errors, root: None };
    response.to_bytes(alloc)
}

fn json(alloc: Global, item: &DiagnosticData, sources: &SourceMap) -> Result<Bytes, Memory> {
    printed(alloc, item.to_diagnostic(sources).to_json(alloc)?)
}

fn compat_json(alloc: Global, item: &DiagnosticData, sources: &SourceMap) -> Result<Bytes, Memory> {
    printed(
        alloc,
        item.to_diagnostic(sources).unstable_to_json_compat(alloc)?,
    )
}

/// The lines of a report of what can be reported.
fn lines_of<T: ToCliReport>(alloc: Global, told: &T, sources: &SourceMap) -> Result<Text, Memory> {
    told.to_report(alloc, sources)?.into_string(alloc)
}

/// What is told of a diagnostic in a response, and what the reference implementation says there.
fn both_json(alloc: Global, item: &DiagnosticData) -> Result<(Bytes, Bytes), Memory> {
    let sources = files(alloc, &[(FIRST, "p")])?;
    let own = json(alloc, item, &sources)?;
    Ok((own, compat_json(alloc, item, &sources)?))
}

/// A broken rule of documents at one byte of the second line.
fn broken_there(alloc: Global, rule: Rule, names: &[&str]) -> Result<DiagnosticData, Memory> {
    Ok(DiagnosticData {
        location: at(5),
        details: broken(alloc, rule, names)?,
    })
}

/// What is told of an unknown field.
fn undefined_field_json(alloc: Global) -> Result<(Bytes, Bytes), Memory> {
    let item = broken_there(alloc, Rule::UndefinedField, &["Query", "g"])?;
    both_json(alloc, &item)
}

#[test]
fn a_diagnostic_is_told_in_a_response(rt: HostRuntime) -> Result<(), Fail> {
    let (own, compat) = undefined_field_json(rt.alloc())?;
    assert_eq!(rt;
        (own.as_slice(), compat.as_slice()),
        (
            b"{\"errors\":[{\"message\":\"type `Query` does not have a field `g`\",\"locations\":[{\"line\":2,\"column\":2}]}],\"data\":null}".as_slice(),
            b"{\"errors\":[{\"message\":\"Cannot query field \\\"g\\\" on type \\\"Query\\\".\",\"locations\":[{\"line\":2,\"column\":2}]}],\"data\":null}".as_slice(),
        )
    );
    Ok(())
}

/// What the reference implementation says in a response of a text that is no sentence, at no place.
fn unread_json(alloc: Global) -> Result<Bytes, Memory> {
    let sources = files(alloc, &[(FIRST, "p")])?;
    let item = unread(alloc, None, "m")?;
    compat_json(alloc, &item, &sources)
}

#[test]
fn a_diagnostic_at_no_place_is_told_in_a_response(rt: HostRuntime) -> Result<(), Fail> {
    let nowhere = unread_json(rt.alloc())?;
    assert_eq!(rt;
        nowhere.as_slice(),
        b"{\"errors\":[{\"message\":\"syntax error: m\"}],\"data\":null}".as_slice()
    );
    Ok(())
}

/// Where a diagnostic at this place begins and ends, by lines and columns.
fn range_of(
    alloc: Global,
    location: Option<SourceSpan>,
) -> Result<Option<(LineColumn, LineColumn)>, Memory> {
    let sources = files(alloc, &[(FIRST, "p")])?;
    let item = unread(alloc, location, "m")?;
    let range = item.to_diagnostic(&sources).line_column_range();
    Ok(range.map(|range| (range.start, range.end)))
}

#[test]
fn a_diagnostic_has_a_range_of_lines_and_columns(rt: HostRuntime) -> Result<(), Fail> {
    let start = LineColumn { line: 2, column: 2 };
    let end = LineColumn { line: 2, column: 3 };
    assert_eq!(rt; range_of(rt.alloc(), at(5))?, Some((start, end)));
    assert_eq!(rt; range_of(rt.alloc(), at(8))?, None);
    Ok(())
}

/// The lines of the report of a diagnostic with its files, and of the report that it gives itself.
fn both_reports(alloc: Global, item: &DiagnosticData) -> Result<(Text, Text), Memory> {
    let sources = files(alloc, &[(FIRST, "p")])?;
    let with_files = item
        .to_diagnostic(&sources)
        .to_report(alloc)?
        .into_string(alloc)?;
    Ok((with_files, lines_of(alloc, &item, &sources)?))
}

/// Both of an undefined root operation.
fn root_operation_reports(alloc: Global) -> Result<(Text, Text), Memory> {
    let item = broken_there(alloc, Rule::UndefinedRootOperation, &["mutation"])?;
    both_reports(alloc, &item)
}

#[test]
fn a_diagnostic_is_reported_with_both_places(rt: HostRuntime) -> Result<(), Fail> {
    let lines =
        "Error: `mutation` root operation type is not defined\np:2:2: `mutation` is not defined in the schema and is therefore not supported\np:1:1: previous definition here\n";
    let (with_files, own) = root_operation_reports(rt.alloc())?;
    assert_eq!(rt; (with_files.as_str(), own.as_str()), (lines, lines));
    Ok(())
}

/// Why a request is refused, at one byte of the first file.
fn refusal(alloc: Global, is_suspected_validation_bug: bool) -> Result<RequestError, Memory> {
    Ok(RequestError {
        message: Text::from_str(alloc, "no such operation")?,
        location: at(2),
        is_suspected_validation_bug,
    })
}

fn refusal_json(
    alloc: Global,
    refusal: &RequestError,
    sources: &SourceMap,
) -> Result<Bytes, Memory> {
    printed(alloc, refusal.to_graphql_error(alloc, sources)?)
}

/// Whether a refusal is suspected to be a bug, and the response that tells it.
const REFUSALS: &[(bool, &[u8])] = &[
    (
        false,
        b"{\"errors\":[{\"message\":\"no such operation\",\"locations\":[{\"line\":1,\"column\":3}]}],\"data\":null}",
    ),
    (
        true,
        b"{\"errors\":[{\"message\":\"no such operation\",\"locations\":[{\"line\":1,\"column\":3}],\"extensions\":{\"APOLLO_SUSPECTED_VALIDATION_BUG\":true}}],\"data\":null}",
    ),
];

/// The response that tells of a refusal.
fn refused_json(alloc: Global, is_suspected: bool) -> Result<Bytes, Memory> {
    let sources = files(alloc, &[(FIRST, "p")])?;
    let refused = refusal(alloc, is_suspected)?;
    refusal_json(alloc, &refused, &sources)
}

#[test]
fn a_refused_request_is_told_in_a_response(rt: HostRuntime) -> Result<(), Fail> {
    for (is_suspected, json) in REFUSALS {
        let found = refused_json(rt.alloc(), *is_suspected)?;
        assert_eq!(rt; found.as_slice(), *json);
    }
    Ok(())
}

/// Whether a refusal has its message and its place.
fn has_message_and_place(alloc: Global, is_suspected: bool) -> Result<bool, Memory> {
    let refused = refusal(alloc, is_suspected)?;
    Ok(refused.message() == "no such operation" && refused.location() == at(2))
}

#[test]
fn a_refused_request_has_a_message_and_a_place(rt: HostRuntime) -> Result<(), Fail> {
    assert!(rt; has_message_and_place(rt.alloc(), false)?);
    assert!(rt; has_message_and_place(rt.alloc(), true)?);
    Ok(())
}

/// A list of one diagnostic, in no file.
fn one_error(alloc: Global) -> Result<DiagnosticList, Memory> {
    let item = unread(alloc, None, "m")?;
    let mut errors = DiagnosticList::new(alloc, files(alloc, &[])?);
    errors.push(item)?;
    Ok(errors)
}

#[test]
fn what_is_valid_is_what_it_was(rt: HostRuntime) -> Result<(), Fail> {
    let valid = Valid::assume_valid(7_u32);
    assert_eq!(rt; *valid.as_ref(), 7);
    let partly = WithErrors {
        partial: valid.into_inner(),
        errors: one_error(rt.alloc())?,
    };
    assert_eq!(rt; (partly.partial, partly.errors.len()), (7, 1));
    Ok(())
}
