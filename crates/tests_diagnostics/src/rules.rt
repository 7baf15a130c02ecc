//! What is told of broken rules, for made names, and of other diagnostics.

mod build_rules;
mod document_rules;
mod shared_rules;

use crate::fixtures::broken_rule;
use gql_diag_messages::{Details, DiagnosticData, Rule};
use gql_source::{FileId, SourceSpan};
use jb_text::{Memory, Text};
use std::alloc::Global;
use std::test::Fail;

/// The diagnostic of a rule that is broken, by these names.
fn diagnostic(alloc: Global, rule: Rule, names: &[&str]) -> Result<DiagnosticData, Memory> {
    let fault = broken_rule(alloc, rule, names, None)?;
    Ok(DiagnosticData {
        location: None,
        details: Details::CompilerDiagnostic(fault),
    })
}

/// What the reference implementation says, or the empty text.
fn compat_of(alloc: Global, item: &DiagnosticData) -> Result<Text, Memory> {
    match item.unstable_compat_message(alloc)? {
        Some(compat) => Ok(compat),
        None => Text::from_str(alloc, ""),
    }
}

/// The message, and what the reference implementation says or the empty text.
fn both_of(alloc: Global, item: &DiagnosticData) -> Result<(Text, Text), Memory> {
    let message = item.message(alloc)?;
    Ok((message, compat_of(alloc, item)?))
}

/// What is told of a rule that is broken by these names, in both ways.
fn messages(alloc: Global, rule: Rule, names: &[&str]) -> Result<(Text, Text), Memory> {
    let item = diagnostic(alloc, rule, names)?;
    both_of(alloc, &item)
}

/// Each rule, its message, and what the reference implementation says or the empty text.
const TABLES: [&[(Rule, &str, &str)]; 8] = [
    &build_rules::SCHEMAS,
    &build_rules::DOCUMENTS,
    &document_rules::VALUES,
    &document_rules::FRAGMENTS,
    &document_rules::VARIABLES_AND_FIELDS,
    &shared_rules::USES,
    &shared_rules::TYPES,
    &shared_rules::DEFINITIONS,
];

const NAMES: [&str; 6] = ["A", "b", "c", "d", "E", "F"];

/// The name of the first rule of a table that is told otherwise.
fn told_otherwise(
    alloc: Global,
    rows: &[(Rule, &str, &str)],
) -> Result<Option<&'static str>, Memory> {
    for (rule, message, compat) in rows {
        let (found, found_compat) = messages(alloc, *rule, &NAMES)?;
        if found.as_str() != *message || found_compat.as_str() != *compat {
            return Ok(Some(rule.name()));
        }
    }
    Ok(None)
}

#[test]
fn each_rule_has_its_messages(rt: HostRuntime) -> Result<(), Fail> {
    for rows in &TABLES {
        assert_eq!(rt; told_otherwise(rt.alloc(), rows)?, None);
    }
    Ok(())
}

/// Rules, names of which some are lacking or are those of a directive or of a wrapped type, and what the reference
/// implementation says of them.
const COMPAT_MESSAGES: [(Rule, &[&str], &str); 9] = [
    (
        Rule::TypeSystemDefinition,
        &["a schema definition", ""],
        "The schema definition is not executable.",
    ),
    (
        Rule::SubscriptionUsesMultipleFields,
        &[""],
        "Anonymous Subscription must select only one top level field.",
    ),
    (
        Rule::SubscriptionUsesIntrospection,
        &[""],
        "Anonymous Subscription must not select an introspection top level field.",
    ),
    (
        Rule::SubscriptionUsesConditionalSelection,
        &[""],
        "Anonymous Subscription can not specify @skip or @include on root fields.",
    ),
    (
        Rule::RequiredArgument,
        &["@skip", "if", "Boolean!"],
        "Directive \"@skip\" argument \"if\" of type \"Boolean!\" is required, but it was not provided.",
    ),
    (
        Rule::InvalidFragmentTarget,
        &["", "A"],
        "Fragment cannot condition on non composite type \"A\".",
    ),
    (
        Rule::InvalidFragmentSpread,
        &["", "A", "B"],
        "Fragment cannot be spread here as objects of type \"A\" can never be of type \"B\".",
    ),
    (
        Rule::UnsupportedValueType,
        &["Int!", "null"],
        "Int cannot represent value: null",
    ),
    (
        Rule::UnsupportedValueType,
        &["[[Int!]]!", "\"x!\""],
        "Int cannot represent value: \"x!\"",
    ),
];

fn compat_message(alloc: Global, rule: Rule, names: &[&str]) -> Result<Text, Memory> {
    let item = diagnostic(alloc, rule, names)?;
    compat_of(alloc, &item)
}

#[test]
fn names_that_lack_or_are_wrapped_are_told_in_words_of_their_own(
    rt: HostRuntime,
) -> Result<(), Fail> {
    for (rule, names, compat) in &COMPAT_MESSAGES {
        let found = compat_message(rt.alloc(), *rule, names)?;
        assert_eq!(rt; found.as_str(), *compat);
    }
    Ok(())
}

/// Adds a line.
fn add(lines: &mut String, line: &str) -> Result<(), Memory> {
    lines.push_str(line)?;
    lines.push_str("\n")
}

/// Adds the line of what the reference implementation says, or `-`.
fn add_compat(lines: &mut String, alloc: Global, item: &DiagnosticData) -> Result<(), Memory> {
    match item.unstable_compat_message(alloc)? {
        Some(compat) => add(lines, compat.as_str()),
        None => add(lines, "-"),
    }
}

/// What is told of a diagnostic, in lines: its message, what the reference implementation says, the name of the error,
/// the label, and the name of the broken rule. A `-` stands for what there is not.
fn lines_of(alloc: Global, item: &DiagnosticData) -> Result<String, Memory> {
    let mut lines = String::new(alloc);
    add(&mut lines, item.message(alloc)?.as_str())?;
    add_compat(&mut lines, alloc, item)?;
    add(&mut lines, item.unstable_error_name().unwrap_or("-"))?;
    add(&mut lines, item.details.label(alloc)?.as_str())?;
    add(
        &mut lines,
        item.details.fault().map_or("-", |fault| fault.rule.name()),
    )?;
    Ok(lines)
}

fn told(alloc: Global, details: Details) -> Result<String, Memory> {
    let item = DiagnosticData {
        location: None,
        details,
    };
    lines_of(alloc, &item)
}

fn told_limit(alloc: Global, message: &str) -> Result<String, Memory> {
    let message = Text::from_str(alloc, message)?;
    told(alloc, Details::ParserLimit { message })
}

fn told_syntax(alloc: Global, message: &str) -> Result<String, Memory> {
    let message = Text::from_str(alloc, message)?;
    told(alloc, Details::SyntaxError { message })
}

/// What is told of each kind that breaks no rule, one behind the other.
fn told_without_rule(alloc: Global) -> Result<String, Memory> {
    let mut all = told_limit(alloc, "too many tokens")?;
    all.push_str(told_syntax(alloc, "expected a name")?.as_str())?;
    all.push_str(told(alloc, Details::RecursionLimitError)?.as_str())?;
    Ok(all)
}

#[test]
fn what_breaks_no_rule_is_told_too(rt: HostRuntime) -> Result<(), Fail> {
    let all = told_without_rule(rt.alloc())?;
    assert_eq!(rt;
        all.as_str(),
        "too many tokens\n-\n-\nhere\n-\nsyntax error: expected a name\n-\n-\nhere\n-\ntoo much recursion\n-\nRecursionLimitError\nhere\n-\n"
    );
    Ok(())
}

/// What is told of a rule that is broken in a document.
fn told_in_document(alloc: Global, rule: Rule, names: &[&str]) -> Result<String, Memory> {
    let fault = broken_rule(alloc, rule, names, None)?;
    told(alloc, Details::ExecutableBuildError(fault))
}

/// What is told of a rule that is broken in a schema.
fn told_in_schema(alloc: Global, rule: Rule, names: &[&str]) -> Result<String, Memory> {
    let fault = broken_rule(alloc, rule, names, None)?;
    told(alloc, Details::SchemaBuildError(fault))
}

/// The other place of a rule that is broken in a document, where it has this one.
fn other_place(alloc: Global, other: SourceSpan) -> Result<Option<SourceSpan>, Memory> {
    let fault = broken_rule(alloc, Rule::UndefinedRootOperation, &[], Some(other))?;
    Ok(Details::ExecutableBuildError(fault).other())
}

#[test]
fn a_broken_rule_has_a_name_a_label_and_another_place(rt: HostRuntime) -> Result<(), Fail> {
    let other = SourceSpan::new(FileId { number: 1 }, 3, 4);
    assert_eq!(rt; other_place(rt.alloc(), other)?, Some(other));
    let document = told_in_document(rt.alloc(), Rule::UndefinedRootOperation, &["mutation"])?;
    assert_eq!(rt;
        document.as_str(),
        "`mutation` root operation type is not defined\nThe schema has no \"mutation\" root type defined\nUndefinedRootOperation\n`mutation` is not defined in the schema and is therefore not supported\nUndefinedRootOperation\n"
    );
    let schema = told_in_schema(rt.alloc(), Rule::UndefinedField, &["Query", "g"])?;
    assert_eq!(rt;
        schema.as_str(),
        "type `Query` does not have a field `g`\n-\n-\nhere\nUndefinedField\n"
    );
    Ok(())
}
