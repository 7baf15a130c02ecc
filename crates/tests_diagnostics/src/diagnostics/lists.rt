//! Lists: their order, going through them, and merging them.

use crate::diagnostics::{FIRST, SECOND, at, broken, files, unread};
use gql_diag::{Details, Diagnostic, DiagnosticData, DiagnosticList, Rule};
use gql_source::{FileId, SourceSpan};
use jb_text::{Memory, Text};
use std::alloc::Global;
use std::test::Fail;

/// The messages of a list's diagnostics in order, each behind a `;`.
fn messages(alloc: Global, list: &DiagnosticList) -> Result<String, Memory> {
    let mut out = String::new(alloc);
    for diagnostic in list.iter() {
        out.push_str(diagnostic.error.message(alloc)?.as_str())?;
        out.push_str(";")?;
    }
    Ok(out)
}

/// A diagnostic at the start of the first file.
fn at_start(details: Details) -> DiagnosticData {
    DiagnosticData {
        location: at(0),
        details,
    }
}

/// How many diagnostics there are in [`reversed`].
const COUNT: usize = 8;

/// One of the diagnostics, by its number from the last on.
fn diagnostic(alloc: Global, number: usize) -> Result<DiagnosticData, Memory> {
    match number {
        0 => unread(
            alloc,
            Some(SourceSpan::new(SECOND, 0, 1)),
            "in another file",
        ),
        1 => unread(alloc, at(2), "later"),
        2 => Ok(at_start(Details::RecursionLimitError)),
        3 => Ok(at_start(broken(alloc, Rule::UnusedVariable, &["a"])?)),
        4 => Ok(at_start(broken(alloc, Rule::UndefinedField, &["Query", "h"])?)),
        5 => Ok(at_start(broken(alloc, Rule::UndefinedField, &["Query", "g"])?)),
        6 => Ok(at_start(Details::ParserLimit {
            message: Text::from_str(alloc, "too deep")?,
        })),
        _ => unread(alloc, None, "nowhere"),
    }
}

/// Diagnostics with the last one first.
fn reversed(alloc: Global) -> Result<DiagnosticList, Memory> {
    let mut list = DiagnosticList::new(alloc, files(alloc, &[(FIRST, "p")])?);
    for number in 0..COUNT {
        list.push(diagnostic(alloc, number)?)?;
    }
    Ok(list)
}

/// The same in their order.
fn sorted(alloc: Global) -> Result<DiagnosticList, Memory> {
    let mut list = reversed(alloc)?;
    list.sort()?;
    Ok(list)
}

/// The messages of the sorted list.
fn sorted_messages(alloc: Global) -> Result<String, Memory> {
    let list = sorted(alloc)?;
    messages(alloc, &list)
}

#[test]
fn sorting_goes_by_place_and_row_and_names(rt: HostRuntime) -> Result<(), Fail> {
    let messages = sorted_messages(rt.alloc())?;
    assert_eq!(rt;
        messages.as_str(),
        "syntax error: nowhere;too deep;type `Query` does not have a field `g`;type `Query` does not have a field `h`;unused variable: `$a`;too much recursion;syntax error: later;syntax error: in another file;"
    );
    Ok(())
}

/// Adds the message of what a walk gave and a `;`, or `none`.
fn add_given(
    out: &mut String,
    alloc: Global,
    given: Option<Diagnostic<'_, DiagnosticData>>,
) -> Result<(), Memory> {
    match given {
        Some(diagnostic) => out.push_str(diagnostic.error.message(alloc)?.as_str())?,
        None => out.push_str("none")?,
    }
    out.push_str(";")
}

/// The messages of the last of a list, the first and the second, as a walk gives them.
fn walked(alloc: Global, list: &DiagnosticList) -> Result<String, Memory> {
    let mut out = String::new(alloc);
    let mut walk = list.iter();
    add_given(&mut out, alloc, walk.next_back())?;
    add_given(&mut out, alloc, walk.next())?;
    add_given(&mut out, alloc, walk.next())?;
    Ok(out)
}

/// How many files the second of a list comes with, where the last was taken before.
fn files_of_second(list: &DiagnosticList) -> Option<usize> {
    let mut walk = list.iter();
    walk.next_back()?;
    walk.next()?;
    let second = walk.next()?;
    Some(second.sources.len())
}

/// The same of the list with the last one first.
fn messages_walked(alloc: Global) -> Result<String, Memory> {
    let list = reversed(alloc)?;
    walked(alloc, &list)
}

/// The length of a list, whether it is empty, and how many files its second comes with.
fn counts(alloc: Global) -> Result<(usize, bool, Option<usize>), Memory> {
    let list = reversed(alloc)?;
    Ok((list.len(), list.is_empty(), files_of_second(&list)))
}

#[test]
fn a_list_is_gone_through_from_either_end(rt: HostRuntime) -> Result<(), Fail> {
    let messages = messages_walked(rt.alloc())?;
    assert_eq!(rt;
        messages.as_str(),
        "syntax error: nowhere;syntax error: in another file;syntax error: later;"
    );
    let counts = counts(rt.alloc())?;
    assert_eq!(rt; counts, (COUNT, false, Some(1)));
    Ok(())
}

/// A list with these files, of texts that are no sentences at these places.
fn list_of(
    alloc: Global,
    paths: &[(FileId, &str)],
    items: &[(Option<SourceSpan>, &str)],
) -> Result<DiagnosticList, Memory> {
    let mut list = DiagnosticList::new(alloc, files(alloc, paths)?);
    for (location, words) in items {
        list.push(unread(alloc, *location, words)?)?;
    }
    Ok(list)
}

/// The path of a file of a list.
fn path_of(list: &DiagnosticList, id: FileId) -> Option<&str> {
    let file = list.sources().get(id)?;
    Some(file.path())
}

/// How many files a list has, and its messages with the paths of the two files behind them.
fn summary(alloc: Global, list: &DiagnosticList) -> Result<(usize, String), Memory> {
    let mut out = messages(alloc, list)?;
    out.push_str(path_of(list, FIRST).unwrap_or("-"))?;
    out.push_str(";")?;
    out.push_str(path_of(list, SECOND).unwrap_or("-"))?;
    Ok((list.sources().len(), out))
}

/// The same of a list that took in another.
fn merged(
    alloc: Global,
    own: DiagnosticList,
    other: DiagnosticList,
) -> Result<(usize, String), Memory> {
    let mut list = own;
    list.merge(other)?;
    summary(alloc, &list)
}

/// The same of an empty list that took in one with a file.
fn merged_into_none(alloc: Global) -> Result<(usize, String), Memory> {
    let other = list_of(alloc, &[(FIRST, "p")], &[(at(0), "one")])?;
    let own = list_of(alloc, &[], &[])?;
    merged(alloc, own, other)
}

/// Whether a list of nothing is empty.
fn is_list_empty(alloc: Global) -> Result<bool, Memory> {
    Ok(list_of(alloc, &[], &[])?.is_empty())
}

#[test]
fn merging_into_an_empty_list_gives_the_other(rt: HostRuntime) -> Result<(), Fail> {
    assert!(rt; is_list_empty(rt.alloc())?);
    let (files, told) = merged_into_none(rt.alloc())?;
    assert_eq!(rt; (files, told.as_str()), (1, "syntax error: one;p;-"));
    Ok(())
}

/// The same of a list that took in another with an item at its own place and another text of its own file.
fn merged_with_ties(alloc: Global) -> Result<(usize, String), Memory> {
    let others = [(at(2), "c"), (at(1), "first")];
    let other = list_of(alloc, &[(FIRST, "other"), (SECOND, "second")], &others)?;
    let owns = [(at(2), "b"), (at(2), "a")];
    let own = list_of(alloc, &[(FIRST, "own")], &owns)?;
    merged(alloc, own, other)
}

#[test]
fn merging_keeps_ties_and_own_files(rt: HostRuntime) -> Result<(), Fail> {
    let (files, told) = merged_with_ties(rt.alloc())?;
    assert_eq!(rt;
        (files, told.as_str()),
        (
            2,
            "syntax error: first;syntax error: b;syntax error: a;syntax error: c;own;second"
        )
    );
    Ok(())
}
