//! What is told of a reading that stopped.

ghost use Rattle.std.specs.Prelude.{◌≡◌, ◌≤◌, IfOk};
ghost use Rattle.gql_parser.specs.Diagnosed.{details_of, diagnostic as diagnostic_of, list_of as list_told, range_of};
ghost use Rattle.gql_parser.specs.Parsers.{given};

use crate::file::only_file;
use gql_cst::CstError;
use gql_diag::{Details, DiagnosticData, DiagnosticList};
use gql_source::{FileId, SourceMap, SourceSpan};
use jb_text::{Memory, Text};
use std::alloc::Global;
use std::ops::Range;

/// The list that has the diagnostic of this error alone, with its one file.
pub(crate) fn list_of(
    alloc: Global,
    file_id: FileId,
    path: &str,
    text: &str,
    error: &CstError,
) -> Result<DiagnosticList, Memory>
    requires { (range_of error.now).start ≤ (range_of error.now).end }
    ensures { IfOk result (λ list. list ≡ list_told (given file_id path.now text.now) error.now) }
{
    let sources = only_file(alloc, file_id, path, text)?;
    let mut list = DiagnosticList::new(alloc, sources);
    list.push(diagnostic(alloc, file_id, error)?)?;
    Ok(list)
}

/// The error as a diagnostic of the file.
fn diagnostic(alloc: Global, file_id: FileId, error: &CstError) -> Result<DiagnosticData, Memory>
    requires { (range_of error.now).start ≤ (range_of error.now).end }
    ensures { IfOk result (λ item. item ≡ diagnostic_of file_id error.now) }
{
    let range = range(error);
    Ok(DiagnosticData {
        location: Some(SourceSpan::new(file_id, range.start, range.end)),
        details: details(alloc, error)?,
    })
}

/// Where an error stands.
fn range(error: &CstError) -> &Range<usize>
    ensures { result.now ≡ range_of error.now }
{
    match error {
        CstError::Syntax { range, .. }
        | CstError::RecursionLimit { range }
        | CstError::TokenLimit { range } => range,
    }
}

/// A fault of the syntax, or a limit of the parser.
fn details(alloc: Global, error: &CstError) -> Result<Details, Memory>
    ensures { IfOk result (λ details. details ≡ details_of error.now) }
{
    let message = Text::from_str(alloc, error.message())?;
    match error {
        CstError::Syntax { .. } => Ok(Details::SyntaxError { message }),
        CstError::RecursionLimit { .. } | CstError::TokenLimit { .. } => {
            Ok(Details::ParserLimit { message })
        }
    }
}
