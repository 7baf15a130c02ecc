//! Lists of diagnostics, and what is told of each.

mod lists;
mod told;

ghost use Rattle.std.specs.Prelude.{◌<◌, ◌^◌};

use crate::fixtures::broken_rule;
use gql_diag::{Details, DiagnosticData, Rule};
use gql_source::{FileId, SourceFile, SourceMap, SourceSpan};
use jb_text::{Memory, Text};
use std::alloc::Global;

pub(crate) const FIRST: FileId = FileId { number: 3 };

pub(crate) const SECOND: FileId = FileId { number: 4 };

/// One byte of the first file.
pub(crate) fn at(offset: usize) -> Option<SourceSpan>
    requires { offset < 2 ^ 32 }
{
    Some(SourceSpan::new(FIRST, offset, offset + 1))
}

/// Files with one text and with these paths.
pub(crate) fn files(alloc: Global, paths: &[(FileId, &str)]) -> Result<SourceMap, Memory> {
    let mut sources = SourceMap::new(alloc);
    for (id, path) in paths {
        sources.insert(*id, SourceFile::new(alloc, path, "{ f\n g }")?)?;
    }
    Ok(sources)
}

/// A broken rule of documents.
pub(crate) fn broken(alloc: Global, rule: Rule, names: &[&str]) -> Result<Details, Memory> {
    let fault = broken_rule(alloc, rule, names, at(0))?;
    Ok(Details::CompilerDiagnostic(fault))
}

/// A text that is no sentence, with these words.
pub(crate) fn unread(
    alloc: Global,
    location: Option<SourceSpan>,
    words: &str,
) -> Result<DiagnosticData, Memory> {
    let message = Text::from_str(alloc, words)?;
    Ok(DiagnosticData {
        location,
        details: Details::SyntaxError { message },
    })
}
