//! What is answered: a value, or a value and what is wrong.

ghost use Rattle.std.specs.Prelude.{◌≡◌};
ghost use Rattle.gql_source.specs.File.{Files};
ghost use Rattle.gql_diag.specs.Judged.{IsJudged};

use gql_diag::{DiagnosticData, DiagnosticList, WithErrors};
use gql_document_types::{ExecutableDocument, FieldSet};
use gql_source::SourceMap;
use jb_text::{Listed, Refused};
use std::alloc::Global;

/// What was made of files, which it has.
pub(crate) trait Sourced {
    ghost files: { Self → Files };

    /// The files.
    fn sources(&self) -> &SourceMap
        ensures { result.now ≡ files self.now };
}

impl Sourced for ExecutableDocument {
    ghost files = { λ document. document.sources };

    fn sources(&self) -> &SourceMap {
        &self.sources
    }
}

impl Sourced for FieldSet {
    ghost files = { λ set. set.sources };

    fn sources(&self) -> &SourceMap {
        &self.sources
    }
}

/// The value, if there are no faults, and else the refusal that tells them.
pub(crate) fn judged<T: Sourced + Drop>(
    alloc: Global,
    value: T,
    faults: Listed<DiagnosticData>,
) -> Result<T, Refused<WithErrors<T>>>
    ensures { IsJudged value (T.files value) faults result }
{
    if faults.is_empty() {
        return Ok(value);
    }
    match DiagnosticList::sorted(alloc, value.sources(), faults) {
        Ok(errors) => Err(Refused::Fault(WithErrors {
            partial: value,
            errors,
        })),
        Err(_) => Err(Refused::Memory),
    }
}
