//! What parsers make of texts, with the faults of these, and which operation of a document a request means (GraphQL October
//! 2021, sections 2 and 6.1).

mod builders;
mod copies;
mod cycles;
mod field_sets;
mod operations;
mod outline;
mod types;

use crate::documents::outline::add_document;
use crate::fixtures::bytes_of;
use bytes::Bytes;
use gql_diag::{DiagnosticList, WithErrors, refusal_of_diagnostics};
use gql_document_types::ExecutableDocument;
use jb_text::Refused;
use std::alloc::Global;
use std::mem::ManuallyDrop;
use std::test::Fail;

/// The faults of a text as a refusal. What is made of the rest of it is not dropped.
fn faults<T: Drop>(alloc: Global, refused: Refused<WithErrors<T>>) -> Result<Bytes, Fail> {
    match refused {
        Refused::Fault(WithErrors { partial, errors }) => {
            let _partial = ManuallyDrop::new(partial);
            listed(alloc, errors)
        }
        Refused::Memory => Err("no memory")?,
    }
}

/// The faults of a list as a refusal.
fn listed(alloc: Global, errors: DiagnosticList) -> Result<Bytes, Fail> {
    Ok(refusal_of_diagnostics(alloc, errors)?)
}

/// What a document holds.
fn told_document(alloc: Global, document: &ExecutableDocument) -> Result<Bytes, Fail> {
    let mut text = String::new(alloc);
    add_document(&mut text, document)?;
    Ok(bytes_of(alloc, text.as_str())?)
}
