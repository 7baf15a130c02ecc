//! Documents without a schema: each rule that asks for none, broken alone and nearly broken.

mod definitions;
mod groups;
mod spreads;
mod uses;

use bytes::Bytes;
use gql_engine::{DiagnosticList, Document, FileIds, Parser, reports, validate_standalone};
use std::alloc::Global;
use std::mem::{ManuallyDrop, forget};
use std::str::from_utf8;
use std::test::Fail;

/// The document that a text spells, as the file `a`.
fn document_of(alloc: Global, text: &str) -> Result<ManuallyDrop<Document>, Fail> {
    match Parser::new().parse_ast(alloc, text, "a", &mut FileIds::new()) {
        Ok(document) => Ok(ManuallyDrop::new(document)),
        Err(refused) => {
            forget(refused);
            Err("the text is no document")?
        }
    }
}

/// What is wrong with a text whatever the schema, as reports.
fn reports_of(alloc: Global, text: &str) -> Result<Bytes, Fail> {
    let document = document_of(alloc, text)?;
    let mut errors = DiagnosticList::new(alloc, document.sources.copy(alloc)?);
    validate_standalone(alloc, &*document, &mut errors)?;
    Ok(reports(alloc, errors)?)
}

/// The first text of which another thing is told, and what that is; no text where each row has its reports.
fn told_otherwise(alloc: Global, rows: &[(&str, &str)]) -> Result<String, Fail> {
    for (text, wanted) in rows {
        let found = reports_of(alloc, text)?;
        if found.as_slice() != wanted.as_bytes() {
            let mut told = String::from_str(alloc, text)?;
            told.push_str(" has the reports\n")?;
            told.push_str(from_utf8(found.as_slice()).unwrap_or("no text"))?;
            return Ok(told);
        }
    }
    Ok(String::new(alloc))
}
