//! What schemas are built of, how they are validated, and what is wrong with single literals, arguments and directives (GraphQL
//! October 2021, sections 3, 5.4, 5.6 and 5.7).
//!
//! Schemas and documents are held in a `ManuallyDrop` and not dropped: a test ends with its process, and a drop of a schema on each
//! way out of a function makes its proof dear.

mod builders;
mod checks;
mod settling;

use gql_diag::{DiagnosticList, refusal_of_diagnostics};
use gql_schema_types::{Named, Schema};
use jb_text::Memory;
use std::alloc::Global;
use std::str::from_utf8;
use std::test::Fail;

/// The names of a schema's types in their order, each before a blank.
fn type_names(alloc: Global, schema: &Schema) -> Result<String, Memory> {
    let mut text = String::new(alloc);
    for ty in schema.types.as_slice() {
        text.push_str(ty.own_name().as_str())?;
        text.push_str(" ")?;
    }
    Ok(text)
}

/// A list as clients are told of it.
fn told_list(alloc: Global, errors: DiagnosticList) -> Result<String, Fail> {
    let bytes = refusal_of_diagnostics(alloc, errors)?;
    let text = from_utf8(bytes.as_slice()).unwrap_or("no text");
    Ok(String::from_str(alloc, text)?)
}
