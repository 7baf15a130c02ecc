//! Texts that are a schema and a document in one.

mod faults;
mod files;
mod limits;

use bytes::Bytes;
use gql_engine::{FileIds, Parser, Refused, reports};
use std::alloc::Global;
use std::mem::ManuallyDrop;
use std::str::from_utf8;
use std::test::Fail;

/// What a parser finds wrong with a text, as reports of the file `a`; nothing where the text is good.
fn reports_by(alloc: Global, mut parser: Parser, text: &str) -> Result<Bytes, Fail> {
    match parser.parse_mixed_validate(alloc, text, "a", &mut FileIds::new()) {
        Ok(both) => {
            let _both = ManuallyDrop::new(both);
            Ok(Bytes::new())
        }
        Err(Refused::Fault(errors)) => Ok(reports(alloc, errors)?),
        Err(Refused::Memory) => Err("no memory")?,
    }
}

/// The first text of which another thing is told, and what that is; no text where each row has its reports.
fn told_otherwise(alloc: Global, rows: &[(&str, &str)]) -> Result<String, Fail> {
    for (text, wanted) in rows {
        let found = reports_by(alloc, Parser::new(), text)?;
        if found.as_slice() != wanted.as_bytes() {
            let mut told = String::from_str(alloc, text)?;
            told.push_str(" has the reports\n")?;
            told.push_str(from_utf8(found.as_slice()).unwrap_or("no text"))?;
            return Ok(told);
        }
    }
    Ok(String::new(alloc))
}
