//! The errors of responses.

ghost use Rattle.std.specs.Prelude.{◌≡◌, IfOk};
ghost use Rattle.gql_response.specs.Response.{error_value};
ghost use Rattle.gql_response.specs.ErrorAt.{error_at, place_in};

use crate::path::ResponseDataPathSegment;
use crate::printed::{Printed, append_key, append_list_member, append_object_member};
use gql_source::{LineColumn, SourceMap, SourceSpan};
use jb_print::append_string;
use jb_text::{Listed, Memory, Text};
use jb_tree::Map;
use std::alloc::Global;

/// An error of a response (GraphQL October 2021, section 7.1.2): what went wrong, where in the documents, at which
/// place of the data, and what else is said of it. Errors are compared part by part; the order of the pairs of
/// `extensions` does not count.
#[derive(PartialEq, Eq)]
pub struct GraphQLError {
    pub message: Text,
    pub locations: Listed<LineColumn>,
    pub path: Listed<ResponseDataPathSegment>,
    pub extensions: Map,
}

impl Drop for GraphQLError {
    fn drop(self) {
        let GraphQLError {
            message: _,
            locations: _,
            path: _,
            extensions: _,
        } = self;
    }
}

impl GraphQLError {
    /// An error with this message, at the start of the location where its line and column are found in the files,
    /// without a path and extensions. `Err` only when out of memory.
    pub fn new(
        alloc: Global,
        message: &str,
        location: Option<SourceSpan>,
        sources: &SourceMap,
    ) -> Result<GraphQLError, Memory>
        ensures { IfOk result (λ error. error ≡ error_at message.now location sources.now) }
    {
        GraphQLError::of_text(alloc, Text::from_str(alloc, message)?, location, sources)
    }

    /// The same of a text that is the message from then on. `Err` only when out of memory.
    pub fn of_text(
        alloc: Global,
        message: Text,
        location: Option<SourceSpan>,
        sources: &SourceMap,
    ) -> Result<GraphQLError, Memory>
        ensures { IfOk result (λ error. error ≡ error_at message location sources.now) }
    {
        let mut locations = Listed::new(alloc);
        if let Some(place) = place_in(location, sources) {
            locations.push(place)?;
        }
        Ok(GraphQLError {
            message,
            locations,
            path: Listed::new(alloc),
            extensions: Map::new(alloc),
        })
    }
}

/// The line and column of the start of a location, where they are found in the files.
fn place_in(location: Option<SourceSpan>, sources: &SourceMap) -> Option<LineColumn>
    ensures { result ≡ place_in location sources.now }
{
    match location {
        Some(location) => location.line_column(sources),
        None => None,
    }
}

impl Printed for GraphQLError {
    ghost value_of = { error_value };

    fn append(&self, out: &mut String) -> Result<(), Memory> {
        out.push_str("{")?;
        append_key(out, false, "message")?;
        append_string(out, self.message.as_str())?;
        append_list_member(out, "locations", self.locations.as_slice())?;
        append_list_member(out, "path", self.path.as_slice())?;
        append_object_member(out, "extensions", &self.extensions)?;
        out.push_str("}")?;
        Ok(())
    }
}
