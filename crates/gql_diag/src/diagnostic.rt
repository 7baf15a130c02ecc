//! Diagnostics with the files that they are of.

ghost use Rattle.std.specs.Prelude.{◌≡◌, IfOk};
ghost use Rattle.gql_response.specs.ErrorAt.{error_at};
ghost use Rattle.gql_diag.specs.Reported.{compat_or_message, message_alone, range_in};

use crate::report::CliReport;
use crate::to_cli_report::ToCliReport;
use gql_diag_messages::DiagnosticData;
use gql_response::GraphQLError;
use gql_source::{LineColumn, SourceMap};
use jb_text::Memory;
use std::alloc::Global;
use std::ops::Range;

/// A diagnostic, and the files that it is of.
#[derive(Drop)]
pub struct Diagnostic<'s, T> {
    pub sources: &'s SourceMap,
    pub error: &'s T,
}

impl<'s, T: ToCliReport> Diagnostic<'s, T> {
    /// The lines and columns of both ends of its place. `None` where it has no place, where the files lack that one's,
    /// or where an end passes the length of the file's text.
    #[must_use]
    pub fn line_column_range(&self) -> Option<Range<LineColumn>>
        ensures { result ≡ range_in (T.place self.now.error.now) self.now.sources.now }
    {
        match self.error.location() {
            Some(location) => location.line_column_range(self.sources),
            None => None,
        }
    }

    /// The error of a response: the message, and the start of the place where that is found, without a path and
    /// extensions. `Err` only when out of memory.
    pub fn to_json(&self, alloc: Global) -> Result<GraphQLError, Memory>
        ensures { IfOk result (λ error. error ≡ error_at (T.text self.now.error.now) (T.place self.now.error.now) self.now.sources.now) }
    {
        let message = self.error.message(alloc)?;
        GraphQLError::new(alloc, message.as_str(), self.error.location(), self.sources)
    }

    /// A report of it: its message, and what it adds. `Err` only when out of memory.
    pub fn to_report(&self, alloc: Global) -> Result<CliReport<'s>, Memory>
        ensures { IfOk result (λ report. report ≡ T.reported self.now.error.now (message_alone self.now.sources.now (T.text self.now.error.now))) }
    {
        self.error.to_report(alloc, self.sources)
    }
}

impl<'s> Diagnostic<'s, DiagnosticData> {
    /// The error of a response, with what the reference implementation says of it in place of the message where it has
    /// words for that. `Err` only when out of memory.
    pub fn unstable_to_json_compat(&self, alloc: Global) -> Result<GraphQLError, Memory>
        ensures { IfOk result (λ error. error ≡ error_at (compat_or_message self.now.error.now) self.now.error.now.location self.now.sources.now) }
    {
        let message = match self.error.unstable_compat_message(alloc)? {
            Some(message) => message,
            None => self.error.message(alloc)?,
        };
        GraphQLError::new(alloc, message.as_str(), self.error.location, self.sources)
    }
}
