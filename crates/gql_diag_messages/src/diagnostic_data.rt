//! A diagnostic: what it is about, and where.

ghost use Rattle.std.specs.Prelude.{◌≡◌, IfOk};
ghost use Rattle.std.specs.Option.{option_copied};
ghost use Rattle.gql_diag_messages.specs.Details.{message_of, compat_of, error_name};

use crate::details::Details;
use gql_source::SourceSpan;
use jb_text::{Memory, Text};
use std::alloc::Global;

/// What is wrong with a schema or a document, and where.
#[derive(Debug)]
pub struct DiagnosticData {
    pub location: Option<SourceSpan>,
    pub details: Details,
}

impl Drop for DiagnosticData {
    fn drop(self) {
        let DiagnosticData {
            location: _,
            details: _,
        } = self;
    }
}

impl DiagnosticData {
    /// What is said to people. `Err` only when out of memory.
    pub fn message(&self, alloc: Global) -> Result<Text, Memory>
        ensures { IfOk result (λ message. message ≡ message_of self.now.details) }
    {
        self.details.message(alloc)
    }

    /// The name of the broken rule, or `RecursionLimitError`. `None` for a text that is no sentence or passes a limit
    /// of the parser, and for a schema that can't be built.
    #[must_use]
    pub fn unstable_error_name(&self) -> Option<&str>
        ensures { option_copied result ≡ error_name self.now.details }
    {
        self.details.error_name()
    }

    /// What the reference implementation of GraphQL says of it, where it has words for that. `Err` only when out of
    /// memory.
    pub fn unstable_compat_message(&self, alloc: Global) -> Result<Option<Text>, Memory>
        ensures { IfOk result (λ message. message ≡ compat_of self.now.details) }
    {
        self.details.compat_message(alloc)
    }
}
