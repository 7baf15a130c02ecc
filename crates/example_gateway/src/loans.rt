//! A service that is out of reach.

use gql_gateway::{
    ExecutableDocument, ExecutionResponse, JsonMap, Operation, Remote, RemoteError, Schema, Valid,
};
use std::alloc::Global;

/// A service that nobody reaches; it counts how often it was tried. One that is reached would be sent the operation here, and its
/// response be read from bytes by [`ExecutionResponse::from_bytes`].
#[derive(Drop)]
pub(crate) struct Loans {
    failures: u64,
}

impl Loans {
    /// The service, which was not tried yet.
    pub(crate) fn new() -> Loans {
        Loans { failures: 0 }
    }

    /// How often it was tried.
    pub(crate) fn failures(&self) -> u64 {
        self.failures
    }
}

impl Remote for Loans {
    // Each fault is counted, so that a gateway can tell it from any other refusal.
    ghost faults = { λ loans. loans.failures };

    // It is asked as often as it fails.
    ghost asked = { λ loans. loans.failures };

    // Nothing is known of what a service far away answers.
    ghost tells = { λ loans schema document operation variables response. Unit {0} };

    fn execute(
        &mut self,
        _alloc: Global,
        _schema: &Valid<Schema>,
        _document: &Valid<ExecutableDocument>,
        _operation: &Operation,
        _variables: &Valid<JsonMap>,
    ) -> Result<ExecutionResponse, RemoteError> {
        self.failures = self.failures.saturating_add(1);
        Err(RemoteError::Fault)
    }
}
