//! A remote that does as it is told.

use bytes::Bytes;
use gql_gateway::{
    ExecutableDocument, ExecutionResponse, JsonMap, Operation, Remote, RemoteError, Schema, Valid,
};
use std::alloc::Global;

/// A remote with one response, or one that fails. It counts how often it was asked.
#[derive(Drop)]
pub(crate) struct Scripted {
    response: Option<&'static str>,
    pub(crate) asked: u64,
    pub(crate) faults: u64,
}

impl Scripted {
    pub(crate) fn new(response: Option<&'static str>) -> Scripted {
        Scripted {
            response,
            asked: 0,
            faults: 0,
        }
    }
}

impl Remote for Scripted {
    ghost faults = { λ remote. remote.faults };

    ghost asked = { λ remote. remote.asked };

    ghost tells = { λ remote schema document operation variables response. Unit {0} };

    fn execute(
        &mut self,
        alloc: Global,
        _schema: &Valid<Schema>,
        _document: &Valid<ExecutableDocument>,
        _operation: &Operation,
        _variables: &Valid<JsonMap>,
    ) -> Result<ExecutionResponse, RemoteError> {
        self.asked = self.asked.saturating_add(1);
        let Some(text) = self.response else {
            self.faults = self.faults.saturating_add(1);
            return Err(RemoteError::Fault);
        };
        match ExecutionResponse::from_bytes(alloc, &Bytes::from_static(text.as_bytes())) {
            Ok(response) => Ok(response),
            Err(_) => Err(RemoteError::Memory),
        }
    }
}
