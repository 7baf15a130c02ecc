//! What an execution lends to its steps: the schema, the document, and what plans are made from.

ghost use Rattle.std.specs.Prelude.{◌≡◌};
ghost use Rattle.gql_collect.specs.bridge.Plan.{ground_of};
ghost use Rattle.gql_exec.specs.bridge.Planning.{ground_in};

use crate::executing::Executing;
use gql_collect::Planner;
use gql_document_types::ExecutableDocument;
use gql_schema_types::Schema;

impl<'s> Executing<'s> {
    /// The schema that the request is executed against.
    pub fn schema(&self) -> &'s Schema
        ensures { result.now ≡ self.now.request.schema.now }
    {
        self.request.schema.as_ref()
    }

    /// The document that is executed.
    pub fn document(&self) -> &'s ExecutableDocument
        ensures { result.now ≡ self.now.request.document.now }
    {
        self.request.document.as_ref()
    }

    /// What plans of the execution are made from.
    pub fn planner(&self) -> Planner<'s>
        ensures { ground_of result ≡ ground_in self.now }
    {
        Planner {
            alloc: self.alloc,
            schema: self.request.schema,
            document: self.document(),
            operation: self.operation,
            variables: self.variables,
        }
    }
}
