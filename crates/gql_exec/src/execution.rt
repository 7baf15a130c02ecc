//! Executions, and how they are told what they are of.

ghost use Rattle.std.specs.Prelude.{◌≡◌, ◌<◌};
ghost use Rattle.gql_document_types.specs.ChosenOperation.{text_of};
ghost use Rattle.gql_document_types.specs.Spreads.{AreAcyclic};
ghost use Rattle.gql_exec.specs.Execution as spec;
ghost use Rattle.gql_exec.specs.Running.{AnswersWritten};
ghost use Rattle.gql_exec.specs.declared.execution.Given.TheVariants as given;

use crate::written_response::{WrittenResponse, written};
use crate::{TextOutput, TreeOutput};
use gql_collect::Steps;
use gql_document_types::{ExecutableDocument, Operation};
use gql_resolvers::ObjectValue;
use gql_response::{ExecutionResponse, JsonMap, RequestError};
use gql_schema_types::{ImplementersMap, Schema, Valid};
use jb_text::Refused;
use std::alloc::Global;
use std::marker::Brand;
use std::sync::ledger::{Blank, Ledger};

/// The values that variables are given.
#[derive(Clone, Copy)]
pub(crate) enum Given<'a> {
    Nothing,
    Coerced(&'a Valid<JsonMap>),
    Raw(&'a JsonMap),
}

/// An execution of a document on a schema: which operation is meant, and what its variables are (GraphQL October 2021,
/// section 6.1).
#[derive(Clone, Copy)]
pub struct Execution<'a> {
    pub(crate) schema: &'a Valid<Schema>,
    pub(crate) document: &'a Valid<ExecutableDocument>,
    pub(crate) operation: Option<&'a Operation>,
    pub(crate) implementers: Option<&'a ImplementersMap>,
    pub(crate) given: Given<'a>,
    pub(crate) introspection: bool,
}

impl<'a> Execution<'a> {
    /// An execution of the document on the schema that it is valid on. Unless it is told otherwise, it is of the only
    /// operation, whose variables are given no values, with introspection off.
    #[must_use]
    pub fn new(schema: &'a Valid<Schema>, document: &'a Valid<ExecutableDocument>) -> Execution<'a>
        ensures { result ≡ spec.started schema.entry document.entry }
    {
        Execution {
            schema,
            document,
            operation: None,
            implementers: None,
            given: Given::Nothing,
            introspection: false,
        }
    }

    /// The execution of this operation of the document. None may have been set before.
    #[must_use]
    pub fn operation(self, operation: &'a Operation) -> Execution<'a>
        requires { spec.HasNoOperation self }
        ensures { result ≡ spec.with_operation self.entry operation.entry }
    {
        Execution {
            operation: Some(operation),
            ..self
        }
    }

    /// The execution of the operation of the name, or of the only one where no name is given (section 6.1). None may have been
    /// set before.
    ///
    /// # Errors
    ///
    /// Those of [`ExecutableDocument::operations_get`].
    pub fn operation_name(
        self,
        alloc: Global,
        name: Option<&str>,
    ) -> Result<Execution<'a>, Refused<RequestError>>
        requires { spec.HasNoOperation self }
        ensures { spec.IsOfChosen self.entry (text_of name.entry) result }
    {
        match self.document.as_ref().operations_get(alloc, name) {
            Ok(operation) => Ok(self.operation(operation)),
            Err(refused) => Err(refused),
        }
    }

    /// The execution whose resolvers are told these implementers, which are those of its schema. None may have been set before.
    #[must_use]
    pub fn implementers_map(self, map: &'a ImplementersMap) -> Execution<'a>
        requires { spec.HasNoImplementers self }
        ensures { result ≡ spec.with_implementers self.entry map.entry }
    {
        Execution {
            implementers: Some(map),
            ..self
        }
    }

    /// The execution whose variables have these values, which are coerced already (section 6.1.2). None may have been given
    /// before.
    #[must_use]
    pub fn coerced_variable_values(self, values: &'a Valid<JsonMap>) -> Execution<'a>
        requires { spec.HasNoValues self }
        ensures { result ≡ spec.with_values self.entry (given.Coerced values.entry) }
    {
        Execution {
            given: Given::Coerced(values),
            ..self
        }
    }

    /// The execution whose variables are given these values, which it coerces (section 6.1.2). None may have been given before.
    #[must_use]
    pub fn raw_variable_values(self, values: &'a JsonMap) -> Execution<'a>
        requires { spec.HasNoValues self }
        ensures { result ≡ spec.with_values self.entry (given.Raw values.entry) }
    {
        Execution {
            given: Given::Raw(values),
            ..self
        }
    }

    /// The execution with introspection on, or off as it is unless it is set (section 4): where it is off, `__schema` and
    /// `__type` are failures.
    #[must_use]
    pub fn enable_schema_introspection(self, enable: bool) -> Execution<'a>
        ensures { result ≡ spec.with_introspection self.entry enable }
    {
        Execution {
            introspection: enable,
            ..self
        }
    }

    /// Executes the operation on the initial object, which is taken to be of the root type whatever type it names (sections 6.2
    /// to 6.4). Below the root an object is executed on the type that it names. No fragment of the document may lead back to
    /// itself.
    ///
    /// # Errors
    ///
    /// The first of these: why there is no operation, where none was set; `Undefined root operation type`, marked as a
    /// suspected fault of validation, exactly where the root type is no object type of the schema; the fault of the first
    /// variable that is not coerced. Otherwise only when out of memory.
    pub fn execute_sync<O: ObjectValue>(
        &self,
        alloc: Global,
        initial: &O,
    ) -> Result<ExecutionResponse, Refused<RequestError>>
        requires acyclic { AreAcyclic self.now.document.now.fragments }
        ensures { spec.Answers self.now O.type_of O.resolves (O.seen initial.now) result }
    {
        self.execute_alone::<O, Brand>(alloc, initial, Blank::new(1))
    }

    /// The same, with a counter of its own.
    fn execute_alone<O: ObjectValue, L: Ledger>(
        &self,
        alloc: Global,
        initial: &O,
        blank: Blank,
    ) -> Result<ExecutionResponse, Refused<RequestError>>
        requires acyclic { AreAcyclic self.now.document.now.fragments }
        requires name { blank.name ≡ L.name }
        requires parts { blank.parts ≡ L.parts }
        requires some { 0 < blank.parts }
        ensures { spec.Answers self.now O.type_of O.resolves (O.seen initial.now) result }
    {
        let mut steps = Steps::<L>::open(blank);
        self.execute_counted(alloc, initial, &mut steps)
    }

    /// The same as [`Execution::execute_sync`], and `steps` counts the looks at selections. Where there is a response, these are
    /// at least those of the operation's own set. They are at most as many as the operation and all fragments have selections,
    /// at every depth, for the root and for each way of response keys and object types from it that leads to objects which
    /// fit their places: however long lists are, the fields of their items are collected once for each type.
    ///
    /// # Errors
    ///
    /// Those of [`Execution::execute_sync`].
    pub fn execute_counted<O: ObjectValue, L: Ledger>(
        &self,
        alloc: Global,
        initial: &O,
        steps: &mut Steps<L>,
    ) -> Result<ExecutionResponse, Refused<RequestError>>
        requires acyclic { AreAcyclic self.now.document.now.fragments }
        ensures answer { spec.Answers self.now O.type_of O.resolves (O.seen initial.now) result }
        ensures looks { spec.Counts self.now O.type_of O.resolves (O.seen initial.now) steps.old steps.new result }
    {
        let mut out = TreeOutput { alloc };
        match self.execute_into(alloc, initial, steps, &mut out) {
            Ok(executed) => Ok(ExecutionResponse {
                errors: executed.errors,
                root: executed.members,
            }),
            Err(refused) => Err(refused),
        }
    }

    /// The same as [`Execution::execute_counted`], but the data are written as they are made: no tree of them is held.
    ///
    /// # Errors
    ///
    /// Those of [`Execution::execute_sync`].
    pub fn execute_written<O: ObjectValue, L: Ledger>(
        &self,
        alloc: Global,
        initial: &O,
        steps: &mut Steps<L>,
    ) -> Result<WrittenResponse, Refused<RequestError>>
        requires acyclic { AreAcyclic self.now.document.now.fragments }
        ensures { AnswersWritten self.now O.type_of O.resolves (O.seen initial.now) steps.old steps.new result }
    {
        let mut out = TextOutput::new(alloc)?;
        match self.execute_into(alloc, initial, steps, &mut out) {
            Ok(executed) => Ok(written(executed, out)?),
            Err(refused) => Err(refused),
        }
    }
}
