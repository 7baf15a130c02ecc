//! The verdict on a response.

ghost use Rattle.std.specs.Prelude.{◌≡◌, ◌<◌, is_some, true, IfOk, Ok};
ghost use Rattle.gql_document_types.specs.Spreads.{AreAcyclic};
ghost use Rattle.gql_exec.specs.Executing.{request_by};
ghost use Rattle.gql_response.specs.Reading.{response_read};
ghost use Rattle.gql_schema_types.specs.Schemas.{object_of};
ghost use Rattle.gql_checker_laws.specs.Claims.{first_missing};
ghost use Rattle.gql_checker_laws.specs.Walk.{is_none};
ghost use Rattle.gql_checker_laws.specs.Judgement.{judgement_by};
ghost use Rattle.gql_response_check.specs.Verdict.{IsVerdictBy, IsVerdictOn, IsVerdictOver, verdict_of};

use crate::claim::claims;
use crate::findings::Findings;
use crate::reported::with_keys;
use crate::verdict::Verdict;
use crate::walk::Checking;
use bytes::Bytes;
use gql_collect::{Pieces, Steps};
use gql_document_types::{ExecutableDocument, Operation};
use gql_exec::{Executing, Introspected, Path};
use gql_graph::laws as graph_laws;
use gql_resolvers::{ObjectValue, RequestInfo};
use gql_response::{ExecutionResponse, JsonMap};
use gql_schema_types::{ImplementersMap, ObjectType, Schema, Valid};
use jb_text::{Listed, Memory, Refused};
use std::alloc::{AllocError, Global};
use std::marker::Brand;
use std::sync::ledger::{Blank, Ledger};

/// What is to be said of `response`, the bytes of what is said to be a response to an operation: the first variant of [`Verdict`]
/// that applies. The operation is executed as [`Execution`](gql_exec::Execution) does, from the object `root`, but along the response
/// alone: only those resolvers are asked that its data or the paths of its errors lead to, each once at each place.
///
/// Errors are compared by message, locations, path and extensions, and leaves exactly. Members are compared in their order.
///
/// # Errors
///
/// Only when out of memory, also where the resolver says so.
pub fn check_response<O: ObjectValue>(
    alloc: Global,
    schema: &Valid<Schema>,
    document: &Valid<ExecutableDocument>,
    operation: &Operation,
    variables: &Valid<JsonMap>,
    introspection: bool,
    root: &O,
    response: &Bytes,
) -> Result<Verdict, Memory>
    requires acyclic { AreAcyclic document.now.fragments }
    requires root { is_some (object_of schema.now operation.now.selection_set.ty.text) ≡ true }
    ensures verdict { IfOk result (IsVerdictBy introspection schema.now document.now operation.now variables.now O.type_of O.resolves (O.seen root.now)
        (response_read response.now)) }
{
    let response = match ExecutionResponse::from_bytes(alloc, response) {
        Ok(response) => response,
        Err(Refused::Fault(fault)) => return Ok(Verdict::NotResponse(fault)),
        Err(Refused::Memory) => return Err(AllocError),
    };
    let checked = Request {
        schema,
        document,
        operation,
        variables,
        introspection,
    };
    if introspection {
        let root = Introspected::root(schema, root);
        checked.check(alloc, &root, &response)
    } else {
        checked.check(alloc, root, &response)
    }
}

/// What a response is said to answer.
#[derive(Clone, Copy)]
struct Request<'a> {
    schema: &'a Valid<Schema>,
    document: &'a Valid<ExecutableDocument>,
    operation: &'a Operation,
    variables: &'a Valid<JsonMap>,
    introspection: bool,
}

impl<'a> Request<'a> {
    /// The verdict on a response that was read.
    fn check<O: ObjectValue>(
        &self,
        alloc: Global,
        root: &O,
        response: &ExecutionResponse,
    ) -> Result<Verdict, Memory>
        requires acyclic { AreAcyclic self.now.document.now.fragments }
        requires root { is_some (object_of self.now.schema.now self.now.operation.now.selection_set.ty.text) ≡ true }
        ensures { IfOk result (IsVerdictOver self.now.introspection self.now.schema.now self.now.document.now self.now.operation.now self.now.variables.now
            O.type_of O.resolves (O.seen root.now) (Ok response.now)) }
    {
        self.check_alone::<O, Brand>(alloc, root, response, Blank::new(1))
    }

    /// The same, with a counter of its own.
    fn check_alone<O: ObjectValue, L: Ledger>(
        &self,
        alloc: Global,
        root: &O,
        response: &ExecutionResponse,
        blank: Blank,
    ) -> Result<Verdict, Memory>
        requires acyclic { AreAcyclic self.now.document.now.fragments }
        requires root { is_some (object_of self.now.schema.now self.now.operation.now.selection_set.ty.text) ≡ true }
        requires name { blank.name ≡ L.name }
        requires parts { blank.parts ≡ L.parts }
        requires some { 0 < blank.parts }
        ensures { IfOk result (IsVerdictOver self.now.introspection self.now.schema.now self.now.document.now self.now.operation.now self.now.variables.now
            O.type_of O.resolves (O.seen root.now) (Ok response.now)) }
    {
        let mut steps = Steps::<L>::open(blank);
        let name = self.operation.object_type().as_str();
        match self.schema.as_ref().get_object(name) {
            Some(object_type) => self.check_on(alloc, object_type, root, response, &mut steps),
            None => unreachable!(),
        }
    }

    /// The same on the root type.
    fn check_on<O: ObjectValue, L: Ledger>(
        &self,
        alloc: Global,
        object_type: &ObjectType,
        root: &O,
        response: &ExecutionResponse,
        steps: &mut Steps<L>,
    ) -> Result<Verdict, Memory>
        requires acyclic { AreAcyclic self.now.document.now.fragments }
        ensures { IfOk result (IsVerdictOn (request_by self.now.introspection self.now.schema.now self.now.document.now self.now.variables.now O.type_of O.resolves)
            object_type.now (O.seen root.now) self.now.operation.now.selection_set.selections response.now) }
    {
        let implementers_map = self.schema.as_ref().implementers_map(alloc)?;
        self.run(
            alloc,
            self.operation,
            object_type,
            &implementers_map,
            root,
            response,
            steps,
        )
    }

    /// The same of this operation, with the implementers of the schema.
    fn run<O: ObjectValue, L: Ledger>(
        &self,
        alloc: Global,
        operation: &'a Operation,
        object_type: &ObjectType,
        implementers_map: &ImplementersMap,
        root: &O,
        response: &ExecutionResponse,
        steps: &mut Steps<L>,
    ) -> Result<Verdict, Memory>
        requires acyclic { AreAcyclic self.now.document.now.fragments }
        ensures { IfOk result (IsVerdictOn (request_by self.now.introspection self.now.schema.now self.now.document.now self.now.variables.now O.type_of O.resolves)
            object_type.now (O.seen root.now) operation.now.selection_set.selections response.now) }
    {
        graph_laws::acyclic_graphs_have_ranks();
        let executing = Executing {
            alloc,
            request: RequestInfo {
                schema: self.schema,
                implementers_map,
                document: self.document,
            },
            operation,
            variables: self.variables,
            introspection: self.introspection,
        };
        let checking = Checking { executing };
        let mut pieces = Pieces::new(alloc);
        pieces.add(&operation.selection_set)?;
        let mut parts = executing.planner().parts(object_type, &pieces, steps)?;
        let members = with_keys(&parts, response.root.as_ref());
        let claims = claims(alloc, response.errors.as_slice())?;
        let mut findings = Findings::new(alloc, response.errors.len())?;
        let passes = checking.check_parts(
            object_type,
            root,
            &Path::Root,
            &mut parts,
            members,
            claims.as_slice(),
            &mut findings,
            steps,
        )?;
        Ok(verdict(alloc, response, members.is_some(), passes, findings))
    }
}

/// The verdict on a response by what was found in it: `given` says whether its data are members with the keys of the operation's
/// groups, and `passes` whether a null comes to them.
fn verdict(
    alloc: Global,
    response: &ExecutionResponse,
    given: bool,
    passes: bool,
    findings: Findings,
) -> Verdict
    ensures { result ≡ verdict_of (judgement_by (is_none response.now.root) given passes (first_missing findings.told) findings.bad) }
{
    if let Some(index) = findings.first_untold() {
        return Verdict::FalseError { index };
    }
    let is_null = response.root.is_none();
    let Findings { told: _, bad } = findings;
    if is_null && passes {
        return Verdict::Explained;
    }
    if !given {
        return Verdict::BadValue {
            path: Listed::new(alloc),
        };
    }
    match bad {
        Some(path) => Verdict::BadValue { path },
        None => Verdict::Explained,
    }
}
