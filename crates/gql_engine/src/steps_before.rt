//! The steps between the texts and the execution (GraphQL October 2021, section 6.1).

ghost use Rattle.std.specs.Prelude.{◌≡◌, ◌≤◌, ◌+◌, true, Ok, Some};
ghost use Rattle.gql_coerce.specs.Variables.{coerced_variables};
ghost use Rattle.gql_document_types.specs.ChosenOperation.{chosen, text_of};
ghost use Rattle.gql_engine.specs.Depths.{IsShallow, all_selections, depth_looks};
ghost use Rattle.gql_engine.specs.bridge.Phases.{AreOfTexts, OrCauseOver};
ghost use Rattle.gql_engine.specs.bridge.Responding.{IsOfStep};

use crate::answer_error::{AnswerError, RequestKind};
use crate::meaning::Texts;
use crate::wanted::Wanted;
use gql_collect::{Steps, check_max_depth, coerce_variable_values};
use gql_diag::{JsonMap, RequestError};
use gql_document_types::Operation;
use gql_parser::laws as text_laws;
use gql_schema_types::Valid;
use gql_source::SourceMap;
use jb_tree::Refused;
use std::alloc::Global;
use std::sync::ledger::Ledger;

/// The operation that is wanted.
pub(crate) fn choose<'t>(
    alloc: Global,
    wanted: &Wanted<'_>,
    texts: &Texts<'t>,
) -> Result<&'t Operation, AnswerError>
    ensures { OrCauseOver texts.now wanted.now
        (λ operation. chosen (text_of wanted.now.operation_name) texts.now.document.now.operations ≡ Some operation.now) result }
{
    let sources = &texts.document.as_ref().sources;
    match texts
        .document
        .as_ref()
        .operations_get(alloc, wanted.operation_name)
    {
        Ok(operation) => Ok(operation),
        Err(refused) => Err(of_step(alloc, RequestKind::Operation, refused, sources)),
    }
}

/// Checks the depth of the operation, where introspection is on.
pub(crate) fn check_depth<L: Ledger>(
    alloc: Global,
    wanted: &Wanted<'_>,
    texts: &Texts<'_>,
    operation: &Operation,
    steps: &mut Steps<L>,
) -> Result<(), AnswerError>
    requires texts { AreOfTexts texts.now }
    requires chosen { chosen (text_of wanted.now.operation_name) texts.now.document.now.operations ≡ Some operation.now }
    ensures shallow { OrCauseOver texts.now wanted.now
        (λ _. IsShallow wanted.now.introspection texts.now.document.now operation.now) result }
    ensures looks { steps.new ≤ steps.old + depth_looks wanted.now.introspection texts.now.document.now operation.now }
    ensures rises { steps.old ≤ steps.new }
{
    if wanted.introspection {
        check_depth_on(alloc, wanted, texts, operation, steps)
    } else {
        Ok(())
    }
}

/// The same where introspection is on.
fn check_depth_on<L: Ledger>(
    alloc: Global,
    wanted: &Wanted<'_>,
    texts: &Texts<'_>,
    operation: &Operation,
    steps: &mut Steps<L>,
) -> Result<(), AnswerError>
    requires texts { AreOfTexts texts.now }
    requires chosen { chosen (text_of wanted.now.operation_name) texts.now.document.now.operations ≡ Some operation.now }
    requires on { wanted.now.introspection ≡ true }
    ensures shallow { OrCauseOver texts.now wanted.now
        (λ _. IsShallow wanted.now.introspection texts.now.document.now operation.now) result }
    ensures looks { steps.new ≤ steps.old + all_selections texts.now.document.now operation.now }
    ensures rises { steps.old ≤ steps.new }
{
    text_laws::valid_documents_run();
    let sources = &texts.document.as_ref().sources;
    match check_max_depth(alloc, texts.document, operation, steps) {
        Ok(()) => Ok(()),
        Err(refused) => Err(of_step(alloc, RequestKind::Depth, refused, sources)),
    }
}

/// The values of the operation's variables.
pub(crate) fn coerce(
    alloc: Global,
    wanted: &Wanted<'_>,
    texts: &Texts<'_>,
    operation: &Operation,
) -> Result<Valid<JsonMap>, AnswerError>
    requires chosen { chosen (text_of wanted.now.operation_name) texts.now.document.now.operations ≡ Some operation.now }
    requires shallow { IsShallow wanted.now.introspection texts.now.document.now operation.now }
    ensures { OrCauseOver texts.now wanted.now
        (λ values. coerced_variables texts.now.schema.now.types operation.now.variables wanted.now.variables.now ≡ Ok values) result }
{
    let sources = &texts.document.as_ref().sources;
    match coerce_variable_values(alloc, texts.schema, operation, wanted.variables) {
        Ok(values) => Ok(values),
        Err(refused) => Err(of_step(alloc, RequestKind::Variable, refused, sources)),
    }
}

/// What a step is refused for, with its place in these files.
fn of_step(
    alloc: Global,
    kind: RequestKind,
    refused: Refused<RequestError>,
    sources: &SourceMap,
) -> AnswerError
    ensures { IsOfStep kind sources.now refused result }
{
    match refused {
        Refused::Fault(error) => match error.to_graphql_error(alloc, sources) {
            Ok(error) => AnswerError::Request { kind, error },
            Err(_) => AnswerError::Memory,
        },
        Refused::Memory => AnswerError::Memory,
    }
}
