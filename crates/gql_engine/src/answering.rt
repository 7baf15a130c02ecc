//! Answering: a schema, a query and a resolver in, a response out.

ghost use Rattle.std.specs.Prelude.{◌≡◌, ◌≢◌, ℕ, List, IfOk, IfErr, IsErrAnd};
ghost use Rattle.gql_engine.specs.declared.answer_error.AnswerError.{AnswerError as Refusal};
ghost use Rattle.gql_engine.specs.declared.answer_error.AnswerError.TheVariants as refusal;
ghost use Rattle.gql_engine.specs.AnswerError.{ComesFor, HasCause, IsValid, call_of, wanted_with};
ghost use Rattle.gql_engine.specs.bridge.AnswerError.{call_over};
ghost use Rattle.gql_engine.specs.Answering.{AnswersWithin, GivesAnswer};
ghost use Rattle.gql_engine.specs.bridge.Made.{IsMadeOf, IsMadeOfSome};
ghost use Rattle.gql_engine.specs.Responding.{AnsweredWithin, OrCause};

use crate::answer_error::AnswerError;
use crate::call::Call;
use crate::laws;
use crate::made::Made;
use crate::responding::respond_with;
use crate::variables::read_variables;
use crate::wanted::Wanted;
use bytes::Bytes;
use gql_collect::Steps;
use gql_resolvers::ObjectValue;
use jb_tree::Map;
use std::alloc::Global;
use std::sync::ledger::Ledger;

/// Answers an operation of a query over a schema, whose root is resolved by `root`: the bytes of the response (GraphQL
/// October 2021, sections 6 and 7).
///
/// `variables` is a JSON text. The operation is the one of the name, or the only one. Both texts may be nested at most 500
/// deep. The paths of the response's errors are those of its data, their locations those of the query's text. With
/// `introspection`, `__schema` and `__type` tell of the schema (section 4), and the operation's depth in its types is checked;
/// without it they are failures. `steps` counts the looks at selections, of that check and of the execution: at least those of the
/// operation's own set, which are one or more, and for the check and for each way of response keys and object types from the root
/// to an object at most all of the operation and the fragments.
///
/// # Errors
///
/// The first of these that applies, and exactly where it does:
///
/// - [`AnswerError::Variables`] where the variables are no JSON text, with its first fault, or one of another value than an
///   object.
/// - [`AnswerError::Schema`] where the schema's text means no schema (sections 2 and 3), with what is wrong with it.
/// - [`AnswerError::Document`] where the query's text means no document against it (sections 2 and 5), with what is wrong
///   with it.
/// - [`AnswerError::Request`] of kind [`Operation`](crate::RequestKind::Operation) where there is no operation of the name,
///   or no name and not exactly one operation (section 6.1).
/// - [`AnswerError::Request`] of kind [`Depth`](crate::RequestKind::Depth) where introspection is on and a chain of nested
///   selections has three fields named `fields`, `interfaces`, `possibleTypes` or `inputFields`, each spread replaced by what
///   its fragment selects; with the first place where that shows.
/// - [`AnswerError::Request`] of kind [`Variable`](crate::RequestKind::Variable) where a variable is not coerced, with the
///   fault of the first (section 6.1.2).
///
/// [`AnswerError::Memory`] comes when out of memory, also where the resolver says so.
pub fn answer<O: ObjectValue, L: Ledger>(
    alloc: Global,
    schema: &str,
    query: &str,
    operation_name: Option<&str>,
    variables: &Bytes,
    introspection: bool,
    root: &O,
    steps: &mut Steps<L>,
) -> Result<Bytes, AnswerError>
    // At least one look is taken. The depth check looks at each selection of the operation and of the fragments at most once, and
    // the execution once for each way of response keys and object types to its objects.
    ensures answered { IfOk result (AnswersWithin O.type_of O.resolves (O.seen root.now)
        (call_of schema.now query.now operation_name.entry variables.now introspection) steps.old steps.new) }

    // Each refusal has its cause, and where a cause holds its refusal comes, unless memory fails.
    ensures refused { IfErr result (HasCause (call_of schema.now query.now operation_name.entry variables.now introspection)) }
    ensures exact { (error : Refusal) → error ≢ refusal.Memory
        → HasCause (call_of schema.now query.now operation_name.entry variables.now introspection) error
        → IsErrAnd result (ComesFor error) }

    // A valid request is answered, unless memory fails.
    ensures valid { IsValid (call_of schema.now query.now operation_name.entry variables.now introspection)
        → IfErr result (λ error. error ≡ refusal.Memory) }
{
    let call = Call {
        operation_name,
        variables,
        introspection,
    };
    answer_call(alloc, Made::Nothing { schema, query }, &call, root, steps)
}

/// The response to a call over what was made of two texts, or the first cause of a refusal; where a cause holds its refusal comes,
/// unless memory fails. What was made before is not made again.
pub(crate) fn answer_call<O: ObjectValue, L: Ledger>(
    alloc: Global,
    made: Made<'_>,
    call: &Call<'_>,
    root: &O,
    steps: &mut Steps<L>,
) -> Result<Bytes, AnswerError>
    requires { IsMadeOfSome made }
    ensures answer { (schema query : List ℕ) → IsMadeOf schema query made.entry
        → GivesAnswer O.type_of O.resolves (O.seen root.now) (call_over schema query call.now) result }
    ensures answered { (schema query : List ℕ) → IsMadeOf schema query made.entry
        → IfOk result (AnswersWithin O.type_of O.resolves (O.seen root.now) (call_over schema query call.now) steps.old steps.new) }
{
    laws::causes_exclude_one_another();
    answer_or_refuse(alloc, made, call, root, steps)
}

/// The response, or the first cause of a refusal.
fn answer_or_refuse<O: ObjectValue, L: Ledger>(
    alloc: Global,
    made: Made<'_>,
    call: &Call<'_>,
    root: &O,
    steps: &mut Steps<L>,
) -> Result<Bytes, AnswerError>
    requires { IsMadeOfSome made }
    ensures answered { (schema query : List ℕ) → IsMadeOf schema query made.entry
        → IfOk result (AnswersWithin O.type_of O.resolves (O.seen root.now) (call_over schema query call.now) steps.old steps.new) }
    ensures refused { (schema query : List ℕ) → IsMadeOf schema query made.entry → IfErr result (HasCause (call_over schema query call.now)) }
{
    match read_variables(alloc, call.variables) {
        Ok(variables) => answer_wanted(alloc, made, call, &variables, root, steps),
        Err(refusal) => Err(refusal),
    }
}

/// The response where the variables have these values, or the first cause of a refusal.
fn answer_wanted<O: ObjectValue, L: Ledger>(
    alloc: Global,
    made: Made<'_>,
    call: &Call<'_>,
    variables: &Map,
    root: &O,
    steps: &mut Steps<L>,
) -> Result<Bytes, AnswerError>
    requires { IsMadeOfSome made }
    ensures { (schema query : List ℕ) → IsMadeOf schema query made.entry
        → OrCause (wanted_with (call_over schema query call.now) variables.now) (AnsweredWithin O.type_of O.resolves (O.seen root.now)
        (wanted_with (call_over schema query call.now) variables.now) steps.old steps.new) result }
{
    let wanted = Wanted {
        operation_name: call.operation_name,
        variables,
        introspection: call.introspection,
    };
    match respond_with(alloc, made, &wanted, root, steps) {
        Ok(written) => Ok(written.bytes),
        Err(refusal) => Err(refusal),
    }
}
